//! The initiator of one connection.
ghost use Rattle.std.specs.Prelude.{◌≡◌, ◌+◌, ◌≤◌, ◌⊎◌, ◌++◌, [], ◌<◌, IfOk, IsFalse, IsTrue, None, OnErr, OnOk, false, length, option_copied, true, List, ℕ};
ghost use Rattle.std.specs.List.{list_all};
ghost use Rattle.vf_initiator.specs.Asking.{associate as greeting_of};
ghost use Rattle.vf_initiator.specs.Assignments.{assignment_of, given_of, kept_pieces, way_in};
ghost use Rattle.vf_initiator.specs.Gathering.{started};
ghost use Rattle.vf_initiator.specs.Few.{AreFew, TakesOn};
ghost use Rattle.vf_initiator.specs.Rows.{is_over};
ghost use Rattle.vf_initiator.specs.Owed.{IsSameEnd, is_open as open_meant, LeadsAnswer, LeadsAnswers, LeadsGreeting, SaysAll, SaysOn, Sends, unless_ended, unless_spent};
ghost use Rattle.vf_initiator.specs.Represents.{Holds, IsSaid, Lags, Owes, Represents, TakesPiece, TakesWaiting};
ghost use Rattle.vf_initiator.specs.Says.{beginning, doing_in, elements_of};
ghost use Rattle.vf_initiator.specs.Talking.{AreSent, IsSent, Talk, begun};
ghost use Rattle.vf_session.specs.declared.units.TokenSide.TheVariants as sides;
ghost use Rattle.vf_stack.specs.Association.{Association, is_ended};
ghost use Rattle.vf_stack.specs.Pieces.{TellOnce};
ghost use Rattle.vf_stack.specs.Represents.{Represents as IsStackOf, offer_of, side_of};
ghost use Rattle.vf_tpkt.specs.Wanting.{lacking};
ghost use Rattle.vf_tpkt.specs.declared.limits.TheConstants.{MOST_PACKET_OCTETS};
ghost use Rattle.vf_tpkt.specs.Tpdu.{packet, request as connection_request};

use crate::conduct::{Agreed, Conduct, Setting};
use crate::gathered::Gathered;
use crate::given::Given;
use crate::heard::Heard;
use crate::progress::Progress;
use crate::requests::associate;
use crate::stage::Stage;
use crate::{Doing, Plan, TaskError};
use std::alloc::Global;
use std::collections::VecDeque;
use vf_base::{Elements, NoMemory};
use vf_stack::{Indication, Item, Request, Stack, few_octets_tell_last};
use vf_tables::{Changes, Task as KeptTask, Way};
use vf_tree::octets_of;

/// One connection gives at most so many octets.
const BUDGET: u64 = 1_073_741_824;

/// What stands around the octets of an element where it is sent; a long one may have more.
const AROUND_ELEMENT: usize = 64;

/// What the other requests of a transfer are sent in.
const AROUND_PDU: usize = 64;

/// The initiator of one connection: it says what its task wants (ISO 8571-3), and takes what the other end says to it.
pub struct Initiator {
    given: Given,
    stack: Stack,
    /// F-INITIALIZE, until it is sent.
    greeting: Option<Request>,
    conduct: Conduct,
    /// The requests that answer the last message and wait to be spelled; the stack is as before them.
    waiting: VecDeque<Request>,
    /// How many octets the connection gave.
    octets: u64,
}

impl Drop for Initiator {
    fn drop(self) {
        let Initiator {
            given,
            stack,
            greeting,
            conduct,
            waiting,
            octets: _,
        } = self;
        drop(given);
        drop(stack);
        drop(greeting);
        drop(conduct);
        drop(waiting);
    }
}

impl Initiator {
    /// Begins a task on a new connection, and appends the first octets to be sent. A task that is kept goes on; its kept
    /// identity, `every` and, of a put, elements then stand for those of the plan. A task with an activity that isn't kept
    /// is to be kept in state new before its first octet is sent. Without memory nothing is appended.
    pub fn begin(
        alloc: Global,
        plan: Plan,
        kept: Option<&KeptTask>,
        out: &mut Vec<u8>,
    ) -> Result<Initiator, NoMemory>
        ensures given { IfOk result (λ made. made.given ≡ given_of plan (option_copied kept.entry)) }
        ensures begun { IfOk result (λ made. Represents made (begun (greeting_of plan (assignment_of plan (option_copied kept.entry))) (beginning plan (option_copied kept.entry)))) }
        ensures sent { IfOk result (λ made. out.new.items ≡ out.old.items ++ packet connection_request) }
        ensures memory { OnErr result (out.new.items ≡ out.old.items) }
    {
        let conduct = conduct_of(alloc, &plan, kept)?;
        let given = Given::of(alloc, plan, kept)?;
        let greeting = associate(alloc, &given.plan, &given.assignment)?;
        let Ok(stack) = Stack::calling(alloc, given.assignment.activity.is_some(), out) else {
            drop(greeting);
            return Err(NoMemory);
        };
        Ok(Initiator {
            given,
            stack,
            greeting: Some(greeting),
            conduct,
            waiting: VecDeque::new(alloc),
            octets: 0,
        })
    }

    /// Takes the next octets of the connection, any number of them: appends the changes by which a store keeps the task, to be
    /// made before the octets are sent that are appended to `out`. Says how the task stands; where it isn't going on,
    /// nothing is taken and nothing is sent any more, and the connection is to be closed. Of octets that end a transfer and
    /// the task at once nothing that is concluded is ever kept, so whoever is to write the elements of a get before the task
    /// is dropped takes `wanted` octets at a time. Without memory nothing is appended to `out`, and the initiator and
    /// `changes` are only to be dropped.
    pub fn take(
        &mut self,
        alloc: Global,
        piece: &[u8],
        changes: &mut Changes,
        out: &mut Vec<u8>,
    ) -> Result<Doing, NoMemory>
        // Of every talk that the initiator represents.
        ensures taken { (talk : Talk) → Represents self.old talk → IfOk result (λ doing. TakesPiece self.old talk piece.now changes.old out.old.items self.new changes.new out.new.items doing) }
        ensures memory { OnErr result (out.new.items ≡ out.old.items) }
    {
        let mut sent = Vec::new(alloc);
        let doing = self.take_waiting(alloc, piece, changes, &mut sent)?;
        self.say_all(alloc, &mut sent)?;
        append_all(sent, out)?;
        Ok(doing)
    }

    /// The same, but the requests that answer the last message may wait: `say` spells them, and is called until none waits
    /// before anything else is asked of the initiator. So the first octets of a long answer may be sent while the others aren't
    /// spelled yet.
    pub fn take_waiting(
        &mut self,
        alloc: Global,
        piece: &[u8],
        changes: &mut Changes,
        out: &mut Vec<u8>,
    ) -> Result<Doing, NoMemory>
        // Of every talk that the initiator represents.
        ensures taken { (talk : Talk) → Represents self.old talk → IfOk result (λ doing. TakesWaiting self.old talk piece.now changes.old out.old.items self.new changes.new out.new.items doing) }
        ensures memory { OnErr result (out.new.items ≡ out.old.items) }
    {
        let mark = self.conduct.mark(&self.given);
        let mut sent = Vec::new(alloc);
        self.take_all(alloc, piece, &mut sent)?;
        self.conduct.put_changes(alloc, &self.given, mark, changes)?;
        append_all(sent, out)?;
        Ok(self.doing())
    }

    /// Spells requests that wait, one after another, until `out` has `most` octets or none waits; tells whether more wait.
    /// Without memory the initiator and `out` are only to be dropped.
    pub fn say(&mut self, alloc: Global, most: usize, out: &mut Vec<u8>) -> Result<bool, NoMemory>
        // Of every talk that is represented once these octets are spelled.
        ensures said { (talk : Talk) (rest : List ℕ) → Owes self.old talk rest → IfOk result (λ more. IsSaid self.old talk rest out.old.items self.new out.new.items more) }
        ensures full { IfOk result (λ more. IsTrue more → most ≤ length out.new.items) }
        ensures none { IfOk result (λ more. IsFalse more → self.new.waiting.items ≡ []) }
        ensures fewer { IfOk result (λ more. IsTrue more → length out.old.items < most → length self.new.waiting.items < length self.old.waiting.items) }
    {
        while !self.has_said(most, out) {
            self.say_next(alloc, out)?;
        }
        Ok(!self.waiting.is_empty())
    }

    /// How many octets of the connection may be taken so that they tell one thing at most, by the last of them: those that a
    /// packet (RFC 1006) still lacks, as far as is known. From 1 to 65,535.
    pub fn wanted(&self) -> usize
        ensures some { 1 ≤ result }
        ensures bound { result ≤ MOST_PACKET_OCTETS }
        ensures exact { result ≡ lacking self.now.stack.transport.packet }
        ensures once { (talk : Talk) (first second : List ℕ) → Represents self.now talk → length (first ++ second) ≤ result → TellOnce sides.Initiator talk.association first second }
    {
        self.stack.wanted()
    }

    /// The plan of `begin`.
    pub fn broke(self) -> Plan
        ensures { result ≡ self.given.plan }
    {
        let Initiator {
            given,
            stack,
            greeting,
            conduct,
            waiting,
            octets: _,
        } = self;
        drop(stack);
        drop(greeting);
        drop(conduct);
        drop(waiting);
        given.into_plan()
    }

    /// What a get has received; nothing is what a put has.
    pub fn elements(&self) -> &Elements
        ensures all { (talk : Talk) → Represents self.now talk → result.now ≡ elements_of talk.conduct }
        ensures owed { (talk : Talk) (rest : List ℕ) → Owes self.now talk rest → result.now ≡ elements_of talk.conduct }
    {
        self.conduct.gathered.elements()
    }

    /// How the task stands.
    fn doing(&self) -> Doing
        ensures { result ≡ doing_in self.now.conduct.stage }
    {
        match self.conduct.stage {
            Stage::Over(doing) => doing,
            _ => Doing::Going,
        }
    }

    /// Takes octets, so few at a time that they tell one thing at most, until the task doesn't go on.
    fn take_all(&mut self, alloc: Global, piece: &[u8], out: &mut Vec<u8>) -> Result<(), NoMemory>
        ensures { (talk : Talk) → Represents self.old talk → OnOk result (TakesOn self.old talk piece.now out.old.items self.new out.new.items) }
    {
        let mut rest = piece;
        while !self.is_done(rest) {
            self.say_all(alloc, out)?;
            let (front, more) = rest.split_at(self.next_length(rest));
            self.take_few(alloc, front, out)?;
            rest = more;
        }
        Ok(())
    }

    /// None waits, or the octets are as many.
    fn has_said(&self, most: usize, out: &Vec<u8>) -> bool
        ensures done { IsTrue result → (self.now.waiting.items ≡ []) ⊎ (most ≤ length out.now.items) }
        ensures more { IsFalse result → 0 < length self.now.waiting.items }
    {
        self.waiting.is_empty() || out.len() >= most
    }

    /// Spells all that waits.
    fn say_all(&mut self, alloc: Global, out: &mut Vec<u8>) -> Result<(), NoMemory>
        ensures said { (talk : Talk) (rest : List ℕ) → Lags self.old talk rest → OnOk result (SaysAll self.old talk rest out.old.items self.new out.new.items) }
        ensures none { OnOk result (self.new.waiting.items ≡ []) }
    {
        while !self.waiting.is_empty() {
            self.say_next(alloc, out)?;
        }
        Ok(())
    }

    /// Spells the next request that waits, where it may be sent.
    fn say_next(&mut self, alloc: Global, out: &mut Vec<u8>) -> Result<(), NoMemory>
        requires { 0 < length self.old.waiting.items }
        ensures said { (talk : Talk) (rest : List ℕ) → Lags self.old talk rest → OnOk result (SaysOn self.old talk rest out.old.items self.new out.new.items) }
        ensures fewer { OnOk result (length self.new.waiting.items + 1 ≡ length self.old.waiting.items) }
    {
        let Some(request) = self.waiting.pop_front() else {
            return Ok(());
        };
        send_one(alloc, &mut self.stack, &request, out)
    }

    /// Nothing is left to be taken, or nothing is taken any more.
    fn is_done(&self, rest: &[u8]) -> bool
        ensures done { IsTrue result → (length rest.now ≡ 0) ⊎ (is_over self.now.conduct.stage ≡ true) }
        ensures more { IsFalse result → 1 ≤ length rest.now }
        ensures goes { IsFalse result → is_over self.now.conduct.stage ≡ false }
    {
        rest.is_empty() || self.conduct.is_over()
    }

    /// How many of the octets that are left are taken at once: so few that they tell one thing at most, and within the
    /// budget. While F-INITIALIZE waits it is one, since the end of the CC tells nothing and yet lets it be sent.
    fn next_length(&self, rest: &[u8]) -> usize
        requires { 1 ≤ length rest.now }
        ensures some { 1 ≤ result }
        ensures within { result ≤ length rest.now }
        ensures few { (result ≡ 1) ⊎ ((self.now.greeting ≡ None) × (result ≤ lacking self.now.stack.transport.packet) × (self.now.octets + result ≤ 1073741824)) }
    {
        if self.greeting.is_some() || self.octets >= BUDGET {
            return 1;
        }
        let left = BUDGET - self.octets;
        let few = self.stack.wanted().min(rest.len());
        if few as u64 <= left {
            few
        } else {
            left as usize
        }
    }

    /// Takes so few octets that they tell one thing at most.
    fn take_few(&mut self, alloc: Global, piece: &[u8], out: &mut Vec<u8>) -> Result<(), NoMemory>
        requires some { 1 ≤ length piece.now }
        requires few { AreFew self.old piece.now }
        ensures { (talk : Talk) → Represents self.old talk → is_over talk.conduct.stage ≡ false → OnOk result (TakesOn self.old talk piece.now out.old.items self.new out.new.items) }
    {
        few_octets_tell_last();
        let mut told = Vec::new(alloc);
        self.stack.feed(piece, &mut told, out)?;
        self.octets = self.octets.saturating_add(piece.len() as u64);
        self.greet(alloc, out)?;
        self.hear_all(alloc, told, out)?;
        self.look();
        Ok(())
    }

    /// Sends F-INITIALIZE as soon as it may be sent, which is once transport stands.
    fn greet(&mut self, alloc: Global, out: &mut Vec<u8>) -> Result<(), NoMemory>
        // Of every talk that the initiator represents.
        ensures greets { (talk : Talk) → Holds self.old talk → OnOk result (LeadsGreeting self.old talk out.old.items self.new out.new.items) }
        ensures waits { self.new.waiting.items ≡ self.old.waiting.items }
    {
        let Some(request) = &self.greeting else {
            return Ok(());
        };
        if !self.stack.may(request) {
            return Ok(());
        }
        self.stack.send(alloc, request, out)?;
        self.greeting = None;
        Ok(())
    }

    /// Takes messages, and sends what is to be said to them; of the last one it may wait.
    fn hear_all(
        &mut self,
        alloc: Global,
        told: Vec<Indication>,
        out: &mut Vec<u8>,
    ) -> Result<(), NoMemory>
        ensures { (talk : Talk) → Holds self.old talk → self.old.waiting.items ≡ [] → OnOk result (LeadsAnswers self.old talk told.items out.old.items self.new out.new.items) }
    {
        for indication in told {
            self.say_all(alloc, out)?;
            self.hear(alloc, indication, out)?;
        }
        Ok(())
    }

    /// Takes a message, and sends what is to be said to it. Data and checks, which don't end the association, wait.
    fn hear(
        &mut self,
        alloc: Global,
        indication: Indication,
        out: &mut Vec<u8>,
    ) -> Result<(), NoMemory>
        ensures { (talk : Talk) → Holds self.old talk → self.old.waiting.items ≡ [] → OnOk result (LeadsAnswer self.old talk indication out.old.items self.new out.new.items) }
    {
        let setting = Setting {
            serial: self.stack.next_serial(),
            token: self.stack.token(),
        };
        let heard = Heard::of(indication);
        let mut said = Vec::new(alloc);
        self.conduct
            .hear(alloc, &self.given, setting, heard, &mut said)?;
        if may_wait(said.as_slice()) {
            self.waiting = VecDeque::from_vec(said);
            return Ok(());
        }
        send_all(alloc, &mut self.stack, said.as_slice(), out)
    }

    /// A connection that the other end released without a word, and one that gave as much as it may.
    fn look(&mut self)
        ensures { self.new ≡ record self.old { conduct = unless_spent self.old.octets (unless_ended (is_ended self.old.stack.exchange.ending) self.old.conduct) } }
    {
        self.look_at_end();
        self.look_at_budget();
    }

    fn look_at_end(&mut self)
        ensures { self.new ≡ record self.old { conduct = unless_ended (is_ended self.old.stack.exchange.ending) self.old.conduct } }
    {
        if !self.conduct.is_over() && self.stack.ended() {
            self.conduct.end_out_of_place();
        }
    }

    fn look_at_budget(&mut self)
        ensures { self.new ≡ record self.old { conduct = unless_spent self.old.octets self.old.conduct } }
    {
        if !self.conduct.is_over() && self.octets >= BUDGET {
            self.conduct.end(Doing::Failed(TaskError::Budget));
        }
    }
}

/// The pieces of a get that is kept.
fn gathered_of(alloc: Global, plan: &Plan, kept: Option<&KeptTask>) -> Result<Gathered, NoMemory>
    ensures { IfOk result (λ made. made ≡ started (kept_pieces (way_in plan.now.task) (option_copied kept.entry))) }
{
    if plan.task.way() == Way::Put {
        return Gathered::of(alloc, &[]);
    }
    match kept {
        None => Gathered::of(alloc, &[]),
        Some(task) => Gathered::of(alloc, task.staged.as_slice()),
    }
}

/// How an initiator stands before it has heard anything.
fn conduct_of(alloc: Global, plan: &Plan, kept: Option<&KeptTask>) -> Result<Conduct, NoMemory>
    ensures { IfOk result (λ made. made ≡ beginning plan.now (option_copied kept.entry)) }
{
    let gathered = gathered_of(alloc, plan, kept)?;
    Ok(Conduct {
        stage: Stage::Associating,
        progress: Progress::of(kept),
        gathered,
        agreed: Agreed {
            checks: false,
            window: 1,
        },
        good: 0,
    })
}

/// Appends octets; where there are none yet they aren't copied.
fn append_all(octets: Vec<u8>, out: &mut Vec<u8>) -> Result<(), NoMemory>
    ensures all { OnOk result (out.new.items ≡ out.old.items ++ octets.items) }
    ensures memory { OnErr result (out.new.items ≡ out.old.items) }
{
    if out.is_empty() {
        *out = octets;
        return Ok(());
    }
    out.extend_from_slice(octets.as_slice())?;
    Ok(())
}

/// Data or a check.
fn is_open(request: &Request) -> bool
    ensures { result ≡ open_meant request.now }
{
    match request {
        Request::Item(_) => true,
        Request::Check { .. } => true,
        _ => false,
    }
}

/// They are data and checks alone.
fn may_wait(requests: &[Request]) -> bool
    ensures { result ≡ list_all open_meant requests.now }
{
    requests.iter().all(|request| is_open(request))
}

/// About how many octets a request is sent in. No promise rests on it: where it has more, the room for it grows.
fn room_of(request: &Request) -> usize {
    match request {
        Request::Item(Item::Element(element)) => {
            (octets_of(element) as usize).saturating_add(AROUND_ELEMENT)
        }
        _ => AROUND_PDU,
    }
}

/// About how many octets requests are sent in.
fn room_for(requests: &[Request]) -> usize {
    let mut room: usize = 0;
    for request in requests {
        room = room.saturating_add(room_of(request));
    }
    room
}

/// Makes the room for what requests are sent in, so that what stands isn't moved as it grows.
fn make_room(requests: &[Request], out: &mut Vec<u8>) -> Result<(), NoMemory>
    ensures { out.new.items ≡ out.old.items }
{
    out.reserve(room_for(requests))?;
    Ok(())
}

/// Sends requests in their order, each where it may be sent.
fn send_all(
    alloc: Global,
    stack: &mut Stack,
    requests: &[Request],
    out: &mut Vec<u8>,
) -> Result<(), NoMemory>
    // Of every association that the stack represents.
    ensures sent { (a : Association) → IsStackOf stack.old a → side_of stack.old ≡ sides.Initiator → OnOk result (Sends (AreSent (offer_of stack.old) a requests.now) out.old.items stack.new out.new.items) }
    ensures end { IsSameEnd stack.old stack.new }
{
    make_room(requests, out)?;
    send_each(alloc, stack, requests, out)
}

fn send_each(
    alloc: Global,
    stack: &mut Stack,
    requests: &[Request],
    out: &mut Vec<u8>,
) -> Result<(), NoMemory>
    ensures sent { (a : Association) → IsStackOf stack.old a → side_of stack.old ≡ sides.Initiator → OnOk result (Sends (AreSent (offer_of stack.old) a requests.now) out.old.items stack.new out.new.items) }
    ensures end { IsSameEnd stack.old stack.new }
{
    for request in requests {
        send_one(alloc, stack, request, out)?;
    }
    Ok(())
}

/// Sends a request where it may be sent.
fn send_one(
    alloc: Global,
    stack: &mut Stack,
    request: &Request,
    out: &mut Vec<u8>,
) -> Result<(), NoMemory>
    ensures sent { (a : Association) → IsStackOf stack.old a → side_of stack.old ≡ sides.Initiator → OnOk result (Sends (IsSent (offer_of stack.old) a request.now) out.old.items stack.new out.new.items) }
    ensures end { IsSameEnd stack.old stack.new }
{
    if !stack.may(request) {
        return Ok(());
    }
    stack.send(alloc, request, out)
}
