//! The other end of a link of the responder.
ghost use Rattle.std.specs.Prelude.{◌≡◌, ◌∷◌, [], IfErr, IfOk, OnOk};
ghost use Rattle.vf_base.specs.declared.events.ScriptEvent.TheVariants as events;
ghost use Rattle.vf_cli_generate.specs.Generating.{Both, Goes, HasArrived, HasSaid, IsCalling, SaysFront, after_event, hears};
ghost use Rattle.vf_journal.specs.declared.error.JournalError.TheVariants as errors;
ghost use Rattle.vf_responder.specs.Full.{FullAlong};
ghost use Rattle.vf_responder.specs.Represents.{AnswerCauses, KeepsAlong, Represents};
ghost use Rattle.vf_responder.specs.Run.{trail};
ghost use Rattle.vf_responder.specs.Serving.{Serving};
ghost use Rattle.vf_stack.specs.Association.{Association, beginning};
ghost use Rattle.vf_store.specs.StoreState.{IsRepresented};
ghost use Rattle.vf_tpkt.specs.Tpdu.{packet, request};

use std::alloc::Global;
use vf_base::{Moment, NoMemory};
use vf_disk::Disk;
use vf_responder::{Event, Reply, RespondError, Responder};
use vf_stack::{Request, Stack};

/// A calling end on a link, which hears what the responder says before it sends more.
#[derive(Drop)]
pub(crate) struct Peer {
    link: u32,
    stack: Stack,
}

/// The first moment.
fn first_moment() -> Moment
    ensures { result ≡ 0 }
{
    let Ok(moment) = Moment::of(0) else {
        unreachable!()
    };
    moment
}

/// A calling end that doesn't propose sync, and its CR.
fn calling(alloc: Global, greeting: &mut Vec<u8>) -> Result<Stack, RespondError>
    requires { greeting.old.items ≡ [] }
    ensures ok { IfOk result (λ stack. IsCalling stack beginning) }
    ensures greeting { OnOk result (greeting.new.items ≡ packet request) }
    ensures cause { IfErr result (λ error. error ≡ errors.NoMemory) }
{
    match Stack::calling(alloc, false, greeting) {
        Ok(stack) => Ok(stack),
        Err(NoMemory) => Err(RespondError::NoMemory),
    }
}

impl Peer {
    /// What the responder says is heard.
    fn hear_all(&mut self, alloc: Global, replies: &[Reply]) -> Result<(), NoMemory>
        ensures hears { (calling : Association) → IsCalling self.old.stack calling → OnOk result (IsCalling self.new.stack (hears calling replies.now)) }
        ensures link { self.new.link ≡ self.old.link }
    {
        for reply in replies {
            let mut told = Vec::new(alloc);
            let mut answers = Vec::new(alloc);
            let octets = reply.octets.to_vec(alloc)?;
            self.stack.feed(octets.as_slice(), &mut told, &mut answers)?;
        }
        Ok(())
    }

    /// The same, where want of memory is one of the responder's errors.
    fn hear(&mut self, alloc: Global, replies: &[Reply]) -> Result<(), RespondError>
        ensures hears { (calling : Association) → IsCalling self.old.stack calling → OnOk result (IsCalling self.new.stack (hears calling replies.now)) }
        ensures cause { IfErr result (λ error. error ≡ errors.NoMemory) }
        ensures link { self.new.link ≡ self.old.link }
    {
        match self.hear_all(alloc, replies) {
            Ok(()) => Ok(()),
            Err(NoMemory) => Err(RespondError::NoMemory),
        }
    }

    /// The link comes to the responder.
    fn come<D: Disk>(
        &mut self,
        alloc: Global,
        responder: &mut Responder<D>,
    ) -> Result<(), RespondError>
        ensures heard { (both : Both) → Represents responder.old both.serving → OnOk result (Represents responder.new (after_event (events.Arrived self.old.link) both).serving) }
        ensures hears { (both : Both) → Represents responder.old both.serving → IsCalling self.old.stack both.calling
            → OnOk result (IsCalling self.new.stack (after_event (events.Arrived self.old.link) both).calling) }
        ensures represented { (serving : Serving) → Represents responder.old serving → IsRepresented D.shown D.may_leave responder.old.store → OnOk result (IsRepresented D.shown D.may_leave responder.new.store) }
        ensures any_moment { KeepsAlong (trail (events.Arrived self.old.link)) D.shown D.may_leave D.moment D.left_since responder.old responder.new }
        ensures full { FullAlong (trail (events.Arrived self.old.link)) responder.old responder.new.store result }
        ensures causes { AnswerCauses responder.old.store.journal.limit (D.fault_count responder.old.store.disk) (D.fault_count responder.new.store.disk) result }
        ensures limit { responder.new.store.journal.limit ≡ responder.old.store.journal.limit }
        ensures link { self.new.link ≡ self.old.link }
    {
        let mut replies = Vec::new(alloc);
        responder.deliver(alloc, Event::Arrived { link: self.link }, &mut replies)?;
        self.hear(alloc, replies.as_slice())
    }

    /// Octets come to the responder.
    fn send<D: Disk>(
        &mut self,
        alloc: Global,
        octets: &[u8],
        responder: &mut Responder<D>,
    ) -> Result<(), RespondError>
        ensures heard { (both : Both) → Represents responder.old both.serving → OnOk result (Represents responder.new (after_event (events.Octets self.old.link 0 octets.now) both).serving) }
        ensures hears { (both : Both) → Represents responder.old both.serving → IsCalling self.old.stack both.calling
            → OnOk result (IsCalling self.new.stack (after_event (events.Octets self.old.link 0 octets.now) both).calling) }
        ensures represented { (serving : Serving) → Represents responder.old serving → IsRepresented D.shown D.may_leave responder.old.store → OnOk result (IsRepresented D.shown D.may_leave responder.new.store) }
        ensures any_moment { KeepsAlong (trail (events.Octets self.old.link 0 octets.now)) D.shown D.may_leave D.moment D.left_since responder.old responder.new }
        ensures full { FullAlong (trail (events.Octets self.old.link 0 octets.now)) responder.old responder.new.store result }
        ensures causes { AnswerCauses responder.old.store.journal.limit (D.fault_count responder.old.store.disk) (D.fault_count responder.new.store.disk) result }
        ensures limit { responder.new.store.journal.limit ≡ responder.old.store.journal.limit }
        ensures link { self.new.link ≡ self.old.link }
    {
        let mut replies = Vec::new(alloc);
        responder.deliver(
            alloc,
            Event::Octets {
                link: self.link,
                moment: first_moment(),
                octets,
            },
            &mut replies,
        )?;
        self.hear(alloc, replies.as_slice())
    }

    /// A link arrives, and transport is connected.
    pub(crate) fn arrive<D: Disk>(
        alloc: Global,
        link: u32,
        responder: &mut Responder<D>,
    ) -> Result<Peer, RespondError>
        ensures arrives { (serving : Serving) → Represents responder.old serving → IsRepresented D.shown D.may_leave responder.old.store
            → HasArrived D.shown D.may_leave D.moment D.left_since link serving responder.old responder.new result }
        ensures causes { AnswerCauses responder.old.store.journal.limit (D.fault_count responder.old.store.disk) (D.fault_count responder.new.store.disk) result }
        ensures limit { responder.new.store.journal.limit ≡ responder.old.store.journal.limit }
    {
        let mut greeting = Vec::new(alloc);
        let stack = match calling(alloc, &mut greeting) {
            Ok(stack) => stack,
            Err(error) => return Err(error),
        };
        let mut peer = Peer { link, stack };
        match peer.come(alloc, responder) {
            Ok(()) => {}
            Err(error) => return Err(error),
        }
        match peer.send(alloc, greeting.as_slice(), responder) {
            Ok(()) => {}
            Err(error) => return Err(error),
        }
        Ok(peer)
    }

    /// Says a request, where it may be said, and hears the answer.
    fn say<D: Disk>(
        &mut self,
        alloc: Global,
        request: &Request,
        responder: &mut Responder<D>,
    ) -> Result<(), RespondError>
        ensures says { (both : Both) → Represents responder.old both.serving → IsCalling self.old.stack both.calling → IsRepresented D.shown D.may_leave responder.old.store
            → Goes D.shown D.may_leave D.moment D.left_since (HasSaid self.old.link (request.now ∷ []) both self.new.stack) (SaysFront self.old.link (request.now ∷ []) both) both.serving
            responder.old responder.new result }
        ensures causes { AnswerCauses responder.old.store.journal.limit (D.fault_count responder.old.store.disk) (D.fault_count responder.new.store.disk) result }
        ensures limit { responder.new.store.journal.limit ≡ responder.old.store.journal.limit }
        ensures link { self.new.link ≡ self.old.link }
    {
        if !self.stack.may(request) {
            return Ok(());
        }
        let mut octets = Vec::new(alloc);
        if self.stack.send(alloc, request, &mut octets).is_err() {
            return Err(RespondError::NoMemory);
        }
        self.send(alloc, octets.as_slice(), responder)
    }

    /// Says requests, one after another.
    pub(crate) fn say_all<D: Disk>(
        &mut self,
        alloc: Global,
        requests: &[Request],
        responder: &mut Responder<D>,
    ) -> Result<(), RespondError>
        ensures says { (both : Both) → Represents responder.old both.serving → IsCalling self.old.stack both.calling → IsRepresented D.shown D.may_leave responder.old.store
            → Goes D.shown D.may_leave D.moment D.left_since (HasSaid self.old.link requests.now both self.new.stack) (SaysFront self.old.link requests.now both) both.serving
            responder.old responder.new result }
        ensures causes { AnswerCauses responder.old.store.journal.limit (D.fault_count responder.old.store.disk) (D.fault_count responder.new.store.disk) result }
        ensures limit { responder.new.store.journal.limit ≡ responder.old.store.journal.limit }
    {
        for request in requests {
            match self.say(alloc, request, responder) {
                Ok(()) => {}
                Err(error) => return Err(error),
            }
        }
        Ok(())
    }
}
