//! Serving links from one store.
ghost use Rattle.std.specs.Prelude.{◌≡◌, ◌+◌, ◌++◌, ◌∷◌, ◌<◌, ◌≤◌, ℕ, [], List, None, Some, IfErr, IfOk, OnOk, length, vec_capacity};
ghost use Rattle.std.specs.List.{AllByRecursion};
ghost use Rattle.vf_base.specs.Links.{Traffic, event_of};
ghost use Rattle.vf_base.specs.declared.events.LinkEvent.TheVariants as events;
ghost use Rattle.vf_journal.specs.declared.error.JournalError.TheVariants as errors;
ghost use Rattle.vf_responder.specs.Answers.{at_end, spoken_in};
ghost use Rattle.vf_responder.specs.Full.{FullAlong};
ghost use Rattle.vf_responder.specs.Represents.{AnswerCauses, Does, KeepsAlong, Represents};
ghost use Rattle.vf_responder.specs.Run.{run, trail};
ghost use Rattle.vf_responder.specs.Sends.{CausesNext, EndsRound, IsEventNext, IsFresh, RisesNext, SendsAll, SendsReply, TakesNext, Tries, TurnsNext, breaks, is_due as due_test, is_lost as lost_test};
ghost use Rattle.vf_store.specs.StoreState.{IsRepresented};
ghost use Rattle.vf_base.specs.declared.events.ScriptEvent.TheVariants.{Ended};
ghost use Rattle.vf_base.specs.declared.events.ScriptEvent.{ScriptEvent};
ghost use Rattle.vf_disk.specs.Disk.{LeavesOnly};
ghost use Rattle.vf_responder.specs.Served.{IsFullBy, IsFullOn, IsThrough, KeepsAnswered, Refuses, RepresentsServed, ServeCauses, Serves, WhereServedFull, counts_of, refused_in, untold};
ghost use Rattle.vf_responder.specs.Serving.{IsBegun, Serving};
ghost use Rattle.vf_store.specs.Represented.{Represents as ImageRepresents};
ghost use Rattle.vf_tables.specs.declared.tables.Tables.{Tables as TablesMeant};

use crate::error::ServeError;
use crate::event::{Event, Reply};
use crate::responder::Responder;
use crate::sending::send_octets;
use std::alloc::Global;
use vf_base::{LinkEvent, LinkFault, Links};
use vf_disk::Disk;
use vf_store::StoreError;

/// How much was served; counts stand still at their type's end.
#[derive(Clone, Copy, PartialEq, Eq)]
pub struct Served {
    /// How many links arrived.
    pub links: u64,
    /// How many events there were, arrivals among them.
    pub events: u64,
}

/// Serves links from the store on a disk until they are through. What is said to an event is sent once all of it is on the
/// disk. A send that fails breaks its link alone. The disk is given back.
pub fn serve<L: Links, D: Disk>(
    alloc: Global,
    links: &mut L,
    disk: D,
    limit: u64,
) -> (D, Result<Served, ServeError>)
    ensures serves { (left : List ScriptEvent) (image : List ℕ) (tables : TablesMeant) (serving : Serving) → L.told links.old ≡ Some (untold left) → D.shown disk ≡ Some image
        → ImageRepresents image tables → IsBegun tables serving → Serves D.shown D.may_leave serving result.0 result.1 (L.told links.new) }
    ensures any_moment { (left : List ScriptEvent) (image : List ℕ) (tables : TablesMeant) (serving : Serving) → L.told links.old ≡ Some (untold left) → D.shown disk ≡ Some image
        → ImageRepresents image tables → ((image : List ℕ) → D.may_leave disk image → ImageRepresents image tables) → IsBegun tables serving
        → LeavesOnly D.moment D.left_since disk result.0 (RepresentsServed serving (L.told links.new)) }
    ensures keeps { (left : List ScriptEvent) (image : List ℕ) (tables : TablesMeant) (serving : Serving) → L.told links.old ≡ Some (untold left) → D.shown disk ≡ Some image
        → ImageRepresents image tables → ((image : List ℕ) → D.may_leave disk image → ImageRepresents image tables) → IsBegun tables serving
        → KeepsAnswered D.may_leave serving result.0 result.1 (L.told links.new) }
    ensures full { (left : List ScriptEvent) (image : List ℕ) (tables : TablesMeant) (serving : Serving) → L.told links.old ≡ Some (untold left) → D.shown disk ≡ Some image
        → ImageRepresents image tables → IsBegun tables serving → WhereServedFull result.1 (IsFullOn D.size limit serving result.0 (L.told links.new)) }
    ensures refuses { (image : List ℕ) → D.shown disk ≡ Some image → Refuses image result.1 }
    ensures ends { IfOk result.1 (λ served. IsThrough (L.turns links.new) (L.through links.new)) }
    ensures causes { ServeCauses limit (D.fault_count disk) (D.fault_count result.0) (L.fault_count links.old) (L.fault_count links.new) result.1 }
{
    match Responder::open(alloc, disk, limit) {
        Ok(responder) => {
            let mut responder = responder;
            let served = serve_all(alloc, links, &mut responder);
            responder.lies_within();
            (responder.close(), served)
        }
        Err((disk, error)) => (disk, Err(ServeError::Respond(error))),
    }
}

/// Serves links until they are through.
fn serve_all<L: Links, D: Disk>(
    alloc: Global,
    links: &mut L,
    responder: &mut Responder<D>,
) -> Result<Served, ServeError>
    ensures serves { (left : List ScriptEvent) (serving : Serving) → L.told links.old ≡ Some (untold left) → Represents responder.old serving → serving.filestore.parties ≡ []
        → IsRepresented D.shown D.may_leave responder.old.store → Serves D.shown D.may_leave serving responder.new.store.disk result (L.told links.new) }
    ensures any_moment { (left : List ScriptEvent) (serving : Serving) → L.told links.old ≡ Some (untold left) → Represents responder.old serving → serving.filestore.parties ≡ []
        → IsRepresented D.shown D.may_leave responder.old.store
        → LeavesOnly D.moment D.left_since responder.old.store.disk responder.new.store.disk (RepresentsServed serving (L.told links.new)) }
    ensures keeps { (left : List ScriptEvent) (serving : Serving) → L.told links.old ≡ Some (untold left) → Represents responder.old serving → serving.filestore.parties ≡ []
        → IsRepresented D.shown D.may_leave responder.old.store → KeepsAnswered D.may_leave serving responder.new.store.disk result (L.told links.new) }
    ensures full { (left : List ScriptEvent) (serving : Serving) → L.told links.old ≡ Some (untold left) → Represents responder.old serving → serving.filestore.parties ≡ []
        → WhereServedFull result (IsFullBy serving responder.new.store (L.told links.new)) }
    ensures limit { responder.new.store.journal.limit ≡ responder.old.store.journal.limit }
    ensures refuses { refused_in result ≡ None }
    ensures ends { IfOk result (λ served. IsThrough (L.turns links.new) (L.through links.new)) }
    ensures causes { ServeCauses responder.old.store.journal.limit (D.fault_count responder.old.store.disk) (D.fault_count responder.new.store.disk) (L.fault_count links.old) (L.fault_count links.new) result }
{
    let mut piece = Vec::new(alloc);
    let mut served = Served {
        links: 0,
        events: 0,
    };
    'events: loop {
        let next = next_event(alloc, links, &mut piece)?;
        let Some(event) = next else {
            return Ok(served);
        };
        served.count(&event);
        round(alloc, links, responder, event, piece.as_slice())?;
    }
}

/// The next event of the links, beside its octets; none where they are through.
fn next_event<L: Links>(
    alloc: Global,
    links: &mut L,
    piece: &mut Vec<u8>,
) -> Result<Option<LinkEvent>, ServeError>
    ensures traffic { TakesNext (L.told links.old) (L.told links.new) piece.new.items result }
    ensures link { RisesNext (L.last_link links.old) (L.last_link links.new) result }
    ensures turns { TurnsNext (L.turns links.old) (L.turns links.new) (L.through links.new) result }
    ensures event { IsEventNext result }
    ensures causes { CausesNext (L.fault_count links.old) (L.fault_count links.new) result }
{
    match links.next(alloc, piece) {
        Ok(LinkEvent::Done) => Ok(None),
        Ok(event) => Ok(Some(event)),
        Err(LinkFault::Failed) => Err(ServeError::LinksFault),
        Err(LinkFault::NoMemory) => Err(ServeError::NoMemory),
    }
}

impl Served {
    /// Counts an event.
    fn count(&mut self, event: &LinkEvent)
        ensures { (piece : List ℕ) (meant : ScriptEvent) (events : List ScriptEvent) → event_of event.now piece ≡ Some meant → self.old ≡ counts_of events → self.new ≡ counts_of (events ++ meant ∷ []) }
    {
        let arrived = match event {
            LinkEvent::Arrived { .. } => 1,
            LinkEvent::Octets { .. } => 0,
            LinkEvent::Ended { .. } => 0,
            LinkEvent::Done => 0,
        };
        self.links = self.links.saturating_add(arrived);
        self.events = self.events.saturating_add(1);
    }
}

/// An event, its replies, and the ends of the links on which a send failed. Where the responder can't go on nothing is sent.
fn round<L: Links, D: Disk>(
    alloc: Global,
    links: &mut L,
    responder: &mut Responder<D>,
    event: LinkEvent,
    piece: &[u8],
) -> Result<(), StoreError>
    requires { (event ≡ events.Done) → ⊥ }
    ensures round { (meant : ScriptEvent) (traffic : Traffic) (serving : Serving) → event_of event piece.now ≡ Some meant → L.told links.old ≡ Some traffic → Represents responder.old serving
        → AllByRecursion (IsFresh traffic) (spoken_in (trail meant serving))
        → EndsRound D.shown D.may_leave D.moment D.left_since meant serving responder.old responder.new traffic (L.told links.new) result }
    ensures full { (meant : ScriptEvent) → event_of event piece.now ≡ Some meant → FullAlong (trail meant) responder.old responder.new.store result }
    ensures causes { AnswerCauses responder.old.store.journal.limit (D.fault_count responder.old.store.disk) (D.fault_count responder.new.store.disk) result }
    ensures limit { responder.new.store.journal.limit ≡ responder.old.store.journal.limit }
    ensures link { L.last_link links.new ≡ L.last_link links.old }
    ensures turns { L.turns links.new ≡ L.turns links.old }
    ensures count { L.fault_count links.new ≡ L.fault_count links.old }
{
    let mut replies = Vec::new(alloc);
    answer(alloc, responder, event, piece, &mut replies)?;
    let mut lost = room_for(alloc, replies.len())?;
    send_all(alloc, links, replies.as_slice(), &mut lost);
    end_all(alloc, responder, lost.as_slice());
    Ok(())
}

/// The responder answers an event of the links, with the octets that came.
fn answer<D: Disk>(
    alloc: Global,
    responder: &mut Responder<D>,
    event: LinkEvent,
    piece: &[u8],
    replies: &mut Vec<Reply>,
) -> Result<(), StoreError>
    requires { (event ≡ events.Done) → ⊥ }
    ensures answers { (meant : ScriptEvent) → event_of event piece.now ≡ Some meant → OnOk result (Does (trail meant) responder.old replies.old.items responder.new replies.new.items) }
    ensures represented { (serving : Serving) → Represents responder.old serving → IsRepresented D.shown D.may_leave responder.old.store → OnOk result (IsRepresented D.shown D.may_leave responder.new.store) }
    ensures any_moment { (meant : ScriptEvent) → event_of event piece.now ≡ Some meant → KeepsAlong (trail meant) D.shown D.may_leave D.moment D.left_since responder.old responder.new }
    ensures full { (meant : ScriptEvent) → event_of event piece.now ≡ Some meant → FullAlong (trail meant) responder.old responder.new.store result }
    ensures causes { AnswerCauses responder.old.store.journal.limit (D.fault_count responder.old.store.disk) (D.fault_count responder.new.store.disk) result }
    ensures limit { responder.new.store.journal.limit ≡ responder.old.store.journal.limit }
{
    match event {
        LinkEvent::Arrived { link } => responder.deliver(alloc, Event::Arrived { link }, replies),
        LinkEvent::Octets { link, moment } => responder.deliver(
            alloc,
            Event::Octets {
                link,
                moment,
                octets: piece,
            },
            replies,
        ),
        LinkEvent::Ended { link } => responder.deliver(alloc, Event::Ended { link }, replies),
        LinkEvent::Done => unreachable!(),
    }
}

/// Room for so many links.
fn room_for(alloc: Global, count: usize) -> Result<Vec<u32>, StoreError>
    ensures none { IfOk result (λ room. room.items ≡ []) }
    ensures room { IfOk result (λ room. count ≤ vec_capacity room) }
    ensures cause { IfErr result (λ error. error ≡ errors.NoMemory) }
{
    match Vec::with_capacity(alloc, count) {
        Ok(room) => Ok(room),
        Err(_) => Err(StoreError::NoMemory),
    }
}

/// Ends links, on which nothing is said.
fn end_all<D: Disk>(alloc: Global, responder: &mut Responder<D>, lost: &[u32])
    ensures answers { (serving : Serving) → Represents responder.old serving → Represents responder.new (at_end serving (run (breaks lost.now) serving)) }
    ensures represented { (serving : Serving) → Represents responder.old serving → IsRepresented D.shown D.may_leave responder.old.store → IsRepresented D.shown D.may_leave responder.new.store }
    ensures any_moment { KeepsAlong (run (breaks lost.now)) D.shown D.may_leave D.moment D.left_since responder.old responder.new }
    ensures count { D.fault_count responder.new.store.disk ≡ D.fault_count responder.old.store.disk }
    ensures limit { responder.new.store.journal.limit ≡ responder.old.store.journal.limit }
{
    for link in lost {
        end(alloc, responder, *link);
    }
}

fn end<D: Disk>(alloc: Global, responder: &mut Responder<D>, link: u32)
    ensures answers { (serving : Serving) → Represents responder.old serving → Represents responder.new (at_end serving (trail (Ended link) serving)) }
    ensures represented { (serving : Serving) → Represents responder.old serving → IsRepresented D.shown D.may_leave responder.old.store → IsRepresented D.shown D.may_leave responder.new.store }
    ensures any_moment { KeepsAlong (trail (Ended link)) D.shown D.may_leave D.moment D.left_since responder.old responder.new }
    ensures count { D.fault_count responder.new.store.disk ≡ D.fault_count responder.old.store.disk }
    ensures limit { responder.new.store.journal.limit ≡ responder.old.store.journal.limit }
{
    let mut none = Vec::new(alloc);
    let Ok(_) = responder.deliver(alloc, Event::Ended { link }, &mut none) else {
        unreachable!()
    };
}

/// Sends replies in their order, and tells the links on which a send failed. Nothing more is sent on these.
fn send_all<L: Links>(alloc: Global, links: &mut L, replies: &[Reply], lost: &mut Vec<u32>)
    requires none { lost.old.items ≡ [] }
    requires room { length replies.now ≤ vec_capacity lost.old }
    ensures sends { SendsAll (L.told links.old) (L.told links.new) replies.now lost.new.items }
    ensures link { L.last_link links.new ≡ L.last_link links.old }
    ensures turns { L.turns links.new ≡ L.turns links.old }
    ensures count { L.fault_count links.new ≡ L.fault_count links.old }
{
    for reply in replies {
        send(alloc, links, reply, lost);
    }
}

/// Sends a reply, unless a send on its link has failed, and shuts the link where that is due.
fn send<L: Links>(alloc: Global, links: &mut L, reply: &Reply, lost: &mut Vec<u32>)
    requires { length lost.old.items < vec_capacity lost.old }
    ensures sends { (traffic : Traffic) → L.told links.old ≡ Some traffic → SendsReply traffic (L.told links.new) reply.now lost.old.items lost.new.items }
    ensures most { length lost.new.items ≤ length lost.old.items + 1 }
    ensures room { vec_capacity lost.new ≡ vec_capacity lost.old }
    ensures link { L.last_link links.new ≡ L.last_link links.old }
    ensures turns { L.turns links.new ≡ L.turns links.old }
    ensures count { L.fault_count links.new ≡ L.fault_count links.old }
{
    try_send(alloc, links, reply, lost);
    if reply.shut {
        links.shut(reply.link);
    }
}

/// Sends a reply, unless a send on its link has failed.
fn try_send<L: Links>(alloc: Global, links: &mut L, reply: &Reply, lost: &mut Vec<u32>)
    requires { length lost.old.items < vec_capacity lost.old }
    ensures tries { (traffic : Traffic) → L.told links.old ≡ Some traffic → (later : Traffic) × Tries traffic later reply.now lost.old.items lost.new.items × (L.told links.new ≡ Some later) }
    ensures most { length lost.new.items ≤ length lost.old.items + 1 }
    ensures room { vec_capacity lost.new ≡ vec_capacity lost.old }
    ensures link { L.last_link links.new ≡ L.last_link links.old }
    ensures turns { L.turns links.new ≡ L.turns links.old }
    ensures count { L.fault_count links.new ≡ L.fault_count links.old }
{
    if !is_due(reply, lost.as_slice()) {
        return;
    }
    if send_octets(alloc, links, reply.link, &reply.octets).is_err() {
        lost.push_reserved(reply.link);
    }
}

/// Whether a reply says something, and no send on its link has failed.
fn is_due(reply: &Reply, lost: &[u32]) -> bool
    ensures { result ≡ due_test reply.now lost.now }
{
    !reply.octets.is_empty() && !is_lost(reply.link, lost)
}

fn is_lost(link: u32, lost: &[u32]) -> bool
    ensures { result ≡ lost_test link lost.now }
{
    lost.iter().any(|other| link == *other)
}
