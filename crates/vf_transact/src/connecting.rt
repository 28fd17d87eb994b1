//! One connection: what is said and heard on it, and what the disk keeps meanwhile.
ghost use Rattle.std.specs.Prelude.{◌≡◌, ◌<◌, ◌≤◌, ◌++◌, [], ℕ, List, IfErr, IfOk, IfSome, OnErr, OnOk, Option, Some, false, is_some, length, option_copied, true, if◌then◌else◌};
ghost use Rattle.vf_base.specs.Dial.{Call, Connections};
ghost use Rattle.vf_base.specs.Faults.{counted};
ghost use Rattle.vf_initiator.specs.Assignments.{given_of, kind_in};
ghost use Rattle.vf_initiator.specs.Represents.{Owes, Represents};
ghost use Rattle.vf_initiator.specs.Says.{elements_of};
ghost use Rattle.vf_initiator.specs.Talking.{Talk};
ghost use Rattle.vf_initiator.specs.declared.plan.Plan.{Plan as PlanMeant};
ghost use Rattle.vf_store.specs.StoreState.{IsRepresented};
ghost use Rattle.vf_tables.specs.declared.task.Task.{Task as TaskMeant};
ghost use Rattle.vf_tpkt.specs.Tpdu.{packet, request};
ghost use Rattle.vf_transact.specs.Connecting.{HearsOn, IsBegun, IsNoFailure, IsOn, IsThrough, IsTried, KeepsAs, KeepsPiece, LosesIn, LostBy, MayBegin, OwesAfter, SaysOn, StandsOr, TakesIn, Writes, WritesByCause, WritesPart, is_whole, kept_when, outcome_of, still_stands};
ghost use Rattle.vf_transact.specs.Conversation.{talk_begun};
ghost use Rattle.vf_transact.specs.Writing.{HasCause};
ghost use Rattle.vf_transact.specs.Transaction.{StoreByCause};

use crate::TransactError;
use crate::keeping::commit;
use crate::limits::MOST_READS;
use crate::starting::octets_of_all;
use crate::writing::write_elements;
use std::alloc::Global;
use vf_base::{Dial, NoMemory, Sequence, Sink};
use vf_disk::Disk;
use vf_initiator::{Doing, Initiator, KeptTask, Plan, TaskError, tasks_are_kept};
use vf_store::Store;

/// A long answer is sent in so many octets at a time, or a little more.
const BLOCK: usize = 65_536;

/// How the task stands after a connection.
#[derive(Clone, Copy)]
pub(crate) enum Outcome {
    /// The connection wasn't had, or it was lost.
    Broke,
    /// The task ended well, and so many octets of strings were received.
    Ended { octets: u64 },
    Failed(TaskError),
}

/// Writes what a get has received, where it has ended well; a put has received nothing.
fn write_ended<O: Sink>(
    alloc: Global,
    kind: u8,
    doing: Doing,
    initiator: &Initiator,
    out: &mut O,
) -> Result<(), TransactError>
    ensures all { (talk : Talk) (rest : List ℕ) → Owes initiator.now talk rest → OnOk result (Writes kind (elements_of talk.conduct) doing (O.taken out.old) (O.taken out.new)) }
    ensures front { (talk : Talk) (rest : List ℕ) → Owes initiator.now talk rest → OnErr result (WritesPart kind (elements_of talk.conduct) doing (O.taken out.old) (O.taken out.new)) }
    ensures cause { HasCause result (O.fault_count out.old) (O.fault_count out.new) }
{
    match doing {
        Doing::Ended => write_elements(alloc, kind, initiator.elements().as_slice(), out),
        Doing::Going => Ok(()),
        Doing::Failed(_) => Ok(()),
    }
}

/// Takes a piece of the connection, and appends what is to be sent for it, but for what waits to be spelled. What is kept by it is on the disk then; a get that has
/// ended is written before its task is dropped.
fn take_piece<D: Disk, O: Sink>(
    alloc: Global,
    kind: u8,
    piece: &[u8],
    initiator: &mut Initiator,
    store: &mut Store<D>,
    out: &mut O,
    said: &mut Vec<u8>,
) -> Result<Doing, TransactError>
    // Of every talk that the initiator represents.
    ensures takes { (talk : Talk) → Represents initiator.old talk
        → IfOk result (λ doing. (after : Talk) × TakesIn initiator.old talk piece.now said.old.items initiator.new after said.new.items doing
        × Writes kind (elements_of after.conduct) doing (O.taken out.old) (O.taken out.new)
        × (IsRepresented D.shown D.may_leave store.old → KeepsAs initiator.old.given talk store.old.tables
        → KeepsPiece D.shown D.may_leave D.moment D.left_since initiator.old.given after doing store.old store.new)) }
    ensures interrupted { (talk : Talk) → Represents initiator.old talk → IsRepresented D.shown D.may_leave store.old
        → KeepsAs initiator.old.given talk store.old.tables
        → IfErr result (LosesIn D.shown D.may_leave D.moment D.left_since initiator.old.given kind talk piece.now store.old store.new (O.taken out.old) (O.taken out.new)) }
    ensures failed { OnErr result (IsNoFailure result) }
    ensures store_cause { StoreByCause store.old.journal.limit (D.fault_count store.old.disk) (D.fault_count store.new.disk) result }
    ensures output_cause { WritesByCause (O.fault_count out.old) (O.fault_count out.new) result }
    ensures limit { store.new.journal.limit ≡ store.old.journal.limit }
{
    tasks_are_kept();
    let mut changes = Sequence::new(alloc);
    let doing = initiator.take_waiting(alloc, piece, &mut changes, said)?;
    write_ended(alloc, kind, doing, initiator, out)?;
    match commit(alloc, changes, store) {
        Ok(()) => Ok(doing),
        Err(error) => Err(error),
    }
}

/// Sends octets, if there are any; answers whether the connection stands.
fn send<C: Dial>(octets: &[u8], dial: &mut C) -> bool
    requires { C.stands dial.old ≡ true }
    ensures said { (before : List Call) (said heard : List ℕ) → IsOn before said heard (C.told dial.old) → SaysOn before said heard octets.now (C.told dial.new) result }
    ensures stands { C.stands dial.new ≡ result }
    ensures lost { C.lost_count dial.new ≡ (if result then C.lost_count dial.old else counted (C.lost_count dial.old)) }
    ensures faults { StandsOr result (C.fault_count dial.old) (C.fault_count dial.new) }
{
    if octets.is_empty() {
        return true;
    }
    dial.send(octets).is_ok()
}

/// Says an answer, a block at a time: the octets that are spelled, and then those that wait. Answers whether the connection
/// stands; where it doesn't, a front was said. So it is where memory is wanting too, and then the connection stands.
fn say<C: Dial>(
    alloc: Global,
    initiator: &mut Initiator,
    said: &mut Vec<u8>,
    dial: &mut C,
) -> Result<bool, NoMemory>
    requires { C.stands dial.old ≡ true }
    ensures said { (talk : Talk) (rest : List ℕ) → Owes initiator.old talk rest → (before : List Call) (said_before heard : List ℕ) → IsOn before said_before heard (C.told dial.old)
        → SaysOn before said_before heard (said.old.items ++ rest) (C.told dial.new) (is_whole result) }
    ensures owes { (talk : Talk) (rest : List ℕ) → Owes initiator.old talk rest → IfOk result (λ stands. OwesAfter initiator.old talk initiator.new stands) }
    ensures stands { C.stands dial.new ≡ still_stands result }
    ensures lost { C.lost_count dial.new ≡ (if still_stands result then C.lost_count dial.old else counted (C.lost_count dial.old)) }
    ensures faults { StandsOr (still_stands result) (C.fault_count dial.old) (C.fault_count dial.new) }
{
    let mut more = initiator.say(alloc, BLOCK, said)?;
    if !send(said.as_slice(), dial) {
        return Ok(false);
    }
    while more {
        said.clear();
        more = initiator.say(alloc, BLOCK, said)?;
        if !send(said.as_slice(), dial) {
            return Ok(false);
        }
    }
    Ok(true)
}

/// Hears some octets, and no more than so many; none where the connection was lost.
fn hear<'a, C: Dial>(room: &'a mut [u8], most: usize, dial: &mut C) -> Option<&'a [u8]>
    requires stands { C.stands dial.old ≡ true }
    requires some { 0 < most }
    requires room { most ≤ length room.old }
    ensures heard { (before : List Call) (said heard : List ℕ) → IsOn before said heard (C.told dial.old) → HearsOn before said heard (C.told dial.new) (C.fault_count dial.old) (C.fault_count dial.new) (option_copied result) }
    ensures some { IfSome result (λ piece. 0 < length piece.now) }
    ensures most { IfSome result (λ piece. length piece.now ≤ most) }
    ensures stands { C.stands dial.new ≡ is_some result }
    ensures lost { C.lost_count dial.new ≡ (if is_some result then C.lost_count dial.old else counted (C.lost_count dial.old)) }
    ensures faults { IfSome result (λ piece. C.fault_count dial.new ≡ C.fault_count dial.old) }
{
    let (front, _) = room.split_at_mut(most);
    let Ok(count) = dial.read(front) else {
        return None;
    };
    if count == 0 {
        return None;
    }
    let (heard, _) = front.split_at(count);
    Some(heard)
}

/// Sends the first octets, and then hears and answers until the connection is lost or the task isn't going on. No more is heard
/// at a time than tells one thing, so that it is answered before the next one comes. What is said to the last octets of a
/// task that isn't going on is sent too; whether that goes well changes nothing.
fn converse<D: Disk, C: Dial, O: Sink>(
    alloc: Global,
    kind: u8,
    first: &[u8],
    room: &mut [u8],
    initiator: &mut Initiator,
    store: &mut Store<D>,
    dial: &mut C,
    out: &mut O,
) -> Result<Outcome, TransactError>
    requires stands { C.stands dial.old ≡ true }
    requires room { 65535 ≤ length room.old }
    ensures through { (plan : PlanMeant) (kept : Option TaskMeant) (before : List Call) (output : List ℕ)
        → IsBegun D.shown D.may_leave plan kept before output kind first.now initiator.old (record { told = C.told dial.old; taken = O.taken out.old; counts = record { faults = C.fault_count dial.old; lost = C.lost_count dial.old } }) store.old
        → IsThrough D.shown D.may_leave D.moment D.left_since plan kept before output (record { faults = C.fault_count dial.old; lost = C.lost_count dial.old }) store.old
        (record { told = C.told dial.new; taken = O.taken out.new; counts = record { faults = C.fault_count dial.new; lost = C.lost_count dial.new } }) store.new result }
    ensures given { (talk : Talk) → Represents initiator.old talk → OnOk result (initiator.new.given ≡ initiator.old.given) }
    ensures lost { IfOk result (LostBy (C.lost_count dial.old) (C.lost_count dial.new)) }
    ensures failed { OnErr result (IsNoFailure result) }
    ensures store_cause { StoreByCause store.old.journal.limit (D.fault_count store.old.disk) (D.fault_count store.new.disk) result }
    ensures output_cause { WritesByCause (O.fault_count out.old) (O.fault_count out.new) result }
    ensures limit { store.new.journal.limit ≡ store.old.journal.limit }
{
    if !send(first, dial) {
        return Ok(Outcome::Broke);
    }
    let mut said = Vec::new(alloc);
    // Each read gives an octet at least, so that no connection is read more often than it may give octets.
    for _ in 0..MOST_READS {
        let Some(piece) = hear(room, initiator.wanted(), dial) else {
            return Ok(Outcome::Broke);
        };
        said.clear();
        let doing = take_piece(alloc, kind, piece, initiator, store, out, &mut said)?;
        let stands = say(alloc, initiator, &mut said, dial)?;
        match doing {
            Doing::Failed(error) => return Ok(Outcome::Failed(error)),
            Doing::Ended => {
                let octets = octets_of_all(initiator.elements().as_slice());
                return Ok(Outcome::Ended { octets });
            }
            Doing::Going => {
                if !stands {
                    return Ok(Outcome::Broke);
                }
            }
        }
    }
    Ok(Outcome::Failed(TaskError::Budget))
}

/// How a task that goes on is kept; a task without an activity isn't.
fn kept_task<'a, D: Disk>(
    activity: Option<u32>,
    goes_on: bool,
    store: &'a Store<D>,
) -> Option<&'a KeptTask>
    ensures { option_copied result ≡ kept_when goes_on activity store.now.tables }
{
    if !goes_on {
        return None;
    }
    match activity {
        Some(activity) => store.task(activity),
        None => None,
    }
}

/// The initiator of a new connection, and its first octets. Where the task goes on, it begins with what is kept of it.
fn begin<D: Disk>(
    alloc: Global,
    plan: Plan,
    goes_on: bool,
    store: &Store<D>,
    first: &mut Vec<u8>,
) -> Result<Initiator, NoMemory>
    ensures given { IfOk result (λ made. made.given ≡ given_of plan (kept_when goes_on plan.activity store.now.tables)) }
    ensures begun { IfOk result (λ made. Represents made (talk_begun plan (kept_when goes_on plan.activity store.now.tables))) }
    ensures sent { OnOk result (first.new.items ≡ first.old.items ++ packet request) }
{
    let kept = kept_task(plan.activity, goes_on, store);
    Initiator::begin(alloc, plan, kept, first)
}

/// Tries a connection; hands back the plan. No connection stands then.
pub(crate) fn connect<D: Disk, C: Dial, O: Sink>(
    alloc: Global,
    plan: Plan,
    goes_on: bool,
    kind: u8,
    room: &mut [u8],
    store: &mut Store<D>,
    dial: &mut C,
    out: &mut O,
) -> Result<(Plan, Outcome), TransactError>
    requires { 65535 ≤ length room.old }
    ensures tried { (before : Connections) (output : List ℕ) → kind ≡ kind_in plan.task → C.told dial.old ≡ Some before → O.taken out.old ≡ Some output
        → MayBegin D.shown D.may_leave plan (kept_when goes_on plan.activity store.old.tables) store.old
        → IsTried D.shown D.may_leave D.moment D.left_since plan (kept_when goes_on plan.activity store.old.tables) before output (record { faults = C.fault_count dial.old; lost = C.lost_count dial.old }) store.old
        (record { told = C.told dial.new; taken = O.taken out.new; counts = record { faults = C.fault_count dial.new; lost = C.lost_count dial.new } }) store.new (outcome_of result) }
    ensures plan { IfOk result (λ tried. tried.0 ≡ plan) }
    ensures closed { C.stands dial.new ≡ false }
    ensures lost { IfOk result (λ tried. LostBy (C.lost_count dial.old) (C.lost_count dial.new) tried.1) }
    ensures failed { OnErr result (IsNoFailure result) }
    ensures store_cause { StoreByCause store.old.journal.limit (D.fault_count store.old.disk) (D.fault_count store.new.disk) result }
    ensures output_cause { WritesByCause (O.fault_count out.old) (O.fault_count out.new) result }
    ensures limit { store.new.journal.limit ≡ store.old.journal.limit }
{
    tasks_are_kept();
    dial.close();
    let mut first = Vec::new(alloc);
    let mut initiator = begin(alloc, plan, goes_on, store, &mut first)?;
    if dial.connect().is_err() {
        return Ok((initiator.broke(), Outcome::Broke));
    }
    let outcome = converse(
        alloc,
        kind,
        first.as_slice(),
        room,
        &mut initiator,
        store,
        dial,
        out,
    );
    dial.close();
    Ok((initiator.broke(), outcome?))
}
