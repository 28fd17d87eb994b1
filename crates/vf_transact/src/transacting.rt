//! A task, from its words to its report.
ghost use Rattle.std.specs.Prelude.{◌≡◌, ℕ, List, IfOk, Some, false, true};
ghost use Rattle.vf_base.specs.Dial.{Connections};
ghost use Rattle.vf_base.specs.Streams.{IsAtEnd};
ghost use Rattle.vf_store.specs.Represented.{Represents};
ghost use Rattle.vf_store.specs.StoreState.{IsRepresented};
ghost use Rattle.vf_tables.specs.declared.tables.Tables.{Tables as TablesMeant};
ghost use Rattle.vf_transact.specs.Connecting.{AreTried, IsDone, MayConnect, WritesByCause, reported};
ghost use Rattle.vf_transact.specs.Starting.{IsAmong, IsTakenUp, ReadsByCause, TakenUp, are_words, connections_of, of_connections};
ghost use Rattle.vf_transact.specs.Transaction.{BreaksByCause, DiskByCause, DoesTransact, IsRefused, StoreByCause};

use crate::connecting::{Outcome, connect};
use crate::limits::STORE_LIMIT;
use crate::reading::room_for_a_block;
use crate::starting::{Begun, take_up};
use crate::{PlanWords, TransactError};
use std::alloc::Global;
use vf_base::{Dial, Sink, Source};
use vf_disk::Disk;
use vf_initiator::{Plan, Report};
use vf_store::Store;

/// Tries connections until the task isn't going on; answers how many octets of strings were received.
fn connect_all<D: Disk, C: Dial, O: Sink>(
    alloc: Global,
    words: &PlanWords,
    plan: Plan,
    is_kept: bool,
    store: &mut Store<D>,
    dial: &mut C,
    out: &mut O,
) -> Result<u64, TransactError>
    ensures tried { (begun : TakenUp) (before : Connections) (output : List ℕ)
        → MayConnect D.shown D.may_leave begun plan is_kept words.now.kind before output (record { told = C.told dial.old; taken = O.taken out.old; counts = record { faults = C.fault_count dial.old; lost = C.lost_count dial.old } }) store.old
        → AreTried D.shown D.may_leave D.moment D.left_since begun (connections_of words.now) before output (record { faults = C.fault_count dial.old; lost = C.lost_count dial.old }) store.old
        (record { told = C.told dial.new; taken = O.taken out.new; counts = record { faults = C.fault_count dial.new; lost = C.lost_count dial.new } }) store.new (reported begun result) }
    ensures closed { C.stands dial.old ≡ false → C.stands dial.new ≡ false }
    ensures broken { BreaksByCause (connections_of words.now) (C.lost_count dial.old) (C.lost_count dial.new) result }
    ensures failed { IsAmong of_connections result }
    ensures store_cause { StoreByCause store.old.journal.limit (D.fault_count store.old.disk) (D.fault_count store.new.disk) result }
    ensures output_cause { WritesByCause (O.fault_count out.old) (O.fault_count out.new) result }
    ensures limit { store.new.journal.limit ≡ store.old.journal.limit }
{
    let mut room = room_for_a_block(alloc)?;
    let mut plan = plan;
    let mut goes_on = is_kept;
    let connections = words.connections();
    for _ in 0..connections {
        let (same, outcome) = connect(
            alloc,
            plan,
            goes_on,
            words.kind,
            room.as_mut_slice(),
            store,
            dial,
            out,
        )?;
        match outcome {
            Outcome::Broke => {}
            Outcome::Ended { octets } => return Ok(octets),
            Outcome::Failed(error) => return Err(TransactError::Task(error)),
        }
        plan = same;
        // Every connection but the first one of the run that makes the task recovers it.
        goes_on = true;
    }
    Err(TransactError::Broken { connections })
}

/// Does a task that was taken up over connections.
fn do_begun<D: Disk, C: Dial, O: Sink>(
    alloc: Global,
    words: &PlanWords,
    begun: Begun,
    dial: &mut C,
    store: &mut Store<D>,
    out: &mut O,
) -> Result<Report, TransactError>
    ensures resumed { IfOk result (λ report. report.resumed ≡ begun.is_kept) }
    ensures tried { (taken : TakenUp) (before : Connections) (output : List ℕ) → IsTakenUp taken begun
        → MayConnect D.shown D.may_leave taken begun.plan begun.is_kept words.now.kind before output (record { told = C.told dial.old; taken = O.taken out.old; counts = record { faults = C.fault_count dial.old; lost = C.lost_count dial.old } }) store.old
        → AreTried D.shown D.may_leave D.moment D.left_since taken (connections_of words.now) before output (record { faults = C.fault_count dial.old; lost = C.lost_count dial.old }) store.old
        (record { told = C.told dial.new; taken = O.taken out.new; counts = record { faults = C.fault_count dial.new; lost = C.lost_count dial.new } }) store.new result }
    ensures closed { C.stands dial.old ≡ false → C.stands dial.new ≡ false }
    ensures broken { BreaksByCause (connections_of words.now) (C.lost_count dial.old) (C.lost_count dial.new) result }
    ensures failed { IsAmong of_connections result }
    ensures store_cause { StoreByCause store.old.journal.limit (D.fault_count store.old.disk) (D.fault_count store.new.disk) result }
    ensures output_cause { WritesByCause (O.fault_count out.old) (O.fault_count out.new) result }
{
    let Begun {
        plan,
        is_kept,
        octets,
    } = begun;
    match connect_all(alloc, words, plan, is_kept, store, dial, out) {
        Ok(received) => Ok(Report {
            octets: octets.saturating_add(received),
            resumed: is_kept,
        }),
        Err(error) => Err(error),
    }
}

/// Takes the task up, and does it over connections.
fn do_task<D: Disk, C: Dial, I: Source, O: Sink>(
    alloc: Global,
    words: &PlanWords,
    dial: &mut C,
    store: &mut Store<D>,
    input: &mut I,
    out: &mut O,
) -> Result<Report, TransactError>
    // Of words in their ranges, and tables that the disk represents.
    ensures done { (octets output : List ℕ) (before : Connections) → are_words words.now ≡ true → IsRepresented D.shown D.may_leave store.old
        → I.left input.old ≡ Some octets → O.taken out.old ≡ Some output → C.told dial.old ≡ Some before
        → IsDone D.shown D.may_leave D.moment D.left_since words.now octets before output (record { faults = C.fault_count dial.old; lost = C.lost_count dial.old }) store.old
        (record { told = C.told dial.new; taken = O.taken out.new; counts = record { faults = C.fault_count dial.new; lost = C.lost_count dial.new } }) store.new result }
    ensures closed { C.stands dial.old ≡ false → C.stands dial.new ≡ false }
    ensures broken { BreaksByCause (connections_of words.now) (C.lost_count dial.old) (C.lost_count dial.new) result }
    ensures store_cause { StoreByCause store.old.journal.limit (D.fault_count store.old.disk) (D.fault_count store.new.disk) result }
    ensures unused { words.now.put ≡ false → I.left input.new ≡ I.left input.old }
    ensures left { IfOk result (λ report. report.resumed ≡ true → I.left input.new ≡ I.left input.old) }
    ensures end { words.now.put ≡ true → IfOk result (λ report. report.resumed ≡ false → IsAtEnd (I.left input.new)) }
    ensures input_cause { ReadsByCause (I.fault_count input.old) (I.fault_count input.new) result }
    ensures output_cause { WritesByCause (O.fault_count out.old) (O.fault_count out.new) result }
{
    match take_up(alloc, words, store, input) {
        Err(error) => Err(error),
        Ok(begun) => do_begun(alloc, words, begun, dial, store, out),
    }
}

/// Does a task over a dial and the store on a disk: a put sends the input, and a get writes the file's contents to the output.
///
/// A task with an activity is kept on the disk before its first octet leaves. It goes on over the connections of this call, and
/// of later calls with its activity, and is dropped once it ended, well or with a diagnostic. What the disk is to keep is there
/// before anything is said of it, and a get writes its output, all of it at the end, before its task is dropped. A put that is
/// kept already doesn't read the input.
///
/// Causes are looked for in this order: the store, a task of this activity that is kept otherwise (`InUse`), sixteen other
/// tasks (35), the input and its limits (22, 23), and then the connections.
pub fn transact<D: Disk, C: Dial, I: Source, O: Sink>(
    alloc: Global,
    words: &PlanWords,
    dial: &mut C,
    disk: D,
    input: &mut I,
    out: &mut O,
) -> (D, Result<Report, TransactError>)
    // Of words in their ranges, and where all of the outside tells what it holds.
    ensures does { (image octets output : List ℕ) (tables : TablesMeant) (before : Connections) → are_words words.now ≡ true → D.shown disk ≡ Some image → Represents image tables
        → I.left input.old ≡ Some octets → O.taken out.old ≡ Some output → C.told dial.old ≡ Some before
        → DoesTransact D.shown D.may_leave D.moment D.left_since words.now octets disk result.0 before output
        (record { faults = C.fault_count dial.old; lost = C.lost_count dial.old }) (record { told = C.told dial.new; taken = O.taken out.new; counts = record { faults = C.fault_count dial.new; lost = C.lost_count dial.new } }) tables result.1 }
    // No connection is left that wasn't there.
    ensures closed { C.stands dial.old ≡ false → C.stands dial.new ≡ false }
    ensures refused { (image : List ℕ) → D.shown disk ≡ Some image → IsRefused image result.1 }
    ensures broken { BreaksByCause (connections_of words.now) (C.lost_count dial.old) (C.lost_count dial.new) result.1 }
    ensures disk_cause { DiskByCause (D.shown disk) 1073741824 (D.fault_count disk) (D.fault_count result.0) result.1 }
    // A get doesn't read the input, nor does a put that was kept; a new put that ended well has read all of it.
    ensures unused { words.now.put ≡ false → I.left input.new ≡ I.left input.old }
    ensures left { IfOk result.1 (λ report. report.resumed ≡ true → I.left input.new ≡ I.left input.old) }
    ensures end { words.now.put ≡ true → IfOk result.1 (λ report. report.resumed ≡ false → IsAtEnd (I.left input.new)) }
    ensures input_cause { ReadsByCause (I.fault_count input.old) (I.fault_count input.new) result.1 }
    ensures output_cause { WritesByCause (O.fault_count out.old) (O.fault_count out.new) result.1 }
{
    match Store::open(alloc, disk, STORE_LIMIT) {
        Ok(store) => {
            let mut store = store;
            let result = do_task(alloc, words, dial, &mut store, input, out);
            (store.close(), result)
        }
        Err((disk, error)) => (disk, Err(TransactError::Store(error))),
    }
}
