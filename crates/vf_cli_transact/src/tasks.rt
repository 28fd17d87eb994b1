//! The commands.
ghost use Rattle.std.specs.Prelude.{◌≡◌, Err};
ghost use Rattle.vf_base.specs.Faults.{HasRisen, HasRisenBy};
ghost use Rattle.vf_cli_transact.specs.Lines.{PrintsAnswer};
ghost use Rattle.vf_cli_transact.specs.Tasks.{DoesTask, EndsTask, FailsIn, IsBrokenIn};
ghost use Rattle.vf_journal.specs.declared.error.JournalError.TheVariants as stores;
ghost use Rattle.vf_transact.specs.Starting.{connections_of};
ghost use Rattle.vf_transact.specs.declared.error.TransactError.TheVariants as errors;

use crate::lines::{print_failure, print_report};
use std::alloc::Global;
use vf_base::{Dial, Sink, Source};
use vf_disk::Disk;
use vf_initiator::Report;
use vf_transact::{PlanWords, TransactError, transact};

/// Does the task of a put or of a get, by its words. A put sends the input to a file of the other end, and a line tells how many
/// octets it has: `put`, or `resumed` of a task that was kept, which doesn't read the input. A get writes the contents of such a
/// file to the output, once all of it has come, and doesn't look at the input.
///
/// The statuses: 0 it is done; 1 a diagnostic refused it; 3 the input failed; 4 the output failed; 5 the disk failed; 6 each
/// connection was lost; 7 the other end is at fault; 8 the disk has no store; 9 memory is wanting; 12 the store is full; 13 the
/// activity is in use. A line tells of 1, 6, 7, 8, 12 and 13.
pub fn do_task<D: Disk, C: Dial, I: Source, O: Sink>(
    alloc: Global,
    words: &PlanWords,
    disk: D,
    dial: &mut C,
    input: &mut I,
    out: &mut O,
) -> (D, u8)
    ensures does { DoesTask D.shown D.may_leave D.moment D.left_since words.now disk result.0 (D.fault_count disk) (D.fault_count result.0)
        (record {
          input = I.left input.old;
          input_faults = I.fault_count input.old;
          input_faults' = I.fault_count input.new;
          output = O.taken out.old;
          output' = O.taken out.new;
          output_faults = O.fault_count out.old;
          dial = C.told dial.old;
          dial' = C.told dial.new;
          dial_faults = C.fault_count dial.old;
          dial_faults' = C.fault_count dial.new;
          lost = C.lost_count dial.old;
          lost' = C.lost_count dial.new;
        }) result.1 }
    ensures ends { EndsTask result.1 }
    ensures input_cause { result.1 ≡ 3 → HasRisen (I.fault_count input.old) (I.fault_count input.new) }
    ensures output_cause { result.1 ≡ 4 → HasRisen (O.fault_count out.old) (O.fault_count out.new) }
    ensures disk_cause { result.1 ≡ 5 → HasRisen (D.fault_count disk) (D.fault_count result.0) }
    ensures lost_cause { result.1 ≡ 6 → HasRisenBy (connections_of words.now) (C.lost_count dial.old) (C.lost_count dial.new) }
{
    let (disk, answer) = transact(alloc, words, dial, disk, input, out);
    let status = print_answer(alloc, words.put, answer, out);
    (disk, status)
}

/// Tells how a task ended; answers the status.
fn print_answer<O: Sink>(
    alloc: Global,
    put: bool,
    answer: Result<Report, TransactError>,
    out: &mut O,
) -> u8
    ensures prints { PrintsAnswer put answer result (O.taken out.old) (O.taken out.new) }
    ensures ends { EndsTask result }
    ensures input_fault { result ≡ 3 → answer ≡ Err errors.InputFault }
    ensures output_fault { result ≡ 4 → FailsIn answer (O.fault_count out.old) (O.fault_count out.new) }
    ensures disk_fault { result ≡ 5 → answer ≡ Err (errors.Store stores.DiskFault) }
    ensures broken { result ≡ 6 → IsBrokenIn answer }
{
    match answer {
        Ok(report) => print_report(alloc, put, report, out),
        Err(error) => print_failure(alloc, error, out),
    }
}
