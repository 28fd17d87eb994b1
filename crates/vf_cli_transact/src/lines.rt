//! The lines of how a task ended.
ghost use Rattle.std.specs.Prelude.{◌≡◌, ◌∷◌, [], IfOk};
ghost use Rattle.std.specs.String.{string_bytes};
ghost use Rattle.vf_base.specs.Faults.{HasRisen};
ghost use Rattle.vf_cli_printing.specs.Printed.{IsOneOf, Prints};
ghost use Rattle.vf_cli_transact.specs.Lines.{PrintsFailure, PrintsReport, broken as broken_meant, failure as failure_meant, failure_line, failure_status as status_meant, number_line, put_line};
ghost use Rattle.vf_cli_transact.specs.Tasks.{EndsTask, FailsOutput, IsBroken};
ghost use Rattle.vf_journal.specs.declared.error.JournalError.TheVariants as stores;
ghost use Rattle.vf_transact.specs.declared.error.TransactError.TheVariants as errors;

use crate::names::{name_of_fault, name_of_layer};
use crate::statuses::{BROKEN, IN_USE, PEER_FAULT, REFUSED};
use std::alloc::Global;
use vf_base::{NoMemory, Sink};
use vf_cli_printing::{INPUT_FAULT, NO_MEMORY, OUTPUT_FAULT, print};
use vf_initiator::{Report, TaskError};
use vf_store_commands::print_error;
use vf_transact::TransactError;

/// The line of a put that ended well.
fn report_text(alloc: Global, report: Report) -> Result<String, NoMemory>
    ensures { IfOk result (λ text. string_bytes text ≡ put_line report) }
{
    let Report { octets, resumed } = report;
    let text = if resumed {
        format!(in alloc; "resumed {octets}\n")?
    } else {
        format!(in alloc; "put {octets}\n")?
    };
    Ok(text)
}

/// The line of why a task failed.
fn failure_text(alloc: Global, error: TaskError) -> Result<String, NoMemory>
    ensures { IfOk result (λ text. string_bytes text ≡ failure_line error) }
{
    let text = match error {
        TaskError::Refused(diagnostic) => {
            let number = diagnostic.number;
            format!(in alloc; "refused {number}\n")?
        }
        TaskError::PeerFault { layer, name, at } => {
            let layer = name_of_layer(layer);
            let name = name_of_fault(name);
            format!(in alloc; "peer fault {layer} {name} {at}\n")?
        }
        TaskError::PeerAbort { number } => format!(in alloc; "peer abort {number}\n")?,
        TaskError::OutOfPlace { after } => format!(in alloc; "out of place {after}\n")?,
        TaskError::Budget => format!(in alloc; "budget\n")?,
    };
    Ok(text)
}

/// The status of why a task failed.
fn failure_status(error: TaskError) -> u8
    ensures status { result ≡ status_meant error }
    ensures ends { IsOneOf (1 ∷ 7 ∷ []) result }
{
    match error {
        TaskError::Refused(_) => REFUSED,
        _ => PEER_FAULT,
    }
}

fn broken_text(alloc: Global, connections: u32) -> Result<String, NoMemory>
    ensures { IfOk result (λ text. string_bytes text ≡ (broken_meant connections).octets) }
{
    let text = format!(in alloc; "broken {connections}\n")?;
    Ok(text)
}

/// Tells that a put ended well; answers the status.
fn print_put<O: Sink>(alloc: Global, report: Report, out: &mut O) -> u8
    ensures prints { Prints (4 ∷ 9 ∷ []) (record { octets = put_line report; status = 0 }) result (O.taken out.old) (O.taken out.new) }
    ensures ends { IsOneOf (0 ∷ 4 ∷ 9 ∷ []) result }
    ensures cause { result ≡ 4 → HasRisen (O.fault_count out.old) (O.fault_count out.new) }
{
    let Ok(text) = report_text(alloc, report) else {
        return NO_MEMORY;
    };
    print(out, text.as_bytes(), 0)
}

/// Tells why a task failed; answers the status.
fn print_task_error<O: Sink>(alloc: Global, error: TaskError, out: &mut O) -> u8
    ensures prints { Prints (4 ∷ 9 ∷ []) (failure_meant error) result (O.taken out.old) (O.taken out.new) }
    ensures ends { IsOneOf (1 ∷ 4 ∷ 7 ∷ 9 ∷ []) result }
    ensures cause { result ≡ 4 → HasRisen (O.fault_count out.old) (O.fault_count out.new) }
{
    let Ok(text) = failure_text(alloc, error) else {
        return NO_MEMORY;
    };
    print(out, text.as_bytes(), failure_status(error))
}

/// Tells that each connection was lost; answers the status.
fn print_broken<O: Sink>(alloc: Global, connections: u32, out: &mut O) -> u8
    ensures prints { Prints (4 ∷ 9 ∷ []) (broken_meant connections) result (O.taken out.old) (O.taken out.new) }
    ensures ends { IsOneOf (4 ∷ 6 ∷ 9 ∷ []) result }
    ensures cause { result ≡ 4 → HasRisen (O.fault_count out.old) (O.fault_count out.new) }
{
    let Ok(text) = broken_text(alloc, connections) else {
        return NO_MEMORY;
    };
    print(out, text.as_bytes(), BROKEN)
}

/// Tells why a task didn't end well; answers the status.
pub(crate) fn print_failure<O: Sink>(alloc: Global, error: TransactError, out: &mut O) -> u8
    ensures prints { PrintsFailure error result (O.taken out.old) (O.taken out.new) }
    ensures ends { EndsTask result }
    ensures input_fault { result ≡ 3 → error ≡ errors.InputFault }
    ensures output_fault { result ≡ 4 → FailsOutput error (O.fault_count out.old) (O.fault_count out.new) }
    ensures disk_fault { result ≡ 5 → error ≡ errors.Store stores.DiskFault }
    ensures broken { result ≡ 6 → IsBroken error }
{
    match error {
        TransactError::Task(error) => print_task_error(alloc, error, out),
        TransactError::Broken { connections } => print_broken(alloc, connections, out),
        TransactError::InUse => print(out, b"activity in use\n", IN_USE),
        TransactError::InputFault => INPUT_FAULT,
        TransactError::OutputFault => OUTPUT_FAULT,
        TransactError::Store(error) => print_error(alloc, error, out),
        TransactError::NoMemory => NO_MEMORY,
    }
}

/// Tells that a task ended well; answers the status. Of a get nothing is told.
pub(crate) fn print_report<O: Sink>(alloc: Global, put: bool, report: Report, out: &mut O) -> u8
    ensures prints { PrintsReport put report result (O.taken out.old) (O.taken out.new) }
    ensures ends { IsOneOf (0 ∷ 4 ∷ 9 ∷ []) result }
    ensures cause { result ≡ 4 → HasRisen (O.fault_count out.old) (O.fault_count out.new) }
{
    if put {
        return print_put(alloc, report, out);
    }
    0
}
