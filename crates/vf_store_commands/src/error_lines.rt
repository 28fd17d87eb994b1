//! The lines of what keeps a store from being opened or written.
ghost use Rattle.std.specs.Prelude.{◌≡◌, ◌++◌, [], ◌∷◌, IfOk};
ghost use Rattle.std.specs.String.{string_bytes};
ghost use Rattle.vf_base.specs.Faults.{HasRisen};
ghost use Rattle.vf_journal.specs.declared.error.JournalError.TheVariants as errors;
ghost use Rattle.vf_cli_printing.specs.Printed.{IsOneOf, Prints};
ghost use Rattle.vf_store_commands.specs.ErrorLines.{PrintsError, full_line, no_store_line};

use std::alloc::Global;
use vf_base::{NoMemory, Sink};
use vf_cli_printing::{DISK_FAULT, FULL, NO_MEMORY, NOT_A_STORE, print};
use vf_store::StoreError;

fn no_store_text(alloc: Global, place: u64) -> Result<String, NoMemory>
    ensures { IfOk result (λ text. string_bytes text ≡ no_store_line place) }
{
    let text = format!(in alloc; "not a store {place}\n")?;
    Ok(text)
}

fn full_text(alloc: Global, length: u64, limit: u64) -> Result<String, NoMemory>
    ensures { IfOk result (λ text. string_bytes text ≡ full_line length limit) }
{
    let text = format!(in alloc; "journal full {length} {limit}\n")?;
    Ok(text)
}

/// Tells that the disk has no store, by a place.
pub(crate) fn print_no_store<O: Sink>(alloc: Global, place: u64, out: &mut O) -> u8
    ensures prints { Prints (4 ∷ 9 ∷ []) (record { octets = no_store_line place; status = 8 }) result (O.taken out.old) (O.taken out.new) }
    ensures ends { IsOneOf (4 ∷ 8 ∷ 9 ∷ []) result }
    ensures cause { result ≡ 4 → HasRisen (O.fault_count out.old) (O.fault_count out.new) }
{
    let Ok(text) = no_store_text(alloc, place) else {
        return NO_MEMORY;
    };
    print(out, text.as_bytes(), NOT_A_STORE)
}

/// Tells why a store can't be opened or written; answers the status.
pub fn print_error<O: Sink>(alloc: Global, error: StoreError, out: &mut O) -> u8
    ensures prints { PrintsError error result (O.taken out.old) (O.taken out.new) }
    ensures ends { IsOneOf (4 ∷ 5 ∷ 8 ∷ 9 ∷ 12 ∷ []) result }
    ensures fault { result ≡ 5 → error ≡ errors.DiskFault }
    ensures cause { result ≡ 4 → HasRisen (O.fault_count out.old) (O.fault_count out.new) }
{
    match error {
        StoreError::NotAStore { at, .. } => print_no_store(alloc, at, out),
        StoreError::Full { length, limit } => {
            let Ok(text) = full_text(alloc, length, limit) else {
                return NO_MEMORY;
            };
            print(out, text.as_bytes(), FULL)
        }
        StoreError::DiskFault => DISK_FAULT,
        StoreError::NoMemory => NO_MEMORY,
    }
}
