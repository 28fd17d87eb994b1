//! The writing of lines.
ghost use Rattle.std.specs.Prelude.{◌≡◌, ◌≢◌, ◌++◌, [], ◌∷◌, OnErr, OnOk};
ghost use Rattle.vf_base.specs.Faults.{HasRisen};
ghost use Rattle.vf_cli_printing.specs.Printed.{IsOneOf, Prints, bad_line};

use crate::status::OUTPUT_FAULT;
use std::alloc::Global;
use vf_base::{NoMemory, Sink};

/// Writes lines, if there are any; answers the status that goes with them, or 4 where the output fails.
pub fn print<O: Sink>(out: &mut O, lines: &[u8], status: u8) -> u8
    requires { status ≢ 4 }
    ensures prints { Prints (4 ∷ []) (record { octets = lines.now; status = status }) result (O.taken out.old) (O.taken out.new) }
    ensures ends { IsOneOf (status ∷ 4 ∷ []) result }
    ensures cause { result ≡ 4 → HasRisen (O.fault_count out.old) (O.fault_count out.new) }
{
    if lines.is_empty() {
        return status;
    }
    if out.write(lines).is_err() {
        return OUTPUT_FAULT;
    }
    status
}

/// Appends the line that names a bad line by its number to a text, which is as before where memory is wanting.
pub fn append_bad_line(alloc: Global, number: usize, text: &mut Vec<u8>) -> Result<(), NoMemory>
    ensures ok { OnOk result (text.new.items ≡ text.old.items ++ bad_line number) }
    ensures err { OnErr result (text.new.items ≡ text.old.items) }
{
    let line = format!(in alloc; "bad line {number}\n")?;
    text.extend_from_slice(line.as_bytes())?;
    Ok(())
}
