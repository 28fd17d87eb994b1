//! How an incarnation ends before its last line.
ghost use Rattle.std.specs.Prelude.{◌≡◌, ◌++◌, IfOk, IsSome, OnOk, Some};
ghost use Rattle.vf_cli_replay.specs.Halting.{halt_by, halt_line};

use std::alloc::Global;
use vf_base::NoMemory;
use vf_cli_script::Stop;
use vf_responder::RespondError;

/// How it ends.
#[derive(Clone, Copy)]
pub(crate) enum Halt {
    /// The disk stopped.
    Stopped,
    /// The store is full.
    Full,
}

/// What an error of the responder is; want of memory is none.
pub(crate) fn halt_of(error: RespondError) -> Result<Halt, NoMemory>
    ensures { IfOk result (λ halt. halt_by error ≡ Some halt) }
{
    match error {
        RespondError::DiskFault => Ok(Halt::Stopped),
        RespondError::Full { .. } => Ok(Halt::Full),
        RespondError::NoMemory => Err(NoMemory),
        // What an incarnation leaves is a store.
        RespondError::NotAStore { .. } => Err(NoMemory),
    }
}

/// Appends the line of an incarnation that ends so. Where no stop is asked for, the disk fails for want of memory alone.
pub(crate) fn append_halt(
    stop: Option<Stop>,
    halt: Halt,
    text: &mut Vec<u8>,
) -> Result<(), NoMemory>
    ensures line { OnOk result (text.new.items ≡ text.old.items ++ halt_line halt) }
    ensures asked { OnOk result (halt ≡ Halt.Stopped → IsSome stop) }
{
    match halt {
        Halt::Stopped => {
            if stop.is_none() {
                return Err(NoMemory);
            }
            text.extend_from_slice(b"stopped\n")?;
            Ok(())
        }
        Halt::Full => {
            text.extend_from_slice(b"full\n")?;
            Ok(())
        }
    }
}
