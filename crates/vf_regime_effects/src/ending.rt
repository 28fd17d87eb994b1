ghost use Rattle.std.specs.Prelude.{◌≡◌, IfOk, None, Some, option_copied};
ghost use Rattle.vf_filestore.specs.Ending.{in_silence as silence_meant, read_ending as read_meant, unchanged as unchanged_meant};
ghost use Rattle.vf_filestore.specs.History.{Placed};
ghost use Rattle.vf_regime_effects.specs.Meanings.{ending_of};

use std::alloc::Global;
use vf_attr::{File, Stamp};
use vf_base::{Diagnostic, NoMemory};

/// What comes of an act on the selected file, or of the end of a transfer (ISO 8571-3, F-ERASE, F-TRANSFER-END and
/// F-CANCEL).
#[derive(Drop)]
pub struct Ending {
    /// Why it performs nothing, where it is refused.
    pub refused: Option<Diagnostic>,
    /// The position in the file after it, in units; absent where it sets none.
    pub position: Option<u32>,
    /// The file after it; absent where it is as it was.
    pub file: Option<File>,
}

impl Ending {
    /// The end of a transfer that is refused: it performs nothing.
    pub fn refused_by(diagnostic: Diagnostic) -> Ending
        ensures { ending_of result ≡ unchanged_meant (Some diagnostic) }
    {
        Ending {
            refused: Some(diagnostic),
            position: None,
            file: None,
        }
    }

    /// The end of a transfer that performs nothing and isn't refused, as a cancelled write without a check.
    pub fn unchanged() -> Ending
        ensures { ending_of result ≡ unchanged_meant None }
    {
        Ending {
            refused: None,
            position: None,
            file: None,
        }
    }

    /// The end of what leaves this file and this position.
    pub(crate) fn placed(file: File, position: u32) -> Ending
        ensures { ending_of result ≡ record { refused = None; given = Placed position; file = Some file } }
    {
        Ending {
            refused: None,
            position: Some(position),
            file: Some(file),
        }
    }

    /// The same end without its diagnostic, since a cancel has none.
    pub fn in_silence(self) -> Ending
        ensures { ending_of result ≡ silence_meant (ending_of self) }
    {
        Ending {
            refused: None,
            position: self.position,
            file: self.file,
        }
    }
}

/// The end of a read that wasn't refused at its request, also by a cancel: the selected file, where there is one, keeps
/// who read it last, and when.
pub fn read_ending(alloc: Global, stamp: Stamp, file: Option<&File>) -> Result<Ending, NoMemory>
    ensures { IfOk result (λ ending. ending_of ending ≡ read_meant stamp (option_copied file.entry)) }
{
    let Some(before) = file else {
        return Ok(Ending::unchanged());
    };
    let mut after = before.copy(alloc)?;
    after.read = Some(stamp);
    Ok(Ending {
        refused: None,
        position: None,
        file: Some(after),
    })
}
