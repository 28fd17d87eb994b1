ghost use Rattle.std.specs.Prelude.{◌≡◌, ◌<◌, IfOk, None, Some};
ghost use Rattle.vf_filestore.specs.Effects.{erased as erased_meant};
ghost use Rattle.vf_filestore.specs.Opening.{placed};
ghost use Rattle.vf_regime_effects.specs.Meanings.{ending_of};
ghost use Rattle.vf_tree.specs.Acts.{Erases, does};

use crate::Ending;
use crate::writing::after_act;
use std::alloc::Global;
use vf_attr::{File, Stamp};
use vf_base::{FaduId, NoMemory};
use vf_tree::TreeError;

/// The end of an erase (ISO 8571-3, F-ERASE) that nothing refuses: the file without its contents, with a version more
/// and the stamp, and the position at its begin. An erase looks at no position. Where the constraint set refuses the
/// identity, the file is as it was.
pub fn erased(alloc: Global, file: &File, stamp: Stamp, fadu: FaduId) -> Result<Ending, NoMemory>
    requires { file.now.version < 4294967295 }
    ensures { IfOk result (λ ending. ending_of ending ≡ record { refused = None; given = placed (does file.now.tree 0 (Erases fadu)); file = erased_meant (Some file.now) stamp 0 fadu }) }
{
    let mut tree = file.tree.copy(alloc)?;
    match tree.erase(alloc, fadu) {
        Ok(position) => {
            let after = after_act(alloc, stamp, file, tree)?;
            Ok(Ending::placed(after, position))
        }
        Err(TreeError::NoMemory) => Err(NoMemory),
        Err(TreeError::Outside | TreeError::NotFound | TreeError::BadContext) => {
            let ending = unerased(alloc, file)?;
            Ok(ending)
        }
    }
}

/// The file as it was.
fn unerased(alloc: Global, file: &File) -> Result<Ending, NoMemory>
    ensures { IfOk result (λ ending. ending ≡ record { refused = None; position = None; file = Some file.now }) }
{
    let same = file.copy(alloc)?;
    Ok(Ending {
        refused: None,
        position: None,
        file: Some(same),
    })
}
