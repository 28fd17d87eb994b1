//! Whether changes led to other files, where a look at those that they name tells it.
ghost use Rattle.std.specs.Prelude.{◌≡◌, IsTrue, false};
ghost use Rattle.std.specs.Cmp.Lexicographic.{pointwise};
ghost use Rattle.vf_filestore.specs.Changes.{is_same_file as file_meant};

use vf_base::Name;
use vf_tables::{Change, Files};

/// Whether the files are known to differ from those before the changes: where there are more or fewer of them, or one
/// that a change names has another version. The contents are not looked at, and of other files nothing is.
#[tactic(auto, using(crate::proofs::Differing::lengths_apart))]
pub(crate) fn are_apart(before: &Files, after: &Files, changes: &[Change]) -> bool
    ensures { IsTrue result → pointwise file_meant before.now after.now ≡ false }
{
    if before.len() != after.len() {
        return true;
    }
    for change in changes {
        if is_apart(before, after, change) {
            return true;
        }
    }
    false
}

/// Whether the file that the change names has another version.
fn is_apart(before: &Files, after: &Files, change: &Change) -> bool
    ensures { IsTrue result → pointwise file_meant before.now after.now ≡ false }
{
    match change {
        Change::PutFile { file } => has_moved_on(before, after, &file.name),
        Change::PutAttributes { old, .. } => has_moved_on(before, after, old),
        _ => false,
    }
}

/// Whether the file of this name has another version.
fn has_moved_on(before: &Files, after: &Files, name: &Name) -> bool
    ensures { IsTrue result → pointwise file_meant before.now after.now ≡ false }
{
    let Some(place) = before.place_of(name) else {
        return false;
    };
    let Some(file) = before.get(place) else {
        return false;
    };
    let Some(other) = after.get(place) else {
        return false;
    };
    file.version != other.version
}
