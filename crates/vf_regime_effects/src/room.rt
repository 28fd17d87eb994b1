//! The limit of the filestore's octets.
ghost use Rattle.std.specs.Prelude.{◌≡◌, ◌≤◌, Some, nat_le};
ghost use Rattle.vf_filestore.specs.Files.{file_named, with_file};
ghost use Rattle.vf_tables.specs.Sums.{octets_of_files};
ghost use Rattle.vf_tree.specs.FileTree.{octets_in};

use vf_attr::File;
use vf_tables::{Files, MOST_FILESTORE_OCTETS};
use vf_tree::{MOST_FILE_OCTETS, Tree};

/// The octets of a tree's strings, which its limit bounds.
pub(crate) fn octets_of(tree: &Tree) -> u64
    ensures octets { result ≡ octets_in tree.now.units }
    ensures within { result ≤ MOST_FILE_OCTETS }
{
    let _units = tree.units();
    tree.size()
}

/// Whether the filestore has at most `MOST_FILESTORE_OCTETS` octets of strings with the file after in the place of the
/// one before. The other files aren't looked at.
pub(crate) fn has_room_for(files: &Files, before: &File, after: &File) -> bool
    requires stands { file_named before.now.name files.now ≡ Some before.now }
    requires named { after.now.name ≡ before.now.name }
    ensures { result ≡ nat_le (octets_of_files (with_file after.now files.now)) MOST_FILESTORE_OCTETS }
{
    let old = octets_of(&before.tree);
    let new = octets_of(&after.tree);
    files.octets() <= MOST_FILESTORE_OCTETS + old - new
}
