//! The selected file.
ghost use Rattle.std.specs.Prelude.{◌≡◌, IfSome, Some, option_copied};
ghost use Rattle.vf_filestore.specs.Files.{file_named};

use vf_attr::File;
use vf_base::Name;
use vf_tables::Files;

/// The file of this name; `None` exactly where there is none.
pub fn selected<'a>(files: &'a Files, name: &Name) -> Option<&'a File>
    ensures found { option_copied result ≡ file_named name.now files.now }
    ensures itself { IfSome result (λ file. file_named file.now.name files.now ≡ Some file.now) }
{
    files.with_name(name)
}
