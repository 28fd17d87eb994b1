//! A file is found by its name.
use crate::HasName;
use vf_attr::File;
use vf_base::Name;

impl HasName for File {
    ghost name_of = { λ file. file.name };

    fn name(&self) -> &Name {
        &self.name
    }
}
