ghost use Rattle.std.specs.Prelude.{◌≡◌};
ghost use Rattle.vf_attr.specs.Attributes.{with_attributes};

use crate::{File, Stamp};
use vf_base::{Actions, Contents, Name, Terms};

/// The attributes of a file (ISO 8571-2, file attributes), without its name and its contents.
#[derive(Drop)]
pub struct Attributes {
    pub permitted: Actions,
    pub contents: Contents,
    pub terms: Terms,
    pub created: Stamp,
    pub modified: Option<Stamp>,
    pub read: Option<Stamp>,
    pub changed: Option<Stamp>,
    pub version: u32,
}

impl File {
    /// Puts attributes in the place of the file's own. Its name and its contents stay.
    pub fn set_attributes(&mut self, attributes: Attributes)
        ensures { self.new ≡ with_attributes attributes self.old }
    {
        self.permitted = attributes.permitted;
        self.contents = attributes.contents;
        self.terms = attributes.terms;
        self.created = attributes.created;
        self.modified = attributes.modified;
        self.read = attributes.read;
        self.changed = attributes.changed;
        self.version = attributes.version;
    }
}
