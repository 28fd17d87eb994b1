ghost use Rattle.std.specs.Prelude.{◌≡◌, IfOk};
ghost use Rattle.vf_attr.specs.Attributes.{attributes_of};

use crate::{Attributes, Stamp};
use std::alloc::Global;
use vf_base::{Actions, Contents, Name, NoMemory, Terms, copy_option};
use vf_tree::Tree;

/// A file with its attributes (ISO 8571-2, file attributes).
pub struct File {
    pub name: Name,
    /// What may be done to the file at all.
    pub permitted: Actions,
    pub contents: Contents,
    /// The access control list; without terms everybody may do what is permitted.
    pub terms: Terms,
    pub created: Stamp,
    /// The last change of the contents.
    pub modified: Option<Stamp>,
    /// The last read of the contents.
    pub read: Option<Stamp>,
    /// The last change of attributes.
    pub changed: Option<Stamp>,
    /// 1 at the creation, and one more with each change of the contents (profile).
    pub version: u32,
    pub tree: Tree,
}

impl Drop for File {
    fn drop(self) {
        let File {
            name,
            permitted: _,
            contents,
            terms,
            created,
            modified,
            read,
            changed,
            version: _,
            tree,
        } = self;
        drop(name);
        drop(contents);
        drop(terms);
        drop(created);
        drop(modified);
        drop(read);
        drop(changed);
        drop(tree);
    }
}

impl File {
    /// An equal file, which shares the units of the tree.
    pub fn copy(&self, alloc: Global) -> Result<File, NoMemory>
        ensures { IfOk result (λ file. file ≡ self.now) }
    {
        let name = self.name.copy(alloc)?;
        let contents = self.contents.copy(alloc)?;
        let terms = self.terms.copy(alloc)?;
        let created = self.created.copy(alloc)?;
        let modified = copy_option(alloc, &self.modified)?;
        let read = copy_option(alloc, &self.read)?;
        let changed = copy_option(alloc, &self.changed)?;
        let tree = self.tree.copy(alloc)?;
        Ok(File {
            name,
            permitted: self.permitted,
            contents,
            terms,
            created,
            modified,
            read,
            changed,
            version: self.version,
            tree,
        })
    }

    /// The name and the other attributes; the contents go.
    pub fn into_attributes(self) -> (Name, Attributes)
        ensures { result ≡ (self.name, attributes_of self) }
    {
        let File {
            name,
            permitted,
            contents,
            terms,
            created,
            modified,
            read,
            changed,
            version,
            tree,
        } = self;
        drop(tree);
        let attributes = Attributes {
            permitted,
            contents,
            terms,
            created,
            modified,
            read,
            changed,
            version,
        };
        (name, attributes)
    }
}
