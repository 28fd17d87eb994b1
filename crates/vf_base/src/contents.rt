ghost use Rattle.std.specs.Prelude.{◌≡◌, IfOk};

use crate::{NoMemory, Oid};
use std::alloc::Global;

/// The contents type of a file: a document type and its parameters (ISO 8571-2, document types).
#[derive(Drop)]
pub struct Contents {
    /// The object identifier of the document type.
    pub kind: Oid,
    /// The universal class of the strings.
    pub class: u8,
    /// The most octets of a string; 0 where there is no limit.
    pub longest: u32,
    /// The string significance: variable 0, fixed 1, not significant 2.
    pub significance: u8,
}

impl Contents {
    /// The same contents type.
    pub fn copy(&self, alloc: Global) -> Result<Contents, NoMemory>
        ensures { IfOk result (λ made. made ≡ self.now) }
    {
        let kind = self.kind.copy(alloc)?;
        Ok(Contents {
            kind,
            class: self.class,
            longest: self.longest,
            significance: self.significance,
        })
    }
}
