ghost use Rattle.std.specs.Prelude.{◌≡◌, IfOk};

use std::alloc::Global;
use vf_base::{Duplicate, NoMemory, Oid, Sequence};

/// A presentation context (ISO 8823, 6.2): its identifier and its abstract syntax.
#[derive(Drop)]
pub struct ContextEntry {
    pub id: i64,
    pub syntax: Oid,
}

/// Presentation contexts in order. Of two with one identifier the first counts.
pub type Contexts = Sequence<ContextEntry>;

/// A proposal of a presentation context.
#[derive(Drop)]
pub struct Offer {
    pub id: i64,
    pub syntax: Oid,
    /// The basic encoding rules are among the transfer syntaxes that are offered.
    pub ber: bool,
}

/// The proposals of a calling end, in order.
pub type Offers = Sequence<Offer>;

impl ContextEntry {
    /// An equal context.
    pub fn copy(&self, alloc: Global) -> Result<ContextEntry, NoMemory>
        ensures { IfOk result (λ made. made ≡ self.now) }
    {
        let syntax = self.syntax.copy(alloc)?;
        Ok(ContextEntry {
            id: self.id,
            syntax,
        })
    }
}

impl Duplicate for ContextEntry {
    fn duplicate(&self, alloc: Global) -> Result<ContextEntry, NoMemory> {
        let made = self.copy(alloc)?;
        Ok(made)
    }
}

impl Offer {
    /// An equal proposal.
    pub fn copy(&self, alloc: Global) -> Result<Offer, NoMemory>
        ensures { IfOk result (λ made. made ≡ self.now) }
    {
        let syntax = self.syntax.copy(alloc)?;
        Ok(Offer {
            id: self.id,
            syntax,
            ber: self.ber,
        })
    }
}

impl Duplicate for Offer {
    fn duplicate(&self, alloc: Global) -> Result<Offer, NoMemory> {
        let made = self.copy(alloc)?;
        Ok(made)
    }
}
