ghost use Rattle.std.specs.Prelude.{◌≡◌, IfOk};
ghost use Rattle.vf_attr.specs.Attributes.{is_same_stamp};

use std::alloc::Global;
use vf_base::{Duplicate, Moment, Name, NoMemory};

/// When something was done to a file, and by whom (ISO 8571-2, date and time and identity attributes).
#[derive(Drop)]
pub struct Stamp {
    pub moment: Moment,
    pub identity: Name,
}

impl Stamp {
    /// The same stamp; the octets of its name are shared.
    pub fn copy(&self, alloc: Global) -> Result<Stamp, NoMemory>
        ensures { IfOk result (λ stamp. stamp ≡ self.now) }
    {
        let identity = self.identity.copy(alloc)?;
        Ok(Stamp {
            moment: self.moment,
            identity,
        })
    }

    /// Whether the other stamp has the same moment and the same identity.
    pub fn is_same(&self, other: &Stamp) -> bool
        ensures { result ≡ is_same_stamp self.now other.now }
    {
        self.moment == other.moment && self.identity == other.identity
    }
}

impl Duplicate for Stamp {
    fn duplicate(&self, alloc: Global) -> Result<Stamp, NoMemory> {
        let made = self.copy(alloc)?;
        Ok(made)
    }
}
