ghost use Rattle.std.specs.Prelude.{◌≡◌, IfOk};

use crate::{Contents, Name, NoMemory, Octets, Sequence};
use std::alloc::Global;

/// A type whose values can be copied where memory is there, so that lists and options of them can be.
pub trait Duplicate: Drop {
    /// An equal value; octets are shared and not copied.
    fn duplicate(&self, alloc: Global) -> Result<Self, NoMemory>
        ensures { IfOk result (λ made. made ≡ self.now) };
}

impl Duplicate for Octets {
    fn duplicate(&self, alloc: Global) -> Result<Octets, NoMemory> {
        let made = self.copy(alloc)?;
        Ok(made)
    }
}

impl Duplicate for Name {
    fn duplicate(&self, alloc: Global) -> Result<Name, NoMemory> {
        let made = self.copy(alloc)?;
        Ok(made)
    }
}

impl Duplicate for Contents {
    fn duplicate(&self, alloc: Global) -> Result<Contents, NoMemory> {
        let made = self.copy(alloc)?;
        Ok(made)
    }
}

impl<T: Duplicate> Duplicate for Sequence<T> {
    fn duplicate(&self, alloc: Global) -> Result<Sequence<T>, NoMemory> {
        let made = self.copy(alloc)?;
        Ok(made)
    }
}

/// An equal option.
pub fn copy_option<T: Duplicate>(alloc: Global, option: &Option<T>) -> Result<Option<T>, NoMemory>
    ensures { IfOk result (λ made. made ≡ option.now) }
{
    match option {
        Some(value) => {
            let made = value.duplicate(alloc)?;
            Ok(Some(made))
        }
        None => Ok(None),
    }
}
