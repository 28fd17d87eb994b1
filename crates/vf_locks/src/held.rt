ghost use Rattle.std.specs.Prelude.{◌≡◌, IfOk};

use crate::Holder;
use std::alloc::Global;
use vf_base::{Controls, NoMemory};

/// A holder of a file with its controls.
#[derive(Drop)]
pub struct Held {
    pub holder: Holder,
    pub controls: Controls,
}

impl Held {
    /// The same holder with the same controls; a name's octets are shared.
    pub fn copy(&self, alloc: Global) -> Result<Held, NoMemory>
        ensures { IfOk result (λ held. held ≡ self.now) }
    {
        let holder = self.holder.copy(alloc)?;
        Ok(Held {
            holder,
            controls: self.controls,
        })
    }
}
