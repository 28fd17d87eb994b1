//! What is large and rare in a PDU, kept apart so that each PDU is small.
ghost use Rattle.std.specs.Prelude.{◌≡◌, IfOk};

use std::alloc::Global;
use std::marker::Model;
use vf_base::NoMemory;

/// A value on the heap: contracts see the value alone.
#[derive(Drop)]
pub struct Boxed<T: Drop> {
    kept: Box<T>,
}

impl<T: Drop> Model for Boxed<T> {
    ghost Value = { T };

    ghost view = { λ boxed. boxed.kept.value };
}

impl<T: Drop> Boxed<T> {
    pub fn new(alloc: Global, value: T) -> Result<Boxed<T>, NoMemory>
        ensures { IfOk result (λ made. made ≡ value) }
    {
        let kept = Box::new(alloc, value)?;
        Ok(Boxed { kept })
    }

    pub fn value(&self) -> &T
        ensures { result.now ≡ self.now }
    {
        &*self.kept
    }

    pub fn into_value(self) -> T
        ensures { result ≡ self }
    {
        let Boxed { kept } = self;
        Box::into_inner(kept)
    }
}
