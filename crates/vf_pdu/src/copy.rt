//! Copies of PDUs, which share their octets.
ghost use Rattle.std.specs.Prelude.{◌≡◌, IfOk};

use crate::Pdu;
use crate::access::copy_access;
use crate::association::copy_association;
use crate::attribute::copy_attribute;
use crate::group::copy_group;
use crate::selection::copy_selection;
use crate::transfer::copy_transfer;
use std::alloc::Global;
use vf_base::{Duplicate, NoMemory};

impl Pdu {
    /// The same PDU; its octets are shared.
    pub fn copy(&self, alloc: Global) -> Result<Pdu, NoMemory>
        ensures { IfOk result (λ made. made ≡ self.now) }
    {
        let number = self.number();
        if number <= 5 {
            copy_association(alloc, self)
        } else if number <= 13 {
            copy_selection(alloc, self)
        } else if number <= 21 {
            copy_attribute(alloc, self)
        } else if number <= 27 {
            Ok(copy_group(self))
        } else if number <= 33 {
            Ok(copy_access(self))
        } else {
            Ok(copy_transfer(self))
        }
    }
}

impl Duplicate for Pdu {
    fn duplicate(&self, alloc: Global) -> Result<Pdu, NoMemory> {
        let made = self.copy(alloc)?;
        Ok(made)
    }
}
