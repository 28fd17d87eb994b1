use std::alloc::{AllocError, AllocFailed};

/// Memory is wanting.
#[derive(Clone, Copy, Debug, PartialEq, Eq)]
pub struct NoMemory;

impl From<AllocError> for NoMemory {
    fn from(_error: AllocError) -> NoMemory {
        NoMemory
    }
}

impl<T: Drop> From<AllocFailed<T>> for NoMemory {
    fn from(_error: AllocFailed<T>) -> NoMemory {
        NoMemory
    }
}

/// A call of an object of the outside that failed. That object's count of faults rose in the call.
#[derive(Clone, Copy, Debug, PartialEq, Eq)]
pub struct Failed;

/// Why a source could not be read.
#[derive(Clone, Copy, Debug, PartialEq, Eq)]
pub enum ReadFault {
    /// The source failed, and its count rose in this call.
    Failed,
    /// Memory is wanting.
    NoMemory,
}

/// Why octets, arcs or seconds could not be made a plain value.
#[derive(Clone, Copy, Debug, PartialEq, Eq)]
pub enum BaseError {
    /// Not 1 to 255 octets, or an octet outside 0x20 to 0x7E.
    BadName,
    /// Not 2 to 16 arcs, or an arc outside its range.
    BadOid,
    /// A moment after the year 9999.
    BadMoment,
    /// Memory is wanting.
    NoMemory,
}

impl From<NoMemory> for BaseError {
    ghost use Rattle.std.specs.Prelude.{◌≡◌};
    ghost use Rattle.vf_base.specs.declared.errors.BaseError.TheVariants as errors;

    ghost from_gives = { λ _ error. error ≡ errors.NoMemory };

    fn from(_error: NoMemory) -> BaseError {
        BaseError::NoMemory
    }
}
