ghost use Rattle.std.specs.Prelude.{◌≡◌};
ghost use Rattle.vf_store_record.specs.declared.error.ReadError.TheVariants as errors;

use std::alloc::{AllocError, AllocFailed};
use vf_base::NoMemory;

/// Why octets aren't read.
#[derive(Clone, Copy)]
pub(crate) enum ReadError {
    /// They aren't of the grammar.
    Foreign,
    /// Memory is wanting.
    NoMemory,
}

impl From<NoMemory> for ReadError {
    ghost from_gives = { λ _ error. error ≡ errors.NoMemory };

    fn from(_error: NoMemory) -> ReadError {
        ReadError::NoMemory
    }
}

impl From<AllocError> for ReadError {
    ghost from_gives = { λ _ error. error ≡ errors.NoMemory };

    fn from(_error: AllocError) -> ReadError {
        ReadError::NoMemory
    }
}

impl<T: Drop> From<AllocFailed<T>> for ReadError {
    ghost from_gives = { λ _ error. error ≡ errors.NoMemory };

    fn from(_error: AllocFailed<T>) -> ReadError {
        ReadError::NoMemory
    }
}
