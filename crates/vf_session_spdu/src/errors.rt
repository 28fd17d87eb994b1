ghost use Rattle.std.specs.Prelude.{◌≡◌};

use std::alloc::{AllocError, AllocFailed};
use vf_base::NoMemory;

/// What is wrong with the form of a TSDU's SPDUs. Places are offsets in the TSDU.
#[derive(Clone, Copy, Debug, PartialEq, Eq)]
pub enum SpduError {
    /// An SPDU identifier that the TSDU can't have at that place, at this octet; an empty TSDU, at 0.
    Code { at: u32 },
    /// A length that is cut off or passes what holds it, at its first octet; or octets after the last SPDU that
    /// the TSDU may hold, at the first of them.
    Length { at: u32 },
    /// A parameter that the SPDU must have; the lowest code of those that it lacks.
    Missing { code: u8 },
    /// A parameter of this code that isn't of its form.
    Value { code: u8 },
    /// Memory is wanting.
    NoMemory,
}

impl From<NoMemory> for SpduError {
    ghost use Rattle.vf_session_spdu.specs.declared.errors.SpduError.TheVariants as errors;

    ghost from_gives = { λ _ error. error ≡ errors.NoMemory };

    fn from(_error: NoMemory) -> SpduError {
        SpduError::NoMemory
    }
}

impl From<AllocError> for SpduError {
    ghost use Rattle.vf_session_spdu.specs.declared.errors.SpduError.TheVariants as errors;

    ghost from_gives = { λ _ error. error ≡ errors.NoMemory };

    fn from(_error: AllocError) -> SpduError {
        SpduError::NoMemory
    }
}

impl<T: Drop> From<AllocFailed<T>> for SpduError {
    ghost use Rattle.vf_session_spdu.specs.declared.errors.SpduError.TheVariants as errors;

    ghost from_gives = { λ _ error. error ≡ errors.NoMemory };

    fn from(_error: AllocFailed<T>) -> SpduError {
        SpduError::NoMemory
    }
}
