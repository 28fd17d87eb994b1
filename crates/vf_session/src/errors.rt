ghost use Rattle.std.specs.Prelude.{◌≡◌};

use std::alloc::{AllocError, AllocFailed};

/// Why an SPDU of good form was refused.
#[derive(Clone, Copy, Debug, PartialEq, Eq)]
pub enum SessionError {
    /// An SPDU that may not come now; its identifier.
    State { spdu: u8 },
    /// A serial number other than the one expected, or outside what is expected.
    Serial { expected: u32, found: u32 },
    /// A check by, or a token passed by, an end that hasn't the token.
    Token,
    /// Memory is wanting.
    NoMemory,
}

impl From<AllocError> for SessionError {
    ghost use Rattle.vf_session.specs.declared.errors.SessionError.TheVariants as errors;

    ghost from_gives = { λ _ error. error ≡ errors.NoMemory };

    fn from(_error: AllocError) -> SessionError {
        SessionError::NoMemory
    }
}

impl<T: Drop> From<AllocFailed<T>> for SessionError {
    ghost use Rattle.vf_session.specs.declared.errors.SessionError.TheVariants as errors;

    ghost from_gives = { λ _ error. error ≡ errors.NoMemory };

    fn from(_error: AllocFailed<T>) -> SessionError {
        SessionError::NoMemory
    }
}
