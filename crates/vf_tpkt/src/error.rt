ghost use Rattle.std.specs.Prelude.{◌≡◌};
ghost use Rattle.vf_tpkt.specs.declared.error.TpktError.TheVariants as errors;

use std::alloc::{AllocError, AllocFailed};
use vf_base::NoMemory;

/// What is wrong with a stream. Places are offsets in the whole stream; one that has reached the last number
/// of its type stays there.
#[derive(Clone, Copy, Debug, PartialEq, Eq)]
pub enum TpktError {
    /// A packet's first octet isn't 03, or its second isn't 00 (RFC 1006, 6). The place is that octet.
    Version { at: u64 },
    /// A packet's length below 7, at the octet that decides it; or a length of a TPDU, at its first octet.
    Length { at: u64 },
    /// A TPDU of no listed code, or a wrong fixed octet in one. The place is the TPDU's first octet.
    Code { at: u64, code: u8 },
    /// A TPDU that may not come now. The place is its first octet.
    State { at: u64, code: u8 },
    /// The TPDU by which a TSDU passes 1,048,576 octets. The place is its first octet.
    Size { at: u64 },
    /// Memory is wanting.
    NoMemory,
}

impl From<NoMemory> for TpktError {
    ghost from_gives = { λ _ error. error ≡ errors.NoMemory };

    fn from(_error: NoMemory) -> TpktError {
        TpktError::NoMemory
    }
}

impl From<AllocError> for TpktError {
    ghost from_gives = { λ _ error. error ≡ errors.NoMemory };

    fn from(_error: AllocError) -> TpktError {
        TpktError::NoMemory
    }
}

impl<T: Drop> From<AllocFailed<T>> for TpktError {
    ghost from_gives = { λ _ error. error ≡ errors.NoMemory };

    fn from(_error: AllocFailed<T>) -> TpktError {
        TpktError::NoMemory
    }
}
