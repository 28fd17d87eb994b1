ghost use Rattle.std.specs.Prelude.{◌≡◌};
ghost use Rattle.vf_journal.specs.declared.error.JournalError.TheVariants as errors;

use std::alloc::{AllocError, AllocFailed};
use vf_base::{Failed, NoMemory};

/// Why a journal can't be opened or written.
#[derive(Clone, Copy, Debug, PartialEq, Eq)]
pub enum JournalError {
    /// The disk holds no journal: at this place stands another octet than the layout has, or none.
    NotAStore {
        at: u64,
        found: Option<u8>,
        expected: u8,
    },
    /// The record with its gate would end at `length`, past `limit` octets.
    Full {
        length: u64,
        limit: u64,
    },
    /// A call of the disk failed. Its count of faults rose in this call.
    DiskFault,
    /// Memory is wanting.
    NoMemory,
}

impl From<Failed> for JournalError {
    ghost from_gives = { λ _ error. error ≡ errors.DiskFault };

    fn from(_error: Failed) -> JournalError {
        JournalError::DiskFault
    }
}

impl From<NoMemory> for JournalError {
    ghost from_gives = { λ _ error. error ≡ errors.NoMemory };

    fn from(_error: NoMemory) -> JournalError {
        JournalError::NoMemory
    }
}

impl From<AllocError> for JournalError {
    ghost from_gives = { λ _ error. error ≡ errors.NoMemory };

    fn from(_error: AllocError) -> JournalError {
        JournalError::NoMemory
    }
}

impl<T: Drop> From<AllocFailed<T>> for JournalError {
    ghost from_gives = { λ _ error. error ≡ errors.NoMemory };

    fn from(_error: AllocFailed<T>) -> JournalError {
        JournalError::NoMemory
    }
}
