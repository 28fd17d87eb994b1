ghost use Rattle.std.specs.Prelude.{◌≡◌};
ghost use Rattle.vf_transact.specs.Starting.{refused as refused_meant};

use vf_base::{Diagnostic, NoMemory};
use vf_initiator::TaskError;
use vf_store::StoreError;

/// Why a task didn't end well.
#[derive(Clone, Copy, Debug, PartialEq, Eq)]
pub enum TransactError {
    /// The other end, or a limit: 22 and 23 of the input, 35 of the tasks that are kept.
    Task(TaskError),
    /// In each of so many connections a call of the dial failed, or the other end ended the stream.
    Broken { connections: u32 },
    /// A task of this activity is kept that is of another kind, of another file, or the other way.
    InUse,
    /// The input failed.
    InputFault,
    /// The output failed. A task with an activity stays kept.
    OutputFault,
    Store(StoreError),
    /// Memory is wanting.
    NoMemory,
}

impl TransactError {
    /// The task is refused with the number of this diagnostic.
    pub(crate) fn refused(number: u16) -> TransactError
        ensures { result ≡ refused_meant number }
    {
        TransactError::Task(TaskError::Refused(Diagnostic {
            number,
            first: 0,
            second: 0,
        }))
    }
}

impl From<NoMemory> for TransactError {
    ghost use Rattle.std.specs.Prelude.{◌≡◌};
    ghost use Rattle.vf_transact.specs.declared.error.TransactError.TheVariants as errors;

    ghost from_gives = { λ _ error. error ≡ errors.NoMemory };

    fn from(_error: NoMemory) -> TransactError {
        TransactError::NoMemory
    }
}

impl From<StoreError> for TransactError {
    ghost use Rattle.std.specs.Prelude.{◌≡◌};
    ghost use Rattle.vf_transact.specs.declared.error.TransactError.TheVariants as errors;

    ghost from_gives = { λ from error. error ≡ errors.Store from };

    fn from(error: StoreError) -> TransactError {
        TransactError::Store(error)
    }
}
