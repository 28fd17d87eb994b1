use vf_base::Diagnostic;
use vf_stack::{FaultName, Layer};

/// Why a task failed.
#[derive(Clone, Copy, Debug, PartialEq, Eq)]
pub enum TaskError {
    /// The task ended with this diagnostic (ISO 8571-3): the other end's, or one of this end's own, as 22 and 23 of an input
    /// and 35 of a store without room. Of an outcome that was kept, or told as the last one, it is the number alone.
    Refused(Diagnostic),
    /// What the other end sent is at fault.
    PeerFault {
        layer: Layer,
        name: FaultName,
        at: u64,
    },
    /// The other end aborted, with this number, or without one, which is 0.
    PeerAbort {
        number: u16,
    },
    /// After so many messages that were in place, one wasn't, or the other end released the connection.
    OutOfPlace {
        after: u32,
    },
    /// The connection gave 1,073,741,824 octets.
    Budget,
}

/// How a task stands.
#[derive(Clone, Copy, PartialEq, Eq)]
pub enum Doing {
    Going,
    /// It ended well.
    Ended,
    Failed(TaskError),
}
