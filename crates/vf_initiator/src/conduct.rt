use crate::gathered::Gathered;
use crate::progress::Progress;
use crate::stage::Stage;

/// How an initiator stands on a connection.
#[derive(Drop)]
pub(crate) struct Conduct {
    pub(crate) stage: Stage,
    /// What is kept of the task, where it has an activity.
    pub(crate) progress: Progress,
    /// What a get has received.
    pub(crate) gathered: Gathered,
    pub(crate) agreed: Agreed,
    /// How many messages were in place.
    pub(crate) good: u32,
}

/// What an accepted association agreed (ISO 8571-3, F-INITIALIZE).
#[derive(Clone, Copy)]
pub(crate) struct Agreed {
    /// Checkpoints may be sent: the task has an activity, and restart or recovery is agreed.
    pub(crate) checks: bool,
    /// How many checkpoints may be open.
    pub(crate) window: u16,
}

/// What session says of a connection as a message comes (ISO 8327).
#[derive(Clone, Copy)]
pub(crate) struct Setting {
    /// The serial number of the next check.
    pub(crate) serial: u32,
    /// Sync is agreed, and this end has its token.
    pub(crate) token: bool,
}
