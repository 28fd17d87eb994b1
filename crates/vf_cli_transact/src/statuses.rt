//! The statuses of tasks.

/// A diagnostic refused the task.
pub(crate) const REFUSED: u8 = 1;

/// Each connection was lost or not had.
pub(crate) const BROKEN: u8 = 6;

/// What the other end said, or how much it said, is at fault.
pub(crate) const PEER_FAULT: u8 = 7;

/// The activity is in use.
pub(crate) const IN_USE: u8 = 13;
