use crate::progress::Progress;

/// How a task was kept as a call began.
#[derive(Clone, Copy)]
pub(crate) struct Mark {
    /// None where it isn't kept, or not any more.
    pub(crate) kept: Option<u32>,
    pub(crate) progress: Progress,
}
