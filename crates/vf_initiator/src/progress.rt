ghost use Rattle.std.specs.Prelude.{◌≡◌, option_copied};
ghost use Rattle.vf_initiator.specs.Assignments.{new_progress, progress_of};
ghost use Rattle.std.specs.Option.{option_map};

use vf_tables::{Phase, Task as KeptTask};

/// How far a task has come: what may differ between two times at which it is kept.
#[derive(Clone, Copy, PartialEq, Eq)]
pub(crate) struct Progress {
    /// The number of the transfer, from 1 on.
    pub(crate) number: u32,
    /// The last checkpoint that is acknowledged; 0 is the start.
    pub(crate) point: u32,
    pub(crate) phase: Phase,
    /// 0, or the number of the diagnostic with which the transfer ended.
    pub(crate) outcome: u16,
}

impl Progress {
    /// That of a task of which nothing is done.
    pub(crate) fn new() -> Progress
        ensures { result ≡ new_progress }
    {
        Progress {
            number: 1,
            point: 0,
            phase: Phase::New,
            outcome: 0,
        }
    }

    /// That of a task that is kept; of one that isn't nothing is done.
    pub(crate) fn of(kept: Option<&KeptTask>) -> Progress
        ensures { result ≡ progress_of (option_copied kept.entry) }
    {
        match kept {
            None => Progress::new(),
            Some(task) => Progress {
                number: task.plan.number,
                point: task.plan.point,
                phase: task.plan.phase,
                outcome: task.plan.outcome,
            },
        }
    }
}
