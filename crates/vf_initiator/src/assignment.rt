ghost use Rattle.std.specs.Prelude.{◌≡◌, IfOk, option_copied};
ghost use Rattle.vf_initiator.specs.Assignments.{assignment_of, mode_of, row_of};

use crate::Plan;
use crate::progress::Progress;
use std::alloc::Global;
use vf_base::{Name, NoMemory};
use vf_tables::{Plan as KeptPlan, Task as KeptTask, Way};

/// What the initiator is to do, by a plan and the kept task: what stays the same over all of the task.
#[derive(Drop)]
pub(crate) struct Assignment {
    pub(crate) way: Way,
    pub(crate) kind: u8,
    pub(crate) every: u32,
    pub(crate) file: Name,
    pub(crate) identity: Name,
    pub(crate) activity: Option<u32>,
    /// The task was kept before, so that it may be under way at the other end.
    pub(crate) is_resumed: bool,
}

impl Assignment {
    /// That of a plan; of a task that is kept its identity and its `every` hold.
    pub(crate) fn of(
        alloc: Global,
        plan: &Plan,
        kept: Option<&KeptTask>,
    ) -> Result<Assignment, NoMemory>
        ensures { IfOk result (λ made. made ≡ assignment_of plan.now (option_copied kept.entry)) }
    {
        let file = plan.task.file().copy(alloc)?;
        let identity = identity_of(plan, kept).copy(alloc)?;
        Ok(Assignment {
            way: plan.task.way(),
            kind: plan.task.kind(),
            every: every_of(plan, kept),
            file,
            identity,
            activity: plan.activity,
            is_resumed: kept.is_some(),
        })
    }

    /// The action of the open regime, as a set: read 1 for a get, insert 2 for a put of records, and replace 4 for any other.
    pub(crate) fn mode(&self) -> u8
        ensures { result ≡ mode_of self.now }
    {
        match self.way {
            Way::Get => 1,
            Way::Put => { if self.kind == 2 { 2 } else { 4 } }
        }
    }

    /// The row of the task as it is kept under this activity.
    pub(crate) fn row(
        &self,
        alloc: Global,
        activity: u32,
        progress: Progress,
    ) -> Result<KeptPlan, NoMemory>
        ensures { IfOk result (λ made. made ≡ row_of self.now activity progress) }
    {
        let file = self.file.copy(alloc)?;
        let identity = self.identity.copy(alloc)?;
        Ok(KeptPlan {
            activity,
            way: self.way,
            kind: self.kind,
            every: self.every,
            file,
            identity,
            number: progress.number,
            point: progress.point,
            phase: progress.phase,
            outcome: progress.outcome,
        })
    }
}

fn identity_of<'a>(plan: &'a Plan, kept: Option<&'a KeptTask>) -> &'a Name
    ensures { result.now ≡ (assignment_of plan.now (option_copied kept.entry)).identity }
{
    match kept {
        Some(task) => &task.plan.identity,
        None => &plan.identity,
    }
}

fn every_of(plan: &Plan, kept: Option<&KeptTask>) -> u32
    ensures { result ≡ (assignment_of plan.now (option_copied kept.entry)).every }
{
    match kept {
        Some(task) => task.plan.every,
        None => plan.task.every(),
    }
}
