ghost use Rattle.std.specs.Prelude.{◌≡◌, IfOk};

use crate::Pieces;
use std::alloc::Global;
use vf_base::{Duplicate, Name, NoMemory};

/// Whether a task fetches a file or sends one.
#[derive(Clone, Copy, PartialEq, Eq)]
pub enum Way {
    Get = 1,
    Put = 2,
}

/// How far a task has come.
#[derive(Clone, Copy, Debug, PartialEq, Eq)]
pub enum Phase {
    New = 0,
    /// The file is about to be opened, or is open.
    Open = 1,
    /// A get has all elements.
    Whole = 2,
    /// The transfer has an outcome.
    Concluded = 3,
}

/// What the initiator keeps of a task with an activity (profile).
#[derive(Drop)]
pub struct Plan {
    /// 1 to 2,147,483,647.
    pub activity: u32,
    pub way: Way,
    /// The number of the document type: 1 to 3, for FTAM-1 to FTAM-3.
    pub kind: u8,
    /// The elements between two checkpoints, 1 to 10,000.
    pub every: u32,
    /// The file.
    pub file: Name,
    pub identity: Name,
    /// The number of the transfer, 1 to 1,000,000.
    pub number: u32,
    /// The last checkpoint that is acknowledged, 0 to 1,000,000.
    pub point: u32,
    pub phase: Phase,
    /// The outcome of the transfer: 0, or the number of its diagnostic.
    pub outcome: u16,
}

impl Plan {
    /// The same plan; the octets are shared.
    pub fn copy(&self, alloc: Global) -> Result<Plan, NoMemory>
        ensures { IfOk result (λ plan. plan ≡ self.now) }
    {
        let file = self.file.copy(alloc)?;
        let identity = self.identity.copy(alloc)?;
        Ok(Plan {
            activity: self.activity,
            way: self.way,
            kind: self.kind,
            every: self.every,
            file,
            identity,
            number: self.number,
            point: self.point,
            phase: self.phase,
            outcome: self.outcome,
        })
    }
}

/// A plan with its elements, in pieces: of a get those received, each piece ended by a checkpoint or by the end of the
/// data; of a put all that are to be sent, in one piece.
#[derive(Drop)]
pub struct Task {
    pub plan: Plan,
    pub staged: Pieces,
}

impl Task {
    /// The same task; the octets are shared.
    pub fn copy(&self, alloc: Global) -> Result<Task, NoMemory>
        ensures { IfOk result (λ task. task ≡ self.now) }
    {
        let plan = self.plan.copy(alloc)?;
        let staged = self.staged.copy(alloc)?;
        Ok(Task { plan, staged })
    }
}

impl Duplicate for Task {
    fn duplicate(&self, alloc: Global) -> Result<Task, NoMemory> {
        let made = self.copy(alloc)?;
        Ok(made)
    }
}
