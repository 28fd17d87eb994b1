ghost use Rattle.std.specs.Prelude.{◌≡◌};
ghost use Rattle.vf_initiator.specs.Assignments.{every_in, file_in, kind_in, way_in};

use vf_base::{Elements, Name, Octets};
use vf_tables::Way;

/// What is done with one file of a filestore. The kind is the number of the file's document type, 1 to 3 for FTAM-1 to
/// FTAM-3; `every` is how many elements stand between two checkpoints, 1 to 10,000.
#[derive(Drop)]
pub enum Task {
    /// The file gets these contents; it is made where there is none of its name. At most 262,144 elements, with strings of
    /// at most 65,536 octets each, and of 16,777,216 together.
    Put {
        name: Name,
        kind: u8,
        every: u32,
        elements: Elements,
    },
    /// The contents of the file are received.
    Get {
        name: Name,
        kind: u8,
        every: u32,
    },
}

impl Task {
    pub(crate) fn way(&self) -> Way
        ensures { result ≡ way_in self.now }
    {
        match self {
            Task::Put { .. } => Way::Put,
            Task::Get { .. } => Way::Get,
        }
    }

    pub(crate) fn kind(&self) -> u8
        ensures { result ≡ kind_in self.now }
    {
        match self {
            Task::Put { kind, .. } => *kind,
            Task::Get { kind, .. } => *kind,
        }
    }

    pub(crate) fn every(&self) -> u32
        ensures { result ≡ every_in self.now }
    {
        match self {
            Task::Put { every, .. } => *every,
            Task::Get { every, .. } => *every,
        }
    }

    pub(crate) fn file(&self) -> &Name
        ensures { result.now ≡ file_in self.now }
    {
        match self {
            Task::Put { name, .. } => name,
            Task::Get { name, .. } => name,
        }
    }
}

/// A task, in whose name it is done, and whether it is kept.
pub struct Plan {
    pub task: Task,
    pub identity: Name,
    /// The identity's password, at most 255 octets.
    pub password: Option<Octets>,
    /// With an activity, 1 to 2147483647, the task is kept, and goes on after a connection that broke.
    pub activity: Option<u32>,
}

impl Drop for Plan {
    fn drop(self) {
        let Plan {
            task,
            identity,
            password,
            activity: _,
        } = self;
        drop(task);
        drop(identity);
        drop(password);
    }
}

/// How a task ended well.
#[derive(Clone, Copy, PartialEq, Eq)]
pub struct Report {
    /// The octets of the strings of the task's elements.
    pub octets: u64,
    /// The task was kept when it was taken up.
    pub resumed: bool,
}
