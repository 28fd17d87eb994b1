ghost use Rattle.std.specs.Prelude.{◌≡◌};
ghost use Rattle.vf_transact.specs.Starting.{connections_of, way_of};

use vf_base::{Name, Octets};
use vf_tables::Way;

/// What is to be done, before the input is read.
#[derive(Drop)]
pub struct PlanWords {
    /// The file gets the input; else its contents are received.
    pub put: bool,
    /// The file.
    pub name: Name,
    /// The number of the file's document type: 1 to 3, for FTAM-1 to FTAM-3.
    pub kind: u8,
    /// How many elements stand between two checkpoints: 1 to 10,000.
    pub every: u32,
    pub identity: Name,
    /// At most 255 octets.
    pub password: Option<Octets>,
    /// With an activity, 1 to 2,147,483,647, the task is kept.
    pub activity: Option<u32>,
    /// A task with an activity is tried on so many connections after the first one: 0 to 100.
    pub tries: u32,
}

impl PlanWords {
    pub(crate) fn way(&self) -> Way
        ensures { result ≡ way_of self.now }
    {
        if self.put { Way::Put } else { Way::Get }
    }

    /// How many connections are tried at most: without an activity one.
    pub(crate) fn connections(&self) -> u32
        ensures { result ≡ connections_of self.now }
    {
        match self.activity {
            Some(_) => self.tries.saturating_add(1),
            None => 1,
        }
    }
}
