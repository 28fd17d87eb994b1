//! One end of an association that puts a file or gets one (ISO 8571-3, the initiator; what it says is profile): its task,
//! and how far a task with an activity is kept, so that it goes on over connections that break.
#![tactic(auto)]

mod answers;
mod assignment;
mod association;
mod changes;
mod closing;
mod conduct;
mod doing;
mod gathered;
mod given;
mod heard;
mod initiator;
mod laws;
mod mark;
mod plan;
mod progress;
mod receiving;
mod recovery;
mod requests;
mod selection;
mod sending;
mod stage;

pub use doing::{Doing, TaskError};
pub use initiator::Initiator;
pub use laws::{examples_compute, tasks_are_kept};
pub use plan::{Plan, Report, Task};
pub use vf_tables::Task as KeptTask;
