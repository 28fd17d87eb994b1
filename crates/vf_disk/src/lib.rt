//! The disk model: what a disk gives and what a crash may leave of it, a disk in memory, and the adapter over a file.
#![tactic(auto)]

mod admitted;
mod crash_form;
mod disk;
mod file_disk;
mod file_rows;
mod laws;
mod limits;
mod memory_disk;
mod overwrite;
mod part;
mod parts;
mod plan;
mod replay;
mod step;

pub use crash_form::CrashForm;
pub use disk::Disk;
pub use file_disk::FileDisk;
pub use laws::{
    Outcome, calls_join, fewer_calls, goes_on, runs_join, runs_weaken, starts, steps_join,
    stop_leaves, synced_leaves,
};
pub use limits::{GREATEST_LENGTH, LEAST_SHARED};
pub use memory_disk::MemoryDisk;
pub use parts::Parts;
pub use step::Step;
