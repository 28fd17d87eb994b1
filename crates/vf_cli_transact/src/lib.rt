//! The commands `put` and `get`: a task over a dial and the store on a disk, and the lines that tell how it ended.
#![tactic(auto)]

mod lines;
mod names;
mod statuses;
mod tasks;

pub use tasks::do_task;
