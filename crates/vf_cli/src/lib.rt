//! The top call of the program, which runs the command that its words ask for.
#![tactic(auto)]

mod kept;
mod laws;
mod task;
mod top;

pub use laws::tasks_are_in_range;
pub use top::ftam;
pub use vf_cli_words::{Command, Wanted, WordsError, parse, wanted};
