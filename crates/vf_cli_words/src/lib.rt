//! The words of a command line: which command they ask for, with which options.
#![tactic(auto)]

mod command;
mod options;
mod words;

pub use command::{Command, Wanted};
pub use options::{Key, Options, Range};
pub use words::{AskedWords, Drawn, WordsError, asked, drawn_by, parse, wanted};
