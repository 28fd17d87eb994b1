//! Scripts of incarnations of the responder, as the command `replay` reads them: lines, what each says, and the incarnations
//! that they make.
#![tactic(auto)]

mod arrivals;
mod input;
mod line;
mod lines;
mod numbers;
mod pairs;
mod reading;
mod script;
mod statement;
mod words;

pub use input::ReadError;
pub use line::{Act, LinkKind, LinkLine, Statement, Stop};
pub use script::{Life, Script, Told, read_script};
pub use statement::statement_of;
