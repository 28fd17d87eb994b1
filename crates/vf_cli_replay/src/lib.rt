//! The command `replay`: a script of incarnations of the responder, each over the disk that the one before it left, and what
//! is heard on its links.
#![tactic(auto)]

mod ends;
mod halt;
mod hearing;
mod incarnation;
mod links;
mod replaying;
mod saying;

pub use replaying::replay;
