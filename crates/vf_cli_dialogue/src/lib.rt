//! The command `dialogue`: one party's messages over an empty filestore, from the lines that it reads to those that it
//! writes.
#![tactic(auto)]

mod answering;
mod block;
mod conversation;
mod hex;
mod lines;
mod message;
mod printed;

pub use answering::dialogue;
