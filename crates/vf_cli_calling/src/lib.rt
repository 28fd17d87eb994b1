//! The calling ends that a script keeps on its links, and the lines that tell what is heard on links.
#![tactic(auto)]

mod base;
mod caller;
mod heard;
mod lines;
mod requests;

pub use caller::Caller;
pub use lines::{append_octets, append_shut};
