//! The command `generate`: files of drawn contents, made on the store of a disk by associations, one after another.
#![tactic(auto)]

mod contents;
mod generating;
mod numbers;
mod peer;
mod requests;

pub use generating::generate;
