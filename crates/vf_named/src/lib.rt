//! Lists of what has a name, in which entries are found by their names.
#![tactic(auto)]

mod file;
mod named;
mod names;

pub use named::{HasName, Named};
