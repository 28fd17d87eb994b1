//! Concurrency control of ISO 8571: which holders of a file exclude what others ask for.
#![tactic(auto)]

mod clash;
mod conflict;
mod counts;
mod file_holders;
mod held;
mod holder;
mod laws;
mod locks;
mod search;

pub use conflict::{Conflict, GrantError};
pub use counts::HeldCounts;
pub use held::Held;
pub use holder::Holder;
pub use laws::{stay_ordered, told_by_controls};
pub use locks::Locks;
