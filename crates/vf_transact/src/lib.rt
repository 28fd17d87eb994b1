//! A task over a dial and a store: it is kept on the disk before its first octet leaves, goes on over connections that break,
//! and is dropped once it ended (ISO 8571-3, the initiator; what is kept and how often a connection is tried is profile).
#![tactic(auto)]

mod connecting;
mod cutting;
mod error;
mod keeping;
mod limits;
mod reading;
mod starting;
mod transacting;
mod words;
mod writing;

pub use error::TransactError;
pub use limits::STORE_LIMIT;
pub use transacting::transact;
pub use words::PlanWords;
