//! Files as trees of FADUs (ISO 8571-2, file model): their data units, the actions on them, and what is shown.
#![tactic(auto)]

mod errors;
mod limits;
mod same;
mod tree;
mod units;

pub use errors::TreeError;
pub use limits::{MOST_FILE_OCTETS, MOST_FILE_PARTS};
pub use same::is_same_unit;
pub use tree::Tree;
pub use units::octets_of;
