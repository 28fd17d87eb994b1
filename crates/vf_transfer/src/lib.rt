//! Both ends of a transfer (ISO 8571-3): values, checkpoints, acknowledgements and restarts.
#![tactic(auto)]

mod checks;
mod errors;
mod laws;
mod receiving;
mod sending;

pub use errors::{TransferError, Unknown};
pub use laws::{last_is_offered, next_joins, point_stands, recovers};
pub use receiving::Receiving;
pub use sending::{SERIAL_NUMBERS, Sending};
