//! The SPDUs of ISO 8327's kernel, duplex, minor synchronize and resynchronize, read and written by one table of their
//! parameters.
#![tactic(auto)]

mod errors;
mod kinds;
mod laws;
mod limits;
mod numbers;
mod parts;
mod reading;
mod spdu;
mod table;
mod writing;

pub use errors::SpduError;
pub use kinds::code_of;
pub use laws::written_is_read_again;
pub use limits::{LAST_SERIAL, MOST_CONNECT_OCTETS, MOST_PARAMETER_OCTETS};
pub use numbers::digit_count;
pub use reading::{fault_place, place_after_gt, read, read_shared};
pub use spdu::{Spdu, SpduFields};
pub use writing::{write, write_head};
