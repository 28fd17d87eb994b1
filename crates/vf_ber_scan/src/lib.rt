//! Where the octets of a value end or become a fault (ISO 8825), in whatever pieces they come: each octet is looked
//! at once.
#![tactic(auto)]

mod frames;
mod place;
mod scan;
mod step;
mod whole;

pub use scan::Scan;
pub use whole::whole_in;
