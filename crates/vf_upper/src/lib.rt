//! Presentation (ISO 8823) and ACSE (ISO 8650) as this profile carries them.
#![tactic(auto)]

mod acse;
mod conclusion;
mod contexts;
mod errors;
mod holding;
mod laws;
mod lengths;
mod negotiated;
mod placed;
mod plain;
mod presentation;
mod primitive;
mod reading;
mod results;
mod sizes;
mod values;
mod writing;

pub use contexts::{ContextEntry, Contexts, Offer, Offers};
pub use errors::UpperError;
pub use laws::{
    resynchronizations_are_read_again, small_values_have_room, the_least_fault_is_answered,
    what_is_read_is_meant, written_is_read_again,
};
pub use lengths::{acceptance_length, data_length, refusal_length};
pub use placed::is_writable;
pub use plain::put_front;
pub use primitive::Primitive;
pub use reading::{read, read_shared};
pub use results::Results;
pub use values::{CarriedValue, CarriedValues};
pub use writing::write;
