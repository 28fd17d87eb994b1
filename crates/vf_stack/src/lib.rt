//! The four lower layers of one end of an association as one: transport, session, presentation with ACSE, and the carriage
//! of FTAM's PDUs and data elements by them (ISO 8571-4).
#![tactic(auto)]

mod carriage;
mod contexts;
mod ending;
mod exchange;
mod fault;
mod indication;
mod laws;
mod lengths;
mod may;
mod placing;
mod request;
mod stack;
mod string;
mod told;
mod unit;
mod writing;

pub use ending::Ending;
pub use indication::{FaultName, Indication, Item, Layer};
pub use laws::{
    examples_compute, few_octets_tell_last, identifiers_mean_one_context, octets_tell_once,
    octets_tell_the_piece, pieces_tell_all, requests_are_received, requests_tell_themselves,
    sent_is_received, told_was_read,
};
pub use request::Request;
pub use stack::Stack;
