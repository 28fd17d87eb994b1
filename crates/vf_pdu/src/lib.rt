//! The PDUs of FTAM (ISO 8571-4) as values of the basic encoding rules.
#![tactic(auto)]

mod access;
mod association;
mod attribute;
mod boxed;
mod copy;
mod group;
mod laws;
mod number;
mod pdu;
mod range;
mod read;
mod selection;
mod transfer;
mod write;

pub use boxed::Boxed;
pub use laws::{
    forms_have_one_content, meaning_has_no_fault, meaning_is_computed, meaning_is_in_range,
    meaning_is_one, value_is_short, value_is_within, value_means, written_is_read_again,
};
pub use pdu::Pdu;
pub use range::is_in_range;
pub use read::of_value;
pub use vf_pdu_fields::{AttributeControls, ContentControls, PduError, WriteOperation};
pub use vf_pdu_parameters::{Attributes, Grant, Grants, Stamp};
pub use write::to_value;
