//! The fields of FTAM's PDUs (ISO 8571-4) and data elements, taken from the parts of a value in the order of their
//! tags: how rows of fields are written down, what values mean by them, and the fields that are primitive.
#![tactic(auto)]

mod controls;
mod errors;
mod field;
mod fields;
mod limits;
mod numbers;
mod operation;
mod parts;
mod ranges;
mod simple;
mod writing;

pub use controls::{AttributeControls, ContentControls};
pub use errors::PduError;
pub use field::Field;
pub use fields::{boolean_or, fadu, fadu_or_begin, natural, natural_or, optional};
pub use limits::{MOST_ACTIVITY, MOST_ITEMS, MOST_PLACE, MOST_POINT, MOST_TEXT_OCTETS, MOST_UNIT};
pub use numbers::{actions_of, context_of, natural_in, operation_of, small};
pub use operation::WriteOperation;
pub use parts::{close, end, take};
pub use ranges::{is_fadu, is_within, maybe_in_range, maybe_within};
pub use writing::{
    context, put_attribute_controls, put_boolean_or, put_content_controls, put_context_or_ua,
    put_fadu, put_fadu_or_begin, put_integer, put_integer_or, put_maybe_actions, put_maybe_integer,
    put_maybe_natural, put_maybe_string, put_maybe_text, put_operation, put_string, put_text,
};
