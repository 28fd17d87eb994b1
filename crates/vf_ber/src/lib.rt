//! Values in the basic encoding rules (ISO 8825).
#![tactic(auto)]

mod contents;
mod contents_laws;
mod errors;
mod fault;
pub mod fitting;
mod header;
mod laws;
mod limits;
mod measure;
mod primitive;
mod reader;
mod room;
mod segments;
mod tag;
mod value;
mod writing;

pub use contents::integer_len;
pub use contents_laws::{
    booleans_are_read, integers_are_read, integers_are_spelled, oids_are_read, oids_are_spelled,
};
pub use errors::{BerError, WriteError};
pub use laws::{
    no_spelling_goes_on, octets_have_a_reading, octets_have_one_reading, octets_spell_one_value,
    written_is_read_again,
};
pub use limits::MOST_DEPTH;
pub use measure::spelled_len;
pub use primitive::{boolean, integer, integer_from, oid, oid_from};
pub use reader::{read, read_shared};
pub use segments::octets;
pub use tag::Tag;
pub use value::{Value, Values};
pub use writing::write;
