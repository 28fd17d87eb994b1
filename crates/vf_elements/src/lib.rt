//! Data elements as values of the basic encoding rules, and the messages of the file service with the stages that
//! take them (ISO 8571-4).
#![tactic(auto)]

mod elements;
mod kind;
mod laws;
mod length;
mod message;
mod reading;
mod stage;
mod writing;

pub use elements::of_value;
pub use laws::{
    meaning_has_no_fault, meaning_is_found, meaning_is_one, meaning_is_writable, value_is_within,
    value_means, written_is_read_again,
};
pub use length::spelled_length;
pub use message::{Message, Said};
pub use reading::message_of;
pub use stage::Stage;
pub use writing::to_value;
