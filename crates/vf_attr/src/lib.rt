//! Files of the virtual filestore (ISO 8571-2): their attributes, who may do what to them, and changes of attributes.
#![tactic(auto)]

mod access;
mod attributes;
mod changes;
mod errors;
mod file;
mod stamp;

pub use access::may;
pub use attributes::Attributes;
pub use changes::{AttributeChange, change};
pub use errors::{AccessError, ChangeError};
pub use file::File;
pub use stamp::Stamp;
