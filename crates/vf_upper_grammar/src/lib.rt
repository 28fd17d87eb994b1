//! What the user data of session SPDUs say by the grammar of presentation (ISO 8823) and ACSE (ISO 8650), as this
//! profile restates it: the identifiers, names and values in the order of octets, or the place of the first fault.
#![tactic(auto)]

mod fields;
mod finding;
mod form;
mod held;
mod labels;
mod laws;
mod leaf;
mod marks;
mod parts;
mod segments;
mod syntaxes;
mod table;
mod text;
mod values;
mod walk;

pub use finding::find;
pub use labels::{NameLabel, NumberLabel};
pub use laws::{the_least_fault_is_told, what_is_found_is_meant};
pub use marks::{Mark, Marks, Stop};
pub use syntaxes::{is_acse, is_ber, is_ftam, is_ours, is_pci};
