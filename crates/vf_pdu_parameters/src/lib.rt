//! The parameters of FTAM's PDUs (ISO 8571-4) that have fields of their own: diagnostics, contents types, access
//! control lists and attributes of files.
#![tactic(auto)]

mod attributes_read;
mod contents_types;
mod date;
mod diagnostics;
mod file_attributes;
mod inner;
mod items;
mod laws;
mod lists;
mod parameters;
mod stamps;
mod writing;
mod writing_attributes;

pub use file_attributes::{Attributes, Grant, Grants, Stamp};
pub use laws::{dates_are_moments, moments_are_dates};
pub use lists::{put_maybe_list, put_terms_or_none, terms_or_none};
pub use parameters::{Parameter, is_parameter, optional_parameter};
pub use writing::{put_contents, put_diagnostic, put_maybe_contents};
pub use writing_attributes::put_maybe_attributes;
