//! The document types FTAM-1, FTAM-2 and FTAM-3 (ISO 8571-2): which data elements they take, and how these make
//! data units.
#![tactic(auto)]

mod checks;
mod doc_type;
mod errors;
mod units;

pub use doc_type::DocType;
pub use errors::DocError;
