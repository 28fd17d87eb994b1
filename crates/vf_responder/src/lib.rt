//! The responder that serves many associations over one store, and the loop that serves links with it (ISO 8571; which links
//! stand, what shuts them and when changes are on the disk is profile).
#![tactic(auto)]

mod answering;
mod error;
mod event;
mod keeping;
mod laws;
mod link;
mod meaning;
mod opening;
mod replies;
mod responder;
mod sending;
mod serving;
mod spoken;

pub use error::ServeError;
pub use event::{Event, Reply};
pub use laws::{examples_compute, octets_may_be_cut, runs_are_filestore_runs};
pub use responder::Responder;
pub use serving::{Served, serve};
pub use spoken::Spoken;
pub use vf_store::StoreError as RespondError;
