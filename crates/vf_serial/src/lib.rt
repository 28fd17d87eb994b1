//! Serial use of one file (ISO 8571-2, concurrency control; profile): what its open regimes perform leaves and shows
//! what it would one regime after another. Definitions stand in `specs/`.
#![tactic(auto)]

mod laws;
mod rows;

pub use laws::{
    Performing, files_are_serial, runs_are_orderly, runs_are_serial, runs_perform,
    schedules_are_serial,
};
pub use rows::{appends_compute, random_runs_compute};
