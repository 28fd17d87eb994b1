//! The record of changes, written.
mod changes;
mod contents;
mod elements;
mod fields;
mod files;
mod plans;
mod regimes;

pub use changes::write;
