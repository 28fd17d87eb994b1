//! A store of tables on a disk: what a commit changes stands on the disk whole or not at all, whenever a crash comes.
#![tactic(auto)]

mod commit;
mod counts;
mod reading;
mod room;
mod store;
mod writing;

pub use counts::Counts;
pub use store::Store;
pub use vf_journal::JournalError as StoreError;
