//! A journal of records on a disk, in two areas of which one is selected: a crash at any moment leaves all records,
//! or all but the one in progress.
#![tactic(auto)]

mod area;
mod built;
mod device;
mod error;
mod head;
mod journal;
mod laws;
mod layout;
mod placing;
mod reading;

pub use area::Area;
pub use built::{built_area, built_entry, end_record};
pub use error::JournalError;
pub use journal::Journal;
pub use laws::{built_lengths, held_is_read, new_holds_none, planned_fits, unplanned_end};
pub use layout::{MOST_LATER_OCTETS, MOST_RECORD_OCTETS};
pub use placing::Placing;
