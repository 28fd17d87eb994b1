//! What a granted message does to the selected file, and what is answered of it (ISO 8571-2, actions on files; ISO
//! 8571-3; profile).
#![tactic(auto)]

mod acts;
mod attributes;
mod changing;
mod ending;
mod erasing;
mod numbers;
mod reading;
mod requests;
mod room;
mod selecting;
mod stamps;
mod terms;
mod writing;

pub use attributes::attributes_of;
pub use changing::changed;
pub use ending::{Ending, read_ending};
pub use erasing::erased;
pub use reading::{Reading, read_given};
pub use requests::{Write, Writing, write_given};
pub use selecting::selected;
pub use writing::write_ending;
