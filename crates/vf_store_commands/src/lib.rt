//! The commands over a store: what they read, what they do to the disk, and the lines that they print.
#![tactic(auto)]

mod docket_lines;
mod docket_listing;
mod dropping;
mod error_lines;
mod file_lines;
mod initializing;
mod limits;
mod listing;
mod making;
mod user_lines;

pub use docket_listing::dockets;
pub use dropping::{KeptEntry, drop_kept};
pub use error_lines::print_error;
pub use file_lines::text_of_files;
pub use initializing::init;
pub use limits::STORE_LIMIT;
pub use listing::list;
