//! What commands print: lines, with the status that goes with them.
#![tactic(auto)]

mod printing;
mod status;

pub use printing::{append_bad_line, print};
pub use status::{
    BAD_LINE, DISK_FAULT, FULL, INPUT_FAULT, LINKS_FAULT, NO_MEMORY, NOT_A_STORE, OUTPUT_FAULT,
    USAGE,
};
