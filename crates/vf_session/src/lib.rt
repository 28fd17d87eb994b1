//! Session of ISO 8327: kernel, duplex, minor synchronize and resynchronize, both ends.
#![tactic(auto)]

mod advance;
mod errors;
mod laws;
mod meaning;
mod parameters;
mod phase;
mod resync;
mod sending;
mod session;
mod spdus;
mod state;
mod units;

pub use errors::SessionError;
pub use laws::{allowed_traces_are_kept, sent_is_received};
pub use meaning::SpduMeaning;
pub use parameters::SayParameters;
pub use phase::Phase;
pub use resync::PendingResync;
pub use session::Session;
pub use state::SessionState;
pub use units::{ResyncKind, SessionOut, SessionSay, TokenSide};
pub use vf_session_spdu::{
    Spdu, SpduError, SpduFields, fault_place, place_after_gt, read, read_shared, write, write_head,
    written_is_read_again,
};
