use crate::resync::PendingResync;
use crate::{Phase, TokenSide};

/// Where a session connection stands.
#[derive(Clone, Copy)]
pub struct SessionState {
    pub phase: Phase,
    /// Sync, minor synchronize and resynchronize, was proposed.
    pub proposed: bool,
    /// Sync was agreed.
    pub agreed: bool,
    /// The first serial number.
    pub first: u32,
    /// The number of the next check; 1,000,000 where there can be none.
    pub next: u32,
    /// The oldest check without an acknowledgement, or `next`.
    pub oldest: u32,
    /// The end that has the token.
    pub token: TokenSide,
    /// The RS that has no RA yet.
    pub resync: Option<PendingResync>,
}
