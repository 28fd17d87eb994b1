use crate::{ResyncKind, TokenSide};

/// A resynchronization that was asked for.
#[derive(Clone, Copy)]
pub struct PendingResync {
    /// Who sent the RS.
    pub from: TokenSide,
    pub kind: ResyncKind,
    pub serial: u32,
    /// Who has the token after it, where the RS names one.
    pub token: Option<TokenSide>,
}
