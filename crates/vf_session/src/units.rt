ghost use Rattle.std.specs.Prelude.{◌≡◌, IfOk};

use std::alloc::Global;
use vf_base::{NoMemory, Octets};

/// The end of an association that has a token.
#[derive(Clone, Copy, PartialEq, Eq)]
pub enum TokenSide {
    /// The calling end.
    Initiator,
    /// The called end.
    Responder,
}

/// What a resynchronization does to the transfer (ISO 8327, 5.4.8).
#[derive(Clone, Copy, PartialEq, Eq)]
pub enum ResyncKind {
    Restart,
    Abandon,
}

/// What one end says on a session connection. Data are the user data, none where they are empty; serial numbers
/// are 0 to 999,999.
#[derive(Drop)]
pub enum SessionSay {
    Connect {
        sync: bool,
        serial: u32,
        data: Octets,
    },
    Accept {
        sync: bool,
        serial: u32,
        data: Octets,
    },
    Refuse {
        data: Octets,
    },
    Finish {
        data: Octets,
    },
    Finished {
        data: Octets,
    },
    /// `pass` tells whether the GT before passes the token.
    Data {
        pass: bool,
        data: Octets,
    },
    Check {
        serial: u32,
    },
    Acknowledge {
        serial: u32,
    },
    Resync {
        kind: ResyncKind,
        serial: u32,
        token: Option<TokenSide>,
        data: Octets,
    },
    Resynced {
        serial: u32,
        token: Option<TokenSide>,
        data: Octets,
    },
    Abort {
        data: Octets,
    },
    /// The token passes to this end.
    Token {
        to: TokenSide,
    },
}

impl SessionSay {
    /// An equal unit; its octets are shared.
    pub fn copy(&self, alloc: Global) -> Result<SessionSay, NoMemory>
        ensures { IfOk result (λ made. made ≡ self.now) }
    {
        match self {
            SessionSay::Connect { sync, serial, data } => {
                let data = data.copy(alloc)?;
                Ok(SessionSay::Connect {
                    sync: *sync,
                    serial: *serial,
                    data,
                })
            }
            SessionSay::Accept { sync, serial, data } => {
                let data = data.copy(alloc)?;
                Ok(SessionSay::Accept {
                    sync: *sync,
                    serial: *serial,
                    data,
                })
            }
            SessionSay::Refuse { data } => {
                let data = data.copy(alloc)?;
                Ok(SessionSay::Refuse { data })
            }
            SessionSay::Finish { data } => {
                let data = data.copy(alloc)?;
                Ok(SessionSay::Finish { data })
            }
            SessionSay::Finished { data } => {
                let data = data.copy(alloc)?;
                Ok(SessionSay::Finished { data })
            }
            SessionSay::Data { pass, data } => {
                let data = data.copy(alloc)?;
                Ok(SessionSay::Data { pass: *pass, data })
            }
            SessionSay::Check { serial } => Ok(SessionSay::Check { serial: *serial }),
            SessionSay::Acknowledge { serial } => Ok(SessionSay::Acknowledge { serial: *serial }),
            SessionSay::Resync {
                kind,
                serial,
                token,
                data,
            } => {
                let data = data.copy(alloc)?;
                Ok(SessionSay::Resync {
                    kind: *kind,
                    serial: *serial,
                    token: *token,
                    data,
                })
            }
            SessionSay::Resynced {
                serial,
                token,
                data,
            } => {
                let data = data.copy(alloc)?;
                Ok(SessionSay::Resynced {
                    serial: *serial,
                    token: *token,
                    data,
                })
            }
            SessionSay::Abort { data } => {
                let data = data.copy(alloc)?;
                Ok(SessionSay::Abort { data })
            }
            SessionSay::Token { to } => Ok(SessionSay::Token { to: *to }),
        }
    }
}

/// What the other end sent, in the same words. A GT that passes the token gives `Token`, so that `pass` is false.
pub type SessionOut = SessionSay;
