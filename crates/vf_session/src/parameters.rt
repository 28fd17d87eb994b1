ghost use Rattle.std.specs.Prelude.{◌≡◌, length};
ghost use Rattle.vf_session.specs.Units.{parameters as parameters_of, user_data};

use crate::{ResyncKind, SessionSay, TokenSide};

/// A unit without its user data, and so without memory. Serial numbers are 0 to 999,999.
#[derive(Clone, Copy)]
pub enum SayParameters {
    Connect {
        sync: bool,
        serial: u32,
    },
    Accept {
        sync: bool,
        serial: u32,
    },
    Refuse,
    Finish,
    Finished,
    /// `pass` tells whether the GT before it passes the token.
    Data {
        pass: bool,
    },
    Check {
        serial: u32,
    },
    Acknowledge {
        serial: u32,
    },
    Resync {
        kind: ResyncKind,
        serial: u32,
        token: Option<TokenSide>,
    },
    Resynced {
        serial: u32,
        token: Option<TokenSide>,
    },
    Abort,
    /// The token passes to this end.
    Token {
        to: TokenSide,
    },
}

impl SessionSay {
    /// All of the unit but its user data.
    pub fn parameters(&self) -> SayParameters
        ensures { result ≡ parameters_of self.now }
    {
        match self {
            SessionSay::Connect { sync, serial, .. } => SayParameters::Connect {
                sync: *sync,
                serial: *serial,
            },
            SessionSay::Accept { sync, serial, .. } => SayParameters::Accept {
                sync: *sync,
                serial: *serial,
            },
            SessionSay::Refuse { .. } => SayParameters::Refuse,
            SessionSay::Finish { .. } => SayParameters::Finish,
            SessionSay::Finished { .. } => SayParameters::Finished,
            SessionSay::Data { pass, .. } => SayParameters::Data { pass: *pass },
            SessionSay::Check { serial } => SayParameters::Check { serial: *serial },
            SessionSay::Acknowledge { serial } => SayParameters::Acknowledge { serial: *serial },
            SessionSay::Resync {
                kind,
                serial,
                token,
                ..
            } => SayParameters::Resync {
                kind: *kind,
                serial: *serial,
                token: *token,
            },
            SessionSay::Resynced { serial, token, .. } => SayParameters::Resynced {
                serial: *serial,
                token: *token,
            },
            SessionSay::Abort { .. } => SayParameters::Abort,
            SessionSay::Token { to } => SayParameters::Token { to: *to },
        }
    }

    /// The number of octets of user data.
    pub fn data_length(&self) -> usize
        ensures { result ≡ length (user_data self.now) }
    {
        match self {
            SessionSay::Connect { data, .. }
            | SessionSay::Accept { data, .. }
            | SessionSay::Refuse { data }
            | SessionSay::Finish { data }
            | SessionSay::Finished { data }
            | SessionSay::Data { data, .. }
            | SessionSay::Resync { data, .. }
            | SessionSay::Resynced { data, .. }
            | SessionSay::Abort { data } => data.len(),
            SessionSay::Check { .. } | SessionSay::Acknowledge { .. } | SessionSay::Token { .. } =>
                0,
        }
    }
}
