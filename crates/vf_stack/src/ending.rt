ghost use Rattle.std.specs.Prelude.{◌≡◌};
ghost use Rattle.vf_session.specs.declared.parameters.SayParameters.{SayParameters};
ghost use Rattle.vf_session.specs.declared.units.SessionSay.{SessionSay};
ghost use Rattle.vf_session.specs.Units.{parameters};
ghost use Rattle.vf_stack.specs.Receiving.{ending_by as ending_of};

use vf_session::SessionOut;

/// How receiving on an association ended, if it did.
#[derive(Clone, Copy, PartialEq, Eq)]
pub enum Ending {
    /// It goes on.
    Open,
    /// A refusal, an answered release or an abort was received or sent.
    Closed,
    /// The other end ended the transport connection.
    Broken,
    /// A fault, and nothing else was told of its unit.
    Refused,
    /// A fault in a value, after what the values before it told.
    Partly,
}

/// How a unit that is received without fault ends receiving.
pub(crate) fn ending_by(unit: &SessionOut) -> Ending
    ensures { result ≡ ending_of unit.now }
{
    match unit {
        SessionOut::Refuse { .. } => Ending::Closed,
        SessionOut::Finished { .. } => Ending::Closed,
        SessionOut::Abort { .. } => Ending::Closed,
        SessionOut::Connect { .. } => Ending::Open,
        SessionOut::Accept { .. } => Ending::Open,
        SessionOut::Finish { .. } => Ending::Open,
        SessionOut::Data { .. } => Ending::Open,
        SessionOut::Check { .. } => Ending::Open,
        SessionOut::Acknowledge { .. } => Ending::Open,
        SessionOut::Resync { .. } => Ending::Open,
        SessionOut::Resynced { .. } => Ending::Open,
        SessionOut::Token { .. } => Ending::Open,
    }
}
