//! One more unit.
ghost use Rattle.std.specs.Prelude.{◌≡◌, ◌≤◌, ◌+◌, if◌then◌else◌, None};
ghost use Rattle.vf_session.specs.Advances.{Grows, advanced as state_after};
ghost use Rattle.vf_session_spdu.specs.declared.limits.TheConstants.{LAST_SERIAL};
ghost use Rattle.vf_session.specs.Trace.{is_resync as resync_test, is_side as same_side};

use crate::meaning::{is_side, other};
use crate::resync::PendingResync;
use crate::state::SessionState;
use crate::{Phase, SessionSay, TokenSide};

/// An RS of either end.
pub(crate) fn is_resync(told: &SessionSay) -> bool
    ensures { result ≡ resync_test told.now }
{
    matches!(told, SessionSay::Resync { .. })
}

/// Where the connection stands after a unit of one end; `before` has the token where an RS that waits has lost.
pub(crate) fn advanced(
    own: TokenSide,
    from: TokenSide,
    before: TokenSide,
    s: SessionState,
    told: &SessionSay,
) -> SessionState
    requires grows { Grows own s told.now }
    requires next { s.next ≤ LAST_SERIAL + 1 }
    ensures { result ≡ state_after own from before s told.now }
{
    let mut after = s;
    match told {
        SessionSay::Connect { sync, serial, .. } => {
            after.phase = Phase::Asked;
            after.proposed = *sync;
            begin_at(&mut after, *serial);
        }
        SessionSay::Accept { sync, serial, .. } => {
            after.phase = Phase::Open;
            after.agreed = *sync;
            begin_at(&mut after, *serial);
        }
        SessionSay::Refuse { .. } | SessionSay::Finished { .. } => {
            after.phase = Phase::Over;
            after.resync = None;
        }
        SessionSay::Finish { .. } => {
            after.phase = phase_of(own, from, Phase::Leaving, Phase::Left);
        }
        SessionSay::Data { pass, .. } => {
            if *pass {
                after.token = other(from);
            }
        }
        SessionSay::Check { serial } => after.next = *serial + 1,
        SessionSay::Acknowledge { serial } => after.oldest = *serial + 1,
        SessionSay::Resync {
            kind,
            serial,
            token,
            ..
        } => {
            after.phase = Phase::Open;
            after.token = token.unwrap_or(before);
            after.resync = Some(PendingResync {
                from,
                kind: *kind,
                serial: *serial,
                token: *token,
            });
        }
        SessionSay::Resynced { serial, token, .. } => {
            after.next = *serial;
            after.oldest = *serial;
            after.token = token.unwrap_or(s.token);
            after.resync = None;
        }
        SessionSay::Abort { .. } => {
            after.phase = phase_of(own, from, Phase::Aborted, Phase::Over);
            after.resync = None;
        }
        SessionSay::Token { to } => after.token = *to,
    }
    after
}

/// Serial numbers begin here.
fn begin_at(s: &mut SessionState, serial: u32)
    ensures { s.new ≡ record s.old { first = serial; next = serial; oldest = serial; resync = None } }
{
    s.first = serial;
    s.next = serial;
    s.oldest = serial;
    s.resync = None;
}

/// The phase after a unit of this end, or after one of the other end.
fn phase_of(own: TokenSide, from: TokenSide, mine: Phase, theirs: Phase) -> Phase
    ensures { result ≡ (if same_side own from then mine else theirs) }
{
    if is_side(own, from) { mine } else { theirs }
}
