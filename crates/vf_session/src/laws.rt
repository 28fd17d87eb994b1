//! Laws of a connection, each the contract of a function that does nothing.
ghost use Rattle.std.specs.Prelude.{Bool};
ghost use Rattle.vf_session.specs.Allowed.{IsAllowed, IsOrdered};
ghost use Rattle.vf_session.specs.Kept.{kept_of};
ghost use Rattle.vf_session.specs.Mutual.{Begins, Receives, Turns};
ghost use Rattle.vf_session.specs.Represents.{Represents};
ghost use Rattle.vf_session.specs.Trace.{Trace};
ghost use Rattle.vf_session.specs.declared.state.SessionState.{SessionState};
ghost use Rattle.vf_session.specs.declared.units.SessionSay.{SessionSay};
ghost use Rattle.vf_session.specs.declared.units.TokenSide.{TokenSide};

/// A session can stand for each trace that is allowed: one that keeps what the filters on the trace give represents it,
/// and the numbers that they give are in order and in their ranges.
pub fn allowed_traces_are_kept()
    ensures kept { (own : TokenSide) (offer : Bool) (trace : Trace) → IsAllowed own offer trace → Represents (kept_of own offer trace) trace }
    ensures ordered { (own : TokenSide) (offer : Bool) (trace : Trace) → IsAllowed own offer trace → IsOrdered own trace }
{}

/// What one end may say the other end receives, while nothing is on its way between them, and then they agree again. So they
/// do from the beginning on, whichever of them speaks.
pub fn sent_is_received()
    ensures begins { (own : TokenSide) → Begins own }
    ensures turns { (s far_s : SessionState) → Turns s far_s }
    ensures received { (own : TokenSide) (offer far_offer : Bool) (trace far_trace : Trace) (sent : SessionSay) → Receives own offer far_offer trace far_trace sent }
{}
