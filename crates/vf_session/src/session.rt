//! One end of a session connection.
ghost use Rattle.std.specs.Prelude.{◌≡◌, ◌++◌, ◌+◌, [], ◌≤◌, None, false, IsTrue, List, ℕ, length, OnOk, OnErr};
ghost use Rattle.std.specs.List.{AllByRecursion};
ghost use Rattle.vf_session.specs.Advances.{Grows, kept_after};
ghost use Rattle.vf_session_spdu.specs.Fields.{IsReadable};
ghost use Rattle.vf_session.specs.Kept.{IsSameEnd};
ghost use Rattle.vf_session.specs.Represents.{Represents, Takes, TakesBy};
ghost use Rattle.vf_session.specs.Rooms.{may_by};
ghost use Rattle.vf_session.specs.Units.{with_data};
ghost use Rattle.vf_session.specs.Sending.{may as may_say, spdus, holds_token};
ghost use Rattle.vf_session_spdu.specs.Spelling.{IsWritten};
ghost use Rattle.vf_session_spdu.specs.declared.limits.TheConstants.{LAST_SERIAL};
ghost use Rattle.vf_session.specs.Trace.{Trace, next as next_of, state as state_of, with_sent};
ghost use Rattle.vf_session.specs.Receiving.{receives as told_by};
ghost use Rattle.vf_session.specs.declared.units.SessionSay.{SessionSay};

use crate::advance::{advanced, is_resync};
use crate::meaning::{SpduMeaning, is_side, other, receives};
use crate::sending::{fits, is_allowed};
use crate::spdus::put_spdus;
use crate::state::SessionState;
use crate::{Phase, SayParameters, SessionError, SessionOut, SessionSay, Spdu, TokenSide};
use std::alloc::Global;
use std::marker::Model;
use vf_base::NoMemory;

/// One end of a session connection (ISO 8327).
#[derive(Drop)]
pub struct Session {
    side: TokenSide,
    offer: bool,
    state: SessionState,
    /// The end that has the token where an RS of this end that waits turns out to have lost.
    before: TokenSide,
}

impl Model for Session {
    ghost use Rattle.std.specs.Prelude.{◌≤◌, ◌+◌};
    ghost use Rattle.vf_session_spdu.specs.declared.limits.TheConstants.{LAST_SERIAL};
    ghost use Rattle.vf_session.specs.Kept.{Kept};

    ghost Value = { Kept };

    ghost view = { λ s. record { side = s.side; offer = s.offer; state = s.state; token = s.before } };

    ghost invariant = { λ s. (s.state.first ≤ LAST_SERIAL) × (s.state.oldest ≤ s.state.next) × (s.state.next ≤ LAST_SERIAL + 1) };
}

/// Where a connection stands before anything was sent.
const BEGINNING: SessionState = SessionState {
    phase: Phase::Idle,
    proposed: false,
    agreed: false,
    first: 1,
    next: 1,
    oldest: 1,
    token: TokenSide::Initiator,
    resync: None,
};

impl Session {
    /// The calling end, which is to propose sync or not.
    pub fn calling(sync: bool) -> Session
        ensures end { (result.side ≡ TokenSide.Initiator) × (result.offer ≡ sync) }
        ensures trace { Represents result [] }
    {
        Session {
            side: TokenSide::Initiator,
            offer: sync,
            state: BEGINNING,
            before: TokenSide::Initiator,
        }
    }

    /// The called end.
    pub fn called() -> Session
        ensures end { (result.side ≡ TokenSide.Responder) × (result.offer ≡ false) }
        ensures trace { Represents result [] }
    {
        Session {
            side: TokenSide::Responder,
            offer: false,
            state: BEGINNING,
            before: TokenSide::Initiator,
        }
    }

    /// Takes an SPDU that `read` can answer, and appends what it tells, if anything. After an error nothing is appended and
    /// nothing has changed, and the session is only to be dropped.
    pub fn take(
        &mut self,
        _alloc: Global,
        spdu: Spdu,
        out: &mut Vec<SessionOut>,
    ) -> Result<(), SessionError>
        requires { IsReadable spdu }
        // By each trace that this end may have had.
        ensures trace { (trace : Trace) → Represents self.old trace → Takes self.old spdu out.old.items self.new out.new.items trace result }
        // By the state of the connection.
        ensures state { TakesBy self.old spdu out.old.items self.new out.new.items result }
        ensures end { IsSameEnd self.old self.new }
        ensures err { OnErr result ((self.new ≡ self.old) × (out.new.items ≡ out.old.items)) }
    {
        match self.receive(spdu) {
            SpduMeaning::Nothing => Ok(()),
            SpduMeaning::Faulty(fault) => Err(fault),
            SpduMeaning::Tells(unit) => {
                out.reserve(1)?;
                self.advance(other(self.side), &unit);
                out.push_reserved(unit);
                Ok(())
            }
        }
    }

    fn receive(&self, spdu: Spdu) -> SpduMeaning
        requires { IsReadable spdu }
        ensures told { result ≡ told_by self.now.side self.now.state spdu }
        ensures grows { (unit : SessionSay) → result ≡ SpduMeaning.Tells unit → Grows self.now.side self.now.state unit }
    {
        receives(self.side, &self.state, spdu)
    }

    /// The connection goes on by a unit of one end.
    fn advance(&mut self, from: TokenSide, told: &SessionSay)
        requires { Grows self.old.side self.old.state told.now }
        ensures { self.new ≡ kept_after from self.old told.now }
    {
        self.state = advanced(self.side, from, self.before, self.state, told);
        if !is_resync(told) {
            self.before = self.state.token;
        }
    }

    /// Whether this end may say a unit now: by the state of the connection, the token and the serial numbers, and by the
    /// lengths of its SPDUs.
    pub fn may(&self, say: &SessionSay) -> bool
        ensures state { result ≡ may_say self.now.side self.now.offer self.now.state say.now }
        ensures trace { (trace : Trace) → Represents self.now trace → result ≡ may_say self.now.side self.now.offer (state_of self.now.side trace) say.now }
    {
        self.allows(&say.parameters(), say.data_length())
    }

    /// Whether this end may say the unit with these parameters and with so many octets of user data, whatever they are.
    /// A check, an acknowledgement and a token have none, and their number isn't looked at.
    pub fn may_carry(&self, say: &SayParameters, octets: usize) -> bool
        ensures state { (user_data : List ℕ) → length user_data ≡ octets → result ≡ may_say self.now.side self.now.offer self.now.state (with_data say.now user_data) }
        ensures trace { (trace : Trace) (user_data : List ℕ) → Represents self.now trace → length user_data ≡ octets → result ≡ may_say self.now.side self.now.offer (state_of self.now.side trace) (with_data say.now user_data) }
    {
        self.allows(say, octets)
    }

    fn allows(&self, say: &SayParameters, octets: usize) -> bool
        ensures { result ≡ may_by self.now.side self.now.offer self.now.state say.now octets }
    {
        is_allowed(self.side, self.offer, &self.state, say, octets) && fits(say, octets)
    }

    /// Says a unit that it may say, and appends its SPDUs, each of which can be written: one, or a GT and what follows
    /// it. Without memory the session and `out` stay as they are. It is `spell` and then `join`.
    pub fn say(
        &mut self,
        alloc: Global,
        say: &SessionSay,
        out: &mut Vec<Spdu>,
    ) -> Result<(), NoMemory>
        requires { IsTrue (may_say self.old.side self.old.offer self.old.state say.now) }
        ensures ok { OnOk result (out.new.items ≡ out.old.items ++ spdus self.old.side say.now) }
        ensures written { AllByRecursion IsWritten (spdus self.old.side say.now) }
        // By each trace that this end may have had.
        ensures trace { (trace : Trace) → Represents self.old trace → OnOk result (Represents self.new (with_sent self.old.side say.now trace)) }
        // By the state of the connection.
        ensures state { OnOk result (self.new ≡ kept_after self.old.side self.old say.now) }
        ensures end { IsSameEnd self.old self.new }
        ensures err { OnErr result ((self.new ≡ self.old) × (out.new.items ≡ out.old.items)) }
    {
        self.spell(alloc, say, out)?;
        self.join(say);
        Ok(())
    }

    /// Appends the SPDUs of a unit that it may say, each of which can be written. Without memory `out` stays as it is.
    pub fn spell(
        &self,
        alloc: Global,
        say: &SessionSay,
        out: &mut Vec<Spdu>,
    ) -> Result<(), NoMemory>
        requires { IsTrue (may_say self.now.side self.now.offer self.now.state say.now) }
        ensures ok { OnOk result (out.new.items ≡ out.old.items ++ spdus self.now.side say.now) }
        ensures err { OnErr result (out.new.items ≡ out.old.items) }
        ensures written { AllByRecursion IsWritten (spdus self.now.side say.now) }
    {
        put_spdus(alloc, self.side, say, out)?;
        Ok(())
    }

    /// The connection goes on by a unit that this end may say, once its SPDUs are on their way.
    pub fn join(&mut self, say: &SessionSay)
        requires { IsTrue (may_say self.old.side self.old.offer self.old.state say.now) }
        ensures trace { (trace : Trace) → Represents self.old trace → Represents self.new (with_sent self.old.side say.now trace) }
        ensures state { self.new ≡ kept_after self.old.side self.old say.now }
        ensures end { IsSameEnd self.old self.new }
    {
        self.advance(self.side, say);
    }

    /// The same by data that pass no token, whatever octets they have.
    pub fn join_data(&mut self)
        ensures trace { (octets : List ℕ) (trace : Trace) → IsTrue (may_say self.old.side self.old.offer self.old.state (SessionSay.Data false octets)) → Represents self.old trace
            → Represents self.new (with_sent self.old.side (SessionSay.Data false octets) trace) }
        ensures state { (octets : List ℕ) → self.new ≡ kept_after self.old.side self.old (SessionSay.Data false octets) }
        ensures end { IsSameEnd self.old self.new }
    {
        self.before = self.state.token;
    }

    /// Which end it is.
    pub fn side(&self) -> TokenSide
        ensures { result ≡ self.now.side }
    {
        self.side
    }

    /// Where the connection stands.
    pub fn state(&self) -> SessionState
        ensures state { result ≡ self.now.state }
        ensures trace { (trace : Trace) → Represents self.now trace → result ≡ state_of self.now.side trace }
    {
        self.state
    }

    /// Whether sync is agreed and this end has the token.
    pub fn has_token(&self) -> bool
        ensures state { result ≡ holds_token self.now.side self.now.state }
        ensures trace { (trace : Trace) → Represents self.now trace → result ≡ holds_token self.now.side (state_of self.now.side trace) }
    {
        self.state.agreed && is_side(self.state.token, self.side)
    }

    /// The number that the next check will have, 0 to 1,000,000, of which the last can't be written; 1 before any CN.
    pub fn next_serial(&self) -> u32
        ensures state { result ≡ self.now.state.next }
        ensures trace { (trace : Trace) → Represents self.now trace → result ≡ next_of trace }
        ensures bound { result ≤ LAST_SERIAL + 1 }
    {
        self.state.next
    }
}
