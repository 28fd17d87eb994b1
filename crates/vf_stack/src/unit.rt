//! The units of requests, and what sending them leaves.
ghost use Rattle.std.specs.List.{AllByRecursion, flat_map};
ghost use Rattle.std.specs.Prelude.{◌≡◌, ◌++◌, false, IfOk, IsTrue, List, ℕ, OnOk};
ghost use Rattle.vf_pdu.specs.PduNumbers.{number_of};
ghost use Rattle.vf_session.specs.Sending.{fits, holds_token, spdus};
ghost use Rattle.vf_session.specs.Trace.{other as other_side};
ghost use Rattle.vf_session.specs.Units.{parameters as parameters_in, user_data as data_in, with_data};
ghost use Rattle.vf_session_spdu.specs.Spelling.{IsWritten as IsSpelled, octets_after, spelling};
ghost use Rattle.vf_stack.specs.Contexts.{proposes};
ghost use Rattle.vf_stack.specs.Represents.{IsSame, standing_of};
ghost use Rattle.vf_stack.specs.Requests.{answer_to, passes_from as passes_by, returns_token as returns};
ghost use Rattle.vf_stack.specs.Sending.{IsSendable, tsdu_of as tsdu_by};
ghost use Rattle.vf_stack.specs.Sends.{Advances, IsPermitted, Joins, unit_kept};

use crate::contexts::offers_in;
use crate::ending::ending_by;
use crate::exchange::{KeptExchange, put_new, read_by};
use crate::{Ending, Item, Request};
use std::alloc::Global;
use vf_base::{NoMemory, Octets, SpduKind};
use vf_pdu::Pdu;
use vf_session::{
    PendingResync, Phase, ResyncKind, SayParameters, Session, SessionSay, SessionState, Spdu,
    TokenSide, write, write_head,
};
use vf_upper::{Contexts, Offers};

/// What stands before data that pass no token, as those of each element: a GT and a DT, neither of which has a parameter.
pub(crate) const PLAIN: [u8; 4] = [1, 0, 1, 0];

/// Whether sync is agreed where the connection stands, and this end has the token.
pub(crate) fn has_token(state: &SessionState, own: TokenSide) -> bool
    ensures { result ≡ holds_token own state.now }
{
    let names_own = match state.token {
        TokenSide::Initiator => matches!(own, TokenSide::Initiator),
        TokenSide::Responder => matches!(own, TokenSide::Responder),
    };
    state.agreed && names_own
}

fn other(side: TokenSide) -> TokenSide
    ensures { result ≡ other_side side }
{
    match side {
        TokenSide::Initiator => TokenSide::Responder,
        TokenSide::Responder => TokenSide::Initiator,
    }
}

// ---- parameters

/// A response by which the called end passes the token: to F-TRANSFER-END, and to F-RECOVER where nothing goes on.
fn returns_token(pdu: &Pdu) -> bool
    ensures { result ≡ returns pdu.now }
{
    match pdu {
        Pdu::RecoverResponse { moving, .. } => !*moving,
        _ => pdu.number() == 36,
    }
}

/// Whether a PDU passes the token from this end.
fn passes_from(own: TokenSide, pdu: &Pdu) -> bool
    ensures { result ≡ passes_by own pdu.now }
{
    match own {
        TokenSide::Initiator => pdu.number() == 32,
        TokenSide::Responder => returns_token(pdu),
    }
}

/// The number in the answer to an abandon.
fn answer_number(resync: Option<PendingResync>, next: u32) -> u32
    ensures { result ≡ answer_to resync next }
{
    match resync {
        Some(resync) => match resync.kind {
            ResyncKind::Restart => resync.serial,
            ResyncKind::Abandon => resync.serial.max(next),
        },
        None => next,
    }
}

/// The unit with these parameters and this user data.
fn unit_with(parameters: SayParameters, user_data: Octets) -> SessionSay
    ensures { result ≡ with_data parameters user_data }
{
    let data = user_data;
    match parameters {
        SayParameters::Connect { sync, serial } => SessionSay::Connect { sync, serial, data },
        SayParameters::Accept { sync, serial } => SessionSay::Accept { sync, serial, data },
        SayParameters::Refuse => SessionSay::Refuse { data },
        SayParameters::Finish => SessionSay::Finish { data },
        SayParameters::Finished => SessionSay::Finished { data },
        SayParameters::Data { pass } => SessionSay::Data { pass, data },
        SayParameters::Check { serial } => SessionSay::Check { serial },
        SayParameters::Acknowledge { serial } => SessionSay::Acknowledge { serial },
        SayParameters::Resync {
            kind,
            serial,
            token,
        } => SessionSay::Resync {
            kind,
            serial,
            token,
            data,
        },
        SayParameters::Resynced { serial, token } => SessionSay::Resynced {
            serial,
            token,
            data,
        },
        SayParameters::Abort => SessionSay::Abort { data },
        SayParameters::Token { to } => SessionSay::Token { to },
    }
}

/// Appends the octets of SPDUs, one after the other.
fn put_all(alloc: Global, spdus: &[Spdu], tsdu: &mut Vec<u8>) -> Result<(), NoMemory>
    requires { AllByRecursion IsSpelled spdus.now }
    ensures { OnOk result (tsdu.new.items ≡ tsdu.old.items ++ flat_map spelling spdus.now) }
{
    for spdu in spdus {
        write(alloc, spdu, tsdu)?;
    }
    Ok(())
}

/// The data of an SPDU, which is spent; none but a DT has any.
fn data_after(alloc: Global, spdu: Spdu) -> Result<Octets, NoMemory>
    ensures { IfOk result (λ rest. rest ≡ octets_after spdu spdu.kind) }
{
    let Spdu { kind, octets, .. } = spdu;
    if kind == SpduKind::DT {
        return Ok(octets);
    }
    Octets::of(alloc, &[])
}

/// Appends the octets of SPDUs, one after the other, up to the data of the last one, and answers these.
fn put_heads(alloc: Global, spdus: Vec<Spdu>, head: &mut Vec<u8>) -> Result<Octets, NoMemory>
    requires { AllByRecursion IsSpelled spdus.items }
    ensures { IfOk result (λ rest. head.new.items ++ rest ≡ head.old.items ++ flat_map spelling spdus.items) }
{
    let mut others = spdus;
    let Some(last) = others.pop() else {
        return Octets::of(alloc, &[]);
    };
    put_all(alloc, others.as_slice(), head)?;
    write_head(alloc, &last, head)?;
    data_after(alloc, last)
}

impl KeptExchange {
    /// F-CANCEL: a resynchronization where sync is agreed, and else data.
    fn cancel(&self) -> SayParameters
        ensures { (pdu : Pdu) → result ≡ parameters_in (unit_kept self.now (Request.Cancel pdu)) }
    {
        if self.state.agreed {
            SayParameters::Resync {
                kind: ResyncKind::Abandon,
                serial: self.state.next,
                token: Some(TokenSide::Initiator),
            }
        } else {
            SayParameters::Data { pass: false }
        }
    }

    /// The answer to it.
    fn cancelled(&self) -> SayParameters
        ensures { (pdu : Pdu) → result ≡ parameters_in (unit_kept self.now (Request.Cancelled pdu)) }
    {
        if self.state.agreed {
            SayParameters::Resynced {
                serial: answer_number(self.state.resync, self.state.next),
                token: Some(TokenSide::Initiator),
            }
        } else {
            SayParameters::Data { pass: false }
        }
    }

    /// P-DATA with a PDU or an element.
    fn item(&self, item: &Item) -> SayParameters
        ensures { result ≡ parameters_in (unit_kept self.now (Request.Item item.now)) }
    {
        let own = self.session.side();
        match item {
            Item::Pdu(pdu) => SayParameters::Data {
                pass: has_token(&self.state, own) && passes_from(own, pdu.value()),
            },
            Item::Element(_) => SayParameters::Data { pass: false },
        }
    }

    /// All of a request's unit but its user data.
    pub(crate) fn parameters_of(&self, request: &Request) -> SayParameters
        ensures { result ≡ parameters_in (unit_kept self.now request.now) }
    {
        match request {
            Request::Associate { sync, .. } => SayParameters::Connect {
                sync: *sync,
                serial: 1,
            },
            Request::Accept { sync, .. } => SayParameters::Accept {
                sync: *sync,
                serial: self.state.first,
            },
            Request::Refuse { .. } => SayParameters::Refuse,
            Request::Release { .. } => SayParameters::Finish,
            Request::Released { .. } => SayParameters::Finished,
            Request::Item(item) => self.item(item),
            Request::Check { serial } => SayParameters::Check { serial: *serial },
            Request::Acknowledge { serial } => SayParameters::Acknowledge { serial: *serial },
            Request::Restart { serial, .. } => SayParameters::Resync {
                kind: ResyncKind::Restart,
                serial: *serial,
                token: Some(self.state.token),
            },
            Request::Restarted { serial, .. } => SayParameters::Resynced {
                serial: *serial,
                token: Some(self.state.token),
            },
            Request::Cancel { .. } => self.cancel(),
            Request::Cancelled { .. } => self.cancelled(),
            Request::Abort { .. } => SayParameters::Abort,
            Request::Pass => SayParameters::Token {
                to: other(self.session.side()),
            },
        }
    }

    // ---- units

    /// The unit of a request.
    pub(crate) fn unit_of(&self, alloc: Global, request: &Request) -> Result<SessionSay, NoMemory>
        requires { IsSendable self.now.session.side (standing_of self.now) request.now }
        ensures { IfOk result (λ unit. unit ≡ unit_kept self.now request.now) }
    {
        let parameters = self.parameters_of(request);
        let user_data = self.data_of(alloc, parameters, request)?;
        Ok(unit_with(parameters, user_data))
    }

    /// The contexts that a unit proposes.
    pub(crate) fn offers_of(
        &self,
        alloc: Global,
        unit: &SessionSay,
    ) -> Result<Option<Offers>, NoMemory>
        ensures { IfOk result (λ offers. offers ≡ proposes unit.now) }
    {
        let SessionSay::Connect { data, .. } = unit else {
            return Ok(None);
        };
        let read = read_by(alloc, SpduKind::CN, &Contexts::new(alloc), data)?;
        let offers = offers_in(alloc, &read);
        drop(read);
        Ok(Some(offers?))
    }

    /// Appends the SPDUs of a unit. After a fault it is an abort, which is written whatever session has taken.
    fn put_spdus(
        &self,
        alloc: Global,
        unit: &SessionSay,
        out: &mut Vec<Spdu>,
    ) -> Result<(), NoMemory>
        requires { IsPermitted self.now unit.now }
        ensures ok { OnOk result (out.new.items ≡ out.old.items ++ spdus self.now.session.side unit.now) }
        ensures spelled { AllByRecursion IsSpelled (spdus self.now.session.side unit.now) }
    {
        if let Ending::Refused = self.ending {
            return Session::called().spell(alloc, unit, out);
        }
        self.session.spell(alloc, unit, out)
    }

    /// Appends the TSDU of a unit up to the data of a DT, and answers these, shared.
    #[tactic(auto, using(crate::proofs::HeadLemmas::plain_head))]
    pub(crate) fn put_head(
        &self,
        alloc: Global,
        unit: &SessionSay,
        head: &mut Vec<u8>,
    ) -> Result<Octets, NoMemory>
        requires { IsPermitted self.now unit.now }
        ensures { IfOk result (λ rest. head.new.items ++ rest ≡ head.old.items ++ tsdu_by self.now.session.side unit.now) }
    {
        if let SessionSay::Data { pass: false, data } = unit {
            head.extend_from_slice(&PLAIN)?;
            return data.copy(alloc);
        }
        let mut spdus = Vec::new(alloc);
        self.put_spdus(alloc, unit, &mut spdus)?;
        put_heads(alloc, spdus, head)
    }

    /// Where the connection stands after a unit of this end.
    fn advance(&mut self, unit: &SessionSay)
        requires { IsPermitted self.old unit.now }
        ensures { Advances self.old unit.now self.new }
    {
        if let Ending::Refused = self.ending {
            self.state.phase = Phase::Aborted;
            self.state.resync = None;
            return;
        }
        self.session.join(unit);
        self.state = self.session.state();
    }

    /// A unit that was sent joins what is kept, with the contexts that it proposes.
    pub(crate) fn join_sent(&mut self, unit: &SessionSay, offers: Option<Offers>)
        requires permitted { IsPermitted self.old unit.now }
        requires offers { offers ≡ proposes unit.now }
        ensures joined { Joins self.old unit.now self.new }
        ensures end { IsSame self.old self.new }
    {
        self.advance(unit);
        put_new(offers, &mut self.offers);
        let ending = ending_by(unit);
        if !matches!(ending, Ending::Open) {
            self.ending = ending;
        }
    }

    /// Data that pass no token and were sent join what is kept, whatever octets they have.
    pub(crate) fn join_data(&mut self)
        ensures joined { (octets : List ℕ) → IsPermitted self.old (SessionSay.Data false octets) → Joins self.old (SessionSay.Data false octets) self.new }
        ensures end { IsSame self.old self.new }
    {
        self.session.join_data();
    }
}
