//! One end of an association: what it receives, and what it sends.
ghost use Rattle.std.specs.Prelude.{◌≡◌, ◌↔◌, ◌+◌, ◌++◌, ◌≤◌, [], IfNone, IfOk, IfSome, IsTrue, List, OnErr, OnOk, false, length, true, ℕ};
ghost use Rattle.vf_stack.specs.Association.{Association, beginning, is_ended as is_over};
ghost use Rattle.vf_stack.specs.Pieces.{TellOnce};
ghost use Rattle.vf_stack.specs.Receiving.{octets_received, piece_received};
ghost use Rattle.vf_stack.specs.Represents.{Feeds, IsSame, Listens, Represents, offer_of, side_of};
ghost use Rattle.vf_stack.specs.Sending.{May, is_associated as is_associated_now, tsdu_of};
ghost use Rattle.vf_stack.specs.Sends.{IsPermitted, Joins, MaySend, Sends};
ghost use Rattle.vf_session.specs.Sending.{holds_token};
ghost use Rattle.vf_session.specs.Trace.{next, phase, state as state_of};
ghost use Rattle.vf_session.specs.declared.units.TokenSide.TheVariants as sides;
ghost use Rattle.vf_tpkt.specs.Receiving.{onward};
ghost use Rattle.vf_tpkt.specs.Sending.{most_of, sent as packets, stands as stands_now};
ghost use Rattle.vf_tpkt.specs.Tpdu.{packet, request};
ghost use Rattle.vf_tpkt.specs.Wanting.{lacking};
ghost use Rattle.vf_tpkt.specs.declared.limits.TheConstants.{MOST_PACKET_OCTETS};

use crate::exchange::KeptExchange;
use crate::may::is_associated;
use crate::unit::has_token;
use crate::{Ending, Indication, Request};
use std::alloc::Global;
use std::marker::Model;
use vf_base::{MOST_VALUE_OCTETS, NoMemory, Octets};
use vf_session::{Session, SessionSay};
use vf_tpkt::{Tpkt, TpktError, Unit};
use vf_upper::{Contexts, Offers};

/// One end of an association over its four lower layers: transport class 0 (ISO 8073) over RFC 1006, session (ISO 8327),
/// presentation (ISO 8823) with ACSE (ISO 8650), and PDUs and data elements of FTAM in their values (ISO 8571-4).
pub struct Stack {
    transport: Tpkt,
    exchange: KeptExchange,
    alloc: Global,
}

impl Drop for Stack {
    fn drop(self) {
        let Stack {
            transport,
            exchange,
            alloc: _,
        } = self;
        drop(transport);
        drop(exchange);
    }
}

impl Model for Stack {
    ghost use Rattle.vf_stack.specs.Represents.{Kept};

    ghost Value = { Kept };

    ghost view = { λ s. record { transport = s.transport; exchange = s.exchange } };
}

/// What is kept before anything was received.
fn begun(alloc: Global, session: Session) -> KeptExchange
    ensures { result ≡ record { session = session; state = session.state; offers = []; accepted = []; ending = Ending.Open } }
{
    KeptExchange {
        state: session.state(),
        session,
        offers: Offers::new(alloc),
        accepted: Contexts::new(alloc),
        ending: Ending::Open,
    }
}

impl Stack {
    /// The calling end, which appends its CR (ISO 8073), and is to propose sync, the minor synchronize and resynchronize
    /// functional units (ISO 8327), or not. Without memory nothing is appended.
    pub fn calling(alloc: Global, sync: bool, out: &mut Vec<u8>) -> Result<Stack, NoMemory>
        ensures stack { IfOk result (λ stack. (side_of stack ≡ sides.Initiator) × Represents stack beginning) }
        ensures offer { IfOk result (λ stack. offer_of stack ≡ sync) }
        ensures ok { OnOk result (out.new.items ≡ out.old.items ++ packet request) }
        ensures err { OnErr result (out.new.items ≡ out.old.items) }
    {
        let transport = Tpkt::calling(alloc, out)?;
        Ok(Stack {
            transport,
            exchange: begun(alloc, Session::calling(sync)),
            alloc,
        })
    }

    /// The called end, which waits for a CR (ISO 8073).
    pub fn called(alloc: Global) -> Result<Stack, NoMemory>
        ensures { IfOk result (λ stack. (side_of stack ≡ sides.Responder) × Represents stack beginning) }
    {
        let transport = Tpkt::called(alloc)?;
        Ok(Stack {
            transport,
            exchange: begun(alloc, Session::called()),
            alloc,
        })
    }

    /// Receives the next octets of the stream, any number of them, one by one, up to the one that ends receiving: appends
    /// what they tell by the standards of the layers, and the octets that answer them, which are transport's. An end that is
    /// ended takes nothing. Without memory the stack is only to be dropped.
    pub fn feed(
        &mut self,
        piece: &[u8],
        out: &mut Vec<Indication>,
        answers: &mut Vec<u8>,
    ) -> Result<(), NoMemory>
        // Of every association that the stack represents.
        ensures received { (a : Association) → Represents self.old a → OnOk result (Feeds (octets_received (side_of self.old) a piece.now) out.old.items answers.old.items self.new out.new.items answers.new.items) }
        ensures end { OnOk result (IsSame self.old.exchange self.new.exchange) }
    {
        let mut rest = piece;
        while !rest.is_empty() {
            let wanted = self.transport.wanted();
            let (front, more) = rest.split_at(wanted.min(rest.len()));
            self.feed_few(front, out, answers)?;
            rest = more;
        }
        Ok(())
    }

    /// Receives so few octets that they tell one thing at most.
    fn feed_few(
        &mut self,
        piece: &[u8],
        out: &mut Vec<Indication>,
        answers: &mut Vec<u8>,
    ) -> Result<(), NoMemory>
        ensures received { (a : Association) → Represents self.old a → OnOk result (Feeds (piece_received (side_of self.old) a piece.now) out.old.items answers.old.items self.new out.new.items answers.new.items) }
        ensures end { OnOk result (IsSame self.old.exchange self.new.exchange) }
    {
        if self.ended() {
            return Ok(());
        }
        let mut units = Vec::new(self.alloc);
        let fault = self.listen(piece, &mut units, answers)?;
        self.exchange.receive_all(self.alloc, units, out)?;
        self.exchange.stop(fault, out)
    }

    /// Receives octets as transport does, to its fault if it comes to one.
    fn listen(
        &mut self,
        piece: &[u8],
        units: &mut Vec<Unit>,
        answers: &mut Vec<u8>,
    ) -> Result<Option<TpktError>, NoMemory>
        ensures { IfOk result (λ fault. Listens self.old (onward self.old.transport piece.now) units.old.items answers.old.items self.new units.new.items answers.new.items fault) }
    {
        match self.transport.feed(piece, units, answers) {
            Ok(()) => Ok(None),
            Err(TpktError::NoMemory) => Err(NoMemory),
            Err(fault) => Ok(Some(fault)),
        }
    }

    /// Whether a request may be sent: by what was received and sent (ISO 8327), by its PDU and its contexts, and by its
    /// length (profile). Of the numbers of checks, acknowledgements and restarts it asks too. It takes no memory.
    pub fn may(&self, request: &Request) -> bool
        ensures state { IsTrue result ↔ MaySend self.now request.now }
        ensures association { (a : Association) → Represents self.now a → IsTrue result ↔ May (side_of self.now) (offer_of self.now) a request.now }
    {
        self.transport.stands() && self.exchange.may(request)
    }

    /// Sends a request that may be sent: appends its packets (which PDU goes in which SPDU is profile). Without memory
    /// nothing is appended, and nothing has changed.
    pub fn send(
        &mut self,
        alloc: Global,
        request: &Request,
        out: &mut Vec<u8>,
    ) -> Result<(), NoMemory>
        requires { MaySend self.old request.now }
        // Of every association that the stack represents.
        ensures sent { (a : Association) → Represents self.old a → OnOk result (Sends (side_of self.old) a request.now out.old.items self.new out.new.items) }
        ensures end { IsSame self.old.exchange self.new.exchange }
        ensures err { OnErr result ((self.new ≡ self.old) × (out.new.items ≡ out.old.items)) }
    {
        let is_sent = self.send_string(alloc, request, out)?;
        if is_sent {
            Ok(())
        } else {
            self.send_unit(alloc, request, out)
        }
    }

    /// Sends a request that may be sent, as `send` does. Where it is P-DATA of one string that goes in one packet, the octets
    /// of the string, which end the packet, are not appended, but answered. Without memory nothing is appended, and nothing
    /// has changed.
    pub fn send_front<'a>(
        &mut self,
        alloc: Global,
        request: &'a Request,
        out: &mut Vec<u8>,
    ) -> Result<Option<&'a Octets>, NoMemory>
        requires { MaySend self.old request.now }
        // Of every association that the stack represents.
        ensures whole { (a : Association) → Represents self.old a → IfOk result (λ string. IfNone string (Sends (side_of self.old) a request.now out.old.items self.new out.new.items)) }
        ensures front { (a : Association) → Represents self.old a → IfOk result (λ string. IfSome string (λ octets. Sends (side_of self.old) a request.now out.old.items self.new (out.new.items ++ octets.now))) }
        ensures end { IsSame self.old.exchange self.new.exchange }
        ensures err { OnErr result ((self.new ≡ self.old) × (out.new.items ≡ out.old.items)) }
    {
        let string = self.send_before(alloc, request, out)?;
        if string.is_none() {
            self.send(alloc, request, out)?;
        }
        Ok(string)
    }

    /// Sends a request that is P-DATA of one string, where that goes in one packet: appends what stands before the string, and
    /// answers the string.
    fn send_before<'a>(
        &mut self,
        alloc: Global,
        request: &'a Request,
        out: &mut Vec<u8>,
    ) -> Result<Option<&'a Octets>, NoMemory>
        requires { MaySend self.old request.now }
        ensures front { (a : Association) → Represents self.old a → IfOk result (λ string. IfSome string (λ octets. Sends (side_of self.old) a request.now out.old.items self.new (out.new.items ++ octets.now))) }
        ensures not { IfOk result (λ string. IfNone string ((self.new ≡ self.old) × (out.new.items ≡ out.old.items))) }
        ensures end { IsSame self.old.exchange self.new.exchange }
        ensures err { OnErr result ((self.new ≡ self.old) × (out.new.items ≡ out.old.items)) }
    {
        let mut head = Vec::new(alloc);
        let Some(string) = self.exchange.put_before(request, &mut head)? else {
            return Ok(None);
        };
        if !self
            .transport
            .wrap_front(head.as_slice(), string.len(), out)?
        {
            return Ok(None);
        }
        self.exchange.join_data();
        Ok(Some(string))
    }

    /// Sends a request by its unit.
    fn send_unit(
        &mut self,
        alloc: Global,
        request: &Request,
        out: &mut Vec<u8>,
    ) -> Result<(), NoMemory>
        requires { MaySend self.old request.now }
        ensures sent { (a : Association) → Represents self.old a → OnOk result (Sends (side_of self.old) a request.now out.old.items self.new out.new.items) }
        ensures end { IsSame self.old.exchange self.new.exchange }
        ensures err { OnErr result ((self.new ≡ self.old) × (out.new.items ≡ out.old.items)) }
    {
        let unit = self.exchange.unit_of(alloc, request)?;
        let sent = self.put_unit(alloc, &unit, out);
        drop(unit);
        sent
    }

    /// Appends the packets of a unit of session, which joins what is kept.
    fn put_unit(
        &mut self,
        alloc: Global,
        unit: &SessionSay,
        out: &mut Vec<u8>,
    ) -> Result<(), NoMemory>
        requires connected { IsTrue (stands_now self.old.transport) }
        requires permitted { IsPermitted self.old.exchange unit.now }
        requires fits { length (tsdu_of (side_of self.old) unit.now) ≤ MOST_VALUE_OCTETS }
        ensures ok { OnOk result ((out.new.items ≡ out.old.items ++ packets (most_of self.old.transport.connection.phase) (tsdu_of (side_of self.old) unit.now)) × Joins self.old.exchange unit.now self.new.exchange) }
        ensures transport { self.new.transport ≡ self.old.transport }
        ensures end { IsSame self.old.exchange self.new.exchange }
        ensures err { OnErr result ((self.new ≡ self.old) × (out.new.items ≡ out.old.items)) }
    {
        let offers = self.exchange.offers_of(alloc, unit)?;
        self.put_packets(alloc, unit, out)?;
        self.exchange.join_sent(unit, offers);
        Ok(())
    }

    /// Sends a request that is P-DATA of one string, where that is spelled as nearly all are; says whether it is.
    fn send_string(
        &mut self,
        alloc: Global,
        request: &Request,
        out: &mut Vec<u8>,
    ) -> Result<bool, NoMemory>
        requires { MaySend self.old request.now }
        ensures sent { (a : Association) → Represents self.old a → IfOk result (λ done. done ≡ true → Sends (side_of self.old) a request.now out.old.items self.new out.new.items) }
        ensures not { IfOk result (λ done. done ≡ false → (self.new ≡ self.old) × (out.new.items ≡ out.old.items)) }
        ensures end { IsSame self.old.exchange self.new.exchange }
        ensures err { OnErr result ((self.new ≡ self.old) × (out.new.items ≡ out.old.items)) }
    {
        let mut head = Vec::new(alloc);
        let Some(string) = self.exchange.put_before(request, &mut head)? else {
            return Ok(false);
        };
        self.transport
            .wrap_joined(alloc, head.as_slice(), string.as_slice(), out)?;
        self.exchange.join_data();
        Ok(true)
    }

    /// Appends the packets of a unit of session.
    fn put_packets(
        &self,
        alloc: Global,
        unit: &SessionSay,
        out: &mut Vec<u8>,
    ) -> Result<(), NoMemory>
        requires connected { IsTrue (stands_now self.now.transport) }
        requires permitted { IsPermitted self.now.exchange unit.now }
        requires fits { length (tsdu_of (side_of self.now) unit.now) ≤ MOST_VALUE_OCTETS }
        ensures ok { OnOk result (out.new.items ≡ out.old.items ++ packets (most_of self.now.transport.connection.phase) (tsdu_of (side_of self.now) unit.now)) }
        ensures err { OnErr result (out.new.items ≡ out.old.items) }
    {
        let mut head = Vec::new(alloc);
        let tail = self.exchange.put_head(alloc, unit, &mut head)?;
        self.transport
            .wrap_joined(alloc, head.as_slice(), tail.as_slice(), out)
    }

    /// How many octets may be fed before something may be told or answered: those that a packet (RFC 1006) still lacks, as
    /// far as is known. Fed at most so many, `feed` tells one unit's indications or one answer at most, by the last of them
    /// or by one after which it tells nothing. From 1 to 65,535.
    pub fn wanted(&self) -> usize
        ensures some { 1 ≤ result }
        ensures bound { result ≤ MOST_PACKET_OCTETS }
        ensures exact { result ≡ lacking self.now.transport.packet }
        ensures once { (a : Association) (first second : List ℕ) → Represents self.now a → length (first ++ second) ≤ result → TellOnce (side_of self.now) a first second }
    {
        self.transport.wanted()
    }

    /// Nothing more is received: after a fault, a DR or ER, an abort, a refusal or an answered release.
    pub fn ended(&self) -> bool
        ensures state { result ≡ is_over self.now.exchange.ending }
        ensures association { (a : Association) → Represents self.now a → result ≡ is_over a.exchange.ending }
    {
        self.exchange.is_ended()
    }

    /// The association was accepted and isn't over (ISO 8650), so that an abort of it has a PDU (profile).
    pub fn is_accepted(&self) -> bool
        ensures state { result ≡ is_associated_now self.now.exchange.state.phase }
        ensures association { (a : Association) → Represents self.now a → result ≡ is_associated_now (phase (side_of self.now) a.exchange.trace) }
    {
        is_associated(self.exchange.state.phase)
    }

    /// Whether sync is agreed and this end has its token (ISO 8327, synchronize-minor).
    pub fn token(&self) -> bool
        ensures state { result ≡ holds_token (side_of self.now) self.now.exchange.state }
        ensures association { (a : Association) → Represents self.now a → result ≡ holds_token (side_of self.now) (state_of (side_of self.now) a.exchange.trace) }
    {
        has_token(&self.exchange.state, self.exchange.session.side())
    }

    /// The serial number that the next check will have (ISO 8327), 1 before any CN.
    pub fn next_serial(&self) -> u32
        ensures state { result ≡ self.now.exchange.state.next }
        ensures association { (a : Association) → Represents self.now a → result ≡ next a.exchange.trace }
    {
        self.exchange.state.next
    }

    /// How many octets are held that are told in no indication: those of the unfinished packet with its header, and the
    /// data of the unfinished TSDU.
    pub fn held(&self) -> u64
        ensures held { result ≡ length self.now.transport.packet + length self.now.transport.connection.tsdu }
        ensures bound { result ≤ MOST_VALUE_OCTETS + MOST_PACKET_OCTETS }
    {
        self.transport.held()
    }
}
