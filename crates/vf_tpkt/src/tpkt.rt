//! The transport's user end: what was received, and what is sent.
ghost use Rattle.std.specs.Prelude.{◌≡◌, ◌+◌, ◌≤◌, ◌<◌, ◌++◌, [], length, List, ℕ, IsTrue, IfOk, OnOk, OnErr, None, false, nat_le, true};
ghost use Rattle.vf_tpkt.specs.Receiving.{first_packet, onward, part};
ghost use Rattle.vf_tpkt.specs.Stream.{HasReceived};
ghost use Rattle.vf_tpkt.specs.Wanting.{TellsOnce, lacking};
ghost use Rattle.vf_tpkt.specs.Pieces.{Tells, TellsPiece};
ghost use Rattle.vf_tpkt.specs.Sending.{stands as stands_now, sent, most_of};
ghost use Rattle.vf_tpkt.specs.Steps.{FitsOne, Looks, Moves, ReceivesAll};
ghost use Rattle.vf_tpkt.specs.Tpdu.{packet, request};
ghost use Rattle.vf_tpkt.specs.declared.limits.TheConstants.{MOST_PACKET_OCTETS};

use crate::connection::Connection;
use crate::data::{write_front, write_joined};
use crate::packet::{HEADER, wanted};
use crate::{Side, TpktError, Unit};
use std::alloc::Global;
use std::marker::Model;
use vf_base::{MOST_VALUE_OCTETS, NoMemory};

/// The CR that the calling end sends, in its packet: references 0 and 1, class 0, no parameter.
const REQUEST: [u8; 11] = [3, 0, 0, 11, 6, 0xE0, 0, 0, 0, 1, 0];

/// One end of a transport connection of class 0 over TCP (RFC 1006, ISO 8073).
#[derive(Drop)]
pub struct Tpkt {
    connection: Connection,
    packet: Vec<u8>,
    fault: Option<TpktError>,
}

impl Model for Tpkt {
    ghost use Rattle.std.specs.Prelude.{◌≡◌};
    ghost use Rattle.vf_tpkt.specs.Receiving.{Kept, first_packet, part};

    ghost Value = { Kept };

    ghost view = { λ t. record { connection = t.connection; packet = t.packet.items; fault = t.fault } };

    ghost invariant = { λ t. first_packet t.connection.place t.packet.items ≡ part };
}

impl Tpkt {
    /// The calling end, which sends its CR.
    #[tactic(auto, unfolding(crate::specs::Stream::tpdus_in))]
    pub fn calling(alloc: Global, out: &mut Vec<u8>) -> Result<Tpkt, NoMemory>
        ensures tpkt { IfOk result (λ tpkt. HasReceived tpkt Side.Calling []) }
        ensures ok { OnOk result (out.new.items ≡ out.old.items ++ packet request) }
        ensures err { OnErr result (out.new.items ≡ out.old.items) }
    {
        out.extend_from_slice(&REQUEST)?;
        Ok(Tpkt {
            connection: Connection::new(alloc, Side::Calling),
            packet: Vec::new(alloc),
            fault: None,
        })
    }

    /// The called end, which waits for a CR.
    #[tactic(auto, unfolding(crate::specs::Stream::tpdus_in))]
    pub fn called(alloc: Global) -> Result<Tpkt, NoMemory>
        ensures { IfOk result (λ tpkt. HasReceived tpkt Side.Called []) }
    {
        Ok(Tpkt {
            connection: Connection::new(alloc, Side::Called),
            packet: Vec::new(alloc),
            fault: None,
        })
    }

    /// Receives the next piece of the stream, and appends the units that it completes and the octets that answer
    /// them. After an error the units before it are appended, and each further call answers it again and
    /// appends nothing; after `Size` alone `wrap` may still be called. After `NoMemory` a prefix of the units is
    /// appended.
    pub fn feed(
        &mut self,
        piece: &[u8],
        units: &mut Vec<Unit>,
        answers: &mut Vec<u8>,
    ) -> Result<(), TpktError>
        // Of every stream that this end can have received, by the list of the TPDUs in it.
        ensures stream { (side : Side) (stream : List ℕ) → HasReceived self.old side stream → TellsPiece side stream piece.now units.old.items answers.old.items self.new units.new.items answers.new.items result }
        ensures kept { (side : Side) (stream : List ℕ) → HasReceived self.old side stream → OnOk result (HasReceived self.new side (stream ++ piece.now)) }
        // The same packet by packet, by what is kept.
        ensures received { Tells (onward self.old piece.now) units.old.items answers.old.items self.new units.new.items answers.new.items result }
    {
        self.receive(piece, units, answers)
    }

    fn receive(
        &mut self,
        piece: &[u8],
        units: &mut Vec<Unit>,
        answers: &mut Vec<u8>,
    ) -> Result<(), TpktError>
        ensures { Tells (onward self.old piece.now) units.old.items answers.old.items self.new units.new.items answers.new.items result }
    {
        if let Some(fault) = self.fault {
            return Err(fault);
        }
        match receive_all(
            &mut self.connection,
            &mut self.packet,
            piece,
            units,
            answers,
        ) {
            Ok(()) => Ok(()),
            Err(fault) => {
                self.connection.stop();
                self.packet.clear();
                self.fault = Some(fault);
                Err(fault)
            }
        }
    }

    /// Whether a connection stands, so that `wrap` may be called: once a CR or CC was received, up to a DR, an ER or a
    /// fault other than `Size`.
    pub fn stands(&self) -> bool
        ensures { result ≡ stands_now self.now }
    {
        let received = matches!(self.fault, None | Some(TpktError::Size { .. }));
        received && self.connection.stands()
    }

    /// Appends the packets of this TSDU, cut by the size that was agreed: TPDUs of that size or of the most octets,
    /// with 3 octets of header each. Without memory nothing is appended.
    pub fn wrap(&self, alloc: Global, tsdu: &[u8], out: &mut Vec<u8>) -> Result<(), NoMemory>
        requires stands { IsTrue (stands_now self.now) }
        requires some { 1 ≤ length tsdu.now }
        requires fits { length tsdu.now ≤ MOST_VALUE_OCTETS }
        ensures ok { OnOk result (out.new.items ≡ out.old.items ++ sent (most_of self.now.connection.phase) tsdu.now) }
        ensures err { OnErr result (out.new.items ≡ out.old.items) }
    {
        self.wrap_joined(alloc, tsdu, &[], out)
    }

    /// Appends the packets of a TSDU that stands in two parts, as `wrap` does of one that stands in one; of an empty one a
    /// DT without data. Without memory nothing is appended.
    pub fn wrap_joined(
        &self,
        _alloc: Global,
        head: &[u8],
        tail: &[u8],
        out: &mut Vec<u8>,
    ) -> Result<(), NoMemory>
        requires stands { IsTrue (stands_now self.now) }
        requires fits { length head.now + length tail.now ≤ MOST_VALUE_OCTETS }
        ensures ok { OnOk result (out.new.items ≡ out.old.items ++ sent (most_of self.now.connection.phase) (head.now ++ tail.now)) }
        ensures err { OnErr result (out.new.items ≡ out.old.items) }
    {
        let before = out.len();
        match write_joined(self.connection.most(), head, tail, out) {
            Ok(()) => Ok(()),
            Err(wanting) => {
                out.truncate(before);
                Err(wanting)
            }
        }
    }

    /// Appends what stands before the last octets of a TSDU of these and so many more, where it goes in one packet, and says
    /// whether it does: followed by so many octets, it is what `wrap` appends. Else nothing is appended, nor without memory.
    pub fn wrap_front(&self, head: &[u8], count: usize, out: &mut Vec<u8>) -> Result<bool, NoMemory>
        requires { IsTrue (stands_now self.now) }
        ensures one { IfOk result (λ one. one ≡ nat_le (length head.now + count) (most_of self.now.connection.phase)) }
        ensures front { IfOk result (λ one. one ≡ true → (tail : List ℕ) → length tail ≡ count → out.new.items ++ tail ≡ out.old.items ++ sent (most_of self.now.connection.phase) (head.now ++ tail)) }
        ensures other { IfOk result (λ one. one ≡ false → out.new.items ≡ out.old.items) }
        ensures err { OnErr result (out.new.items ≡ out.old.items) }
    {
        let stood = out.len();
        match write_front(self.connection.most(), head, count, out) {
            Ok(one) => Ok(one),
            Err(wanting) => {
                out.truncate(stood);
                Err(wanting)
            }
        }
    }

    /// How many octets may come before a unit, an answer or a fault is told: those that a packet's header lacks, or those
    /// that the packet lacks. Fed at most so many, `feed` tells one thing at most, at the last of them or at a fault, after
    /// which it tells nothing. At least 1 and at most a packet's.
    pub fn wanted(&self) -> usize
        ensures some { 1 ≤ result }
        ensures bound { result ≤ MOST_PACKET_OCTETS }
        ensures exact { result ≡ lacking self.now.packet }
        ensures once { TellsOnce self.now result }
    {
        most_wanted(self.connection.place(), self.packet.as_slice())
    }

    /// The octets held that are told in no unit: those of a packet that isn't whole, and the data of a TSDU that
    /// isn't ended. They are none after an error.
    pub fn held(&self) -> u64
        ensures held { result ≡ length self.now.packet + length self.now.connection.tsdu }
        ensures bound { result ≤ MOST_VALUE_OCTETS + MOST_PACKET_OCTETS }
    {
        let packet = octets_in_part(self.connection.place(), self.packet.as_slice());
        packet as u64 + self.connection.data_held() as u64
    }
}

/// How many octets the beginning of a packet wants.
fn most_wanted(place: u64, packet: &[u8]) -> usize
    requires { first_packet place packet.now ≡ part }
    ensures some { 1 ≤ result }
    ensures bound { result ≤ MOST_PACKET_OCTETS }
    ensures exact { result ≡ lacking packet.now }
    ensures fits { (more : List ℕ) → length more ≤ result → FitsOne (packet.now ++ more) }
{
    wanted(place, packet).unwrap_or(1)
}

/// The number of octets in the beginning of a packet.
fn octets_in_part(place: u64, packet: &[u8]) -> usize
    requires { first_packet place packet.now ≡ part }
    ensures octets { result ≡ length packet.now }
    ensures bound { result ≤ MOST_PACKET_OCTETS }
{
    packet.len()
}

/// Receives a piece of the stream.
fn receive_all(
    connection: &mut Connection,
    packet: &mut Vec<u8>,
    piece: &[u8],
    units: &mut Vec<Unit>,
    answers: &mut Vec<u8>,
) -> Result<(), TpktError>
    requires { first_packet connection.old.place packet.old.items ≡ part }
    ensures { ReceivesAll connection.old packet.old.items piece.now units.old.items answers.old.items connection.new packet.new.items units.new.items answers.new.items result }
{
    let mut rest = piece;
    while !rest.is_empty() {
        match advance(connection, packet, rest, units, answers) {
            Ok(more) => rest = more,
            Err(fault) => return Err(fault),
        }
    }
    Ok(())
}

/// Takes the octets that the packet wants, or those that there are, and receives the packet once it is whole.
fn advance<'a>(
    connection: &mut Connection,
    packet: &mut Vec<u8>,
    piece: &'a [u8],
    units: &mut Vec<Unit>,
    answers: &mut Vec<u8>,
) -> Result<&'a [u8], TpktError>
    requires begun { first_packet connection.old.place packet.old.items ≡ part }
    requires more { 0 < length piece.now }
    ensures { Moves connection.old packet.old.items piece.now units.old.items answers.old.items connection.new packet.new.items units.new.items answers.new.items result }
{
    let place = connection.place();
    let lacks = match wanted(place, packet) {
        Ok(lacks) => lacks,
        Err(fault) => return Err(fault),
    };
    let (prefix, rest) = piece.split_at(lacks.min(piece.len()));
    if packet.extend_from_slice(prefix).is_err() {
        return Err(TpktError::NoMemory);
    }
    match receive_whole(connection, packet, units, answers) {
        Ok(()) => Ok(rest),
        Err(fault) => Err(fault),
    }
}

/// Receives a packet, if it is whole, and then has no beginning of another.
fn receive_whole(
    connection: &mut Connection,
    packet: &mut Vec<u8>,
    units: &mut Vec<Unit>,
    answers: &mut Vec<u8>,
) -> Result<(), TpktError>
    requires { FitsOne packet.old.items }
    ensures { Looks connection.old packet.old.items units.old.items answers.old.items connection.new packet.new.items units.new.items answers.new.items result }
{
    let lacks = match wanted(connection.place(), packet) {
        Ok(lacks) => lacks,
        Err(fault) => return Err(fault),
    };
    if lacks > 0 {
        return Ok(());
    }
    match connection.receive(&packet[HEADER..], units, answers) {
        Ok(()) => {
            packet.clear();
            Ok(())
        }
        Err(fault) => Err(fault),
    }
}
