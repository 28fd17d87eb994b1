//! A connection of transport class 0, by the TPDUs that it receives.
ghost use Rattle.std.specs.Prelude.{◌≡◌, ◌+◌, ◌≤◌, ◌<◌, ◌^◌, ◌++◌, ◌∷◌, [], length, drop, true, IsTrue, OnOk, OnErr, Ok, None, ◌⊎◌, slice_index};
ghost use Rattle.vf_tpkt.specs.Receiving.{checked, units_of, after, place_at};
ghost use Rattle.vf_tpkt.specs.Sending.{is_open, most_of};
ghost use Rattle.vf_tpkt.specs.Steps.{TellsTpdu, ReceivesTpdu};
ghost use Rattle.vf_tpkt.specs.Tpdu.{answer_of, data_size as data_octets, data_of, packet, confirm, last_of, has_lengths as has_lengths_now, has_fixed as has_fixed_now};
ghost use Rattle.vf_tpkt.specs.Parameters.{sizes as sizes_of};

use crate::form::{LAST, has_fixed, has_lengths, may_come};
use crate::kind::{Kind, kind_of};
use crate::limits::MOST_TPDU_OCTETS;
use crate::parameters::{SIZE, sizes};
use crate::phase::Phase;
use crate::{Side, TpktError, Unit};
use std::alloc::Global;
use std::marker::Model;
use std::mem;
use vf_base::{MOST_VALUE_OCTETS, NoMemory, Octets};

/// The most data of a DT, where no size is agreed: a TPDU without its header.
pub(crate) const DATA: usize = MOST_TPDU_OCTETS - 3;

/// One end of a connection.
#[derive(Drop)]
pub(crate) struct Connection {
    side: Side,
    phase: Phase,
    tsdu: Vec<u8>,
    place: u64,
    alloc: Global,
}

impl Model for Connection {
    ghost use Rattle.std.specs.Prelude.{◌≤◌, length, IsTrue};
    ghost use Rattle.vf_base.specs.declared.limits.TheConstants.{MOST_VALUE_OCTETS};
    ghost use Rattle.vf_tpkt.specs.Receiving.{Progress};
    ghost use Rattle.vf_tpkt.specs.Steps.{has_room};

    ghost Value = { Progress };

    ghost view = { λ c. record { side = c.side; phase = c.phase; tsdu = c.tsdu.items; place = c.place } };

    ghost invariant = { λ c. (length c.tsdu.items ≤ MOST_VALUE_OCTETS) × IsTrue (has_room c.phase) };
}

impl Connection {
    /// A connection that has received nothing.
    pub(crate) fn new(alloc: Global, side: Side) -> Connection
        ensures { result ≡ record { side = side; phase = Phase.First; tsdu = []; place = 0 } }
    {
        Connection {
            side,
            phase: Phase::First,
            tsdu: Vec::new(alloc),
            place: 0,
            alloc,
        }
    }

    /// The number of octets received in whole packets; one that has reached the last number of its type stays there.
    pub(crate) fn place(&self) -> u64
        ensures { result ≡ self.now.place }
    {
        self.place
    }

    /// The octets of data in the TSDU that isn't ended.
    pub(crate) fn data_held(&self) -> usize
        ensures held { result ≡ length self.now.tsdu }
        ensures bound { result ≤ MOST_VALUE_OCTETS }
    {
        self.tsdu.len()
    }

    pub(crate) fn stands(&self) -> bool
        ensures { result ≡ is_open self.now.phase }
    {
        matches!(self.phase, Phase::Open { .. })
    }

    /// The most octets of data in a DT that is sent.
    pub(crate) fn most(&self) -> usize
        requires { IsTrue (is_open self.now.phase) }
        ensures most { result ≡ most_of self.now.phase }
        ensures some { 1 ≤ result }
        ensures fits { result ≤ 65528 }
    {
        match self.phase {
            Phase::Open { most } => most,
            Phase::First | Phase::Over => unreachable!(),
        }
    }

    /// Lets go the data of the TSDU that isn't ended.
    pub(crate) fn stop(&mut self)
        ensures { self.new ≡ record { side = self.old.side; phase = self.old.phase; tsdu = []; place = self.old.place } }
    {
        self.tsdu.clear();
    }

    /// The kind of a TPDU that may come now and is right, or its first fault.
    fn check(&self, tpdu: &[u8]) -> Result<Kind, TpktError>
        requires { 3 ≤ length tpdu.now }
        ensures { result ≡ checked self.now tpdu.now }
    {
        let at = self.place.saturating_add(4);
        let code = tpdu[1];
        let Some(kind) = kind_of(code) else {
            return Err(TpktError::Code { at, code });
        };
        if !may_come(self.side, self.phase, kind) {
            return Err(TpktError::State { at, code });
        }
        if !has_lengths(kind, tpdu) {
            return Err(TpktError::Length { at });
        }
        if !has_fixed(kind, tpdu) {
            return Err(TpktError::Code { at, code });
        }
        if kind == Kind::Dt && tpdu.len() - 3 > MOST_VALUE_OCTETS as usize - self.tsdu.len() {
            return Err(TpktError::Size { at });
        }
        Ok(kind)
    }

    /// Receives the TPDU of a whole packet.
    pub(crate) fn receive(
        &mut self,
        tpdu: &[u8],
        units: &mut Vec<Unit>,
        answers: &mut Vec<u8>,
    ) -> Result<(), TpktError>
        requires { 3 ≤ length tpdu.now }
        ensures { ReceivesTpdu self.old tpdu.now units.old.items answers.old.items self.new units.new.items answers.new.items result }
    {
        let kind = match self.check(tpdu) {
            Ok(kind) => kind,
            Err(fault) => return Err(fault),
        };
        match self.tell(kind, tpdu, units, answers) {
            Ok(()) => Ok(()),
            Err(NoMemory) => Err(TpktError::NoMemory),
        }
    }

    /// What a TPDU without fault tells.
    fn tell(
        &mut self,
        kind: Kind,
        tpdu: &[u8],
        units: &mut Vec<Unit>,
        answers: &mut Vec<u8>,
    ) -> Result<(), NoMemory>
        requires whole { 3 ≤ length tpdu.now }
        requires right { checked self.old tpdu.now ≡ Ok kind }
        ensures { TellsTpdu self.old kind tpdu.now units.old.items answers.old.items self.new units.new.items answers.new.items result }
    {
        match kind {
            Kind::Cr => self.accept(tpdu, units, answers),
            Kind::Cc => self.confirm(tpdu, units),
            Kind::Dt => self.collect(tpdu, units),
            Kind::Dr | Kind::Er => self.end(kind, tpdu, units),
        }
    }

    /// The octets received, with a TPDU of so many octets and its packet's header.
    fn passed(&self, tpdu: &[u8]) -> u64
        ensures { result ≡ place_at (self.now.place + (length tpdu.now + 4)) }
    {
        self.place
            .saturating_add(tpdu.len() as u64)
            .saturating_add(4)
    }

    /// A CC.
    fn confirm(&mut self, tpdu: &[u8], units: &mut Vec<Unit>) -> Result<(), NoMemory>
        ensures ok { OnOk result ((self.new ≡ after self.old Kind.Cc tpdu.now) × (units.new.items ≡ units.old.items ++ units_of self.old Kind.Cc tpdu.now)) }
        ensures err { OnErr result (units.new.items ≡ units.old.items) }
    {
        units.push(Unit::Connected)?;
        self.place = self.passed(tpdu);
        self.phase = Phase::Open { most: DATA };
        Ok(())
    }

    /// A DR or ER.
    fn end(&mut self, kind: Kind, tpdu: &[u8], units: &mut Vec<Unit>) -> Result<(), NoMemory>
        requires { (kind ≡ Kind.Dr) ⊎ (kind ≡ Kind.Er) }
        ensures ok { OnOk result ((self.new ≡ after self.old kind tpdu.now) × (units.new.items ≡ units.old.items ++ units_of self.old kind tpdu.now)) }
        ensures err { OnErr result (units.new.items ≡ units.old.items) }
    {
        units.push(Unit::Ended)?;
        self.place = self.passed(tpdu);
        self.phase = Phase::Over;
        Ok(())
    }

    /// A DT; its data is taken over, and the TSDU is told once it ends.
    fn collect(&mut self, tpdu: &[u8], units: &mut Vec<Unit>) -> Result<(), NoMemory>
        requires whole { 3 ≤ length tpdu.now }
        requires fits { length self.old.tsdu + length (data_of tpdu.now) ≤ MOST_VALUE_OCTETS }
        ensures ok { OnOk result ((self.new ≡ after self.old Kind.Dt tpdu.now) × (units.new.items ≡ units.old.items ++ units_of self.old Kind.Dt tpdu.now)) }
        ensures err { OnErr result (units.new.items ≡ units.old.items) }
    {
        self.tsdu.extend_from_slice(&tpdu[3..])?;
        if tpdu[2] == LAST {
            units.reserve(1)?;
            let tsdu = mem::replace(&mut self.tsdu, Vec::new(self.alloc));
            let octets = Octets::from_vec(tsdu)?;
            units.push_reserved(Unit::Data(octets));
        }
        self.place = self.passed(tpdu);
        Ok(())
    }

    /// A CR, which is answered.
    fn accept(
        &mut self,
        tpdu: &[u8],
        units: &mut Vec<Unit>,
        answers: &mut Vec<u8>,
    ) -> Result<(), NoMemory>
        requires counted { IsTrue (has_lengths_now Kind.Cr tpdu.now) }
        requires fixed { IsTrue (has_fixed_now Kind.Cr tpdu.now) }
        ensures { TellsTpdu self.old Kind.Cr tpdu.now units.old.items answers.old.items self.new units.new.items answers.new.items result }
    {
        let size = proposal(&tpdu[7..]);
        units.reserve(1)?;
        write_confirm(answers, tpdu, size)?;
        units.push_reserved(Unit::Connected);
        self.place = self.passed(tpdu);
        self.phase = Phase::Open {
            most: data_size(size),
        };
        Ok(())
    }
}

/// The most octets of data in a DT, by the size that was proposed.
fn data_size(size: Option<u8>) -> usize
    ensures { result ≡ data_octets size }
{
    match size {
        None => DATA,
        Some(exponent) => (1usize << exponent.min(11)).saturating_sub(3),
    }
}

/// The CC that answers this CR, in its packet.
fn write_confirm(answers: &mut Vec<u8>, tpdu: &[u8], size: Option<u8>) -> Result<(), NoMemory>
    requires { 7 ≤ length tpdu.now }
    ensures ok { OnOk result (answers.new.items ≡ answers.old.items ++ packet (confirm (slice_index tpdu.now 4) (slice_index tpdu.now 5) size)) }
    ensures err { OnErr result (answers.new.items ≡ answers.old.items) }
{
    let (high, low) = (tpdu[4], tpdu[5]);
    match size {
        None => answers.extend_from_slice(&[3, 0, 0, 11, 6, 0xD0, high, low, 0, 1, 0])?,
        Some(size) => answers.extend_from_slice(&[
            3,
            0,
            0,
            14,
            9,
            0xD0,
            high,
            low,
            0,
            1,
            0,
            SIZE,
            1,
            size.min(11),
        ])?,
    }
    Ok(())
}

/// The exponent that the parameters of a CR propose.
fn proposal(octets: &[u8]) -> Option<u8>
    ensures { result ≡ last_of (sizes_of octets.now) }
{
    match sizes(octets) {
        None => None,
        Some(sizes) => sizes.last,
    }
}
