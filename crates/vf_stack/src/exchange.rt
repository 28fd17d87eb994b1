//! What is kept of the exchange of one end above transport, and what units of transport make of it.
ghost use Rattle.std.specs.List.{AllByRecursion};
ghost use Rattle.std.specs.Prelude.{◌≡◌, IfOk, OnOk, unwrap_or};
ghost use Rattle.vf_session_spdu.specs.Fields.{IsReadable};
ghost use Rattle.vf_session_spdu.specs.Reading.{reading as spdus_in};
ghost use Rattle.vf_stack.specs.Association.{is_ended as ended};
ghost use Rattle.vf_stack.specs.Contexts.{contexts_among};
ghost use Rattle.vf_stack.specs.Receiving.{each, read_received, received_next, spdu_received, spdus_received, stopped_by};
ghost use Rattle.vf_stack.specs.Represents.{Concludes, Negotiates, PutsRead, PutsUnit, Receives, Refuses, TellsUnit, TellsUnits, with_contexts};
ghost use Rattle.vf_upper.specs.Primitives.{reading as user_data_read};

use crate::carriage::{carrier, user_data};
use crate::contexts::{accepted, entries_of, offered};
use crate::ending::ending_by;
use crate::fault::{Fault, form_fault, state_fault, transport_fault};
use crate::told::{put_plain, put_read};
use crate::{Ending, Indication};
use std::alloc::Global;
use vf_base::{NoMemory, Octets, SpduKind};
use vf_session::{
    SayParameters, Session, SessionError, SessionOut, SessionState, Spdu, SpduError,
    place_after_gt, read_shared,
};
use vf_tpkt::{TpktError, Unit};
use vf_upper::{Contexts, Offers, Primitive, UpperError};

/// What one end keeps of an exchange.
#[derive(Drop)]
pub struct KeptExchange {
    pub(crate) session: Session,
    /// Where the connection stands by the units received and sent. Session has taken a unit before it joins these.
    pub(crate) state: SessionState,
    /// The contexts that were proposed.
    pub(crate) offers: Offers,
    /// Those that are accepted.
    pub(crate) accepted: Contexts,
    pub(crate) ending: Ending,
}

/// The contexts that a unit proposes and those that it accepts.
#[derive(Drop)]
struct Negotiated {
    offers: Option<Offers>,
    accepted: Option<Contexts>,
}

/// Puts a new value in the place of another, where there is one.
pub(crate) fn put_new<T: Drop>(new: Option<T>, place: &mut T)
    ensures { place.new ≡ unwrap_or new place.old }
{
    let Some(value) = new else {
        return;
    };
    *place = value;
}

impl KeptExchange {
    /// Nothing more is received.
    pub(crate) fn is_ended(&self) -> bool
        ensures { result ≡ ended self.now.ending }
    {
        !matches!(self.ending, Ending::Open)
    }

    // ---- a unit of session

    /// The user data of a unit as they are read by the contexts for its SPDU.
    fn read(
        &self,
        alloc: Global,
        kind: SpduKind,
        octets: &Octets,
    ) -> Result<Result<Primitive, UpperError>, NoMemory>
        ensures { IfOk result (λ read. read ≡ user_data_read kind (contexts_among self.now.offers self.now.accepted kind) octets.now) }
    {
        match kind {
            SpduKind::CN => read_by(alloc, kind, &Contexts::new(alloc), octets),
            SpduKind::AC => {
                let proposed = entries_of(alloc, self.offers.as_slice())?;
                read_by(alloc, kind, &proposed, octets)
            }
            SpduKind::RF => {
                let proposed = entries_of(alloc, self.offers.as_slice())?;
                read_by(alloc, kind, &proposed, octets)
            }
            SpduKind::FN => read_by(alloc, kind, &self.accepted, octets),
            SpduKind::DN => read_by(alloc, kind, &self.accepted, octets),
            SpduKind::AB => read_by(alloc, kind, &self.accepted, octets),
            SpduKind::AA => read_by(alloc, kind, &self.accepted, octets),
            SpduKind::DT => read_by(alloc, kind, &self.accepted, octets),
            SpduKind::GT => read_by(alloc, kind, &self.accepted, octets),
            SpduKind::MIP => read_by(alloc, kind, &self.accepted, octets),
            SpduKind::MIA => read_by(alloc, kind, &self.accepted, octets),
            SpduKind::RS => read_by(alloc, kind, &self.accepted, octets),
            SpduKind::RA => read_by(alloc, kind, &self.accepted, octets),
        }
    }

    /// The contexts of a unit, by its user data as they were read.
    fn negotiated(
        &self,
        alloc: Global,
        unit: SayParameters,
        read: &Result<Primitive, UpperError>,
    ) -> Result<Negotiated, NoMemory>
        ensures { IfOk result (λ made. Negotiates self.now unit read.now made) }
    {
        let offers = offered(alloc, unit, read)?;
        let own = self.session.side();
        let accepted = accepted(alloc, own, self.offers.as_slice(), unit, read)?;
        Ok(Negotiated { offers, accepted })
    }

    /// Appends what a unit with user data tells; answers its contexts and its fault.
    fn put_carried(
        &self,
        alloc: Global,
        unit: SayParameters,
        kind: SpduKind,
        octets: &Octets,
        out: &mut Vec<Indication>,
    ) -> Result<(Negotiated, Option<Fault>), NoMemory>
        ensures { IfOk result (λ made. PutsRead self.now unit (user_data_read kind (contexts_among self.now.offers self.now.accepted kind) octets.now) out.old.items out.new.items made.0 made.1) }
    {
        let read = self.read(alloc, kind, octets)?;
        let Ok(negotiated) = self.negotiated(alloc, unit, &read) else {
            drop(read);
            return Err(NoMemory);
        };
        let fault = put_read(alloc, self.state, unit, read, out)?;
        Ok((negotiated, fault))
    }

    /// Appends what a unit tells that session has taken; answers its contexts and its fault.
    fn put_unit(
        &self,
        alloc: Global,
        unit: &SessionOut,
        out: &mut Vec<Indication>,
    ) -> Result<(Negotiated, Option<Fault>), NoMemory>
        ensures { IfOk result (λ made. PutsUnit self.now unit.now out.old.items out.new.items made.0 made.1) }
    {
        let parameters = unit.parameters();
        match carrier(parameters) {
            Some(kind) => {
                let octets = user_data(alloc, unit)?;
                self.put_carried(alloc, parameters, kind, &octets, out)
            }
            None => {
                let fault = put_plain(parameters, out)?;
                let none = Negotiated {
                    offers: None,
                    accepted: None,
                };
                Ok((none, fault))
            }
        }
    }

    /// A unit with these contexts joins what is kept.
    fn join(&mut self, negotiated: Negotiated, ending: Ending)
        ensures { self.new ≡ with_contexts self.old negotiated.offers negotiated.accepted ending }
    {
        let Negotiated { offers, accepted } = negotiated;
        self.state = self.session.state();
        put_new(offers, &mut self.offers);
        put_new(accepted, &mut self.accepted);
        self.ending = ending;
    }

    /// A unit with these contexts joins what is kept, or its fault ends receiving; so many indications stood before its own.
    fn conclude(
        &mut self,
        before: usize,
        ending: Ending,
        negotiated: Negotiated,
        fault: Option<Fault>,
        out: &mut Vec<Indication>,
    ) -> Result<(), NoMemory>
        ensures { OnOk result (Concludes self.old before ending negotiated out.old.items fault self.new out.new.items) }
    {
        let Some(fault) = fault else {
            self.join(negotiated, ending);
            return Ok(());
        };
        let alone = out.len() == before;
        out.push(fault.indication())?;
        if alone {
            self.ending = Ending::Refused;
        } else {
            self.join(negotiated, Ending::Partly);
        }
        Ok(())
    }

    /// Receives a unit that session has taken.
    fn receive_unit(
        &mut self,
        alloc: Global,
        unit: SessionOut,
        out: &mut Vec<Indication>,
    ) -> Result<(), NoMemory>
        ensures { OnOk result (TellsUnit self.old out.old.items unit self.new out.new.items) }
    {
        let before = out.len();
        let (negotiated, fault) = self.put_unit(alloc, &unit, out)?;
        self.conclude(before, ending_by(&unit), negotiated, fault, out)
    }

    /// Receives what session told, if anything.
    fn receive_units(
        &mut self,
        alloc: Global,
        units: Vec<SessionOut>,
        out: &mut Vec<Indication>,
    ) -> Result<(), NoMemory>
        ensures { OnOk result (TellsUnits self.old out.old.items units.items self.new out.new.items) }
    {
        let mut units = units;
        match units.pop() {
            Some(unit) => self.receive_unit(alloc, unit, out),
            None => Ok(()),
        }
    }

    // ---- SPDUs

    /// A fault of which nothing else was told.
    fn refuse(&mut self, fault: Fault, out: &mut Vec<Indication>) -> Result<(), NoMemory>
        ensures { OnOk result (Refuses self.old out.old.items fault self.new out.new.items) }
    {
        out.push(fault.indication())?;
        self.ending = Ending::Refused;
        Ok(())
    }

    /// Receives an SPDU whose first octet has this place in its TSDU.
    fn receive_spdu(
        &mut self,
        alloc: Global,
        place: u32,
        spdu: Spdu,
        out: &mut Vec<Indication>,
    ) -> Result<(), NoMemory>
        requires { IsReadable spdu }
        ensures { OnOk result (Receives self.old out.old.items (λ own x. spdu_received own place x spdu) self.new out.new.items) }
    {
        if self.is_ended() {
            return Ok(());
        }
        let mut units = Vec::new(alloc);
        match self.session.take(alloc, spdu, &mut units) {
            Ok(()) => self.receive_units(alloc, units, out),
            Err(fault) => {
                let told = state_fault(place, fault)?;
                self.refuse(told, out)
            }
        }
    }

    /// Receives the SPDUs of a TSDU, of which the second begins at this place.
    fn receive_spdus(
        &mut self,
        alloc: Global,
        after: u32,
        spdus: Vec<Spdu>,
        out: &mut Vec<Indication>,
    ) -> Result<(), NoMemory>
        requires { AllByRecursion IsReadable spdus.items }
        ensures { OnOk result (Receives self.old out.old.items (λ own x. spdus_received own after x spdus.items) self.new out.new.items) }
    {
        let mut place = 0;
        for spdu in spdus {
            self.receive_spdu(alloc, place, spdu, out)?;
            place = after;
        }
        Ok(())
    }

    fn receive_tsdu(
        &mut self,
        alloc: Global,
        tsdu: &Octets,
        out: &mut Vec<Indication>,
    ) -> Result<(), NoMemory>
        ensures { OnOk result (Receives self.old out.old.items (λ own x. read_received own x tsdu.now (spdus_in tsdu.now)) self.new out.new.items) }
    {
        match read_shared(alloc, tsdu) {
            Ok(spdus) => self.receive_spdus(alloc, place_after_gt(tsdu.as_slice()), spdus, out),
            Err(fault) => {
                let told = form_fault(tsdu.as_slice(), fault)?;
                self.refuse(told, out)
            }
        }
    }

    // ---- units of transport

    fn receive(
        &mut self,
        alloc: Global,
        unit: Unit,
        out: &mut Vec<Indication>,
    ) -> Result<(), NoMemory>
        ensures { OnOk result (Receives self.old out.old.items (λ own x. received_next own x unit) self.new out.new.items) }
    {
        if self.is_ended() {
            return Ok(());
        }
        match unit {
            Unit::Connected => Ok(()),
            Unit::Data(tsdu) => self.receive_tsdu(alloc, &tsdu, out),
            Unit::Ended => {
                self.ending = Ending::Broken;
                Ok(())
            }
        }
    }

    /// Receives units of transport.
    pub(crate) fn receive_all(
        &mut self,
        alloc: Global,
        units: Vec<Unit>,
        out: &mut Vec<Indication>,
    ) -> Result<(), NoMemory>
        ensures { OnOk result (Receives self.old out.old.items (λ own x. each (received_next own) x units.items) self.new out.new.items) }
    {
        for unit in units {
            self.receive(alloc, unit, out)?;
        }
        Ok(())
    }

    /// A fault of transport, where receiving hasn't ended before it.
    pub(crate) fn stop(
        &mut self,
        fault: Option<TpktError>,
        out: &mut Vec<Indication>,
    ) -> Result<(), NoMemory>
        ensures { OnOk result (Receives self.old out.old.items (λ own x. stopped_by x fault) self.new out.new.items) }
    {
        let Some(fault) = fault else {
            return Ok(());
        };
        if self.is_ended() {
            return Ok(());
        }
        self.refuse(transport_fault(fault), out)
    }
}

pub(crate) fn read_by(
    alloc: Global,
    kind: SpduKind,
    contexts: &Contexts,
    octets: &Octets,
) -> Result<Result<Primitive, UpperError>, NoMemory>
    ensures { IfOk result (λ read. read ≡ user_data_read kind contexts.now octets.now) }
{
    match vf_upper::read_shared(alloc, kind, contexts, octets) {
        Ok(primitive) => Ok(Ok(primitive)),
        Err(UpperError::Context { id }) => Ok(Err(UpperError::Context { id })),
        Err(UpperError::Grammar { at }) => Ok(Err(UpperError::Grammar { at })),
        Err(UpperError::Application) => Ok(Err(UpperError::Application)),
        Err(UpperError::NoMemory) => Err(NoMemory),
    }
}
