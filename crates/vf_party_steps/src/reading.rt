ghost use Rattle.std.specs.Prelude.{◌≡◌, [], IfErr, IfOk, if◌then◌else◌};
ghost use Rattle.vf_elements.specs.declared.message.Message.TheVariants as messages;
ghost use Rattle.vf_party_steps.specs.Dues.{Says};
ghost use Rattle.vf_party_steps.specs.Reads.{IsReading, dues, knows, moving_of, read_at as read_at_meant, stage_of};
ghost use Rattle.vf_party_steps.specs.Regimes.{docket_changes};
ghost use Rattle.vf_party_steps.specs.Steps.{IsStep};
ghost use Rattle.vf_pdu.specs.declared.pdu.Pdu.TheVariants.{RestartRequest};

use crate::dockets::Underway;
use crate::due::Due;
use crate::regimes::changed;
use crate::step::one_said;
use crate::{Open, Said, Step, StepError};
use std::alloc::Global;
use vf_base::{Context, FaduId, Moment, NoMemory};
use vf_elements::Stage;
use vf_locks::Locks;
use vf_pdu::Pdu;
use vf_regime_effects::Reading as Given;
use vf_regime_refusals::Association;
use vf_tables::{Changes, Direction, Tables};

/// A party with an open file whose values are read (ISO 8571-3, F-READ).
#[derive(Drop)]
pub struct Reading {
    pub(crate) opened: Open,
    pub(crate) fadu: FaduId,
    pub(crate) context: Context,
    /// What its request was given. The position is that of the open.
    pub(crate) given: Given,
    /// The number of the last check that stands; the eight elements for each stand as said.
    pub(crate) check: u32,
    /// The last check that stands and is acknowledged.
    pub(crate) point: u32,
    /// The check at which it was recovered last, else 0: there is no way back from there.
    pub(crate) start: u32,
    /// The end of the values was said.
    pub(crate) shown: bool,
}

impl Reading {
    /// The stage of the party (ISO 8571-4): its transfer may end once the end of the values was said.
    pub fn stage(&self) -> Stage
        ensures { result ≡ stage_of self.now }
    {
        if self.shown {
            return Stage::Shown;
        }
        Stage::Reading
    }

    pub fn association(&self) -> &Association
        ensures { result.now ≡ self.now.opened.selected.associated.association }
    {
        &self.opened.selected.associated.association
    }

    /// The activity of a recoverable open.
    pub fn activity(&self) -> Option<u32>
        ensures { result ≡ self.now.opened.regime.activity }
    {
        self.opened.regime.activity
    }

    /// The number of the last check that stands.
    pub fn check_number(&self) -> u32
        ensures { result ≡ self.now.check }
    {
        self.check
    }

    /// Whether this check stands and isn't before the last recovery, or is the point of that: an acknowledgement and a
    /// restart name no other.
    pub fn is_known(&self, check: u32) -> bool
        ensures { result ≡ knows check self.now }
    {
        self.start <= check && check <= self.check
    }

    /// Takes the acknowledgement of a check, and so of each one before it (ISO 8571-3, F-CHECK): the party is sent what is
    /// due now. That the check stands is looked at before. Without memory the state is given back as it was.
    pub fn acknowledge(
        self,
        alloc: Global,
        point: u32,
        moment: Moment,
        serial: u32,
        token: bool,
        sync: bool,
        tables: &Tables,
        locks: &mut Locks,
    ) -> Result<Step<Reading>, (Reading, StepError)>
        ensures consequence { IsStep IsReading IsReading tables.now locks.old locks.new self (record { moment = moment; serial = serial; token = token; sync = sync }) (messages.Acknowledge point) result }
        ensures kept { IfErr result (λ back. back.0 ≡ self) }
        ensures memory { IfErr result (λ back. back.1 ≡ StepError.NoMemory) }
    {
        let point = point.max(self.point);
        let mut due = Due {
            said: Vec::new(alloc),
            check: self.check,
            unacknowledged: self.check.saturating_sub(point),
            serial: u64::from(serial),
        };
        let Ok(shown) = self.say_more(alloc, &mut due) else {
            return Err((self, StepError::NoMemory));
        };
        let Ok(changes) = self.changed_to(alloc, point) else {
            return Err((self, StepError::NoMemory));
        };
        let mut state = self;
        state.check = due.check;
        state.point = point;
        state.shown = shown;
        Ok(Step {
            state,
            said: due.said,
            changes,
        })
    }

    /// Takes a restart at a check, in a RestartRequest or as the session carries it (ISO 8571-3, F-RESTART): the checks
    /// after it are taken away with their numbers in the session, and the party is sent again what is due after it. That
    /// the check stands is looked at before. Without memory the state is given back as it was.
    pub fn restart(
        self,
        alloc: Global,
        point: u32,
        moment: Moment,
        serial: u32,
        token: bool,
        sync: bool,
        tables: &Tables,
        locks: &mut Locks,
    ) -> Result<Step<Reading>, (Reading, StepError)>
        ensures request { IsStep IsReading IsReading tables.now locks.old locks.new self (record { moment = moment; serial = serial; token = token; sync = sync }) (messages.Pdu (RestartRequest point)) result }
        ensures session { IsStep IsReading IsReading tables.now locks.old locks.new self (record { moment = moment; serial = serial; token = token; sync = sync }) (messages.Restart point) result }
        ensures kept { IfErr result (λ back. back.0 ≡ self) }
        ensures memory { IfErr result (λ back. back.1 ≡ StepError.NoMemory) }
    {
        let Ok(said) = one_said(alloc, Said::Pdu(Pdu::RestartResponse { point })) else {
            return Err((self, StepError::NoMemory));
        };
        let check = point.min(self.check);
        let acknowledged = point.min(self.point);
        let mut due = Due {
            said,
            check,
            unacknowledged: check.saturating_sub(acknowledged),
            serial: (u64::from(serial) + u64::from(point)).saturating_sub(u64::from(self.check)),
        };
        let association = &self.opened.selected.associated.association;
        let Ok(shown) = due.say(alloc, association, &self.given) else {
            return Err((self, StepError::NoMemory));
        };
        let Ok(changes) = self.changed_to(alloc, acknowledged) else {
            return Err((self, StepError::NoMemory));
        };
        let mut state = self;
        state.check = due.check;
        state.point = acknowledged;
        state.shown = shown;
        Ok(Step {
            state,
            said: due.said,
            changes,
        })
    }

    /// Says what is due, unless the end of the values was said; whether it was, or is now.
    fn say_more(&self, alloc: Global, due: &mut Due) -> Result<bool, NoMemory>
        ensures { IfOk result (λ shown. Says self.now.shown (if self.now.shown then [] else dues self.now.opened.selected.associated.association self.now.given due.old) due.old due.new shown) }
    {
        if self.shown {
            return Ok(true);
        }
        let association = &self.opened.selected.associated.association;
        let shown = due.say(alloc, association, &self.given)?;
        Ok(shown)
    }

    /// What its docket has of it.
    pub(crate) fn moving(&self) -> Underway
        ensures { result ≡ moving_of self.now }
    {
        read_at(self.fadu, self.context, &self.given, self.point)
    }

    /// The changes of its docket by which this check is the last that is acknowledged.
    fn changed_to(&self, alloc: Global, point: u32) -> Result<Changes, NoMemory>
        ensures { IfOk result (λ changes. changes ≡ docket_changes self.now.opened (moving_of self.now) self.now.opened.regime (read_at_meant self.now.fadu self.now.context self.now.given point)) }
    {
        let is = read_at(self.fadu, self.context, &self.given, point);
        let regime = &self.opened.regime;
        let changes = changed(alloc, &self.opened, self.moving(), regime, is)?;
        Ok(changes)
    }
}

/// What a docket has of a read that was given this, with this check as the last that is acknowledged.
pub(crate) fn read_at(fadu: FaduId, context: Context, given: &Given, point: u32) -> Underway
    ensures { result ≡ read_at_meant fadu context given.now point }
{
    match given {
        Given::Refused { version, number } => Underway {
            direction: Direction::Read { context },
            fadu,
            refused: *number,
            point,
            version: *version,
        },
        Given::Showed { version, .. } => Underway {
            direction: Direction::Read { context },
            fadu,
            refused: 0,
            point,
            version: *version,
        },
    }
}
