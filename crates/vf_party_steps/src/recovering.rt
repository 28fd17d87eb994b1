//! A party that takes up again what a docket retains (ISO 8571-3, F-RECOVER; which dockets it may is profile).
ghost use Rattle.std.specs.Prelude.{◌≡◌, IfErr, IfOk, None, Some, option_copied};
ghost use Rattle.vf_elements.specs.declared.message.Message.TheVariants as messages;
ghost use Rattle.vf_party_steps.specs.Recoveries.{AbortsRead, IsKeptStep, IsRecovered, IsRefusedBy, IsTakenUp, docket_row, is_read_row as is_read_row_meant, refusal_in, step_as, would_read as would_read_meant};
ghost use Rattle.vf_party_steps.specs.Represents.{IsAssociated};
ghost use Rattle.vf_pdu.specs.PduNumbers.{number_of};
ghost use Rattle.vf_pdu.specs.declared.pdu.Pdu.TheVariants.{RecoverRequest};
ghost use Rattle.vf_filestore.specs.History.{Refused};

use crate::found_docket::{docket_in, holder_of, refused_recover};
use crate::{Associated, Open, Reading, Step, StepError, Writing};
use std::alloc::Global;
use vf_base::{Moment, NoMemory};
use vf_locks::Locks;
use vf_pdu::Pdu;
use vf_regime_refusals::Association;
use vf_tables::{Direction, Docket, Tables};

/// What a party has recovered: an open file, in which a transfer goes on where one was under way.
#[derive(Drop)]
pub enum Recovered {
    Open(Open),
    Reading(Reading),
    Writing(Writing),
}

impl Associated {
    /// Takes a RecoverRequest (ISO 8571-3, F-RECOVER): what the docket of the activity retains stands again, and a transfer
    /// that was under way goes on after the smaller of the point and that of the docket. Refused with 33 without the
    /// functional unit of recovery, 27 where the identity has no docket of the activity, 29 where the number isn't that of
    /// the transfer under way, or with none under way that of the next or of the last, and 34 where the file of a read has
    /// another version. That a read doesn't lack the token, as `would_read` tells, is looked at before: it doesn't go on
    /// without. The state is given back as it was with the diagnostic, or without memory.
    pub fn recover(
        self,
        alloc: Global,
        request: Pdu,
        moment: Moment,
        serial: u32,
        token: bool,
        sync: bool,
        tables: &Tables,
        locks: &mut Locks,
    ) -> Result<Step<Recovered>, (Associated, StepError)>
        requires { number_of request ≡ 26 }
        ensures consequence { IsKeptStep IsAssociated IsRecovered tables.now locks.old locks.new self (record { moment = moment; serial = serial; token = token; sync = sync }) (messages.Pdu request) result }
        ensures kept { IfErr result (λ back. back.0 ≡ self) }
    {
        let Pdu::RecoverRequest {
            activity,
            number,
            point,
        } = request
        else {
            unreachable!()
        };
        match recovered_docket(alloc, &self.association, activity, number, tables, locks) {
            Ok(docket) => {
                return self.take_up(
                    alloc, activity, number, point, docket, moment, serial, token, sync, tables,
                    locks,
                );
            }
            Err(error) => return Err((self, error)),
        }
    }

    /// Takes up a docket whose recovery nothing refuses: a read only with the token.
    fn take_up(
        self,
        alloc: Global,
        activity: u32,
        number: u32,
        point: u32,
        docket: &Docket,
        moment: Moment,
        serial: u32,
        token: bool,
        sync: bool,
        tables: &Tables,
        locks: &mut Locks,
    ) -> Result<Step<Recovered>, (Associated, StepError)>
        ensures consequence { IsTakenUp tables.now locks.old locks.new self (record { moment = moment; serial = serial; token = token; sync = sync }) activity number (messages.Pdu (RecoverRequest activity number point)) docket.now result }
        ensures kept { IfErr result (λ back. back.0 ≡ self) }
    {
        match docket.regime.direction {
            Direction::Idle => {
                let taken = self.take_up_open(
                    alloc, activity, number, point, docket, moment, serial, token, sync, tables,
                    locks,
                );
                return open_again(taken);
            }
            Direction::Read { context } => {
                if !token {
                    return Err((self, StepError::NoMemory));
                }
                let taken = self.take_up_read(
                    alloc, activity, number, point, docket, context, moment, serial, token, sync,
                    tables, locks,
                );
                return reading_again(taken);
            }
            Direction::Write { operation } => {
                let taken = self.take_up_write(
                    alloc, activity, number, point, docket, operation, moment, serial, token, sync,
                    tables, locks,
                );
                return writing_again(taken);
            }
        }
    }

    /// Whether a read would go on by a recovery of this activity and this number. Without the token the caller aborts
    /// it with 102 then.
    pub fn would_read(
        &self,
        alloc: Global,
        activity: u32,
        number: u32,
        point: u32,
        tables: &Tables,
        locks: &Locks,
    ) -> Result<bool, NoMemory>
        ensures exact { IfOk result (λ reads. reads ≡ would_read_meant tables.now locks.now self.now.association activity number) }
        ensures aborts { IfOk result (AbortsRead tables.now locks.now self.now activity number point) }
    {
        let reads = would_read(alloc, &self.association, activity, number, tables, locks)?;
        Ok(reads)
    }
}

/// The docket of this activity, where nothing refuses its recovery.
fn recovered_docket<'t>(
    alloc: Global,
    association: &Association,
    activity: u32,
    number: u32,
    tables: &'t Tables,
    locks: &Locks,
) -> Result<&'t Docket, StepError>
    ensures found { IfOk result (λ docket. docket_row tables.now locks.now association.now.identity activity ≡ Some docket.now) }
    ensures free { IfOk result (λ docket. refusal_in tables.now.files association.now.units (Some docket.now) number ≡ None) }
    ensures refused { IfErr result (IsRefusedBy (refusal_in tables.now.files association.now.units (docket_row tables.now locks.now association.now.identity activity) number)) }
{
    let Ok(holder) = holder_of(alloc, &association.identity, activity) else {
        return Err(StepError::NoMemory);
    };
    let found = docket_in(tables, locks, &association.identity, activity, &holder);
    if let Some(diagnostic) = refused_recover(&tables.files, association.units, found, number) {
        return Err(StepError::Refused(diagnostic));
    }
    let Some(docket) = found else { unreachable!() };
    Ok(docket)
}

fn would_read(
    alloc: Global,
    association: &Association,
    activity: u32,
    number: u32,
    tables: &Tables,
    locks: &Locks,
) -> Result<bool, NoMemory>
    ensures { IfOk result (λ reads. reads ≡ would_read_meant tables.now locks.now association.now activity number) }
{
    let holder = holder_of(alloc, &association.identity, activity)?;
    let found = docket_in(tables, locks, &association.identity, activity, &holder);
    let reads = is_read_row(found)
        && refused_recover(&tables.files, association.units, found, number).is_none();
    Ok(reads)
}

fn is_read_row(found: Option<&Docket>) -> bool
    ensures { result ≡ is_read_row_meant (option_copied found.entry) }
{
    let Some(docket) = found else {
        return false;
    };
    match docket.regime.direction {
        Direction::Idle => false,
        Direction::Read { .. } => true,
        Direction::Write { .. } => false,
    }
}

fn open_again(
    taken: Result<Step<Open>, Associated>,
) -> Result<Step<Recovered>, (Associated, StepError)>
    ensures { result ≡ step_as Recovered.Open taken }
{
    match taken {
        Ok(step) => Ok(Step {
            state: Recovered::Open(step.state),
            said: step.said,
            changes: step.changes,
        }),
        Err(back) => Err((back, StepError::NoMemory)),
    }
}

fn reading_again(
    taken: Result<Step<Reading>, Associated>,
) -> Result<Step<Recovered>, (Associated, StepError)>
    ensures { result ≡ step_as Recovered.Reading taken }
{
    match taken {
        Ok(step) => Ok(Step {
            state: Recovered::Reading(step.state),
            said: step.said,
            changes: step.changes,
        }),
        Err(back) => Err((back, StepError::NoMemory)),
    }
}

fn writing_again(
    taken: Result<Step<Writing>, Associated>,
) -> Result<Step<Recovered>, (Associated, StepError)>
    ensures { result ≡ step_as Recovered.Writing taken }
{
    match taken {
        Ok(step) => Ok(Step {
            state: Recovered::Writing(step.state),
            said: step.said,
            changes: step.changes,
        }),
        Err(back) => Err((back, StepError::NoMemory)),
    }
}
