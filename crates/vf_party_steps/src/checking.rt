//! Checks and restarts of a write, by which its docket has what stands of its values.
ghost use Rattle.std.specs.Prelude.{◌≡◌, ◌+◌, ◌≤◌, [], ◌∷◌, ◌++◌, IfErr, IfOk, Some};
ghost use Rattle.vf_elements.specs.declared.message.Message.TheVariants as messages;
ghost use Rattle.vf_party_steps.specs.Steps.{IsStep};
ghost use Rattle.vf_party_steps.specs.Writes.{IsRestart, IsWriting, cut_docket as cut_meant, fields_at, restarted_docket, staged_docket};
ghost use Rattle.vf_pdu.specs.PduNumbers.{number_of};
ghost use Rattle.vf_transfer.specs.Checks.{offered};

use crate::step::{followed_by, one_change, one_said};
use crate::{Said, Step, StepError, Writing};
use std::alloc::Global;
use vf_base::{Element, Elements, Moment, NoMemory};
use vf_locks::Locks;
use vf_pdu::Pdu;
use vf_tables::{Change, Changes, Regime, Tables};

impl Writing {
    /// Takes a check after the values so far (ISO 8571-3, F-CHECK), which is acknowledged at once. A check past
    /// 4,294,967,295 wants memory, and so does each that comes without any; then the state is given back as it was.
    pub fn check(
        mut self,
        alloc: Global,
        moment: Moment,
        serial: u32,
        token: bool,
        sync: bool,
        tables: &Tables,
        locks: &mut Locks,
    ) -> Result<Step<Writing>, (Writing, StepError)>
        ensures consequence { IsStep IsWriting IsWriting tables.now locks.old locks.new self (record { moment = moment; serial = serial; token = token; sync = sync }) messages.Check result }
        ensures kept { IfErr result (λ back. back.0 ≡ self) }
        ensures memory { IfErr result (λ back. back.1 ≡ StepError.NoMemory) }
    {
        let point = self.received.point();
        let Some(next) = point.checked_add(1) else {
            return Err((self, StepError::NoMemory));
        };
        let Ok(fields) = self.fields_at(alloc, next) else {
            return Err((self, StepError::NoMemory));
        };
        let Ok(changes) = stage_docket(alloc, fields, point, self.received.since_check()) else {
            return Err((self, StepError::NoMemory));
        };
        let Ok(said) = one_said(alloc, Said::Acknowledge { point: next }) else {
            return Err((self, StepError::NoMemory));
        };
        let Ok(()) = self.received.check() else {
            return Err((self, StepError::NoMemory));
        };
        Ok(Step {
            state: self,
            said,
            changes,
        })
    }

    /// Takes a RestartRequest (ISO 8571-3, F-RESTART): the values and the checks after this one are gone, and so is the
    /// end of the values. A check that doesn't stand, which aborts the party before this, wants memory, and so does each
    /// that comes without any; then the state is given back as it was.
    pub fn restart(
        self,
        alloc: Global,
        request: Pdu,
        moment: Moment,
        serial: u32,
        token: bool,
        sync: bool,
        tables: &Tables,
        locks: &mut Locks,
    ) -> Result<Step<Writing>, (Writing, StepError)>
        requires { number_of request ≡ 39 }
        ensures consequence { IsStep IsWriting IsWriting tables.now locks.old locks.new self (record { moment = moment; serial = serial; token = token; sync = sync }) (messages.Pdu request) result }
        ensures kept { IfErr result (λ back. back.0 ≡ self) }
        ensures memory { IfErr result (λ back. back.1 ≡ StepError.NoMemory) }
    {
        let Pdu::RestartRequest { point } = request else {
            unreachable!()
        };
        let step = self.back_to(alloc, point)?;
        Ok(step)
    }

    /// Takes a restart that the session carries (ISO 8571-3, F-RESTART), as the request of one.
    pub fn restart_after(
        self,
        alloc: Global,
        point: u32,
        moment: Moment,
        serial: u32,
        token: bool,
        sync: bool,
        tables: &Tables,
        locks: &mut Locks,
    ) -> Result<Step<Writing>, (Writing, StepError)>
        ensures consequence { IsStep IsWriting IsWriting tables.now locks.old locks.new self (record { moment = moment; serial = serial; token = token; sync = sync }) (messages.Restart point) result }
        ensures kept { IfErr result (λ back. back.0 ≡ self) }
        ensures memory { IfErr result (λ back. back.1 ≡ StepError.NoMemory) }
    {
        let step = self.back_to(alloc, point)?;
        Ok(step)
    }

    fn back_to(mut self, alloc: Global, point: u32) -> Result<Step<Writing>, (Writing, StepError)>
        ensures back { IfOk result (λ step. IsRestart self point step) }
        ensures kept { IfErr result (λ back. back.0 ≡ self) }
        ensures memory { IfErr result (λ back. back.1 ≡ StepError.NoMemory) }
    {
        let Ok(changes) = self.restart_changes(alloc, point) else {
            return Err((self, StepError::NoMemory));
        };
        let Ok(said) = one_said(alloc, Said::Pdu(Pdu::RestartResponse { point })) else {
            return Err((self, StepError::NoMemory));
        };
        let Ok(octets) = self.received.octets_before(point) else {
            return Err((self, StepError::NoMemory));
        };
        let Ok(()) = self.received.restart(point) else {
            return Err((self, StepError::NoMemory));
        };
        self.octets = octets;
        self.ended = None;
        Ok(Step {
            state: self,
            said,
            changes,
        })
    }

    /// The changes of the docket of its open, which stay away at the last check.
    fn restart_changes(&self, alloc: Global, point: u32) -> Result<Changes, NoMemory>
        ensures { IfOk result (λ changes. changes ≡ restarted_docket (fields_at self.now point) (offered self.now.received.checks) point) }
    {
        let stood = self.received.point();
        let changes = Changes::new(alloc);
        if stood <= point {
            return Ok(changes);
        }
        let fields = self.fields_at(alloc, point)?;
        let changes = cut_docket(alloc, changes, fields, stood, point)?;
        Ok(changes)
    }
}

/// A docket has these fields and a piece more, where there is one; octets are shared.
fn stage_docket(
    alloc: Global,
    fields: Option<Regime>,
    stood: u32,
    piece: &[Element],
) -> Result<Changes, NoMemory>
    requires { stood + 1 ≤ 4294967295 }
    ensures { IfOk result (λ changes. changes ≡ staged_docket fields stood piece.now) }
{
    let Some(regime) = fields else {
        return Ok(Changes::new(alloc));
    };
    let changes = put_and_stage(alloc, regime, stood, piece)?;
    Ok(changes)
}

/// A docket has these fields, and then a piece more.
fn put_and_stage(
    alloc: Global,
    regime: Regime,
    stood: u32,
    piece: &[Element],
) -> Result<Changes, NoMemory>
    requires { stood + 1 ≤ 4294967295 }
    ensures { IfOk result (λ made. made ≡ Change.PutDocket regime ∷ Change.Stage regime.identity regime.activity stood (stood + 1) piece.now ∷ []) }
{
    let activity = regime.activity;
    let identity = regime.identity.copy(alloc)?;
    let elements = copied(alloc, piece)?;
    let mut changes = one_change(alloc, Change::PutDocket { regime })?;
    let stage = Change::Stage {
        identity,
        activity,
        first: stood,
        last: stood + 1,
        elements,
    };
    changes.push(stage)?;
    Ok(changes)
}

fn copied(alloc: Global, elements: &[Element]) -> Result<Elements, NoMemory>
    ensures { IfOk result (λ made. made ≡ elements.now) }
{
    let mut made = Elements::new(alloc);
    for element in elements {
        let element = element.copy(alloc)?;
        made.push(element)?;
    }
    Ok(made)
}

/// These changes, and then: a docket has these fields and the pieces up to a check, where there is one.
pub(crate) fn cut_docket(
    alloc: Global,
    changes: Changes,
    fields: Option<Regime>,
    stood: u32,
    check: u32,
) -> Result<Changes, NoMemory>
    ensures { IfOk result (λ made. made ≡ changes ++ cut_meant fields stood check) }
{
    let Some(regime) = fields else {
        return Ok(changes);
    };
    let cut = docket_cut(alloc, regime, stood, check)?;
    followed_by(changes, cut)
}

/// A docket has these fields and the pieces up to a check.
fn docket_cut(alloc: Global, regime: Regime, stood: u32, check: u32) -> Result<Changes, NoMemory>
    ensures { IfOk result (λ made. made ≡ cut_meant (Some regime) stood check) }
{
    if check < stood {
        return put_and_cut(alloc, regime, check);
    }
    let changes = one_change(alloc, Change::PutDocket { regime })?;
    Ok(changes)
}

/// A docket has these fields, and then the pieces up to a check alone.
pub(crate) fn put_and_cut(alloc: Global, regime: Regime, check: u32) -> Result<Changes, NoMemory>
    ensures { IfOk result (λ made. made ≡ Change.PutDocket regime ∷ Change.CutStage regime.identity regime.activity check ∷ []) }
{
    let activity = regime.activity;
    let identity = regime.identity.copy(alloc)?;
    let mut changes = one_change(alloc, Change::PutDocket { regime })?;
    changes.push(Change::CutStage {
        identity,
        activity,
        point: check,
    })?;
    Ok(changes)
}
