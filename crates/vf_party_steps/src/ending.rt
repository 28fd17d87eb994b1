//! The end of a write (ISO 8571-3, F-TRANSFER-END and F-CANCEL).
ghost use Rattle.std.specs.Prelude.{◌≡◌, ◌+◌, IfErr, IfOk};
ghost use Rattle.vf_elements.specs.declared.message.Message.TheVariants as messages;
ghost use Rattle.vf_filestore.specs.History.{number_of as number_meant};
ghost use Rattle.vf_party_steps.specs.Dockets.{fields_of as fields_meant, no_transfer};
ghost use Rattle.vf_party_steps.specs.Represents.{IsOpen};
ghost use Rattle.vf_party_steps.specs.Steps.{IsStep};
ghost use Rattle.vf_party_steps.specs.Writes.{IsCancel, IsWriting, act_of, changes_at, ending_by, open_after};
ghost use Rattle.vf_pdu.specs.PduNumbers.{number_of};
ghost use Rattle.vf_regime_effects.specs.Meanings.{ending_of};
ghost use Rattle.vf_regime_refusals.specs.Asked.{stamp_by};

use crate::checking::cut_docket;
use crate::dockets::{Underway, fields_of};
use crate::erasing::changes_of;
use crate::states::OpenRegime;
use crate::step::one_said;
use crate::{Open, Said, Step, StepError, Writing};
use std::alloc::Global;
use vf_attr::{File, Stamp};
use vf_base::{Diagnostic, Element, Moment, NoMemory};
use vf_filestore::diagnostics::{CANCELLED, plain};
use vf_locks::Locks;
use vf_pdu::Pdu;
use vf_regime_effects::{Ending, Write, selected, write_ending};
use vf_tables::{Changes, Files, Regime, Tables};

impl Writing {
    /// Takes a TransferEndRequest (ISO 8571-3, F-TRANSFER-END): the write is performed with the values that stand, and
    /// the position is after them. The response has a diagnostic where it performs nothing: that by which its request was
    /// refused, 32 where the end of the values had one, and else 11, 17, 18, 19, 21, 22, 23 or 24 as the write is refused
    /// now. Without memory the state is given back as it was.
    pub fn transfer_end(
        self,
        alloc: Global,
        request: Pdu,
        moment: Moment,
        serial: u32,
        token: bool,
        sync: bool,
        tables: &Tables,
        locks: &mut Locks,
    ) -> Result<Step<Open>, (Writing, StepError)>
        requires { number_of request ≡ 35 }
        ensures consequence { IsStep IsWriting IsOpen tables.now locks.old locks.new self (record { moment = moment; serial = serial; token = token; sync = sync }) (messages.Pdu request) result }
        ensures kept { IfErr result (λ back. back.0 ≡ self) }
        ensures memory { IfErr result (λ back. back.1 ≡ StepError.NoMemory) }
    {
        let Pdu::TransferEndRequest = request else {
            unreachable!()
        };
        let Some(done) = self.regimes.regime.done.checked_add(1) else {
            return Err((self, StepError::NoMemory));
        };
        let Ok(ending) = self.ended_by(alloc, &tables.files, moment) else {
            return Err((self, StepError::NoMemory));
        };
        let diagnostic = ending.refused;
        let last = number_in(diagnostic);
        let position = ending.position;
        let Ok(changes) = self.changes_at(alloc, &tables.files, ending.file, position, last) else {
            return Err((self, StepError::NoMemory));
        };
        let Ok(said) = one_said(alloc, Said::Pdu(Pdu::TransferEndResponse { diagnostic })) else {
            return Err((self, StepError::NoMemory));
        };
        Ok(Step {
            state: after(self.regimes, position, done, last),
            said,
            changes,
        })
    }

    /// Takes a CancelRequest (ISO 8571-3, F-CANCEL): what stands before the last check is written, where there is one and
    /// nothing refuses it, and the write is over. Without memory the state is given back as it was.
    pub fn cancel(
        self,
        alloc: Global,
        request: Pdu,
        moment: Moment,
        serial: u32,
        token: bool,
        sync: bool,
        tables: &Tables,
        locks: &mut Locks,
    ) -> Result<Step<Open>, (Writing, StepError)>
        requires { number_of request ≡ 37 }
        ensures consequence { IsStep IsWriting IsOpen tables.now locks.old locks.new self (record { moment = moment; serial = serial; token = token; sync = sync }) (messages.Pdu request) result }
        ensures kept { IfErr result (λ back. back.0 ≡ self) }
        ensures memory { IfErr result (λ back. back.1 ≡ StepError.NoMemory) }
    {
        let Pdu::CancelRequest { .. } = request else {
            unreachable!()
        };
        let Some(done) = self.regimes.regime.done.checked_add(1) else {
            return Err((self, StepError::NoMemory));
        };
        let Ok(ending) = self.cancelled_by(alloc, &tables.files, moment) else {
            return Err((self, StepError::NoMemory));
        };
        let position = ending.position;
        let Ok(changes) = self.changes_at(alloc, &tables.files, ending.file, position, CANCELLED)
        else {
            return Err((self, StepError::NoMemory));
        };
        let Ok(said) = one_said(alloc, Said::Pdu(Pdu::CancelResponse)) else {
            return Err((self, StepError::NoMemory));
        };
        Ok(Step {
            state: after(self.regimes, position, done, CANCELLED),
            said,
            changes,
        })
    }

    /// What the write comes to with all values.
    fn ended_by(&self, alloc: Global, files: &Files, moment: Moment) -> Result<Ending, NoMemory>
        ensures { IfOk result (λ ending. ending_of ending ≡ ending_by files.now (stamp_by self.now.regimes.selected.associated.association moment) self.now self.now.received.values) }
    {
        if let vf_regime_effects::Writing::Refused { number, .. } = self.given {
            return Ok(Ending::refused_by(plain(number)));
        }
        if let Some(Some(_)) = self.ended {
            return Ok(Ending::refused_by(plain(CANCELLED)));
        }
        let ending = self.performed(alloc, files, moment, self.received.values())?;
        Ok(ending)
    }

    /// What a cancel performs.
    fn cancelled_by(&self, alloc: Global, files: &Files, moment: Moment) -> Result<Ending, NoMemory>
        ensures { IfOk result (λ ending. IsCancel files.now (stamp_by self.now.regimes.selected.associated.association moment) self.now ending) }
    {
        if let vf_regime_effects::Writing::Refused { .. } = self.given {
            return Ok(Ending::unchanged());
        }
        if self.received.point() == 0 {
            return Ok(Ending::unchanged());
        }
        let ending = self.performed(alloc, files, moment, self.received.front())?;
        Ok(ending.in_silence())
    }

    /// What the write comes to with these values.
    fn performed(
        &self,
        alloc: Global,
        files: &Files,
        moment: Moment,
        values: &[Element],
    ) -> Result<Ending, NoMemory>
        ensures { IfOk result (λ ending. ending_of ending ≡ act_of files.now (stamp_by self.now.regimes.selected.associated.association moment) self.now values.now) }
    {
        let identity = self
            .regimes
            .selected
            .associated
            .association
            .identity
            .copy(alloc)?;
        let write = Write {
            operation: self.operation,
            fadu: self.fadu,
            position: self.regimes.regime.position,
        };
        let name = &self.regimes.selected.selection.file;
        let ending = write_ending(
            alloc,
            files,
            Stamp { moment, identity },
            name,
            write,
            values,
        )?;
        Ok(ending)
    }

    /// The changes by which the write is over: the file is put, where there is one after it, and the docket of the open
    /// has no transfer and no piece.
    fn changes_at(
        &self,
        alloc: Global,
        files: &Files,
        file: Option<File>,
        position: Option<u32>,
        last: u16,
    ) -> Result<Changes, NoMemory>
        ensures { IfOk result (λ changes. changes ≡ changes_at self.now files.now file position last) }
    {
        let before = selected(files, &self.regimes.selected.selection.file);
        let changes = changes_of(alloc, before, file)?;
        let fields = fields_after(alloc, &self.regimes, position, last)?;
        let changes = cut_docket(alloc, changes, fields, self.received.point(), 0)?;
        Ok(changes)
    }
}

fn number_in(diagnostic: Option<Diagnostic>) -> u16
    ensures { result ≡ number_meant diagnostic }
{
    match diagnostic {
        Some(diagnostic) => diagnostic.number,
        None => 0,
    }
}

/// The open after a transfer that set this position, if any, and ended so.
fn after(regimes: Open, position: Option<u32>, done: u32, last: u16) -> Open
    requires { done ≡ regimes.regime.done + 1 }
    ensures { result ≡ open_after regimes position last }
{
    let regime = OpenRegime {
        mode: regimes.regime.mode,
        controls: regimes.regime.controls,
        activity: regimes.regime.activity,
        position: position.unwrap_or(regimes.regime.position),
        done,
        last,
    };
    Open {
        selected: regimes.selected,
        regime,
    }
}

/// The fields of the docket of the open after such a transfer.
fn fields_after(
    alloc: Global,
    regimes: &Open,
    position: Option<u32>,
    last: u16,
) -> Result<Option<Regime>, NoMemory>
    ensures { IfOk result (λ fields. fields ≡ fields_meant (open_after regimes.now position last) no_transfer) }
{
    let Some(mut fields) = fields_of(alloc, regimes, Underway::none())? else {
        return Ok(None);
    };
    let Some(number) = fields.number.checked_add(1) else {
        return Err(NoMemory);
    };
    fields.number = number;
    fields.position = position.unwrap_or(regimes.regime.position);
    fields.last = last;
    Ok(Some(fields))
}
