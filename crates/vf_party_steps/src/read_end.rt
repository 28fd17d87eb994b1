ghost use Rattle.std.specs.Prelude.{◌≡◌, ◌++◌, IfErr, IfOk, option_copied};
ghost use Rattle.vf_elements.specs.declared.message.Message.TheVariants as messages;
ghost use Rattle.vf_filestore.specs.History.{number_of as outcome_meant};
ghost use Rattle.vf_filestore.specs.Transfers.{refusal_of as refusal_meant};
ghost use Rattle.vf_party_steps.specs.Dockets.{no_transfer};
ghost use Rattle.vf_party_steps.specs.Reads.{IsReading, ended_changes, moving_of, read_changes};
ghost use Rattle.vf_party_steps.specs.Regimes.{docket_changes};
ghost use Rattle.vf_party_steps.specs.Represents.{IsOpen};
ghost use Rattle.vf_party_steps.specs.Steps.{IsStep};
ghost use Rattle.vf_pdu.specs.PduNumbers.{number_of};
ghost use Rattle.vf_regime_effects.specs.Meanings.{given_of_reading};

use crate::dockets::Underway;
use crate::files::attributes_change;
use crate::regimes::{changed, concluded};
use crate::states::OpenRegime;
use crate::step::{followed_by, one_said};
use crate::{Open, Reading, Said, Step, StepError};
use std::alloc::Global;
use vf_attr::{File, Stamp};
use vf_base::{Diagnostic, Moment, NoMemory};
use vf_filestore::diagnostics::{CANCELLED, plain};
use vf_locks::Locks;
use vf_pdu::Pdu;
use vf_regime_effects::{Reading as Given, read_ending, selected};
use vf_tables::{Changes, Files, Tables};

impl Reading {
    /// Takes a TransferEndRequest (ISO 8571-3, F-TRANSFER-END): the file keeps who read it last, and when. The response has
    /// the diagnostic of a read that was refused, which changes no file. More transfers than a number counts, which no
    /// open has, want memory; without it the state is given back as it was.
    pub fn transfer_end(
        self,
        alloc: Global,
        request: Pdu,
        moment: Moment,
        serial: u32,
        token: bool,
        sync: bool,
        tables: &Tables,
        locks: &mut Locks,
    ) -> Result<Step<Open>, (Reading, StepError)>
        requires { number_of request ≡ 35 }
        ensures consequence { IsStep IsReading IsOpen tables.now locks.old locks.new self (record { moment = moment; serial = serial; token = token; sync = sync }) (messages.Pdu request) result }
        ensures kept { IfErr result (λ back. back.0 ≡ self) }
        ensures memory { IfErr result (λ back. back.1 ≡ StepError.NoMemory) }
    {
        let Pdu::TransferEndRequest = request else {
            unreachable!()
        };
        let diagnostic = refusal_of(&self.given);
        let Ok(said) = one_said(alloc, Said::Pdu(Pdu::TransferEndResponse { diagnostic })) else {
            return Err((self, StepError::NoMemory));
        };
        let Ok(regime) = concluded(&self.opened.regime, outcome_of(diagnostic)) else {
            return Err((self, StepError::NoMemory));
        };
        let Ok(changes) = self.ended(alloc, moment, &tables.files, &regime) else {
            return Err((self, StepError::NoMemory));
        };
        let state = Open {
            selected: self.opened.selected,
            regime,
        };
        Ok(Step {
            state,
            said,
            changes,
        })
    }

    /// Takes a CancelRequest (ISO 8571-3, F-CANCEL): the read ends, and the file keeps who read it last, and when, unless
    /// the read was refused. More transfers than a number counts, which no open has, want memory; without it the state is
    /// given back as it was.
    pub fn cancel(
        self,
        alloc: Global,
        request: Pdu,
        moment: Moment,
        serial: u32,
        token: bool,
        sync: bool,
        tables: &Tables,
        locks: &mut Locks,
    ) -> Result<Step<Open>, (Reading, StepError)>
        requires { number_of request ≡ 37 }
        ensures consequence { IsStep IsReading IsOpen tables.now locks.old locks.new self (record { moment = moment; serial = serial; token = token; sync = sync }) (messages.Pdu request) result }
        ensures kept { IfErr result (λ back. back.0 ≡ self) }
        ensures memory { IfErr result (λ back. back.1 ≡ StepError.NoMemory) }
    {
        let Pdu::CancelRequest { diagnostic: _ } = request else {
            unreachable!()
        };
        let Ok(said) = one_said(alloc, Said::Pdu(Pdu::CancelResponse)) else {
            return Err((self, StepError::NoMemory));
        };
        let Ok(regime) = concluded(&self.opened.regime, CANCELLED) else {
            return Err((self, StepError::NoMemory));
        };
        let Ok(changes) = self.ended(alloc, moment, &tables.files, &regime) else {
            return Err((self, StepError::NoMemory));
        };
        let state = Open {
            selected: self.opened.selected,
            regime,
        };
        Ok(Step {
            state,
            said,
            changes,
        })
    }

    /// The changes of the file and of its docket by which it ends at this moment, with this as the open's regime.
    fn ended(
        &self,
        alloc: Global,
        moment: Moment,
        files: &Files,
        regime: &OpenRegime,
    ) -> Result<Changes, NoMemory>
        ensures { IfOk result (λ changes. changes ≡ ended_changes self.now moment files.now ++ docket_changes self.now.opened (moving_of self.now) regime.now no_transfer) }
    {
        let first = self.file_changed(alloc, moment, files)?;
        let none = Underway::none();
        let later = changed(alloc, &self.opened, self.moving(), regime, none)?;
        let changes = followed_by(first, later)?;
        Ok(changes)
    }

    /// The change of the file by which it ends at this moment.
    fn file_changed(
        &self,
        alloc: Global,
        moment: Moment,
        files: &Files,
    ) -> Result<Changes, NoMemory>
        ensures { IfOk result (λ changes. changes ≡ ended_changes self.now moment files.now) }
    {
        if refusal_of(&self.given).is_some() {
            return Ok(Changes::new(alloc));
        }
        let selection = &self.opened.selected.selection;
        let association = &self.opened.selected.associated.association;
        let identity = association.identity.copy(alloc)?;
        let stamp = Stamp { moment, identity };
        let changes = read_changed(alloc, stamp, selected(files, &selection.file))?;
        Ok(changes)
    }
}

/// The change of a file that was read, where there is one: its contents are as they were.
#[tactic(auto, using(vf_tree::proofs::EqualUnits::units_refl))]
fn read_changed(alloc: Global, stamp: Stamp, file: Option<&File>) -> Result<Changes, NoMemory>
    ensures { IfOk result (λ changes. changes ≡ read_changes stamp (option_copied file.entry)) }
{
    let Some(before) = file else {
        return Ok(Changes::new(alloc));
    };
    let ending = read_ending(alloc, stamp, Some(before))?;
    let Some(after) = ending.file else {
        return Ok(Changes::new(alloc));
    };
    let changes = attributes_change(alloc, before, after)?;
    Ok(changes)
}

/// Why a read was refused that was given this, if it was.
fn refusal_of(given: &Given) -> Option<Diagnostic>
    ensures { result ≡ refusal_meant (given_of_reading given.now) }
{
    match given {
        Given::Refused { number, .. } => Some(plain(*number)),
        Given::Showed { .. } => None,
    }
}

/// How a transfer ends: 0, or the number of its diagnostic.
fn outcome_of(diagnostic: Option<Diagnostic>) -> u16
    ensures { result ≡ outcome_meant diagnostic }
{
    match diagnostic {
        Some(diagnostic) => diagnostic.number,
        None => 0,
    }
}
