ghost use Rattle.std.specs.Prelude.{◌≡◌, None, IfErr, IfOk, OnErr, OnOk, option_map};
ghost use Rattle.vf_elements.specs.declared.message.Message.TheVariants as messages;
ghost use Rattle.vf_filestore.specs.Controls.{joined as joined_meant, not_opened as not_opened_meant};
ghost use Rattle.vf_filestore.specs.Files.{file_named};
ghost use Rattle.vf_filestore.specs.Replies.{contents_of, reply};
ghost use Rattle.vf_locks.specs.Holders.{granted};
ghost use Rattle.vf_locks.specs.Table.{IsAsBefore, IsWith, held};
ghost use Rattle.vf_locks.specs.declared.holder.Holder.TheVariants as holders;
ghost use Rattle.vf_party_steps.specs.Dockets.{fields_of as fields_meant, no_transfer};
ghost use Rattle.vf_party_steps.specs.Openings.{drop_of, put_of};
ghost use Rattle.vf_party_steps.specs.Represents.{IsOpen, IsSelected};
ghost use Rattle.vf_party_steps.specs.Steps.{IsStep};
ghost use Rattle.vf_pdu.specs.PduNumbers.{number_of};
ghost use Rattle.vf_pdu.specs.declared.pdu.Pdu.TheVariants as pdus;

use crate::dockets::{Underway, fields_of};
use crate::holding::hold_with;
use crate::states::OpenRegime;
use crate::step::{one_change, one_said};
use crate::{Open, Said, Selected, Step, StepError};
use std::alloc::Global;
use vf_base::{Actions, Contents, Moment, Name, NoMemory};
use vf_locks::Locks;
use vf_pdu::Pdu;
use vf_regime_effects::selected;
use vf_regime_refusals::{Opening, content_controls, not_opened, refused_open};
use vf_tables::{Change, Changes, Files, Tables};

impl Selected {
    /// Takes an OpenRequest (ISO 8571-3, F-OPEN): the party holds the selected file with the controls of the open too,
    /// stands at its begin, and with an activity has a docket. Refused with 33 where there is an activity without the
    /// unit of recovery, 13 where the mode isn't within the requested actions or a control doesn't let its holder do what
    /// the mode has, 17 where the file has another contents type than is told, 18 where its constraint set doesn't have
    /// the mode, and 16 where another holder's controls stand against it; of an activity with 28 where the identity has a
    /// docket of it, and 35 where there are `MOST_DOCKETS` dockets. The state is given back as it was with the diagnostic,
    /// or without memory.
    pub fn open(
        self,
        alloc: Global,
        request: Pdu,
        moment: Moment,
        serial: u32,
        token: bool,
        sync: bool,
        tables: &Tables,
        locks: &mut Locks,
    ) -> Result<Step<Open>, (Selected, StepError)>
        requires { number_of request ≡ 18 }
        ensures consequence { IsStep IsSelected IsOpen tables.now locks.old locks.new self (record { moment = moment; serial = serial; token = token; sync = sync }) (messages.Pdu request) result }
        ensures kept { IfErr result (λ back. back.0 ≡ self) }
    {
        let Pdu::OpenRequest {
            mode,
            contents,
            controls,
            activity,
        } = request
        else {
            unreachable!()
        };
        let mode = Actions { value: mode };
        let opening = Opening {
            mode,
            contents,
            controls: content_controls(mode, controls),
            activity,
        };
        let association = &self.associated.association;
        let Ok(refused) = refused_open(alloc, tables, locks, association, &self.selection, &opening)
        else {
            return Err((self, StepError::NoMemory));
        };
        if let Some(diagnostic) = refused {
            return Err((self, StepError::Refused(diagnostic)));
        }
        let state = Open {
            selected: self,
            regime: OpenRegime {
                mode,
                controls: opening.controls,
                activity,
                position: 0,
                done: 0,
                last: 0,
            },
        };
        let Ok(done) = begun(alloc, &state, &tables.files, locks) else {
            return Err((state.selected, StepError::NoMemory));
        };
        Ok(Step {
            state,
            said: done.0,
            changes: done.1,
        })
    }
}

impl Open {
    /// Takes a CloseRequest (ISO 8571-3, F-CLOSE), which no diagnostic refuses: the party holds the selected file with the
    /// controls of the selection alone, and the docket of a recoverable open is gone. Without memory the state is given
    /// back as it was.
    pub fn close(
        self,
        alloc: Global,
        request: Pdu,
        moment: Moment,
        serial: u32,
        token: bool,
        sync: bool,
        tables: &Tables,
        locks: &mut Locks,
    ) -> Result<Step<Selected>, (Open, StepError)>
        requires { number_of request ≡ 20 }
        ensures consequence { IsStep IsOpen IsSelected tables.now locks.old locks.new self (record { moment = moment; serial = serial; token = token; sync = sync }) (messages.Pdu request) result }
        ensures kept { IfErr result (λ back. back.0 ≡ self) }
        ensures memory { IfErr result (λ back. back.1 ≡ StepError.NoMemory) }
    {
        let Pdu::CloseRequest = request else {
            unreachable!()
        };
        let Ok(done) = ended(alloc, &self, locks) else {
            return Err((self, StepError::NoMemory));
        };
        Ok(Step {
            state: self.selected,
            said: done.0,
            changes: done.1,
        })
    }
}

/// What is said as an open begins, and what changes; the party holds its file with the controls of the open too. Without
/// memory each file has the holders that it had.
fn begun(
    alloc: Global,
    regimes: &Open,
    files: &Files,
    locks: &mut Locks,
) -> Result<(Vec<Said>, Changes), NoMemory>
    ensures said { IfOk result (λ done. done.0.items ≡ reply (pdus.OpenResponse None (option_map contents_of (file_named regimes.now.selected.selection.file files.now)))) }
    ensures changes { IfOk result (λ done. done.1 ≡ put_of (fields_meant regimes.now no_transfer)) }
    ensures held { OnOk result (IsWith regimes.now.selected.selection.file (granted (holders.Party regimes.now.selected.associated.association.link) (joined_meant regimes.now.regime.controls regimes.now.selected.selection.controls) (held regimes.now.selected.selection.file locks.old)) locks.old locks.new) }
    ensures kept { OnErr result (IsAsBefore locks.old locks.new) }
{
    let changes = docket_put(alloc, regimes)?;
    let said = answered(alloc, files, &regimes.selected.selection.file)?;
    hold_with(alloc, &regimes.selected, regimes.regime.controls, locks)?;
    Ok((said, changes))
}

/// What is said as an open ends, and what changes; the party holds its file with the controls of the selection alone.
/// Without memory each file has the holders that it had.
fn ended(alloc: Global, regimes: &Open, locks: &mut Locks) -> Result<(Vec<Said>, Changes), NoMemory>
    ensures said { IfOk result (λ done. done.0.items ≡ reply (pdus.CloseResponse None)) }
    ensures changes { IfOk result (λ done. done.1 ≡ drop_of (fields_meant regimes.now no_transfer)) }
    ensures held { OnOk result (IsWith regimes.now.selected.selection.file (granted (holders.Party regimes.now.selected.associated.association.link) (joined_meant not_opened_meant regimes.now.selected.selection.controls) (held regimes.now.selected.selection.file locks.old)) locks.old locks.new) }
    ensures kept { OnErr result (IsAsBefore locks.old locks.new) }
{
    let changes = docket_dropped(alloc, regimes)?;
    let said = one_said(alloc, Said::Pdu(Pdu::CloseResponse { diagnostic: None }))?;
    hold_with(alloc, &regimes.selected, not_opened(), locks)?;
    Ok((said, changes))
}

/// The response to the open of the file of this name, which tells its contents type.
fn answered(alloc: Global, files: &Files, name: &Name) -> Result<Vec<Said>, NoMemory>
    ensures { IfOk result (λ said. said.items ≡ reply (pdus.OpenResponse None (option_map contents_of (file_named name.now files.now)))) }
{
    let contents = contents_in(alloc, files, name)?;
    let answer = Pdu::OpenResponse {
        diagnostic: None,
        contents,
    };
    let said = one_said(alloc, Said::Pdu(answer))?;
    Ok(said)
}

/// The contents type of the file of this name, where there is the file.
fn contents_in(alloc: Global, files: &Files, name: &Name) -> Result<Option<Contents>, NoMemory>
    ensures { IfOk result (λ told. told ≡ option_map contents_of (file_named name.now files.now)) }
{
    let Some(file) = selected(files, name) else {
        return Ok(None);
    };
    let contents = file.contents.copy(alloc)?;
    Ok(Some(contents))
}

/// What changes as an open begins: a recoverable one has a docket.
fn docket_put(alloc: Global, regimes: &Open) -> Result<Changes, NoMemory>
    ensures { IfOk result (λ changes. changes ≡ put_of (fields_meant regimes.now no_transfer)) }
{
    let fields = fields_of(alloc, regimes, Underway::none())?;
    let Some(regime) = fields else {
        return Ok(Changes::new(alloc));
    };
    let changes = one_change(alloc, Change::PutDocket { regime })?;
    Ok(changes)
}

/// What changes as an open ends: the docket of a recoverable one is gone.
fn docket_dropped(alloc: Global, regimes: &Open) -> Result<Changes, NoMemory>
    ensures { IfOk result (λ changes. changes ≡ drop_of (fields_meant regimes.now no_transfer)) }
{
    let Some(activity) = regimes.regime.activity else {
        return Ok(Changes::new(alloc));
    };
    let identity = regimes
        .selected
        .associated
        .association
        .identity
        .copy(alloc)?;
    let changes = one_change(alloc, Change::DropDocket { identity, activity })?;
    Ok(changes)
}
