ghost use Rattle.std.specs.Prelude.{◌≡◌, [], ◌∷◌, IfErr, IfOk, None, OnErr, OnOk};
ghost use Rattle.vf_elements.specs.declared.message.Message.TheVariants as messages;
ghost use Rattle.vf_elements.specs.declared.message.Said.TheVariants as answers;
ghost use Rattle.vf_filestore.specs.Controls.{joined as joined_meant, not_opened as not_opened_meant};
ghost use Rattle.vf_filestore.specs.Files.{file_named};
ghost use Rattle.vf_locks.specs.Table.{IsAsBefore};
ghost use Rattle.vf_party_steps.specs.Renames.{IsRenamed, changes_where, named_as};
ghost use Rattle.vf_party_steps.specs.Represents.{IsSelected};
ghost use Rattle.vf_party_steps.specs.Steps.{IsStep};
ghost use Rattle.vf_pdu.specs.PduNumbers.{number_of};
ghost use Rattle.vf_pdu.specs.declared.pdu.Pdu.TheVariants as pdus;
ghost use Rattle.vf_regime_refusals.specs.Asked.{stamp_by};

use crate::files::attributes_change;
use crate::step::one_said;
use crate::{Said, Selected, Step, StepError};
use std::alloc::Global;
use vf_attr::{AttributeChange, Stamp};
use vf_base::{Moment, Name, NoMemory, copy_option};
use vf_locks::{Holder, Locks};
use vf_pdu::Pdu;
use vf_regime_effects::{changed, selected};
use vf_regime_refusals::{joined, not_opened, refused_change_attrib};
use vf_tables::{Changes, Files, Tables};

impl Selected {
    /// Takes a ChangeAttribRequest (ISO 8571-3, F-CHANGE-ATTRIB): the selected file has the attributes that are new, and
    /// the stamp of the change; the party holds it by its new name. Refused with 33 without enhanced file management, 13
    /// where changing attributes wasn't requested at the selection, 31 where `others` isn't 0, 12 where the new name is
    /// another file's, and 16 where there is a new name and the file has another holder. The state is given back as it
    /// was with the diagnostic, or without memory.
    pub fn change_attrib(
        self,
        alloc: Global,
        request: Pdu,
        moment: Moment,
        serial: u32,
        token: bool,
        sync: bool,
        tables: &Tables,
        locks: &mut Locks,
    ) -> Result<Step<Selected>, (Selected, StepError)>
        requires { number_of request ≡ 16 }
        ensures consequence { IsStep IsSelected IsSelected tables.now locks.old locks.new self (record { moment = moment; serial = serial; token = token; sync = sync }) (messages.Pdu request) result }
        ensures kept { IfErr result (λ back. back.0 ≡ self) }
    {
        let Pdu::ChangeAttribRequest {
            name,
            permitted,
            terms,
            others,
        } = request
        else {
            unreachable!()
        };
        if let Some(diagnostic) = refused_change_attrib(
            tables,
            locks,
            &self.associated.association,
            &self.selection,
            name.as_ref(),
            others,
        ) {
            return Err((self, StepError::Refused(diagnostic)));
        }
        let Ok(new) = copy_option(alloc, &name) else {
            return Err((self, StepError::NoMemory));
        };
        let change = AttributeChange {
            name,
            permitted,
            terms,
            others,
        };
        let Ok(done) = renamed(alloc, &self, &new, moment, change, &tables.files, locks) else {
            return Err((self, StepError::NoMemory));
        };
        Ok(Step {
            state: with_name(self, new),
            said: done.0,
            changes: done.1,
        })
    }
}

/// What is said as the selected file is changed, and what changes in the tables; the party holds it by its new name, where
/// it has one. Without memory each file has the holders that it had.
fn renamed(
    alloc: Global,
    state: &Selected,
    name: &Option<Name>,
    moment: Moment,
    change: AttributeChange,
    files: &Files,
    locks: &mut Locks,
) -> Result<(Vec<Said>, Changes), NoMemory>
    ensures said { IfOk result (λ done. done.0.items ≡ answers.Pdu (pdus.ChangeAttribResponse None) ∷ []) }
    ensures changes { IfOk result (λ done. done.1 ≡ changes_where (file_named state.now.selection.file files.now) (stamp_by state.now.associated.association moment) change) }
    ensures held { OnOk result (IsRenamed state.now.associated.association.link state.now.selection.file name.now (joined_meant not_opened_meant state.now.selection.controls) locks.old locks.new) }
    ensures kept { OnErr result (IsAsBefore locks.old locks.new) }
{
    let changes = changes_of(alloc, files, state, moment, change)?;
    let answer = Pdu::ChangeAttribResponse { diagnostic: None };
    let said = one_said(alloc, Said::Pdu(answer))?;
    hold_by(alloc, state, name, locks)?;
    Ok((said, changes))
}

/// What changes in the tables where the selected file is changed, if it is there. Its contents are as they were.
#[tactic(auto, using(vf_tree::proofs::EqualUnits::units_refl))]
fn changes_of(
    alloc: Global,
    files: &Files,
    state: &Selected,
    moment: Moment,
    change: AttributeChange,
) -> Result<Changes, NoMemory>
    ensures { IfOk result (λ changes. changes ≡ changes_where (file_named state.now.selection.file files.now) (stamp_by state.now.associated.association moment) change) }
{
    let Some(before) = selected(files, &state.selection.file) else {
        return Ok(Changes::new(alloc));
    };
    let identity = state.associated.association.identity.copy(alloc)?;
    let after = changed(alloc, before, Stamp { moment, identity }, change)?;
    let changes = attributes_change(alloc, before, after)?;
    Ok(changes)
}

/// The party holds the selected file by its new name, where it has one, and no longer by the old one. Without memory
/// each file has the holders that it had.
fn hold_by(
    alloc: Global,
    state: &Selected,
    name: &Option<Name>,
    locks: &mut Locks,
) -> Result<(), NoMemory>
    ensures ok { OnOk result (IsRenamed state.now.associated.association.link state.now.selection.file name.now (joined_meant not_opened_meant state.now.selection.controls) locks.old locks.new) }
    ensures err { OnErr result (IsAsBefore locks.old locks.new) }
{
    let Some(name) = name else {
        return Ok(());
    };
    if *name == state.selection.file {
        return Ok(());
    }
    let holder = Holder::Party {
        link: state.associated.association.link,
    };
    let wanted = joined(not_opened(), state.selection.controls);
    let Ok(()) = locks.grant(alloc, name, &holder, &wanted) else {
        return Err(NoMemory);
    };
    locks.release(&state.selection.file, &holder);
    Ok(())
}

/// The state in which the selected file has this name, where there is one.
fn with_name(mut state: Selected, name: Option<Name>) -> Selected
    ensures { result ≡ named_as name state }
{
    if let Some(name) = name {
        state.selection.file = name;
    }
    state
}
