ghost use Rattle.std.specs.Prelude.{◌≡◌, [], ◌∷◌, IfErr, IfOk, None};
ghost use Rattle.vf_elements.specs.declared.message.Message.TheVariants as messages;
ghost use Rattle.vf_elements.specs.declared.message.Said.TheVariants as answers;
ghost use Rattle.vf_party_steps.specs.Represents.{IsAssociated, IsSelected};
ghost use Rattle.vf_party_steps.specs.Steps.{IsStep};
ghost use Rattle.vf_pdu.specs.PduNumbers.{number_of};
ghost use Rattle.vf_pdu.specs.declared.pdu.Pdu.TheVariants as pdus;

use crate::step::{one_change, one_said};
use crate::{Associated, Said, Selected, Step, StepError};
use std::alloc::Global;
use vf_base::{Moment, Name, NoMemory};
use vf_locks::{Holder, Locks};
use vf_pdu::Pdu;
use vf_regime_refusals::refused_delete;
use vf_tables::{Change, Changes, Tables};

impl Selected {
    /// Takes a DeleteRequest (ISO 8571-3, F-DELETE): the selected file is gone, and the party no longer holds it. Refused
    /// with 33 without limited file management, 13 where deletion wasn't requested at the selection, and 16 where the file
    /// has another holder. The state is given back as it was with the diagnostic, or without memory.
    pub fn delete(
        self,
        alloc: Global,
        request: Pdu,
        moment: Moment,
        serial: u32,
        token: bool,
        sync: bool,
        tables: &Tables,
        locks: &mut Locks,
    ) -> Result<Step<Associated>, (Selected, StepError)>
        requires { number_of request ≡ 12 }
        ensures consequence { IsStep IsSelected IsAssociated tables.now locks.old locks.new self (record { moment = moment; serial = serial; token = token; sync = sync }) (messages.Pdu request) result }
        ensures kept { IfErr result (λ back. back.0 ≡ self) }
    {
        let Pdu::DeleteRequest = request else {
            unreachable!()
        };
        if let Some(diagnostic) = refused_delete(
            locks,
            &self.associated.association,
            &self.selection,
        ) {
            return Err((self, StepError::Refused(diagnostic)));
        }
        let Ok(done) = deleted(alloc, &self.selection.file) else {
            return Err((self, StepError::NoMemory));
        };
        let holder = Holder::Party {
            link: self.associated.association.link,
        };
        locks.release(&self.selection.file, &holder);
        Ok(Step {
            state: self.associated,
            said: done.0,
            changes: done.1,
        })
    }
}

/// What is said as the file of this name is deleted, and what changes.
fn deleted(alloc: Global, file: &Name) -> Result<(Vec<Said>, Changes), NoMemory>
    ensures said { IfOk result (λ done. done.0.items ≡ answers.Pdu (pdus.DeleteResponse None) ∷ []) }
    ensures changes { IfOk result (λ done. done.1 ≡ Change.DropFile file.now ∷ []) }
{
    let name = file.copy(alloc)?;
    let changes = one_change(alloc, Change::DropFile { name })?;
    let said = one_said(alloc, Said::Pdu(Pdu::DeleteResponse { diagnostic: None }))?;
    Ok((said, changes))
}
