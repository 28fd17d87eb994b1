ghost use Rattle.std.specs.Prelude.{◌≡◌, [], ◌∷◌, IfErr, IfOk, None, OnErr, OnOk};
ghost use Rattle.vf_elements.specs.declared.message.Message.TheVariants as messages;
ghost use Rattle.vf_elements.specs.declared.message.Said.TheVariants as answers;
ghost use Rattle.vf_filestore.specs.Controls.{joined as joined_meant, not_opened as not_opened_meant};
ghost use Rattle.vf_locks.specs.Holders.{granted};
ghost use Rattle.vf_locks.specs.Table.{IsAsBefore, IsWith, held};
ghost use Rattle.vf_locks.specs.declared.holder.Holder.TheVariants as holders;
ghost use Rattle.vf_party_steps.specs.Creations.{IsRefusedBy, changes_of as changes_meant, creation_in};
ghost use Rattle.vf_party_steps.specs.Represents.{IsAssociated, IsSelected};
ghost use Rattle.vf_party_steps.specs.Steps.{IsStep};
ghost use Rattle.vf_pdu.specs.PduNumbers.{number_of};
ghost use Rattle.vf_pdu.specs.declared.pdu.Pdu.TheVariants.{CreateResponse};

use crate::holding::hold_selected;
use crate::step::one_change;
use crate::{Associated, Said, Selected, Step, StepError};
use std::alloc::Global;
use vf_base::{Diagnostic, Moment, NoMemory};
use vf_filestore::NewFile;
use vf_locks::Locks;
use vf_pdu::Pdu;
use vf_regime_refusals::{Association, Creation, Selection, attribute_controls, create};
use vf_tables::{Change, Changes, Tables};

impl Associated {
    /// Takes a CreateRequest (ISO 8571-3, F-CREATE): the party holds a new file, or where `over` isn't 0 the one that has
    /// the name, with the controls of the selection. Refused with 33 without limited file management. Where a file has
    /// the name: 12 where `over` is 0, else as its selection is. Where none has: 17 where the contents are no document
    /// type, 24 where there are `MOST_FILES` files, else as the selection of the new file is. The state is given back as
    /// it was with the diagnostic, or without memory.
    pub fn create(
        self,
        alloc: Global,
        request: Pdu,
        moment: Moment,
        serial: u32,
        token: bool,
        sync: bool,
        tables: &Tables,
        locks: &mut Locks,
    ) -> Result<Step<Selected>, (Associated, StepError)>
        requires { number_of request ≡ 10 }
        ensures consequence { IsStep IsAssociated IsSelected tables.now locks.old locks.new self (record { moment = moment; serial = serial; token = token; sync = sync }) (messages.Pdu request) result }
        ensures kept { IfErr result (λ back. back.0 ≡ self) }
    {
        let Pdu::CreateRequest {
            over,
            name,
            contents,
            permitted,
            terms,
            requested,
            controls,
            password,
        } = request
        else {
            unreachable!()
        };
        let Ok(file) = name.copy(alloc) else {
            return Err((self, StepError::NoMemory));
        };
        let selection = Selection {
            file,
            requested,
            controls: attribute_controls(requested, controls),
            password,
        };
        let new = NewFile {
            name,
            contents,
            permitted,
            terms,
        };
        match created(alloc, &self, &selection, over, moment, new, tables, locks) {
            Ok(done) => {
                return Ok(Step {
                    state: Selected {
                        associated: self,
                        selection,
                    },
                    said: done.0,
                    changes: done.1,
                });
            }
            Err(error) => return Err((self, error)),
        }
    }
}

/// What is said to a creation, whose file the party then holds, and what changes in the tables. Where it is refused, and
/// without memory, each file has the holders that it had.
fn created(
    alloc: Global,
    associated: &Associated,
    selection: &Selection,
    over: u8,
    moment: Moment,
    new: NewFile,
    tables: &Tables,
    locks: &mut Locks,
) -> Result<(Vec<Said>, Changes), StepError>
    requires { selection.now.file ≡ new.name }
    ensures said { IfOk result (λ done. done.0.items ≡ answers.Pdu (CreateResponse None) ∷ []) }
    ensures made { IfOk result (λ done. changes_meant (creation_in tables.now locks.old associated.now.association selection.now over moment new) ≡ Ok done.1) }
    ensures held { OnOk result (IsWith selection.now.file (granted (holders.Party associated.now.association.link) (joined_meant not_opened_meant selection.now.controls) (held selection.now.file locks.old)) locks.old locks.new) }
    ensures refused { IfErr result (IsRefusedBy (changes_meant (creation_in tables.now locks.old associated.now.association selection.now over moment new))) }
    ensures kept { OnErr result (IsAsBefore locks.old locks.new) }
{
    let changes = changed(
        alloc,
        &associated.association,
        selection,
        over,
        moment,
        new,
        tables,
        locks,
    )?;
    let Ok(mut said) = hold_selected(alloc, associated, selection, locks) else {
        return Err(StepError::NoMemory);
    };
    said.push_reserved(Said::Pdu(Pdu::CreateResponse { diagnostic: None }));
    Ok((said, changes))
}

/// What changes in the tables with a creation.
fn changed(
    alloc: Global,
    association: &Association,
    selection: &Selection,
    over: u8,
    moment: Moment,
    new: NewFile,
    tables: &Tables,
    locks: &Locks,
) -> Result<Changes, StepError>
    ensures made { IfOk result (λ changes. changes_meant (creation_in tables.now locks.now association.now selection.now over moment new) ≡ Ok changes) }
    ensures refused { IfErr result (IsRefusedBy (changes_meant (creation_in tables.now locks.now association.now selection.now over moment new))) }
{
    let Ok(creation) = create(
        alloc,
        tables,
        locks,
        association,
        selection,
        over,
        moment,
        new,
    ) else {
        return Err(StepError::NoMemory);
    };
    match changes_of(alloc, creation) {
        Ok(Ok(changes)) => Ok(changes),
        Ok(Err(diagnostic)) => Err(StepError::Refused(diagnostic)),
        Err(NoMemory) => Err(StepError::NoMemory),
    }
}

/// What changes in the tables, or what refuses the creation.
fn changes_of(alloc: Global, creation: Creation) -> Result<Result<Changes, Diagnostic>, NoMemory>
    ensures { IfOk result (λ made. made ≡ changes_meant creation) }
{
    match creation {
        Creation::Refused(diagnostic) => return Ok(Err(diagnostic)),
        Creation::Selected => return Ok(Ok(Changes::new(alloc))),
        Creation::Made(file) => {
            let changes = one_change(alloc, Change::PutFile { file })?;
            Ok(Ok(changes))
        }
    }
}
