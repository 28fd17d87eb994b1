ghost use Rattle.std.specs.Prelude.{◌≡◌, IfErr};
ghost use Rattle.vf_elements.specs.declared.message.Message.TheVariants as messages;
ghost use Rattle.vf_party_steps.specs.Represents.{IsAssociated, IsSelected};
ghost use Rattle.vf_party_steps.specs.Steps.{IsStep};
ghost use Rattle.vf_pdu.specs.PduNumbers.{number_of};

use crate::{Associated, Said, Selected, Step, StepError};
use std::alloc::Global;
use vf_base::Moment;
use vf_locks::{Holder, Locks};
use vf_pdu::Pdu;
use vf_tables::{Changes, Tables};

impl Selected {
    /// Takes a DeselectRequest (ISO 8571-3, F-DESELECT), which no diagnostic refuses: the party no longer holds the file.
    /// Without memory the state is given back as it was.
    pub fn deselect(
        self,
        alloc: Global,
        request: Pdu,
        moment: Moment,
        serial: u32,
        token: bool,
        sync: bool,
        tables: &Tables,
        locks: &mut Locks,
    ) -> Result<Step<Associated>, (Selected, StepError)>
        requires { number_of request ≡ 8 }
        ensures consequence { IsStep IsSelected IsAssociated tables.now locks.old locks.new self (record { moment = moment; serial = serial; token = token; sync = sync }) (messages.Pdu request) result }
        ensures kept { IfErr result (λ back. back.0 ≡ self) }
        ensures memory { IfErr result (λ back. back.1 ≡ StepError.NoMemory) }
    {
        let Pdu::DeselectRequest = request else {
            unreachable!()
        };
        let Ok(mut said) = Vec::with_capacity(alloc, 1) else {
            return Err((self, StepError::NoMemory));
        };
        let holder = Holder::Party {
            link: self.associated.association.link,
        };
        locks.release(&self.selection.file, &holder);
        said.push_reserved(Said::Pdu(Pdu::DeselectResponse { diagnostic: None }));
        Ok(Step {
            state: self.associated,
            said,
            changes: Changes::new(alloc),
        })
    }
}
