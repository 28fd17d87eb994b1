ghost use Rattle.std.specs.Prelude.{◌≡◌, IfErr};
ghost use Rattle.vf_elements.specs.declared.message.Message.TheVariants as messages;
ghost use Rattle.vf_party_steps.specs.Represents.{IsAssociated, IsSelected};
ghost use Rattle.vf_party_steps.specs.Steps.{IsStep};
ghost use Rattle.vf_pdu.specs.PduNumbers.{number_of};

use crate::holding::hold_selected;
use crate::{Associated, Said, Selected, Step, StepError};
use std::alloc::Global;
use vf_base::{Moment, NoMemory};
use vf_locks::Locks;
use vf_pdu::Pdu;
use vf_regime_refusals::{Selection, attribute_controls, refused_select};
use vf_tables::{Changes, Tables};

impl Associated {
    /// Takes a SelectRequest (ISO 8571-3, F-SELECT): the party holds the file with the controls of the selection. Refused
    /// with 11 where no file has the name, 13 where a control doesn't let its holder do what is requested, 13, 14 or 15
    /// where access control doesn't, and 16 where another holder's controls stand against it. The state is given back as
    /// it was with the diagnostic, or without memory.
    pub fn select(
        self,
        alloc: Global,
        request: Pdu,
        moment: Moment,
        serial: u32,
        token: bool,
        sync: bool,
        tables: &Tables,
        locks: &mut Locks,
    ) -> Result<Step<Selected>, (Associated, StepError)>
        requires { number_of request ≡ 6 }
        ensures consequence { IsStep IsAssociated IsSelected tables.now locks.old locks.new self (record { moment = moment; serial = serial; token = token; sync = sync }) (messages.Pdu request) result }
        ensures kept { IfErr result (λ back. back.0 ≡ self) }
    {
        let Pdu::SelectRequest {
            name,
            requested,
            controls,
            password,
        } = request
        else {
            unreachable!()
        };
        let selection = Selection {
            file: name,
            requested,
            controls: attribute_controls(requested, controls),
            password,
        };
        let Ok(refused) = refused_select(alloc, tables, locks, &self.association, &selection) else {
            return Err((self, StepError::NoMemory));
        };
        if let Some(diagnostic) = refused {
            return Err((self, StepError::Refused(diagnostic)));
        }
        let Ok(mut said) = hold_selected(alloc, &self, &selection, locks) else {
            return Err((self, StepError::NoMemory));
        };
        said.push_reserved(Said::Pdu(Pdu::SelectResponse { diagnostic: None }));
        let state = Selected {
            associated: self,
            selection,
        };
        Ok(Step {
            state,
            said,
            changes: Changes::new(alloc),
        })
    }
}
