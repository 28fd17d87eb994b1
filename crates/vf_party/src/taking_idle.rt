//! What comes of a message of a party without an association.
ghost use Rattle.std.specs.Prelude.{◌≡◌, true};
ghost use Rattle.vf_elements.specs.Stages.{takes};
ghost use Rattle.vf_elements.specs.declared.message.Message.TheVariants as messages;
ghost use Rattle.vf_elements.specs.declared.stage.Stage.TheVariants as stages;
ghost use Rattle.vf_party_steps.specs.Represents.{IsIdle};
ghost use Rattle.vf_party.specs.Settings.{setting_of};
ghost use Rattle.vf_party.specs.Turns.{Associates, IsTurnOf};
ghost use Rattle.vf_party.specs.declared.party.Party.TheVariants as parties;

use crate::aborting::WRONG_STATE;
use crate::departing::{aborted_at, ended};
use crate::outcomes::outcome_of;
use crate::party::{Outcome, Party};
use crate::refusals::refusal;
use crate::{Associated, Idle, Message, Setting, Step, StepError};
use std::alloc::Global;
use vf_base::NoMemory;
use vf_elements::Stage;
use vf_locks::Locks;
use vf_pdu::Pdu;
use vf_tables::Tables;

/// Takes a message.
#[inline(never)]
pub(crate) fn take_idle(
    idle: Idle,
    alloc: Global,
    message: Message,
    setting: Setting,
    tables: &Tables,
    locks: &mut Locks,
) -> Result<Outcome, (Party, NoMemory)>
    ensures { IsTurnOf IsIdle parties.Idle tables.now locks.old locks.new idle (setting_of setting) message result }
{
    if !Stage::Idle.takes(&message) {
        return aborted_at(alloc, idle, message, WRONG_STATE, locks);
    }
    return take_taken(idle, alloc, message, setting, tables, locks);
}

/// Takes a message that may come without an association.
fn take_taken(
    idle: Idle,
    alloc: Global,
    message: Message,
    setting: Setting,
    tables: &Tables,
    locks: &mut Locks,
) -> Result<Outcome, (Party, NoMemory)>
    requires { takes stages.Idle message ≡ true }
    ensures { IsTurnOf IsIdle parties.Idle tables.now locks.old locks.new idle (setting_of setting) message result }
{
    match message {
        Message::Pdu(request) => return take_request(idle, alloc, request, setting, tables, locks),
        Message::Break => Ok(ended(alloc, idle, Vec::new(alloc), locks)),
        Message::Element(_) => unreachable!(),
        Message::Check => unreachable!(),
        Message::Acknowledge { .. } => unreachable!(),
        Message::Restart { .. } => unreachable!(),
    }
}

/// Takes such a request.
fn take_request(
    idle: Idle,
    alloc: Global,
    request: Pdu,
    setting: Setting,
    tables: &Tables,
    locks: &mut Locks,
) -> Result<Outcome, (Party, NoMemory)>
    requires { takes stages.Idle (messages.Pdu request) ≡ true }
    ensures { IsTurnOf IsIdle parties.Idle tables.now locks.old locks.new idle (setting_of setting) (messages.Pdu request) result }
{
    let Setting {
        moment,
        serial,
        token,
        sync,
    } = setting;
    match request {
        request @ Pdu::InitializeRequest { .. } => {
            let answer = idle.initialize(
                alloc, request, moment, serial, token, sync, tables, locks,
            );
            return associated(alloc, answer, locks);
        }
        _ => unreachable!(),
    }
}

/// What comes of an association that is asked for, from what its step answers; one that is refused doesn't stand.
fn associated(
    alloc: Global,
    answer: Result<Step<Associated>, (Idle, StepError)>,
    locks: &mut Locks,
) -> Result<Outcome, (Party, NoMemory)>
    ensures { Associates locks.old locks.new answer result }
{
    match answer {
        Ok(step) => Ok(outcome_of(step, locks)),
        Err((idle, error)) => match error {
            StepError::Refused(diagnostic) => {
                let Ok(said) = refusal(alloc, 0, diagnostic) else {
                    return Err((Party::Idle(idle), NoMemory));
                };
                Ok(ended(alloc, idle, said, locks))
            }
            StepError::NoMemory => Err((Party::Idle(idle), NoMemory)),
        },
    }
}
