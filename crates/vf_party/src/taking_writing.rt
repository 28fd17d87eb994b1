//! What comes of a message of a party that writes.
ghost use Rattle.std.specs.Prelude.{◌≡◌, None, true};
ghost use Rattle.vf_elements.specs.Stages.{takes};
ghost use Rattle.vf_elements.specs.declared.message.Message.TheVariants as messages;
ghost use Rattle.vf_filestore.specs.Aborts.{first_abort};
ghost use Rattle.vf_party.specs.Aborting.{aborts_of_writing};
ghost use Rattle.vf_party_steps.specs.Writes.{IsWriting};
ghost use Rattle.vf_party_steps.specs.Moving.{stage_of_writing};
ghost use Rattle.vf_party.specs.Settings.{setting_of};
ghost use Rattle.vf_party.specs.Turns.{IsTurnOf};
ghost use Rattle.vf_party.specs.declared.party.Party.TheVariants as parties;

use crate::aborting::{WRONG_STATE, aborted_in_writing};
use crate::departing::{aborted_at, ended};
use crate::outcomes::concluded;
use crate::party::{Outcome, Party};
use crate::{Message, Setting, Writing};
use std::alloc::Global;
use vf_base::NoMemory;
use vf_locks::Locks;
use vf_pdu::Pdu;
use vf_tables::Tables;

/// Takes a message.
#[inline(never)]
pub(crate) fn take_writing(
    writing: Writing,
    alloc: Global,
    message: Message,
    setting: Setting,
    tables: &Tables,
    locks: &mut Locks,
) -> Result<Outcome, (Party, NoMemory)>
    ensures { IsTurnOf IsWriting parties.Writing tables.now locks.old locks.new writing (setting_of setting) message result }
{
    if !writing.stage().takes(&message) {
        return aborted_at(alloc, writing, message, WRONG_STATE, locks);
    }
    let bar = aborted_in_writing(&writing, &message, setting.serial);
    if let Some(number) = bar {
        return aborted_at(alloc, writing, message, number, locks);
    }
    return take_unbarred(writing, alloc, message, setting, tables, locks);
}

/// Takes a message that its stage takes and nothing aborts.
fn take_unbarred(
    writing: Writing,
    alloc: Global,
    message: Message,
    setting: Setting,
    tables: &Tables,
    locks: &mut Locks,
) -> Result<Outcome, (Party, NoMemory)>
    requires taken { takes (stage_of_writing writing) message ≡ true }
    requires unbarred { first_abort (aborts_of_writing writing setting.serial message) ≡ None }
    ensures { IsTurnOf IsWriting parties.Writing tables.now locks.old locks.new writing (setting_of setting) message result }
{
    let Setting {
        moment,
        serial,
        token,
        sync,
    } = setting;
    match message {
        Message::Pdu(request) => return take_request(
            writing, alloc, request, setting, tables, locks,
        ),
        Message::Element(element) => {
            let answer = writing.element(
                alloc, element, moment, serial, token, sync, tables, locks,
            );
            return concluded(alloc, 33, answer, locks);
        }
        Message::Check => {
            let answer = writing.check(alloc, moment, serial, token, sync, tables, locks);
            return concluded(alloc, 33, answer, locks);
        }
        Message::Restart { point } => {
            let answer = writing.restart_after(
                alloc, point, moment, serial, token, sync, tables, locks,
            );
            return concluded(alloc, 39, answer, locks);
        }
        Message::Break => Ok(ended(alloc, writing, Vec::new(alloc), locks)),
        Message::Acknowledge { .. } => unreachable!(),
    }
}

/// Takes such a request.
fn take_request(
    writing: Writing,
    alloc: Global,
    request: Pdu,
    setting: Setting,
    tables: &Tables,
    locks: &mut Locks,
) -> Result<Outcome, (Party, NoMemory)>
    requires taken { takes (stage_of_writing writing) (messages.Pdu request) ≡ true }
    requires unbarred { first_abort (aborts_of_writing writing setting.serial (messages.Pdu request)) ≡ None }
    ensures { IsTurnOf IsWriting parties.Writing tables.now locks.old locks.new writing (setting_of setting) (messages.Pdu request) result }
{
    let Setting {
        moment,
        serial,
        token,
        sync,
    } = setting;
    match request {
        request @ Pdu::RestartRequest { .. } => {
            let answer = writing.restart(
                alloc, request, moment, serial, token, sync, tables, locks,
            );
            return concluded(alloc, 39, answer, locks);
        }
        request @ Pdu::DataEnd { .. } => {
            let answer = writing.data_end(
                alloc, request, moment, serial, token, sync, tables, locks,
            );
            return concluded(alloc, 34, answer, locks);
        }
        request @ Pdu::TransferEndRequest => {
            let answer = writing.transfer_end(
                alloc, request, moment, serial, token, sync, tables, locks,
            );
            return concluded(alloc, 35, answer, locks);
        }
        request @ Pdu::CancelRequest { .. } => {
            let answer = writing.cancel(alloc, request, moment, serial, token, sync, tables, locks);
            return concluded(alloc, 37, answer, locks);
        }
        Pdu::UserAbort { .. } => Ok(ended(alloc, writing, Vec::new(alloc), locks)),
        Pdu::ProviderAbort { .. } => Ok(ended(alloc, writing, Vec::new(alloc), locks)),
        _ => unreachable!(),
    }
}
