//! What comes of a message of a party that reads.
ghost use Rattle.std.specs.Prelude.{◌≡◌, None, true};
ghost use Rattle.vf_elements.specs.Stages.{takes};
ghost use Rattle.vf_elements.specs.declared.message.Message.TheVariants as messages;
ghost use Rattle.vf_filestore.specs.Aborts.{first_abort};
ghost use Rattle.vf_party.specs.Aborting.{aborts_of_reading};
ghost use Rattle.vf_party_steps.specs.Reads.{IsReading, stage_of};
ghost use Rattle.vf_party.specs.Settings.{setting_of};
ghost use Rattle.vf_party.specs.Turns.{IsTurnOf};
ghost use Rattle.vf_party.specs.declared.party.Party.TheVariants as parties;

use crate::aborting::{WRONG_STATE, aborted_in_reading};
use crate::departing::{aborted_at, ended};
use crate::outcomes::concluded;
use crate::party::{Outcome, Party};
use crate::{Message, Reading, Setting};
use std::alloc::Global;
use vf_base::NoMemory;
use vf_locks::Locks;
use vf_pdu::Pdu;
use vf_tables::Tables;

/// Takes a message.
#[inline(never)]
pub(crate) fn take_reading(
    reading: Reading,
    alloc: Global,
    message: Message,
    setting: Setting,
    tables: &Tables,
    locks: &mut Locks,
) -> Result<Outcome, (Party, NoMemory)>
    ensures { IsTurnOf IsReading parties.Reading tables.now locks.old locks.new reading (setting_of setting) message result }
{
    if !reading.stage().takes(&message) {
        return aborted_at(alloc, reading, message, WRONG_STATE, locks);
    }
    let bar = aborted_in_reading(&reading, &message, setting.serial);
    if let Some(number) = bar {
        return aborted_at(alloc, reading, message, number, locks);
    }
    return take_unbarred(reading, alloc, message, setting, tables, locks);
}

/// Takes a message that its stage takes and nothing aborts.
fn take_unbarred(
    reading: Reading,
    alloc: Global,
    message: Message,
    setting: Setting,
    tables: &Tables,
    locks: &mut Locks,
) -> Result<Outcome, (Party, NoMemory)>
    requires taken { takes (stage_of reading) message ≡ true }
    requires unbarred { first_abort (aborts_of_reading reading setting.serial message) ≡ None }
    ensures { IsTurnOf IsReading parties.Reading tables.now locks.old locks.new reading (setting_of setting) message result }
{
    let Setting {
        moment,
        serial,
        token,
        sync,
    } = setting;
    match message {
        Message::Pdu(request) => return take_request(
            reading, alloc, request, setting, tables, locks,
        ),
        Message::Acknowledge { point } => {
            let answer = reading.acknowledge(
                alloc, point, moment, serial, token, sync, tables, locks,
            );
            return concluded(alloc, 32, answer, locks);
        }
        Message::Restart { point } => {
            let answer = reading.restart(alloc, point, moment, serial, token, sync, tables, locks);
            return concluded(alloc, 39, answer, locks);
        }
        Message::Break => Ok(ended(alloc, reading, Vec::new(alloc), locks)),
        Message::Element(_) => unreachable!(),
        Message::Check => unreachable!(),
    }
}

/// Takes such a request.
fn take_request(
    reading: Reading,
    alloc: Global,
    request: Pdu,
    setting: Setting,
    tables: &Tables,
    locks: &mut Locks,
) -> Result<Outcome, (Party, NoMemory)>
    requires taken { takes (stage_of reading) (messages.Pdu request) ≡ true }
    requires unbarred { first_abort (aborts_of_reading reading setting.serial (messages.Pdu request)) ≡ None }
    ensures { IsTurnOf IsReading parties.Reading tables.now locks.old locks.new reading (setting_of setting) (messages.Pdu request) result }
{
    let Setting {
        moment,
        serial,
        token,
        sync,
    } = setting;
    match request {
        Pdu::RestartRequest { point } => {
            let answer = reading.restart(alloc, point, moment, serial, token, sync, tables, locks);
            return concluded(alloc, 39, answer, locks);
        }
        request @ Pdu::TransferEndRequest => {
            let answer = reading.transfer_end(
                alloc, request, moment, serial, token, sync, tables, locks,
            );
            return concluded(alloc, 35, answer, locks);
        }
        request @ Pdu::CancelRequest { .. } => {
            let answer = reading.cancel(alloc, request, moment, serial, token, sync, tables, locks);
            return concluded(alloc, 37, answer, locks);
        }
        Pdu::UserAbort { .. } => Ok(ended(alloc, reading, Vec::new(alloc), locks)),
        Pdu::ProviderAbort { .. } => Ok(ended(alloc, reading, Vec::new(alloc), locks)),
        _ => unreachable!(),
    }
}
