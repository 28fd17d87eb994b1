//! What comes of a message in a regime in which no transfer is under way.
ghost use Rattle.std.specs.Prelude.{◌≡◌, ◌==◌, ◌||◌, [], ◌∷◌, None, false, true};
ghost use Rattle.vf_elements.specs.Stages.{takes};
ghost use Rattle.vf_elements.specs.declared.message.Message.TheVariants as messages;
ghost use Rattle.vf_elements.specs.declared.message.Said.TheVariants as answers;
ghost use Rattle.vf_filestore.specs.Aborts.{first_abort};
ghost use Rattle.vf_party.specs.Aborting.{aborts_of_quiet};
ghost use Rattle.vf_party.specs.Hearing.{outcome_in, turn_in};
ghost use Rattle.vf_party.specs.Items.{is_item as is_item_meant};
ghost use Rattle.vf_party.specs.Quiets.{IsQuiet, stage_of};
ghost use Rattle.vf_party.specs.Settings.{setting_of};
ghost use Rattle.vf_party.specs.Turns.{EndsSaying, IsEnded, IsTurnOf};
ghost use Rattle.vf_party.specs.declared.party.Party.{Party as PartyMeant};
ghost use Rattle.vf_party.specs.declared.party.Party.TheVariants as parties;
ghost use Rattle.vf_pdu.specs.PduNumbers.{number_of};

use crate::aborting::{WRONG_STATE, aborted_in_quiet};
use crate::departing::aborted_at;
use crate::hearing::{Answered, settled};
use crate::items::is_item;
use crate::outcomes::conclude;
use crate::party::Party;
use crate::{Message, Quiet, Setting};
use std::alloc::Global;
use vf_base::NoMemory;
use vf_locks::Locks;
use vf_pdu::Pdu;
use vf_tables::{Changes, Tables};

/// Takes a message; the party that is left stands in the place of another.
pub(crate) fn take_quiet(
    party: &mut Party,
    quiet: Quiet,
    alloc: Global,
    message: Message,
    setting: Setting,
    tables: &Tables,
    locks: &mut Locks,
) -> Result<Answered, NoMemory>
    ensures { IsTurnOf IsQuiet parties.Quiet tables.now locks.old locks.new quiet (setting_of setting) message (turn_in party.new result) }
{
    if !quiet.stage().takes(&message) {
        return abort_quiet(party, quiet, alloc, message, WRONG_STATE, locks);
    }
    return take_taken(party, quiet, alloc, message, setting, tables, locks);
}

/// Takes a message that its stage takes.
fn take_taken(
    party: &mut Party,
    quiet: Quiet,
    alloc: Global,
    message: Message,
    setting: Setting,
    tables: &Tables,
    locks: &mut Locks,
) -> Result<Answered, NoMemory>
    requires { takes (stage_of quiet) message ≡ true }
    ensures { IsTurnOf IsQuiet parties.Quiet tables.now locks.old locks.new quiet (setting_of setting) message (turn_in party.new result) }
{
    match message {
        Message::Pdu(request) => {
            return take_request(party, quiet, alloc, request, setting, tables, locks);
        }
        Message::Break => Ok(end_quiet(alloc, quiet, locks)),
        Message::Element(_) => unreachable!(),
        Message::Check => unreachable!(),
        Message::Acknowledge { .. } => unreachable!(),
        Message::Restart { .. } => unreachable!(),
    }
}

/// Takes a request that its stage takes.
fn take_request(
    party: &mut Party,
    quiet: Quiet,
    alloc: Global,
    request: Pdu,
    setting: Setting,
    tables: &Tables,
    locks: &mut Locks,
) -> Result<Answered, NoMemory>
    requires { takes (stage_of quiet) (messages.Pdu request) ≡ true }
    ensures { IsTurnOf IsQuiet parties.Quiet tables.now locks.old locks.new quiet (setting_of setting) (messages.Pdu request) (turn_in party.new result) }
{
    let bar = aborted_in_quiet(&quiet, &request, setting.token);
    if let Some(number) = bar {
        return abort_quiet(party, quiet, alloc, Message::Pdu(request), number, locks);
    }
    let number = request.number();
    let is_item = is_item(&request);
    if is_item {
        let answer = quiet.take_item(alloc, request, setting, tables, locks);
        return conclude(party, alloc, number, answer, locks);
    }
    if is_leaving(number) {
        drop(request);
        return Ok(end_quiet(alloc, quiet, locks));
    }
    return take_other(party, quiet, alloc, request, setting, tables, locks);
}

// These stand out of line, since the room for what they keep costs each request that comes through one function with them.

/// The provider aborts at this message, and the party is gone.
#[inline(never)]
fn abort_quiet(
    party: &mut Party,
    quiet: Quiet,
    alloc: Global,
    message: Message,
    number: u16,
    locks: &mut Locks,
) -> Result<Answered, NoMemory>
    ensures { EndsSaying IsQuiet parties.Quiet quiet (answers.Abort number 0 ∷ []) locks.old locks.new (turn_in party.new result) }
{
    let taken = aborted_at(alloc, quiet, message, number, locks);
    return settled(party, taken);
}

/// The party is gone, and nothing is said.
#[inline(never)]
fn end_quiet(alloc: Global, quiet: Quiet, locks: &mut Locks) -> Answered
    ensures { (party : PartyMeant) → IsEnded IsQuiet quiet [] locks.old locks.new (outcome_in party result) }
{
    Quiet::leave(quiet, locks);
    Answered {
        goes: false,
        said: Vec::new(alloc),
        changes: Changes::new(alloc),
    }
}

/// Takes a request that its stage takes and nothing aborts, that is no item and by which the initiator doesn't leave.
#[inline(never)]
fn take_other(
    party: &mut Party,
    quiet: Quiet,
    alloc: Global,
    request: Pdu,
    setting: Setting,
    tables: &Tables,
    locks: &mut Locks,
) -> Result<Answered, NoMemory>
    requires taken { takes (stage_of quiet) (messages.Pdu request) ≡ true }
    requires item { is_item_meant request ≡ false }
    requires stays { (number_of request == 4 || number_of request == 5) ≡ false }
    requires unbarred { first_abort (aborts_of_quiet quiet setting.token request) ≡ None }
    ensures { IsTurnOf IsQuiet parties.Quiet tables.now locks.old locks.new quiet (setting_of setting) (messages.Pdu request) (turn_in party.new result) }
{
    let taken = quiet.take_own(alloc, request, setting, tables, locks);
    return settled(party, taken);
}

/// Whether this is the number of an abort by the initiator (F-U-ABORT, F-P-ABORT).
pub(crate) fn is_leaving(number: u16) -> bool
    ensures { result ≡ (number == 4 || number == 5) }
{
    number == 4 || number == 5
}
