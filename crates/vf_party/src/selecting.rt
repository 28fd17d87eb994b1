//! A selection and its end outside of a group, which come often: the party that is left stands in the place of the other
//! one, and no party is moved as one in any regime.
ghost use Rattle.std.specs.Prelude.{◌≡◌};
ghost use Rattle.vf_elements.specs.declared.message.Message.TheVariants as messages;
ghost use Rattle.vf_party.specs.Hearing.{turn_in};
ghost use Rattle.vf_party.specs.Selecting.{deselects as deselects_meant, selects as selects_meant};
ghost use Rattle.vf_party.specs.Settings.{setting_of};
ghost use Rattle.vf_party.specs.Turns.{IsTurn};
ghost use Rattle.vf_party.specs.declared.party.Party.TheVariants as parties;
ghost use Rattle.vf_party.specs.declared.quiet.Quiet.TheVariants as quiets;
ghost use Rattle.vf_party_steps.specs.declared.states.Associated.{Associated as AssociatedMeant};
ghost use Rattle.vf_party_steps.specs.declared.states.Selected.{Selected as SelectedMeant};
ghost use Rattle.vf_pdu.specs.PduNumbers.{number_of};
ghost use Rattle.vf_pdu.specs.declared.pdu.Pdu.{Pdu as PduMeant};

use crate::hearing::Answered;
use crate::outcomes::conclude;
use crate::party::Party;
use crate::{Associated, Message, Quiet, Selected, Setting};
use std::alloc::Global;
use std::mem;
use vf_base::NoMemory;
use vf_locks::Locks;
use vf_pdu::Pdu;
use vf_tables::Tables;

/// Whether a party with an association and no selected file is asked for a selection.
pub(crate) fn selects(party: &Party, message: &Message) -> bool
    ensures { result ≡ selects_meant party.now message.now }
{
    match party {
        Party::Quiet(Quiet::Associated(_)) => matches!(
            message,
            Message::Pdu(Pdu::SelectRequest { .. })
        ),
        _ => false,
    }
}

/// Whether a party with a selected file that isn't open is asked to end the selection.
pub(crate) fn deselects(party: &Party, message: &Message) -> bool
    ensures { result ≡ deselects_meant party.now message.now }
{
    match party {
        Party::Quiet(Quiet::Selected(_)) => matches!(message, Message::Pdu(Pdu::DeselectRequest)),
        _ => false,
    }
}

/// A selection with an association and no selected file.
#[inline(never)]
pub(crate) fn hear_select(
    party: &mut Party,
    alloc: Global,
    message: Message,
    setting: Setting,
    tables: &Tables,
    locks: &mut Locks,
) -> Result<Answered, NoMemory>
    requires party { (associated : AssociatedMeant) × (party.old ≡ parties.Quiet (quiets.Associated associated)) }
    requires message { (request : PduMeant) × (number_of request ≡ 6) × (message ≡ messages.Pdu request) }
    ensures { IsTurn tables.now locks.old locks.new party.old (setting_of setting) message (turn_in party.new result) }
{
    let associated = associated_in(mem::replace(party, Party::arrived(0)));
    let request = request_in(message);
    let answer = associated.select(
        alloc,
        request,
        setting.moment,
        setting.serial,
        setting.token,
        setting.sync,
        tables,
        locks,
    );
    return conclude(party, alloc, 6, answer, locks);
}

/// The end of a selection whose file isn't open.
#[inline(never)]
pub(crate) fn hear_deselect(
    party: &mut Party,
    alloc: Global,
    message: Message,
    setting: Setting,
    tables: &Tables,
    locks: &mut Locks,
) -> Result<Answered, NoMemory>
    requires party { (selected : SelectedMeant) × (party.old ≡ parties.Quiet (quiets.Selected selected)) }
    requires message { message ≡ messages.Pdu PduMeant.DeselectRequest }
    ensures { IsTurn tables.now locks.old locks.new party.old (setting_of setting) message (turn_in party.new result) }
{
    drop(message);
    let selected = selected_in(mem::replace(party, Party::arrived(0)));
    let answer = selected.deselect(
        alloc,
        Pdu::DeselectRequest,
        setting.moment,
        setting.serial,
        setting.token,
        setting.sync,
        tables,
        locks,
    );
    return conclude(party, alloc, 8, answer, locks);
}

/// The state of a party with an association and no selected file.
fn associated_in(party: Party) -> Associated
    requires { (associated : AssociatedMeant) × (party ≡ parties.Quiet (quiets.Associated associated)) }
    ensures { party ≡ parties.Quiet (quiets.Associated result) }
{
    let Party::Quiet(quiet) = party else {
        unreachable!()
    };
    quiet.into_associated()
}

/// The state of a party with a selected file that isn't open.
fn selected_in(party: Party) -> Selected
    requires { (selected : SelectedMeant) × (party ≡ parties.Quiet (quiets.Selected selected)) }
    ensures { party ≡ parties.Quiet (quiets.Selected result) }
{
    let Party::Quiet(quiet) = party else {
        unreachable!()
    };
    quiet.into_selected()
}

/// The request that a message is.
fn request_in(message: Message) -> Pdu
    requires { (request : PduMeant) × (message ≡ messages.Pdu request) }
    ensures { message ≡ messages.Pdu result }
{
    let Message::Pdu(request) = message else {
        unreachable!()
    };
    request
}
