//! An element of a write, of which a write has thousands: the party that is left stands in the place of the other one, and no
//! party is moved as one in any regime.
ghost use Rattle.std.specs.Prelude.{◌≡◌, true};
ghost use Rattle.vf_base.specs.declared.element.Element.{Element as ElementMeant};
ghost use Rattle.vf_elements.specs.declared.message.Message.TheVariants as messages;
ghost use Rattle.vf_party.specs.Hearing.{turn_in};
ghost use Rattle.vf_party.specs.Settings.{setting_of};
ghost use Rattle.vf_party.specs.Turns.{IsTurn};
ghost use Rattle.vf_party.specs.WritingOn.{writes_on as writes_on_meant};
ghost use Rattle.vf_party.specs.declared.party.Party.TheVariants as parties;
ghost use Rattle.vf_party_steps.specs.declared.writing.Writing.{Writing as WritingMeant};

use crate::aborting::aborted_in_writing;
use crate::hearing::Answered;
use crate::outcomes::conclude;
use crate::party::Party;
use crate::{Message, Setting, Writing};
use std::alloc::Global;
use std::mem;
use vf_base::{Element, NoMemory};
use vf_locks::Locks;
use vf_tables::Tables;

/// Whether a party that writes has sent an element, which its stage takes and which nothing aborts where the session's next
/// check has this number.
pub(crate) fn writes_on(party: &Party, serial: u32, message: &Message) -> bool
    ensures { result ≡ writes_on_meant party.now serial message.now }
{
    let Party::Writing(writing) = party else {
        return false;
    };
    let Message::Element(_) = message else {
        return false;
    };
    writing.stage().takes(message) && aborted_in_writing(writing, message, serial).is_none()
}

/// Such an element.
#[inline(never)]
pub(crate) fn hear_element(
    party: &mut Party,
    alloc: Global,
    message: Message,
    setting: Setting,
    tables: &Tables,
    locks: &mut Locks,
) -> Result<Answered, NoMemory>
    requires { writes_on_meant party.old setting.serial message ≡ true }
    ensures { IsTurn tables.now locks.old locks.new party.old (setting_of setting) message (turn_in party.new result) }
{
    let writing = writing_in(mem::replace(party, Party::arrived(0)));
    let element = element_in(message);
    let answer = writing.element(
        alloc,
        element,
        setting.moment,
        setting.serial,
        setting.token,
        setting.sync,
        tables,
        locks,
    );
    return conclude(party, alloc, 33, answer, locks);
}

/// The state of a party that writes.
fn writing_in(party: Party) -> Writing
    requires { (writing : WritingMeant) × (party ≡ parties.Writing writing) }
    ensures { party ≡ parties.Writing result }
{
    let Party::Writing(writing) = party else {
        unreachable!()
    };
    writing
}

/// The element that a message is.
fn element_in(message: Message) -> Element
    requires { (element : ElementMeant) × (message ≡ messages.Element element) }
    ensures { message ≡ messages.Element result }
{
    let Message::Element(element) = message else {
        unreachable!()
    };
    element
}
