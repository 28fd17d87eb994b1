//! Where octets have a fault, and replies as lines.
ghost use Rattle.std.specs.Prelude.{◌≡◌, ◌++◌, Err, IfOk, List, OnOk, Result, ℕ};
ghost use Rattle.vf_ber.specs.Limits.{IsTooLarge};
ghost use Rattle.vf_ber.specs.Reader.{reading};
ghost use Rattle.vf_ber.specs.Results.{IsAnswer};
ghost use Rattle.vf_ber.specs.Spelling.{spell};
ghost use Rattle.vf_ber.specs.Views.{tree_of};
ghost use Rattle.vf_cli_dialogue.specs.Alone.{alone};
ghost use Rattle.vf_cli_dialogue.specs.Conversation.{IsFaultIn, IsUnread};
ghost use Rattle.vf_cli_dialogue.specs.Dialogue.{reply};
ghost use Rattle.vf_cli_dialogue.specs.Lines.{hex_line};
ghost use Rattle.vf_elements.specs.ElementValue.{value as element_value};
ghost use Rattle.vf_filestore.specs.Sayable.{IsSayable, IsTold};
ghost use Rattle.vf_pdu.specs.PduMeaning.{IsInRange};
ghost use Rattle.vf_pdu.specs.PduValue.{value};
ghost use Rattle.vf_pdu_fields.specs.Fault.{Fault};
ghost use Rattle.vf_pdu_fields.specs.Results.{Fails};
ghost use Rattle.vf_elements.specs.declared.message.Message.{Message};

use crate::printed::{Replies, append_header_line, append_hex_line};
use std::alloc::Global;
use vf_base::{Element, NoMemory};
use vf_ber::{BerError, Value, WriteError};
use vf_elements::Said;
use vf_pdu::Pdu;
use vf_pdu_fields::PduError;

/// Where octets that begin with no value have a fault; `None` where they are a proper prefix of one.
pub(crate) fn fault_in_octets(error: &BerError) -> Result<Option<u32>, NoMemory>
    ensures { IfOk result (λ place. (octets : List ℕ) → IsAnswer (Err error.now) octets → IsUnread (reading octets) place) }
{
    match error {
        BerError::Short => Ok(None),
        BerError::Bad { at } => Ok(Some(*at)),
        BerError::Deep { at } => Ok(Some(*at)),
        BerError::Long { at } => Ok(Some(*at)),
        BerError::NoMemory => Err(NoMemory),
    }
}

/// Where a value that means no message has its fault: the place of a part, or the number of a field (profile).
pub(crate) fn fault_in_value(error: &PduError) -> Result<u32, NoMemory>
    ensures { IfOk result (λ place. (read : Result Message Fault) → Fails error.now read → IsFaultIn read place) }
{
    match error {
        PduError::Unknown { .. } => Ok(0),
        PduError::Field { place } => Ok(*place),
        PduError::Range { field } => Ok(u32::from(*field)),
        PduError::Missing { field } => Ok(u32::from(*field)),
        PduError::NoMemory => Err(NoMemory),
    }
}

/// Appends the line that tells a reply, which has a value.
pub(crate) fn append_reply(
    alloc: Global,
    said: &Said,
    replies: &mut Replies,
) -> Result<(), NoMemory>
    requires { IsSayable said.now }
    ensures { OnOk result (replies.new.lines.items ≡ replies.old.lines.items ++ reply said.now) }
{
    match said {
        Said::Pdu(pdu) => append_pdu(alloc, pdu, replies),
        Said::Element(element) => append_element(alloc, element, replies),
        Said::Check { .. } => Ok(()),
        Said::Acknowledge { .. } => Ok(()),
        Said::Abort { number, place } => append_provider_abort(alloc, *number, *place, replies),
    }
}

// Of its own, out of line, since the room for its PDU costs each reply where both are one function. So are the lines of other
// PDUs than those without parts, and of elements.
#[inline(never)]
fn append_provider_abort(
    alloc: Global,
    number: u16,
    place: u64,
    replies: &mut Replies,
) -> Result<(), NoMemory>
    requires { IsInRange (Pdu.ProviderAbort number place) }
    ensures { OnOk result (replies.new.lines.items ≡ replies.old.lines.items ++ reply (Said.Abort number place)) }
{
    let abort = Pdu::ProviderAbort { number, place };
    append_pdu(alloc, &abort, replies)
}

/// Appends the line of a PDU.
fn append_pdu(alloc: Global, pdu: &Pdu, replies: &mut Replies) -> Result<(), NoMemory>
    requires { IsInRange pdu.now }
    ensures { OnOk result (replies.new.lines.items ≡ replies.old.lines.items ++ hex_line (spell (value pdu.now))) }
{
    if let Some(first) = without_parts(pdu) {
        append_header_line(first, &mut replies.lines)?;
        return Ok(());
    }
    append_any_pdu(alloc, pdu, replies)
}

/// The first of the two octets that spell a response without parameters, as most are; `None` for others.
fn without_parts(pdu: &Pdu) -> Option<u8>
    ensures { result ≡ alone pdu.now }
{
    match pdu {
        Pdu::SelectResponse { diagnostic: None } => Some(0xA7),
        Pdu::DeselectResponse { diagnostic: None } => Some(0xA9),
        Pdu::CreateResponse { diagnostic: None } => Some(0xAB),
        Pdu::DeleteResponse { diagnostic: None } => Some(0xAD),
        Pdu::ChangeAttribResponse { diagnostic: None } => Some(0xB1),
        Pdu::CloseResponse { diagnostic: None } => Some(0xB5),
        Pdu::BeginGroupResponse => Some(0xB7),
        Pdu::EndGroupResponse => Some(0xB9),
        _ => None,
    }
}

/// Appends the line of any PDU.
#[inline(never)]
fn append_any_pdu(alloc: Global, pdu: &Pdu, replies: &mut Replies) -> Result<(), NoMemory>
    requires { IsInRange pdu.now }
    ensures { OnOk result (replies.new.lines.items ≡ replies.old.lines.items ++ hex_line (spell (value pdu.now))) }
{
    let made = vf_pdu::to_value(alloc, pdu)?;
    vf_pdu::value_is_within();
    append_value(alloc, &made, replies)?;
    Ok(())
}

/// Appends the line of an element.
#[inline(never)]
fn append_element(alloc: Global, element: &Element, replies: &mut Replies) -> Result<(), NoMemory>
    requires { IsTold element.now }
    ensures { OnOk result (replies.new.lines.items ≡ replies.old.lines.items ++ hex_line (spell (element_value element.now))) }
{
    let made = vf_elements::to_value(alloc, element)?;
    vf_elements::value_is_within();
    append_value(alloc, &made, replies)?;
    Ok(())
}

fn append_value(alloc: Global, value: &Value, replies: &mut Replies) -> Result<(), NoMemory>
    requires { IsTooLarge (tree_of value.now) → ⊥ }
    ensures { OnOk result (replies.new.lines.items ≡ replies.old.lines.items ++ hex_line (spell (tree_of value.now))) }
{
    replies.octets.clear();
    match vf_ber::write(alloc, value, &mut replies.octets) {
        Ok(()) => {}
        Err(WriteError::TooLarge) => unreachable!(),
        Err(WriteError::NoMemory) => return Err(NoMemory),
    }
    append_hex_line(replies.octets.as_slice(), &mut replies.lines)?;
    Ok(())
}
