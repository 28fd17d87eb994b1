//! Values as messages.
ghost use Rattle.vf_ber.specs.Views.{tree_of};
ghost use Rattle.vf_elements.specs.ElementReading.{element_in};
ghost use Rattle.vf_elements.specs.Messages.{from_element, from_pdu, message_in};
ghost use Rattle.vf_pdu_fields.specs.Results.{Gives};
ghost use Rattle.vf_pdu.specs.PduReading.{pdu_in};

use crate::{Message, of_value};
use std::alloc::Global;
use vf_ber::Value;
use vf_pdu_fields::PduError;

/// The message that the value means: a PDU where it is of context class (ISO 8571-4), else a data element (ISO 8571-2).
/// The errors are those of `vf_pdu::of_value` and of `of_value`.
#[tactic(auto, unfolding(crate::specs::Messages::message_in))]
pub fn message_of(alloc: Global, value: &Value) -> Result<Message, PduError>
    ensures { Gives (λ message. message) result (message_in (tree_of value.now)) }
{
    if value.tag().class == 2 {
        return pdu_of(alloc, value);
    }
    element_of(alloc, value)
}

fn pdu_of(alloc: Global, value: &Value) -> Result<Message, PduError>
    ensures { Gives (λ message. message) result (from_pdu (pdu_in (tree_of value.now))) }
{
    let pdu = vf_pdu::of_value(alloc, value)?;
    Ok(Message::Pdu(pdu))
}

fn element_of(alloc: Global, value: &Value) -> Result<Message, PduError>
    ensures { Gives (λ message. message) result (from_element (element_in (tree_of value.now))) }
{
    let element = of_value(alloc, value)?;
    Ok(Message::Element(element))
}
