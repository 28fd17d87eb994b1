//! Requests by words: a name with `+` or `-` for sync, a serial number, and after a colon the digits of a PDU or of a data
//! element, as `Accept+:A10381010F`, `Check2` and `Restart2:BF2703800101`.
use crate::fault::Fault;
use crate::spelling::value_in;
use std::alloc::Global;
use vf_ber::Value;
use vf_pdu::{Boxed, Pdu};
use vf_stack::{Item, Request};

fn pdu_in(alloc: Global, value: &Value) -> Result<Boxed<Pdu>, Fault> {
    match vf_pdu::of_value(alloc, value) {
        Ok(pdu) => Ok(Boxed::new(alloc, pdu)?),
        Err(_) => Err(Fault::Line),
    }
}

/// A value of context class is a PDU, and any other one a data element.
fn item_of(alloc: Global, value: &Value) -> Result<Item, Fault> {
    if value.tag().class == 2 {
        return Ok(Item::Pdu(pdu_in(alloc, value)?));
    }
    match vf_elements::of_value(alloc, value) {
        Ok(element) => Ok(Item::Element(element)),
        Err(_) => Err(Fault::Line),
    }
}

/// The letters of a name, and the number after them, which is 0 where there is none.
fn name_and_number(name: &str) -> Result<(&str, u32), Fault> {
    let letters = name.trim_end_matches(['0', '1', '2', '3', '4', '5', '6', '7', '8', '9']);
    match name.strip_prefix(letters) {
        None | Some("") => Ok((letters, 0)),
        Some(digits) => Ok((letters, digits.parse::<u32>().ok().ok_or(Fault::Line)?)),
    }
}

/// The request with one PDU that a name stands for.
fn carrying(name: &str, serial: u32, pdu: Boxed<Pdu>) -> Result<Request, Fault> {
    match name {
        "Associate+" => Ok(Request::Associate { sync: true, pdu }),
        "Associate-" => Ok(Request::Associate { sync: false, pdu }),
        "Accept+" => Ok(Request::Accept { sync: true, pdu }),
        "Accept-" => Ok(Request::Accept { sync: false, pdu }),
        "Refuse" => Ok(Request::Refuse { pdu: Some(pdu) }),
        "Release" => Ok(Request::Release { pdu }),
        "Released" => Ok(Request::Released { pdu }),
        "Restart" => Ok(Request::Restart { serial, pdu }),
        "Restarted" => Ok(Request::Restarted { serial, pdu }),
        "Cancel" => Ok(Request::Cancel { pdu }),
        "Cancelled" => Ok(Request::Cancelled { pdu }),
        "Abort" => Ok(Request::Abort { pdu: Some(pdu) }),
        _ => Err(Fault::Line),
    }
}

/// The request without digits that a name stands for.
fn bare(name: &str, serial: u32) -> Result<Request, Fault> {
    match name {
        "Pass" => Ok(Request::Pass),
        "Check" => Ok(Request::Check { serial }),
        "Acknowledge" => Ok(Request::Acknowledge { serial }),
        "Refuse" => Ok(Request::Refuse { pdu: None }),
        "Abort" => Ok(Request::Abort { pdu: None }),
        _ => Err(Fault::Line),
    }
}

/// The request of a word.
pub(super) fn request_of(alloc: Global, word: &str) -> Result<Request, Fault> {
    let (name, digits) = word.split_once(':').unwrap_or((word, ""));
    let (name, serial) = name_and_number(name)?;
    if digits.is_empty() {
        return bare(name, serial);
    }
    let value = value_in(alloc, digits.as_bytes())?.ok_or(Fault::Line)?;
    match name {
        "Item" => Ok(Request::Item(item_of(alloc, &value)?)),
        _ => carrying(name, serial, pdu_in(alloc, &value)?),
    }
}
