//! Requests in rows: a name with `+` or `-` for sync, a serial number, and after a colon the digits of a PDU or of a data
//! element, as `Accept+:A10381010F`, `Check2` and `Restart2:BF2703800101`.
use crate::octets::octets_of;
use std::alloc::Global;
use std::test::Fail;
use vf_ber::{Value, read};
use vf_pdu::{Boxed, Pdu};
use vf_stack::{Item, Request};

fn value_of(alloc: Global, digits: &str) -> Result<Value, Fail> {
    let octets = octets_of(alloc, digits)?;
    let (value, _) = read(alloc, octets.as_slice())?;
    Ok(value)
}

fn pdu_in(alloc: Global, value: &Value) -> Result<Boxed<Pdu>, Fail> {
    let pdu = vf_pdu::of_value(alloc, value)?;
    Ok(Boxed::new(alloc, pdu)?)
}

fn pdu_of(alloc: Global, digits: &str) -> Result<Boxed<Pdu>, Fail> {
    let value = value_of(alloc, digits)?;
    pdu_in(alloc, &value)
}

/// A value of context class is a PDU, and any other one a data element.
fn item_in(alloc: Global, value: &Value) -> Result<Item, Fail> {
    if value.tag().class == 2 {
        return Ok(Item::Pdu(pdu_in(alloc, value)?));
    }
    let element = vf_elements::of_value(alloc, value)?;
    Ok(Item::Element(element))
}

fn item_of(alloc: Global, digits: &str) -> Result<Request, Fail> {
    let value = value_of(alloc, digits)?;
    Ok(Request::Item(item_in(alloc, &value)?))
}

fn abort_of(alloc: Global, digits: &str) -> Result<Request, Fail> {
    if digits.is_empty() {
        return Ok(Request::Abort { pdu: None });
    }
    let pdu = pdu_of(alloc, digits)?;
    Ok(Request::Abort { pdu: Some(pdu) })
}

/// The letters of a name, and the number after them, which is 0 where there is none.
fn name_and_number(name: &str) -> Result<(&str, u32), Fail> {
    let letters = name.trim_end_matches(['0', '1', '2', '3', '4', '5', '6', '7', '8', '9']);
    let digits = name.strip_prefix(letters).unwrap_or("");
    if digits.is_empty() {
        return Ok((letters, 0));
    }
    Ok((letters, digits.parse::<u32>()?))
}

/// The request with one PDU that a name stands for.
fn carrying(name: &str, serial: u32, pdu: Boxed<Pdu>) -> Result<Request, Fail> {
    match name {
        "Associate+" => Ok(Request::Associate { sync: true, pdu }),
        "Associate-" => Ok(Request::Associate { sync: false, pdu }),
        "Accept+" => Ok(Request::Accept { sync: true, pdu }),
        "Accept-" => Ok(Request::Accept { sync: false, pdu }),
        "Release" => Ok(Request::Release { pdu }),
        "Released" => Ok(Request::Released { pdu }),
        "Restart" => Ok(Request::Restart { serial, pdu }),
        "Restarted" => Ok(Request::Restarted { serial, pdu }),
        "Cancel" => Ok(Request::Cancel { pdu }),
        "Cancelled" => Ok(Request::Cancelled { pdu }),
        _ => Err(Fail::new("no request has this name")),
    }
}

fn carrying_digits(alloc: Global, name: &str, serial: u32, digits: &str) -> Result<Request, Fail> {
    let pdu = pdu_of(alloc, digits)?;
    carrying(name, serial, pdu)
}

/// The request of a word.
pub(crate) fn request_of(alloc: Global, word: &str) -> Result<Request, Fail> {
    let (name, digits) = word.split_once(':').unwrap_or((word, ""));
    let (name, serial) = name_and_number(name)?;
    match name {
        "Check" => Ok(Request::Check { serial }),
        "Acknowledge" => Ok(Request::Acknowledge { serial }),
        "Abort" => abort_of(alloc, digits),
        "Item" => item_of(alloc, digits),
        _ => carrying_digits(alloc, name, serial, digits),
    }
}
