//! Indications in rows: a name, `true` or `false` for sync, a serial number, and the number of the PDU, or the class and the
//! octets of a string.
use crate::octets::show_all;
use std::alloc::Global;
use std::test::Fail;
use vf_base::Element;
use vf_pdu::{Boxed, Pdu};
use vf_stack::{FaultName, Indication, Item, Layer};

fn put_number(alloc: Global, name: &str, number: u32, text: &mut String) -> Result<(), Fail> {
    text.push_str(format!(in alloc; "{name} {number}")?.as_str())?;
    Ok(())
}

fn put_pdu(alloc: Global, name: &str, pdu: &Boxed<Pdu>, text: &mut String) -> Result<(), Fail> {
    put_number(alloc, name, u32::from(pdu.value().number()), text)
}

fn put_maybe(
    alloc: Global,
    name: &str,
    pdu: &Option<Boxed<Pdu>>,
    text: &mut String,
) -> Result<(), Fail> {
    if let Some(pdu) = pdu {
        return put_pdu(alloc, name, pdu, text);
    }
    text.push_str(name)?;
    Ok(())
}

/// A PDU with the sync of an association.
fn put_association(
    alloc: Global,
    name: &str,
    sync: bool,
    pdu: &Boxed<Pdu>,
    text: &mut String,
) -> Result<(), Fail> {
    text.push_str(name)?;
    put_pdu(alloc, if sync { " true" } else { " false" }, pdu, text)
}

/// A PDU with the number of a resynchronization.
fn put_resync(
    alloc: Global,
    name: &str,
    serial: u32,
    pdu: &Boxed<Pdu>,
    text: &mut String,
) -> Result<(), Fail> {
    put_number(alloc, name, serial, text)?;
    put_pdu(alloc, "", pdu, text)
}

fn put_string(alloc: Global, class: u8, octets: &[u8], text: &mut String) -> Result<(), Fail> {
    put_number(alloc, "String", u32::from(class), text)?;
    text.push(' ')?;
    show_all(alloc, octets, text)
}

fn put_item(alloc: Global, item: &Item, text: &mut String) -> Result<(), Fail> {
    match item {
        Item::Pdu(pdu) => put_pdu(alloc, "Item", pdu, text),
        Item::Element(Element::Binary { octets }) => put_string(alloc, 4, octets.as_slice(), text),
        Item::Element(Element::Text { class, octets }) => {
            put_string(alloc, *class, octets.as_slice(), text)
        }
        Item::Element(_) => put_maybe(alloc, "another element", &None, text),
    }
}

fn put_fault(
    alloc: Global,
    layer: Layer,
    name: FaultName,
    at: u64,
    text: &mut String,
) -> Result<(), Fail> {
    text.push_str(format!(in alloc; "Fault {layer:?} {name:?} {at}")?.as_str())?;
    Ok(())
}

fn put_indication(alloc: Global, told: &Indication, text: &mut String) -> Result<(), Fail> {
    match told {
        Indication::Associate { sync, pdu } => put_association(
            alloc,
            "Associate",
            *sync,
            pdu,
            text,
        ),
        Indication::Accepted { sync, pdu } => put_association(alloc, "Accepted", *sync, pdu, text),
        Indication::Refused { pdu } => put_maybe(alloc, "Refused", pdu, text),
        Indication::Release { pdu } => put_pdu(alloc, "Release", pdu, text),
        Indication::Released { pdu } => put_pdu(alloc, "Released", pdu, text),
        Indication::Item(item) => put_item(alloc, item, text),
        Indication::Check { serial } => put_number(alloc, "Check", *serial, text),
        Indication::Acknowledged { serial } => put_number(alloc, "Acknowledged", *serial, text),
        Indication::Restart { serial, pdu } => put_resync(alloc, "Restart", *serial, pdu, text),
        Indication::Restarted { serial, pdu } => put_resync(alloc, "Restarted", *serial, pdu, text),
        Indication::Cancel { pdu } => put_pdu(alloc, "Cancel", pdu, text),
        Indication::Cancelled { pdu } => put_pdu(alloc, "Cancelled", pdu, text),
        Indication::Abort { pdu } => put_maybe(alloc, "Abort", pdu, text),
        Indication::Fault { layer, name, at } => put_fault(alloc, *layer, *name, *at, text),
    }
}

/// Appends a word, after a comma where others stand before it.
pub(crate) fn put_comma(text: &mut String) -> Result<(), Fail> {
    if !text.is_empty() {
        text.push_str(", ")?;
    }
    Ok(())
}

/// Appends an indication, as its copy shows it.
fn put_copy(alloc: Global, told: &Indication, text: &mut String) -> Result<(), Fail> {
    let copied = told.copy(alloc)?;
    put_indication(alloc, &copied, text)
}

/// Appends what is told.
pub(crate) fn show_told(alloc: Global, told: &[Indication], text: &mut String) -> Result<(), Fail> {
    for indication in told {
        put_comma(text)?;
        put_copy(alloc, indication, text)?;
    }
    Ok(())
}
