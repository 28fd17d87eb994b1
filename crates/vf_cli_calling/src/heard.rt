//! The lines that tell what a calling end hears.
ghost use Rattle.std.specs.Prelude.{◌≡◌, ◌↔◌, ◌++◌, IsTrue, OnOk, length, nat_lt, true};
ghost use Rattle.vf_ber.specs.Limits.{IsTooLarge};
ghost use Rattle.vf_ber.specs.Spelling.{spell};
ghost use Rattle.vf_ber.specs.Views.{tree_of};
ghost use Rattle.vf_elements.specs.ElementValue.{IsNamed, IsWritable, value as element_value};
ghost use Rattle.vf_pdu.specs.PduMeaning.{IsInRange};
ghost use Rattle.vf_pdu.specs.PduValue.{value};
ghost use Rattle.vf_stack.specs.Ranges.{IsRead, IsReadItem, IsReadMaybe};
ghost use Rattle.vf_cli_calling.specs.Lines.{element_line, heard_line, item_line, maybe_line, pdu_line};

use crate::base::Base;
use crate::lines::{append_ack, append_check, append_reply};
use std::alloc::Global;
use vf_base::{Element, MOST_VALUE_OCTETS, Name, NoMemory};
use vf_ber::{Value, WriteError};
use vf_pdu::{Boxed, Pdu};
use vf_stack::{Indication, Item};

/// Appends the line of what was heard in a transfer with this base, where it has one.
pub(crate) fn append_heard(
    alloc: Global,
    link: u32,
    base: Base,
    indication: &Indication,
    text: &mut Vec<u8>,
) -> Result<(), NoMemory>
    ensures { IsRead indication.now → OnOk result (text.new.items ≡ text.old.items ++ heard_line link base indication.now) }
{
    match indication {
        Indication::Item(item) => append_item(alloc, link, item, text),
        Indication::Check { serial } => append_check(alloc, link, base.check_of(*serial), text),
        Indication::Acknowledged { serial } => {
            append_ack(alloc, link, base.check_of(*serial), text)
        }
        Indication::Refused { pdu } => append_maybe(alloc, link, pdu, text),
        Indication::Abort { pdu } => append_maybe(alloc, link, pdu, text),
        Indication::Accepted { pdu, .. } => append_pdu(alloc, link, pdu.value(), text),
        Indication::Released { pdu } => append_pdu(alloc, link, pdu.value(), text),
        Indication::Restarted { pdu, .. } => append_pdu(alloc, link, pdu.value(), text),
        Indication::Cancelled { pdu } => append_pdu(alloc, link, pdu.value(), text),
        Indication::Associate { pdu, .. } => append_pdu(alloc, link, pdu.value(), text),
        Indication::Release { pdu } => append_pdu(alloc, link, pdu.value(), text),
        Indication::Restart { pdu, .. } => append_pdu(alloc, link, pdu.value(), text),
        Indication::Cancel { pdu } => append_pdu(alloc, link, pdu.value(), text),
        Indication::Fault { .. } => Ok(()),
    }
}

fn append_item(alloc: Global, link: u32, item: &Item, text: &mut Vec<u8>) -> Result<(), NoMemory>
    ensures { IsReadItem item.now → OnOk result (text.new.items ≡ text.old.items ++ item_line link item.now) }
{
    match item {
        Item::Pdu(pdu) => append_pdu(alloc, link, pdu.value(), text),
        Item::Element(element) => append_element(alloc, link, element, text),
    }
}

fn append_maybe(
    alloc: Global,
    link: u32,
    pdu: &Option<Boxed<Pdu>>,
    text: &mut Vec<u8>,
) -> Result<(), NoMemory>
    ensures { IsReadMaybe pdu.now → OnOk result (text.new.items ≡ text.old.items ++ maybe_line link pdu.now) }
{
    match pdu {
        Some(pdu) => append_pdu(alloc, link, pdu.value(), text),
        None => Ok(()),
    }
}

/// What was read is in range, so that it can be written.
fn append_pdu(alloc: Global, link: u32, pdu: &Pdu, text: &mut Vec<u8>) -> Result<(), NoMemory>
    ensures { IsInRange pdu.now → OnOk result (text.new.items ≡ text.old.items ++ pdu_line link pdu.now) }
{
    if !vf_pdu::is_in_range(pdu) {
        return Ok(());
    }
    let mut octets = Vec::new(alloc);
    put_pdu(alloc, pdu, &mut octets)?;
    append_reply(alloc, link, octets.as_slice(), text)
}

/// What was read can be written.
fn append_element(
    alloc: Global,
    link: u32,
    element: &Element,
    text: &mut Vec<u8>,
) -> Result<(), NoMemory>
    ensures { IsWritable element.now → OnOk result (text.new.items ≡ text.old.items ++ element_line link element.now) }
{
    if !is_writable(element) || is_long(element) {
        return Ok(());
    }
    let mut octets = Vec::new(alloc);
    put_element(alloc, element, &mut octets)?;
    append_reply(alloc, link, octets.as_slice(), text)
}

/// A text has a class of this profile (ISO 8571-2).
fn is_writable(element: &Element) -> bool
    ensures { IsTrue result ↔ IsWritable element.now }
{
    match element {
        Element::Descriptor { name, .. } => is_named(name),
        Element::Enter => true,
        Element::Exit => true,
        Element::Text { class, .. } => matches!(class, 22 | 25 | 26 | 27),
        Element::Binary { .. } => true,
    }
}

/// A name has the form of one.
fn is_named(name: &Option<Name>) -> bool
    ensures named { IsNamed name.now }
    ensures always { result ≡ true }
{
    match name {
        Some(name) => {
            let _octets = name.as_slice();
            true
        }
        None => true,
    }
}

/// Its value passes the limit of values.
fn is_long(element: &Element) -> bool
    requires { IsWritable element.now }
    ensures { result ≡ nat_lt MOST_VALUE_OCTETS (length (spell (element_value element.now))) }
{
    vf_elements::spelled_length(element) > u64::from(MOST_VALUE_OCTETS)
}

/// Appends the octets of a PDU in its canonical spelling.
fn put_pdu(alloc: Global, pdu: &Pdu, octets: &mut Vec<u8>) -> Result<(), NoMemory>
    requires { IsInRange pdu.now }
    ensures { OnOk result (octets.new.items ≡ octets.old.items ++ spell (value pdu.now)) }
{
    let made = vf_pdu::to_value(alloc, pdu)?;
    vf_pdu::value_is_within();
    put_value(alloc, &made, octets)?;
    Ok(())
}

/// Appends the octets of a data element in its canonical spelling.
fn put_element(alloc: Global, element: &Element, octets: &mut Vec<u8>) -> Result<(), NoMemory>
    requires writable { IsWritable element.now }
    requires short { IsTooLarge (element_value element.now) → ⊥ }
    ensures { OnOk result (octets.new.items ≡ octets.old.items ++ spell (element_value element.now)) }
{
    let made = vf_elements::to_value(alloc, element)?;
    put_value(alloc, &made, octets)?;
    Ok(())
}

fn put_value(alloc: Global, value: &Value, octets: &mut Vec<u8>) -> Result<(), NoMemory>
    requires { IsTooLarge (tree_of value.now) → ⊥ }
    ensures { OnOk result (octets.new.items ≡ octets.old.items ++ spell (tree_of value.now)) }
{
    match vf_ber::write(alloc, value, octets) {
        Ok(()) => Ok(()),
        Err(WriteError::TooLarge) => unreachable!(),
        Err(WriteError::NoMemory) => Err(NoMemory),
    }
}
