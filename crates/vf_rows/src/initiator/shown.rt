//! What the other end is told, how a task is kept, and how it stands, in words.
use crate::initiator::octets::show_all;
use std::alloc::Global;
use std::test::Fail;
use vf_base::Element;
use vf_ber::{Value, write};
use vf_initiator::{Doing, TaskError};
use vf_pdu::{Pdu, is_in_range};
use vf_stack::{Indication, Item};
use vf_tables::Change;

/// Appends a word, after a space where others stand before it.
fn put_word(word: &str, text: &mut String) -> Result<(), Fail> {
    if !text.is_empty() {
        text.push(' ')?;
    }
    text.push_str(word)?;
    Ok(())
}

fn put_value(alloc: Global, value: &Value, text: &mut String) -> Result<(), Fail> {
    let mut octets = Vec::new(alloc);
    match write(alloc, value, &mut octets) {
        Ok(()) => show_all(alloc, octets.as_slice(), text),
        Err(fault) => Err(Fail::from(fault)),
    }
}

/// Appends the digits of a PDU.
fn put_pdu(alloc: Global, name: &str, pdu: &Pdu, text: &mut String) -> Result<(), Fail> {
    put_word(name, text)?;
    if !is_in_range(pdu) {
        return Err(Fail::from("a PDU out of its range"));
    }
    let value = vf_pdu::to_value(alloc, pdu)?;
    put_value(alloc, &value, text)
}

/// Appends the octets of a string, or how a record begins.
fn put_element(alloc: Global, element: &Element, text: &mut String) -> Result<(), Fail> {
    match element {
        Element::Binary { octets } => {
            put_word("b", text)?;
            show_all(alloc, octets.as_slice(), text)
        }
        Element::Text { octets, .. } => {
            put_word("t", text)?;
            show_all(alloc, octets.as_slice(), text)
        }
        Element::Descriptor { .. } => put_word("d", text),
        Element::Enter | Element::Exit => put_word("e", text),
    }
}

fn put_told(alloc: Global, told: &Indication, text: &mut String) -> Result<(), Fail> {
    match told {
        Indication::Associate { sync, pdu } => {
            put_pdu(alloc, if *sync { "+" } else { "-" }, pdu.value(), text)
        }
        Indication::Release { pdu } => put_pdu(alloc, "", pdu.value(), text),
        Indication::Item(Item::Pdu(pdu)) => put_pdu(alloc, "", pdu.value(), text),
        Indication::Item(Item::Element(element)) => put_element(alloc, element, text),
        Indication::Check { serial } => put_word(
            format!(in alloc; "check{serial}")?.as_str(),
            text,
        ),
        Indication::Acknowledged { serial } => {
            put_word(format!(in alloc; "ack{serial}")?.as_str(), text)
        }
        Indication::Abort { pdu: Some(pdu) } => put_pdu(alloc, "", pdu.value(), text),
        _ => put_word("another", text),
    }
}

/// Appends what is told.
pub(crate) fn show_told(alloc: Global, told: &[Indication], text: &mut String) -> Result<(), Fail> {
    for indication in told {
        put_told(alloc, indication, text)?;
    }
    Ok(())
}

fn put_change(alloc: Global, change: &Change, text: &mut String) -> Result<(), Fail> {
    let word = match change {
        Change::PutTask { plan } => {
            let (number, point, phase, outcome) = (
                plan.number,
                plan.point,
                plan.phase,
                plan.outcome,
            );
            format!(in alloc; "{number}.{point}.{phase:?}.{outcome}")?
        }
        Change::CutTask { point, .. } => format!(in alloc; "cut{point}")?,
        Change::StageTask {
            point,
            elements,
            ..
        } => {
            let count = elements.len();
            format!(in alloc; "stage{point}:{count}")?
        }
        Change::DropTask { .. } => format!(in alloc; "drop")?,
        _ => format!(in alloc; "another")?,
    };
    put_word(word.as_str(), text)
}

/// Appends changes.
pub(crate) fn show_changes(
    alloc: Global,
    changes: &[Change],
    text: &mut String,
) -> Result<(), Fail> {
    for change in changes {
        put_change(alloc, change, text)?;
    }
    Ok(())
}

/// Appends how a task stands, where it isn't going on.
pub(crate) fn show_doing(alloc: Global, doing: Doing, text: &mut String) -> Result<(), Fail> {
    let word = match doing {
        Doing::Going => return Ok(()),
        Doing::Ended => format!(in alloc; "ended")?,
        Doing::Failed(TaskError::Refused(diagnostic)) => {
            let (number, first, second) = (diagnostic.number, diagnostic.first, diagnostic.second);
            format!(in alloc; "refused {number} {first} {second}")?
        }
        Doing::Failed(TaskError::PeerFault { layer, name, at }) => {
            format!(in alloc; "fault {layer:?} {name:?} {at}")?
        }
        Doing::Failed(TaskError::PeerAbort { number }) => format!(in alloc; "abort {number}")?,
        Doing::Failed(TaskError::OutOfPlace { after }) => format!(in alloc;
            "out of place {after}"
        )?,
        Doing::Failed(TaskError::Budget) => format!(in alloc; "budget")?,
    };
    put_word(word.as_str(), text)
}

/// Appends elements.
pub(crate) fn show_elements(
    alloc: Global,
    elements: &[Element],
    text: &mut String,
) -> Result<(), Fail> {
    for element in elements {
        put_element(alloc, element, text)?;
    }
    Ok(())
}
