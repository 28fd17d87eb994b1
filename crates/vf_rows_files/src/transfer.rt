//! The two ends of a transfer, step by step.
ghost use Rattle.std.specs.Prelude.{◌<◌, ◌≤◌, ◌+◌, length};
ghost use Rattle.vf_transfer.specs.Checks.{offered};

use std::alloc::Global;
use std::process::Abort;
use std::test::Fail;
use vf_base::{Element, NoMemory, Octets};
use vf_transfer::{Receiving, Sending, TransferError};

/// A step of an end that receives, with its answer: of a check that is acknowledged or restarted at, whether it stands.
#[derive(Clone, Copy)]
enum Taken {
    Value(u8),
    Offer(Result<u32, TransferError>),
    Acknowledge(u32, bool),
    Restart(u32, bool),
}

/// A step, and after it how many values stand before the last check that is acknowledged, how many before each check,
/// and the values.
type Row = (Taken, usize, &'static [usize], &'static [u8]);

/// From the beginning; what came after a restart goes.
const WHOLE: [Row; 11] = [
    (Taken::Value(b'a'), 0, &[], b"a"),
    (Taken::Value(b'b'), 0, &[], b"ab"),
    (Taken::Offer(Ok(1)), 0, &[2], b"ab"),
    (Taken::Acknowledge(1, true), 2, &[2], b"ab"),
    (Taken::Value(b'c'), 2, &[2], b"abc"),
    (Taken::Value(b'd'), 2, &[2], b"abcd"),
    (Taken::Offer(Ok(2)), 2, &[2, 4], b"abcd"),
    (Taken::Value(b'e'), 2, &[2, 4], b"abcde"),
    (Taken::Restart(3, false), 2, &[2, 4], b"abcde"),
    (Taken::Restart(1, true), 2, &[2], b"ab"),
    (Taken::Value(b'f'), 2, &[2], b"abf"),
];

/// Recovered at check 3.
const RECOVERED: [Row; 11] = [
    (Taken::Value(b'a'), 0, &[], b"a"),
    (Taken::Offer(Ok(4)), 0, &[1], b"a"),
    (Taken::Value(b'b'), 0, &[1], b"ab"),
    (Taken::Offer(Ok(5)), 0, &[1, 2], b"ab"),
    (Taken::Offer(Err(TransferError::Window)), 0, &[1, 2], b"ab"),
    (Taken::Acknowledge(2, false), 0, &[1, 2], b"ab"),
    (Taken::Acknowledge(3, true), 0, &[1, 2], b"ab"),
    (Taken::Acknowledge(5, true), 2, &[1, 2], b"ab"),
    (Taken::Acknowledge(4, true), 2, &[1, 2], b"ab"),
    (Taken::Restart(4, true), 1, &[1], b"a"),
    (Taken::Restart(3, true), 0, &[], b""),
];

/// A step of an end that sends, with its answer: a value, or that there is none; of a check that is offered, by its serial
/// number, its own number; of one that is acknowledged or restarted at, whether it stands.
#[derive(Clone, Copy)]
enum Sent {
    Value(u8),
    End,
    Offer(u32, Result<u32, TransferError>),
    Acknowledge(u32, bool),
    Restart(u32, bool),
}

/// Three strings are sent, and the last two again after a restart.
const SENT: [Sent; 12] = [
    Sent::Value(b'a'),
    Sent::Offer(1, Ok(1)),
    Sent::Value(b'b'),
    Sent::Offer(1_000_000, Err(TransferError::SerialsSpent)),
    Sent::Offer(2, Ok(2)),
    Sent::Offer(1_000_000, Err(TransferError::Window)),
    Sent::Restart(9, false),
    Sent::Acknowledge(2, true),
    Sent::Restart(1, true),
    Sent::Value(b'b'),
    Sent::Value(b'c'),
    Sent::End,
];

/// A string of one octet.
fn string(alloc: Global, octet: u8) -> Result<Element, NoMemory> {
    let octets = Octets::of(alloc, &[octet])?;
    Ok(Element::Binary { octets })
}

fn is_string(element: &Element, octet: u8) -> bool {
    match element {
        Element::Binary { octets } => octets.as_slice() == [octet].as_slice(),
        _ => false,
    }
}

fn strings(alloc: Global, octets: &[u8]) -> Result<Vec<Element>, NoMemory> {
    let mut elements = Vec::new(alloc);
    for octet in octets {
        let element = string(alloc, *octet)?;
        elements.push(element)?;
    }
    Ok(elements)
}

fn are_strings(elements: &[Element], octets: &[u8]) -> bool {
    elements.len() == octets.len()
        && (0..octets.len()).all(|place| is_string(&elements[place], octets[place]))
}

/// Whether the answer to a step is the wanted one.
fn takes(receiving: &mut Receiving, alloc: Global, step: Taken) -> Result<bool, NoMemory>
    requires { offered receiving.old.checks < 1000 }
    ensures { offered receiving.new.checks ≤ offered receiving.old.checks + 1 }
{
    match step {
        Taken::Value(octet) => {
            let element = string(alloc, octet)?;
            Ok(receiving.value(element).is_ok())
        }
        Taken::Offer(answer) => Ok(receiving.offer() == answer),
        Taken::Acknowledge(check, stands) => Ok(receiving.acknowledge(check).is_ok() == stands),
        Taken::Restart(check, stands) => Ok(receiving.restart(check).is_ok() == stands),
    }
}

fn are_marks(marks: &[usize], wanted: &[usize]) -> bool {
    marks == wanted
}

/// Whether so many values stand before the last check that is acknowledged and before each check, and these are all.
fn keeps(receiving: &Receiving, front: usize, marks: &[usize], values: &[u8]) -> bool {
    receiving.front() == front
        && are_marks(receiving.marks(), marks)
        && are_strings(receiving.values(), values)
}

/// Each step of the rows.
fn assert_takes(
    rt: &impl Abort,
    receiving: &mut Receiving,
    alloc: Global,
    rows: &[Row],
) -> Result<(), NoMemory>
    requires begun { offered receiving.old.checks < 10 }
    requires few { length rows.now < 100 }
{
    for (step, front, marks, values) in rows {
        assert!(rt; takes(receiving, alloc, *step)? && keeps(receiving, *front, marks, values));
    }
    Ok(())
}

#[test]
fn values_before_a_restart_stay(rt: HostRuntime) -> Result<(), Fail> {
    let mut receiving = Receiving::start(rt.alloc(), 0, 2);
    assert_takes(&rt, &mut receiving, rt.alloc(), &WHOLE)?;
    assert!(rt; are_strings(receiving.end().as_slice(), b"abf"));
    let mut receiving = Receiving::start(rt.alloc(), 3, 2);
    assert_takes(&rt, &mut receiving, rt.alloc(), &RECOVERED)?;
    assert!(rt; receiving.end().is_empty());
    Ok(())
}

/// Whether the answer to a step is the wanted one.
fn sends(sending: &mut Sending, step: Sent) -> bool
    requires { offered sending.old.checks < 1000 }
    ensures { offered sending.new.checks ≤ offered sending.old.checks + 1 }
{
    match step {
        Sent::Value(octet) => match sending.value() {
            Some(element) => is_string(element, octet),
            None => false,
        },
        Sent::End => sending.value().is_none(),
        Sent::Offer(serial, answer) => sending.offer(serial) == answer,
        Sent::Acknowledge(check, stands) => sending.acknowledge(check).is_ok() == stands,
        Sent::Restart(check, stands) => sending.restart(check).is_ok() == stands,
    }
}

#[test]
fn values_are_sent_again_after_a_restart(rt: HostRuntime) -> Result<(), Fail> {
    let elements = strings(rt.alloc(), b"abc")?;
    let mut sending = Sending::start(rt.alloc(), elements, 0, 2)?;
    for step in SENT {
        assert!(rt; sends(&mut sending, step));
    }
    Ok(())
}
