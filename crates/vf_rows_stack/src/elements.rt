//! Which stages take which messages, and copies of messages. What octets mean are lines of `bench_lines`.

use crate::octets::octets_of;
use std::alloc::Global;
use std::test::Fail;
use vf_base::{Element, NoMemory};
use vf_elements::{Message, Said, Stage, message_of};
use vf_pdu::Pdu;

/// The stages in the order of the digits below.
const STAGES: [Stage; 9] = [
    Stage::Idle,
    Stage::Associated,
    Stage::Selected,
    Stage::Opened,
    Stage::Writing,
    Stage::Written,
    Stage::Reading,
    Stage::Shown,
    Stage::Grouping,
];

/// Whether exactly the stages with a 1 take the message.
fn is_taken_in(message: &Message, digits: &[u8]) -> bool {
    for (stage, digit) in STAGES.iter().zip(digits) {
        if stage.takes(message) != (*digit == b'1') {
            return false;
        }
    }
    true
}

/// Messages, by their octets or by a word, and a digit for each stage: 1 where it takes the message.
const TAKEN: &str = "
A200 010000000
A300 000000000
A400 011111111
A800 001000001
B400 000100001
B603800101 011100000
B800 000000001
BF2200 000010000
BF2300 000001010
BF2500 000011110
BF2703800100 000011110
6000 000010000
check 000010000
acknowledge 000000110
restart 000011110
break 111111111
";

/// The message of a word, or of the octets of its digits.
fn message(alloc: Global, word: &str) -> Result<Message, Fail> {
    match word {
        "check" => Ok(Message::Check),
        "acknowledge" => Ok(Message::Acknowledge { point: 0 }),
        "restart" => Ok(Message::Restart { point: 0 }),
        "break" => Ok(Message::Break),
        _ => message_in(alloc, word),
    }
}

/// The message of the octets of these digits.
fn message_in(alloc: Global, digits: &str) -> Result<Message, Fail> {
    let octets = octets_of(alloc, digits)?;
    let (value, _) = vf_ber::read(alloc, octets.as_slice())?;
    let message = message_of(alloc, &value)?;
    Ok(message)
}

/// Whether exactly the stages with a 1 take the message of the word.
fn is_row(alloc: Global, word: &str, digits: &str) -> Result<bool, Fail> {
    let message = message(alloc, word)?;
    Ok(is_taken_in(&message, digits.as_bytes()))
}

#[test]
fn stages_take(rt: HostRuntime) -> Result<(), Fail> {
    let mut count = 0_u32;
    for row in TAKEN.lines() {
        if let Some((word, digits)) = row.split_once(' ') {
            assert!(rt; is_row(rt.alloc(), word, digits)?, "{row}");
            count = count.saturating_add(1);
        }
    }
    assert_eq!(rt; count, 16);
    Ok(())
}

/// Whether a PDU is the restart of a transfer at the seventh checkpoint.
fn is_restart(pdu: &Pdu) -> bool {
    matches!(pdu, Pdu::RestartRequest { point: 7 })
}

/// Whether a message is that PDU.
fn has_restart(message: &Message) -> bool {
    match message {
        Message::Pdu(pdu) => is_restart(pdu),
        _ => false,
    }
}

/// Whether what is sent is the end of a node's children.
fn has_exit(sent: &Said) -> bool {
    match sent {
        Said::Element(element) => matches!(element, Element::Exit),
        _ => false,
    }
}

/// That message.
fn restart() -> Message {
    Message::Pdu(Pdu::RestartRequest { point: 7 })
}

/// That end.
fn exit() -> Said {
    Said::Element(Element::Exit)
}

/// Whether a copy of that message is one. It is lent, since a function that owns two messages is slow to prove.
fn copies_restart(alloc: Global, message: &Message) -> Result<bool, NoMemory> {
    let copied = message.copy(alloc)?;
    Ok(has_restart(&copied))
}

/// Whether a copy of that end is one.
fn copies_exit(alloc: Global, sent: &Said) -> Result<bool, NoMemory> {
    let copied = sent.copy(alloc)?;
    Ok(has_exit(&copied))
}

fn copies_message(alloc: Global) -> Result<bool, NoMemory> {
    let message = restart();
    copies_restart(alloc, &message)
}

fn copies_sent(alloc: Global) -> Result<bool, NoMemory> {
    let sent = exit();
    copies_exit(alloc, &sent)
}

#[test]
fn copies_messages(rt: HostRuntime) -> Result<(), Fail> {
    assert!(rt; copies_message(rt.alloc())? && copies_sent(rt.alloc())?);
    Ok(())
}
