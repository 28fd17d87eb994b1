//! What an indication of the lower layers is to a party (ISO 8571-4; numbers of checks and of aborts are profile).
ghost use Rattle.std.specs.Prelude.{◌≡◌};
ghost use Rattle.vf_elements.specs.declared.message.Message.TheVariants as messages;
ghost use Rattle.vf_responder.specs.Meanings as run;
ghost use Rattle.vf_responder.specs.Meanings.{acknowledged, fault_of, meaning, restarted};
ghost use Rattle.vf_responder.specs.Steps.{IsAsked, meant_by};

use vf_elements::Message;
use vf_pdu::{Boxed, Pdu};
use vf_stack::{FaultName, Indication, Item, Layer};

/// Octets outside the grammar.
const OUTSIDE: u16 = 101;

/// What may not come now.
const WRONG_STATE: u16 = 102;

/// A context that isn't accepted.
const WRONG_CONTEXT: u16 = 103;

/// A TSDU over its limit.
const TOO_LONG: u16 = 104;

/// What is said to a party whose association gives way to a recovery.
pub(crate) const SUPERSEDED: u16 = 106;

/// What comes to a party by an indication.
#[derive(Drop)]
pub(crate) enum Meaning {
    Takes(Message),
    /// A fault that this abort answers.
    Faults { number: u16, place: u64 },
    /// Nothing but that receiving has ended, if it has.
    Nothing,
}

/// What of an indication its answer needs.
#[derive(Clone, Copy)]
pub(crate) struct Asked {
    /// An association request proposes sync.
    pub(crate) sync: bool,
    /// The number of a check or of a restart, else 0.
    pub(crate) serial: u32,
}

/// What nothing is asked of that has a number.
pub(crate) const PLAIN: Asked = Asked {
    sync: false,
    serial: 0,
};

pub(crate) fn asked_by(indication: &Indication) -> Asked
    ensures { IsAsked result indication.now }
{
    match indication {
        Indication::Associate { sync, .. } => Asked {
            sync: *sync,
            serial: 0,
        },
        Indication::Check { serial } => Asked {
            sync: false,
            serial: *serial,
        },
        Indication::Restart { serial, .. } => Asked {
            sync: false,
            serial: *serial,
        },
        _ => PLAIN,
    }
}

const fn faults(number: u16, place: u64) -> Meaning
    ensures { meant_by result ≡ run.Faults number place }
{
    Meaning::Faults { number, place }
}

/// A fault of transport other than of size shuts the link without a word.
fn meaning_of_fault(layer: Layer, name: FaultName, at: u64) -> Meaning
    ensures { meant_by result ≡ fault_of layer name at }
{
    match layer {
        Layer::Transport => match name {
            FaultName::Size => faults(TOO_LONG, 0),
            _ => Meaning::Nothing,
        },
        Layer::Session => match name {
            FaultName::State => faults(WRONG_STATE, 0),
            _ => faults(OUTSIDE, 0),
        },
        Layer::Upper => match name {
            FaultName::Context => faults(WRONG_CONTEXT, 0),
            _ => faults(OUTSIDE, 0),
        },
        Layer::Ftam => faults(OUTSIDE, at),
    }
}

/// The acknowledgement of a number, where the check after the last that stands has the number `next`.
fn meaning_of_acknowledgement(next: u32, last_check: Option<u32>, serial: u32) -> Meaning
    ensures { meant_by result ≡ acknowledged next last_check serial }
{
    let Some(last_check) = last_check else {
        return faults(WRONG_STATE, 0);
    };
    if serial >= next {
        return faults(WRONG_STATE, 0);
    }
    // How many checks before the next one.
    let back = next - serial - 1;
    if back > last_check {
        return faults(WRONG_STATE, 0);
    }
    Meaning::Takes(Message::Acknowledge {
        point: last_check - back,
    })
}

/// A restart whose number isn't that of the check after its point is at fault while a transfer is under way.
fn meaning_of_restart(next: u32, last_check: Option<u32>, serial: u32, pdu: &Pdu) -> Meaning
    ensures { meant_by result ≡ restarted next last_check serial pdu.now }
{
    let Pdu::RestartRequest { point } = pdu else {
        return Meaning::Nothing;
    };
    if let Some(last_check) = last_check {
        let found = u64::from(serial) + u64::from(last_check);
        if found != u64::from(next) + u64::from(*point) {
            return faults(OUTSIDE, 0);
        }
    }
    Meaning::Takes(Message::Restart { point: *point })
}

fn taken(pdu: Boxed<Pdu>) -> Meaning
    ensures { meant_by result ≡ run.Takes (messages.Pdu pdu) }
{
    Meaning::Takes(Message::Pdu(pdu.into_value()))
}

/// What an indication is to a party that has this last check in its transfer, if one is under way, where the next check of
/// the session has the number `next`.
pub(crate) fn meaning_of(next: u32, last_check: Option<u32>, indication: Indication) -> Meaning
    ensures { meant_by result ≡ meaning next last_check indication }
{
    match indication {
        Indication::Associate { pdu, .. } => taken(pdu),
        Indication::Release { pdu } => taken(pdu),
        Indication::Cancel { pdu } => taken(pdu),
        Indication::Item(Item::Pdu(pdu)) => taken(pdu),
        Indication::Item(Item::Element(element)) => Meaning::Takes(Message::Element(element)),
        Indication::Check { .. } => Meaning::Takes(Message::Check),
        Indication::Acknowledged { serial } => meaning_of_acknowledgement(next, last_check, serial),
        Indication::Restart { serial, pdu } => {
            meaning_of_restart(next, last_check, serial, pdu.value())
        }
        Indication::Fault { layer, name, at } => meaning_of_fault(layer, name, at),
        Indication::Accepted { .. } => Meaning::Nothing,
        Indication::Refused { .. } => Meaning::Nothing,
        Indication::Released { .. } => Meaning::Nothing,
        Indication::Restarted { .. } => Meaning::Nothing,
        Indication::Cancelled { .. } => Meaning::Nothing,
        Indication::Abort { .. } => Meaning::Nothing,
    }
}
