//! What comes to an initiator, as far as it tells it apart.
ghost use Rattle.std.specs.Prelude.{◌≡◌};
ghost use Rattle.vf_initiator.specs.Hearing.{accepted_in, heard_in, heard_of_pdu, number_of_abort, refusal_in};

use vf_base::{Diagnostic, Element};
use vf_pdu::{Boxed, Pdu};
use vf_stack::{FaultName, Indication, Item, Layer};

/// A message to the initiator. Each answer has the diagnostic that refuses, if there is one.
#[derive(Drop)]
pub(crate) enum Heard {
    /// The association is accepted, with an F-INITIALIZE response.
    Accepted {
        diagnostic: Option<Diagnostic>,
        units: u16,
        window: u16,
    },
    /// The association is refused.
    Refused {
        diagnostic: Option<Diagnostic>,
    },
    /// F-RECOVER response; the number of the transfer is 1 where it is left out.
    Recovered {
        diagnostic: Option<Diagnostic>,
        number: u32,
        point: u32,
        moving: bool,
        last: u16,
    },
    Created {
        diagnostic: Option<Diagnostic>,
    },
    Selected {
        diagnostic: Option<Diagnostic>,
    },
    Opened {
        diagnostic: Option<Diagnostic>,
    },
    Value(Element),
    Check {
        serial: u32,
    },
    Acknowledged {
        serial: u32,
    },
    DataEnded {
        diagnostic: Option<Diagnostic>,
    },
    TransferEnded {
        diagnostic: Option<Diagnostic>,
    },
    Closed {
        diagnostic: Option<Diagnostic>,
    },
    Deselected {
        diagnostic: Option<Diagnostic>,
    },
    Terminated,
    Aborted {
        number: u16,
    },
    Faulty {
        layer: Layer,
        name: FaultName,
        at: u64,
    },
    /// What is never in place.
    Other,
}

impl Heard {
    pub(crate) fn of(indication: Indication) -> Heard
        ensures { result ≡ heard_in indication }
    {
        match indication {
            Indication::Accepted { pdu, .. } => accepted(pdu.value()),
            Indication::Refused { pdu } => Heard::Refused {
                diagnostic: refusal(&pdu),
            },
            Indication::Released { .. } => Heard::Terminated,
            Indication::Item(Item::Pdu(pdu)) => of_pdu(pdu.value()),
            Indication::Item(Item::Element(element)) => Heard::Value(element),
            Indication::Check { serial } => Heard::Check { serial },
            Indication::Acknowledged { serial } => Heard::Acknowledged { serial },
            Indication::Abort { pdu } => Heard::Aborted {
                number: abort_number(&pdu),
            },
            Indication::Fault { layer, name, at } => Heard::Faulty { layer, name, at },
            _ => Heard::Other,
        }
    }
}

/// The response in the acceptance of an association.
fn accepted(pdu: &Pdu) -> Heard
    ensures { result ≡ accepted_in pdu.now }
{
    match pdu {
        Pdu::InitializeResponse {
            diagnostic,
            units,
            window,
        } => Heard::Accepted {
            diagnostic: *diagnostic,
            units: *units,
            window: *window,
        },
        _ => Heard::Other,
    }
}

/// The diagnostic in the refusal of an association.
fn refusal(pdu: &Option<Boxed<Pdu>>) -> Option<Diagnostic>
    ensures { result ≡ refusal_in pdu.now }
{
    let Some(pdu) = pdu else {
        return None;
    };
    match pdu.value() {
        Pdu::InitializeResponse { diagnostic, .. } => *diagnostic,
        _ => None,
    }
}

/// The number of an abort, 0 where it has none.
fn abort_number(pdu: &Option<Boxed<Pdu>>) -> u16
    ensures { result ≡ number_of_abort pdu.now }
{
    let Some(pdu) = pdu else {
        return 0;
    };
    match pdu.value() {
        Pdu::UserAbort { number } => *number,
        Pdu::ProviderAbort { number, .. } => *number,
        _ => 0,
    }
}

/// A PDU of P-DATA.
fn of_pdu(pdu: &Pdu) -> Heard
    ensures { result ≡ heard_of_pdu pdu.now }
{
    match pdu {
        Pdu::SelectResponse { diagnostic } => Heard::Selected {
            diagnostic: *diagnostic,
        },
        Pdu::DeselectResponse { diagnostic } => Heard::Deselected {
            diagnostic: *diagnostic,
        },
        Pdu::CreateResponse { diagnostic } => Heard::Created {
            diagnostic: *diagnostic,
        },
        Pdu::OpenResponse { diagnostic, .. } => Heard::Opened {
            diagnostic: *diagnostic,
        },
        Pdu::CloseResponse { diagnostic } => Heard::Closed {
            diagnostic: *diagnostic,
        },
        Pdu::RecoverResponse {
            diagnostic,
            number,
            point,
            moving,
            last,
        } => Heard::Recovered {
            diagnostic: *diagnostic,
            number: number.unwrap_or(1),
            point: *point,
            moving: *moving,
            last: *last,
        },
        Pdu::DataEnd { diagnostic } => Heard::DataEnded {
            diagnostic: *diagnostic,
        },
        Pdu::TransferEndResponse { diagnostic } => Heard::TransferEnded {
            diagnostic: *diagnostic,
        },
        _ => Heard::Other,
    }
}
