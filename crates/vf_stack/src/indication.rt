ghost use Rattle.std.specs.Prelude.{◌≡◌, IfOk};

use std::alloc::Global;
use vf_base::{Element, NoMemory};
use vf_pdu::{Boxed, Pdu};

/// A PDU, on the heap, or a data element.
#[derive(Drop)]
pub enum Item {
    Pdu(Boxed<Pdu>),
    Element(Element),
}

/// The layer that a fault is of.
#[derive(Clone, Copy, Debug, PartialEq, Eq)]
pub enum Layer {
    /// RFC 1006 and ISO 8073; places are offsets in the stream.
    Transport,
    /// ISO 8327; places are offsets in the TSDU.
    Session,
    /// Presentation (ISO 8823) and ACSE (ISO 8650); places are offsets in the user data, 0 for `Context` and `Application`.
    Upper,
    /// FTAM (ISO 8571-4); a place is that of a part of the value or the number of a field, 0 for `Unknown`.
    Ftam,
}

/// What is at fault. Of transport `Version`, `Length`, `Code`, `State`, `Size`; of session `Code`, `Length`, `Missing`,
/// `Value`, `State`, `Serial`, `Token`; of presentation and ACSE `Context`, `Grammar`, `Application`; of FTAM `Unknown`,
/// `Field`, `Range`, `Missing`. `Short`, `Bad`, `Deep` and `Long` are those of a value, and no layer tells them.
#[derive(Clone, Copy, Debug, PartialEq, Eq)]
pub enum FaultName {
    Version,
    Length,
    Code,
    State,
    Size,
    Missing,
    Value,
    Serial,
    Token,
    Context,
    Grammar,
    Application,
    Short,
    Bad,
    Deep,
    Long,
    Unknown,
    Field,
    Range,
}

/// What the other end sent, or what is at fault in it. Serial numbers are 0 to 999,999. A PDU stands on the heap, so that
/// an indication is small.
#[derive(Drop)]
pub enum Indication {
    /// F-INITIALIZE request; `sync` where minor synchronize and resynchronize are proposed.
    Associate {
        sync: bool,
        pdu: Boxed<Pdu>,
    },
    /// F-INITIALIZE response that accepts; `sync` where they are agreed.
    Accepted {
        sync: bool,
        pdu: Boxed<Pdu>,
    },
    /// F-INITIALIZE response that refuses, or a refusal by a lower layer without a PDU.
    Refused {
        pdu: Option<Boxed<Pdu>>,
    },
    /// F-TERMINATE request.
    Release {
        pdu: Boxed<Pdu>,
    },
    /// F-TERMINATE response.
    Released {
        pdu: Boxed<Pdu>,
    },
    /// A PDU or a data element in P-DATA.
    Item(Item),
    /// F-CHECK.
    Check {
        serial: u32,
    },
    /// F-CHECK response.
    Acknowledged {
        serial: u32,
    },
    /// F-RESTART request in a resynchronization.
    Restart {
        serial: u32,
        pdu: Boxed<Pdu>,
    },
    /// F-RESTART response in the answer to it.
    Restarted {
        serial: u32,
        pdu: Boxed<Pdu>,
    },
    /// F-CANCEL request in a resynchronization.
    Cancel {
        pdu: Boxed<Pdu>,
    },
    /// F-CANCEL response in the answer to it.
    Cancelled {
        pdu: Boxed<Pdu>,
    },
    /// F-U-ABORT, F-P-ABORT, or an abort without a PDU.
    Abort {
        pdu: Option<Boxed<Pdu>>,
    },
    /// Nothing is received after it.
    Fault {
        layer: Layer,
        name: FaultName,
        at: u64,
    },
}

/// The same PDU on the heap; its octets are shared.
pub(crate) fn copy_pdu(alloc: Global, pdu: &Boxed<Pdu>) -> Result<Boxed<Pdu>, NoMemory>
    ensures { IfOk result (λ made. made ≡ pdu.now) }
{
    let copy = pdu.value().copy(alloc)?;
    let copy = Boxed::new(alloc, copy)?;
    Ok(copy)
}

pub(crate) fn copy_maybe(
    alloc: Global,
    pdu: &Option<Boxed<Pdu>>,
) -> Result<Option<Boxed<Pdu>>, NoMemory>
    ensures { IfOk result (λ made. made ≡ pdu.now) }
{
    match pdu {
        Some(pdu) => {
            let copy = copy_pdu(alloc, pdu)?;
            Ok(Some(copy))
        }
        None => Ok(None),
    }
}

impl Item {
    /// The same item; its octets are shared.
    pub fn copy(&self, alloc: Global) -> Result<Item, NoMemory>
        ensures { IfOk result (λ made. made ≡ self.now) }
    {
        match self {
            Item::Pdu(pdu) => {
                let copy = copy_pdu(alloc, pdu)?;
                Ok(Item::Pdu(copy))
            }
            Item::Element(element) => {
                let copy = element.copy(alloc)?;
                Ok(Item::Element(copy))
            }
        }
    }
}

impl Indication {
    /// The same indication; its octets are shared.
    pub fn copy(&self, alloc: Global) -> Result<Indication, NoMemory>
        ensures { IfOk result (λ made. made ≡ self.now) }
    {
        match self {
            Indication::Associate { sync, pdu } => {
                let pdu = copy_pdu(alloc, pdu)?;
                Ok(Indication::Associate { sync: *sync, pdu })
            }
            Indication::Accepted { sync, pdu } => {
                let pdu = copy_pdu(alloc, pdu)?;
                Ok(Indication::Accepted { sync: *sync, pdu })
            }
            Indication::Refused { pdu } => {
                let pdu = copy_maybe(alloc, pdu)?;
                Ok(Indication::Refused { pdu })
            }
            Indication::Release { pdu } => {
                let pdu = copy_pdu(alloc, pdu)?;
                Ok(Indication::Release { pdu })
            }
            Indication::Released { pdu } => {
                let pdu = copy_pdu(alloc, pdu)?;
                Ok(Indication::Released { pdu })
            }
            Indication::Item(item) => {
                let item = item.copy(alloc)?;
                Ok(Indication::Item(item))
            }
            Indication::Check { serial } => Ok(Indication::Check { serial: *serial }),
            Indication::Acknowledged { serial } => Ok(Indication::Acknowledged { serial: *serial }),
            Indication::Restart { serial, pdu } => {
                let pdu = copy_pdu(alloc, pdu)?;
                Ok(Indication::Restart {
                    serial: *serial,
                    pdu,
                })
            }
            Indication::Restarted { serial, pdu } => {
                let pdu = copy_pdu(alloc, pdu)?;
                Ok(Indication::Restarted {
                    serial: *serial,
                    pdu,
                })
            }
            Indication::Cancel { pdu } => {
                let pdu = copy_pdu(alloc, pdu)?;
                Ok(Indication::Cancel { pdu })
            }
            Indication::Cancelled { pdu } => {
                let pdu = copy_pdu(alloc, pdu)?;
                Ok(Indication::Cancelled { pdu })
            }
            Indication::Abort { pdu } => {
                let pdu = copy_maybe(alloc, pdu)?;
                Ok(Indication::Abort { pdu })
            }
            Indication::Fault { layer, name, at } => Ok(Indication::Fault {
                layer: *layer,
                name: *name,
                at: *at,
            }),
        }
    }
}
