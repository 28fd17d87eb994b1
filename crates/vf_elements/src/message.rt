ghost use Rattle.std.specs.Prelude.{◌≡◌, IfOk};

use std::alloc::Global;
use vf_base::{Duplicate, Element, NoMemory};
use vf_pdu::Pdu;

/// What comes to a party (ISO 8571-3, the service primitives of the initiator).
#[derive(Drop)]
pub enum Message {
    /// A PDU of the initiator.
    Pdu(Pdu),
    /// A data element (F-DATA).
    Element(Element),
    /// A checkpoint (F-CHECK), after the values so far.
    Check,
    /// The checkpoints up to this one are acknowledged.
    Acknowledge { point: u32 },
    /// The transfer begins again after this checkpoint (F-RESTART, where the session carries it).
    Restart { point: u32 },
    /// The connection broke; it has no answer.
    Break,
}

impl Message {
    /// The same message; its octets are shared.
    pub fn copy(&self, alloc: Global) -> Result<Message, NoMemory>
        ensures { IfOk result (λ made. made ≡ self.now) }
    {
        match self {
            Message::Pdu(pdu) => {
                let pdu = pdu.copy(alloc)?;
                Ok(Message::Pdu(pdu))
            }
            Message::Element(element) => {
                let element = element.copy(alloc)?;
                Ok(Message::Element(element))
            }
            Message::Check => Ok(Message::Check),
            Message::Acknowledge { point } => Ok(Message::Acknowledge { point: *point }),
            Message::Restart { point } => Ok(Message::Restart { point: *point }),
            Message::Break => Ok(Message::Break),
        }
    }
}

impl Duplicate for Message {
    fn duplicate(&self, alloc: Global) -> Result<Message, NoMemory> {
        let made = self.copy(alloc)?;
        Ok(made)
    }
}

/// What a party sends to the initiator.
#[derive(Drop)]
pub enum Said {
    /// A PDU of the responder.
    Pdu(Pdu),
    /// A data element.
    Element(Element),
    /// A checkpoint of this number.
    Check { point: u32 },
    /// The checkpoints up to this one are acknowledged.
    Acknowledge { point: u32 },
    /// The provider's abort, with the place of a fault in the octets received, else 0.
    Abort { number: u16, place: u64 },
}

impl Said {
    /// The same message; its octets are shared.
    pub fn copy(&self, alloc: Global) -> Result<Said, NoMemory>
        ensures { IfOk result (λ made. made ≡ self.now) }
    {
        match self {
            Said::Pdu(pdu) => {
                let pdu = pdu.copy(alloc)?;
                Ok(Said::Pdu(pdu))
            }
            Said::Element(element) => {
                let element = element.copy(alloc)?;
                Ok(Said::Element(element))
            }
            Said::Check { point } => Ok(Said::Check { point: *point }),
            Said::Acknowledge { point } => Ok(Said::Acknowledge { point: *point }),
            Said::Abort { number, place } => Ok(Said::Abort {
                number: *number,
                place: *place,
            }),
        }
    }
}

impl Duplicate for Said {
    fn duplicate(&self, alloc: Global) -> Result<Said, NoMemory> {
        let made = self.copy(alloc)?;
        Ok(made)
    }
}
