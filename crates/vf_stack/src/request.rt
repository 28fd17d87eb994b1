ghost use Rattle.std.specs.Prelude.{◌≡◌, IfOk};

use crate::Item;
use crate::indication::{copy_maybe, copy_pdu};
use std::alloc::Global;
use vf_base::NoMemory;
use vf_pdu::{Boxed, Pdu};

/// What this end sends. Serial numbers are 0 to 999,999.
#[derive(Drop)]
pub enum Request {
    /// F-INITIALIZE request; `sync` proposes minor synchronize and resynchronize.
    Associate { sync: bool, pdu: Boxed<Pdu> },
    /// F-INITIALIZE response that accepts; `sync` agrees them.
    Accept { sync: bool, pdu: Boxed<Pdu> },
    /// F-INITIALIZE response that refuses, or a refusal without a PDU.
    Refuse { pdu: Option<Boxed<Pdu>> },
    /// F-TERMINATE request.
    Release { pdu: Boxed<Pdu> },
    /// F-TERMINATE response.
    Released { pdu: Boxed<Pdu> },
    /// A PDU or a data element in P-DATA.
    Item(Item),
    /// F-CHECK.
    Check { serial: u32 },
    /// F-CHECK response.
    Acknowledge { serial: u32 },
    /// F-RESTART request in a resynchronization.
    Restart { serial: u32, pdu: Boxed<Pdu> },
    /// F-RESTART response in the answer to it.
    Restarted { serial: u32, pdu: Boxed<Pdu> },
    /// F-CANCEL request: in a resynchronization where sync is agreed, and else in P-DATA.
    Cancel { pdu: Boxed<Pdu> },
    /// F-CANCEL response, in the answer to it or in P-DATA.
    Cancelled { pdu: Boxed<Pdu> },
    /// F-U-ABORT, F-P-ABORT, or an abort without a PDU.
    Abort { pdu: Option<Boxed<Pdu>> },
    /// The token passes to the other end, by a GT that fills a TSDU alone.
    Pass,
}

impl Request {
    /// The same request; its octets are shared.
    pub fn copy(&self, alloc: Global) -> Result<Request, NoMemory>
        ensures { IfOk result (λ made. made ≡ self.now) }
    {
        match self {
            Request::Associate { sync, pdu } => {
                let pdu = copy_pdu(alloc, pdu)?;
                Ok(Request::Associate { sync: *sync, pdu })
            }
            Request::Accept { sync, pdu } => {
                let pdu = copy_pdu(alloc, pdu)?;
                Ok(Request::Accept { sync: *sync, pdu })
            }
            Request::Refuse { pdu } => {
                let pdu = copy_maybe(alloc, pdu)?;
                Ok(Request::Refuse { pdu })
            }
            Request::Release { pdu } => {
                let pdu = copy_pdu(alloc, pdu)?;
                Ok(Request::Release { pdu })
            }
            Request::Released { pdu } => {
                let pdu = copy_pdu(alloc, pdu)?;
                Ok(Request::Released { pdu })
            }
            Request::Item(item) => {
                let item = item.copy(alloc)?;
                Ok(Request::Item(item))
            }
            Request::Check { serial } => Ok(Request::Check { serial: *serial }),
            Request::Acknowledge { serial } => Ok(Request::Acknowledge { serial: *serial }),
            Request::Restart { serial, pdu } => {
                let pdu = copy_pdu(alloc, pdu)?;
                Ok(Request::Restart {
                    serial: *serial,
                    pdu,
                })
            }
            Request::Restarted { serial, pdu } => {
                let pdu = copy_pdu(alloc, pdu)?;
                Ok(Request::Restarted {
                    serial: *serial,
                    pdu,
                })
            }
            Request::Cancel { pdu } => {
                let pdu = copy_pdu(alloc, pdu)?;
                Ok(Request::Cancel { pdu })
            }
            Request::Cancelled { pdu } => {
                let pdu = copy_pdu(alloc, pdu)?;
                Ok(Request::Cancelled { pdu })
            }
            Request::Abort { pdu } => {
                let pdu = copy_maybe(alloc, pdu)?;
                Ok(Request::Abort { pdu })
            }
            Request::Pass => Ok(Request::Pass),
        }
    }
}
