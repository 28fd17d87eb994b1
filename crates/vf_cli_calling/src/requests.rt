//! What the calling end of a link sends to say a message.
ghost use Rattle.std.specs.Prelude.{◌≡◌, IfOk};
ghost use Rattle.vf_cli_calling.specs.Calling.{pdu_request, request_of as request_meant, restart_by};

use crate::base::Base;
use std::alloc::Global;
use vf_base::NoMemory;
use vf_elements::Message;
use vf_pdu::{Boxed, Pdu};
use vf_stack::{Item, Request};

/// The request by which a message is said on a link with sync or without it, whose transfer has this base; `None` where it is
/// none that a calling end sends.
pub(crate) fn request_of(
    alloc: Global,
    sync: bool,
    base: Base,
    message: &Message,
) -> Result<Option<Request>, NoMemory>
    ensures { IfOk result (λ request. request ≡ request_meant sync base message.now) }
{
    match message {
        Message::Pdu(pdu) => request_of_pdu(alloc, sync, base, pdu),
        Message::Element(element) => {
            let element = element.copy(alloc)?;
            Ok(Some(Request::Item(Item::Element(element))))
        }
        _ => Ok(None),
    }
}

fn request_of_pdu(
    alloc: Global,
    sync: bool,
    base: Base,
    pdu: &Pdu,
) -> Result<Option<Request>, NoMemory>
    ensures { IfOk result (λ request. request ≡ pdu_request sync base pdu.now) }
{
    let copy = pdu.copy(alloc)?;
    let copy = Boxed::new(alloc, copy)?;
    match pdu {
        Pdu::InitializeRequest { .. } => Ok(Some(Request::Associate { sync, pdu: copy })),
        Pdu::TerminateRequest => Ok(Some(Request::Release { pdu: copy })),
        Pdu::CancelRequest { .. } => Ok(Some(Request::Cancel { pdu: copy })),
        Pdu::UserAbort { .. } => Ok(Some(Request::Abort { pdu: Some(copy) })),
        Pdu::ProviderAbort { .. } => Ok(Some(Request::Abort { pdu: Some(copy) })),
        Pdu::RestartRequest { point } => Ok(restart(sync, base.serial_after(*point), copy)),
        _ => Ok(Some(Request::Item(Item::Pdu(copy)))),
    }
}

/// F-RESTART: a resynchronization with sync, data without it.
fn restart(sync: bool, serial: Option<u32>, pdu: Boxed<Pdu>) -> Option<Request>
    ensures { result ≡ restart_by sync serial pdu }
{
    if !sync {
        return Some(Request::Item(Item::Pdu(pdu)));
    }
    let serial = serial?;
    Some(Request::Restart { serial, pdu })
}
