//! How what a party says is carried by the lower layers (ISO 8571-4; ISO 8327, checkpoints).
ghost use Rattle.std.specs.Prelude.{◌≡◌, ◌++◌, IfOk, OnErr, OnOk};
ghost use Rattle.vf_responder.specs.Answers.{speaking};
ghost use Rattle.vf_responder.specs.Replies.{abort_request as abort_meant, pdu_request, request_of as request_meant, sending, sending_all};
ghost use Rattle.vf_responder.specs.Steps.{IsAsked, IsCalled, Sends};
ghost use Rattle.vf_stack.specs.Association.{Association};
ghost use Rattle.vf_stack.specs.declared.indication.Indication.{Indication};

use crate::event::Reply;
use crate::meaning::Asked;
use crate::spoken::Spoken;
use std::alloc::Global;
use vf_base::NoMemory;
use vf_elements::Said;
use vf_pdu::{Boxed, Pdu};
use vf_stack::{Item, Request, Stack};

/// The request of a PDU that answers what was asked.
fn request_of_pdu(alloc: Global, asked: Asked, pdu: Pdu) -> Result<Request, NoMemory>
    ensures { IfOk result (λ request. (indication : Indication) → IsAsked asked indication → request ≡ pdu_request indication pdu) }
{
    let pdu = Boxed::new(alloc, pdu)?;
    match pdu.value() {
        Pdu::InitializeResponse { diagnostic, .. } => {
            if diagnostic.is_some() {
                return Ok(Request::Refuse { pdu: Some(pdu) });
            }
            Ok(Request::Accept {
                sync: asked.sync,
                pdu,
            })
        }
        Pdu::TerminateResponse => Ok(Request::Released { pdu }),
        Pdu::CancelResponse => Ok(Request::Cancelled { pdu }),
        Pdu::RestartResponse { .. } => Ok(Request::Restarted {
            serial: asked.serial,
            pdu,
        }),
        _ => Ok(Request::Item(Item::Pdu(pdu))),
    }
}

/// An abort. Of an association that isn't accepted it has no PDU.
fn abort_request(alloc: Global, stack: &Stack, number: u16, place: u64) -> Result<Request, NoMemory>
    ensures { IfOk result (λ request. (association : Association) → IsCalled stack.now association → request ≡ abort_meant association number place) }
{
    if !stack.is_accepted() {
        return Ok(Request::Abort { pdu: None });
    }
    let pdu = Boxed::new(alloc, Pdu::ProviderAbort { number, place })?;
    Ok(Request::Abort { pdu: Some(pdu) })
}

fn request_of(alloc: Global, stack: &Stack, asked: Asked, said: Said) -> Result<Request, NoMemory>
    ensures { IfOk result (λ request. (association : Association) (indication : Indication) → IsCalled stack.now association → IsAsked asked indication
        → request ≡ request_meant association indication said) }
{
    match said {
        Said::Pdu(pdu) => {
            let request = request_of_pdu(alloc, asked, pdu)?;
            Ok(request)
        }
        Said::Element(element) => Ok(Request::Item(Item::Element(element))),
        Said::Check { .. } => Ok(Request::Check {
            serial: stack.next_serial(),
        }),
        Said::Acknowledge { .. } => Ok(Request::Acknowledge {
            serial: asked.serial,
        }),
        Said::Abort { number, place } => {
            let request = abort_request(alloc, stack, number, place)?;
            Ok(request)
        }
    }
}

/// Appends the octets of a request. A check that session doesn't permit is left out; anything else that can't be sent counts
/// as want of memory.
fn send(
    alloc: Global,
    stack: &mut Stack,
    request: &Request,
    out: &mut Spoken,
) -> Result<(), NoMemory>
    ensures { OnOk result ((association : Association) → IsCalled stack.old association → Sends (sending association request.now) out.old stack.new out.new) }
{
    if stack.may(request) {
        out.send(alloc, stack, request)?;
        return Ok(());
    }
    match request {
        Request::Check { .. } => Ok(()),
        _ => Err(NoMemory),
    }
}

/// Appends the octets of all that is said in answer to what was asked.
pub(crate) fn send_all(
    alloc: Global,
    stack: &mut Stack,
    asked: Asked,
    said: Vec<Said>,
    out: &mut Spoken,
) -> Result<(), NoMemory>
    ensures { OnOk result ((association : Association) (indication : Indication) → IsCalled stack.old association → IsAsked asked indication
        → Sends (sending_all indication association said.items) out.old stack.new out.new) }
{
    for one in said {
        let request = request_of(alloc, stack, asked, one)?;
        let sent = send(alloc, stack, &request, out);
        drop(request);
        sent?;
    }
    Ok(())
}

/// Appends what is spoken on a link, if anything is or the link is shut.
pub(crate) fn speak(
    link: u32,
    octets: Spoken,
    shut: bool,
    replies: &mut Vec<Reply>,
) -> Result<(), NoMemory>
    ensures said { OnOk result (replies.new.items ≡ replies.old.items ++ speaking link octets shut) }
    ensures err { OnErr result (replies.new.items ≡ replies.old.items) }
{
    if octets.is_empty() && !shut {
        return Ok(());
    }
    replies.push(Reply { link, octets, shut })?;
    Ok(())
}
