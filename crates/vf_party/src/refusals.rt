//! What is said to a request that is refused (ISO 8571-4, the responses).
ghost use Rattle.std.specs.Prelude.{◌≡◌, IfOk};
ghost use Rattle.vf_party.specs.Refusals.{refusal_numbered, response_numbered};

use crate::Said;
use std::alloc::Global;
use vf_base::{Diagnostic, NoMemory};
use vf_party_steps::one_said;
use vf_pdu::{Boxed, Pdu};

/// What is said to a request of this number (of its tag, ISO 8571-4) that the diagnostic refuses: its own response, and
/// nothing to another message.
pub(crate) fn refusal(
    alloc: Global,
    number: u16,
    diagnostic: Diagnostic,
) -> Result<Vec<Said>, NoMemory>
    ensures { IfOk result (λ said. said.items ≡ refusal_numbered number diagnostic) }
{
    let Some(response) = response(alloc, number, diagnostic)? else {
        return Ok(Vec::new(alloc));
    };
    let said = one_said(alloc, Said::Pdu(response))?;
    Ok(said)
}

/// The response to a request of this number with the diagnostic; other messages have none.
fn response(alloc: Global, number: u16, diagnostic: Diagnostic) -> Result<Option<Pdu>, NoMemory>
    ensures { IfOk result (λ response. response ≡ response_numbered number diagnostic) }
{
    let diagnostic = Some(diagnostic);
    let response = match number {
        0 => Pdu::InitializeResponse {
            diagnostic,
            units: 0,
            window: 1,
        },
        6 => Pdu::SelectResponse { diagnostic },
        8 => Pdu::DeselectResponse { diagnostic },
        10 => Pdu::CreateResponse { diagnostic },
        12 => Pdu::DeleteResponse { diagnostic },
        14 => Pdu::ReadAttribResponse {
            diagnostic,
            attributes: Boxed::new(alloc, None)?,
        },
        16 => Pdu::ChangeAttribResponse { diagnostic },
        18 => Pdu::OpenResponse {
            diagnostic,
            contents: None,
        },
        20 => Pdu::CloseResponse { diagnostic },
        26 => Pdu::RecoverResponse {
            diagnostic,
            number: None,
            point: 0,
            moving: false,
            last: 0,
        },
        28 => Pdu::LocateResponse {
            diagnostic,
            position: 0,
        },
        30 => Pdu::EraseResponse { diagnostic },
        _ => return Ok(None),
    };
    Ok(Some(response))
}
