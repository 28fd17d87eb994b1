//! The PDUs of transfers and restarts, numbers 34 to 40: read, looked at, written and copied.
ghost use Rattle.std.specs.Prelude.{◌≡◌, ◌≤◌, ◌<◌, ◌^◌, IfOk, length};
ghost use Rattle.vf_ber.specs.Views.{trees_in};
ghost use Rattle.vf_pdu.specs.PduTransfer.{restart, restart};
ghost use Rattle.vf_pdu_fields.specs.InRange.{slots_fit};
ghost use Rattle.vf_pdu.specs.PduMeaning.{IsInRange};
ghost use Rattle.vf_pdu.specs.PduNumbers.{number_of};
ghost use Rattle.vf_pdu.specs.PduResults.{Reads};
ghost use Rattle.vf_pdu.specs.PduRows.{row_of};
ghost use Rattle.vf_pdu.specs.PduSlots.{slots_of};
ghost use Rattle.vf_pdu.specs.PduValue.{parts_put};

use crate::Pdu;
use crate::read::answer;
use crate::write::write_answer;
use std::alloc::Global;
use vf_base::NoMemory;
use vf_ber::{Value, Values};
use vf_pdu_fields::{MOST_POINT, PduError, end, is_within, natural_or, put_integer_or};
use vf_pdu_parameters::is_parameter;

/// The PDU of this number, of 34 to 40, whose fields these parts have.
#[tactic(auto, unfolding(crate::specs::PduRows::row_of))]
pub(crate) fn read_transfer(alloc: Global, number: u16, parts: &[Value]) -> Result<Pdu, PduError>
    requires few { length parts.now < 2 ^ 32 }
    requires from { 34 ≤ number }
    requires to { number ≤ 40 }
    ensures { Reads number (row_of number) (trees_in parts.now) result }
{
    match number {
        34 => {
            let diagnostic = answer(alloc, parts)?;
            Ok(Pdu::DataEnd { diagnostic })
        }
        35 => {
            end(parts, 0)?;
            Ok(Pdu::TransferEndRequest)
        }
        36 => {
            let diagnostic = answer(alloc, parts)?;
            Ok(Pdu::TransferEndResponse { diagnostic })
        }
        37 => {
            let diagnostic = answer(alloc, parts)?;
            Ok(Pdu::CancelRequest { diagnostic })
        }
        38 => {
            end(parts, 0)?;
            Ok(Pdu::CancelResponse)
        }
        39 => read_restart_request(parts),
        _ => read_restart_response(parts),
    }
}

/// The fields of a PDU of these numbers, in the range of its row.
#[tactic(auto, unfolding(crate::specs::PduRows::row_of))]
pub(crate) fn write_transfer(alloc: Global, pdu: &Pdu) -> Result<Values, NoMemory>
    requires range { IsInRange pdu.now }
    requires from { 34 ≤ number_of pdu.now }
    ensures { IfOk result (λ made. made ≡ parts_put pdu.now) }
{
    match pdu {
        Pdu::RestartRequest { .. } => write_restart_request(alloc, pdu),
        Pdu::RestartResponse { .. } => write_restart_response(alloc, pdu),
        Pdu::DataEnd { diagnostic }
        | Pdu::TransferEndResponse { diagnostic }
        | Pdu::CancelRequest { diagnostic } => write_answer(alloc, diagnostic),
        Pdu::TransferEndRequest | Pdu::CancelResponse => Ok(Values::new(alloc)),
        _ => unreachable!(),
    }
}

/// Whether each field of a PDU of these numbers is in the range of its row.
#[tactic(auto, using(vf_pdu_fields::proofs::InRange::in_range), unfolding(crate::specs::PduRows::row_of))]
pub(crate) fn is_transfer_in_range(pdu: &Pdu) -> bool
    requires from { 34 ≤ number_of pdu.now }
    ensures { result ≡ slots_fit (row_of (number_of pdu.now)) (slots_of pdu.now) }
{
    match pdu {
        Pdu::RestartRequest { point } => { is_within(u64::from(*point), 0, u64::from(MOST_POINT)) }
        Pdu::RestartResponse { point } => { is_within(u64::from(*point), 0, u64::from(MOST_POINT)) }
        Pdu::DataEnd { diagnostic }
        | Pdu::TransferEndResponse { diagnostic }
        | Pdu::CancelRequest { diagnostic } => is_parameter(diagnostic),
        Pdu::TransferEndRequest | Pdu::CancelResponse => true,
        _ => unreachable!(),
    }
}

/// The same PDU of these numbers.
pub(crate) fn copy_transfer(pdu: &Pdu) -> Pdu
    requires { 34 ≤ number_of pdu.now }
    ensures { result ≡ pdu.now }
{
    match pdu {
        Pdu::DataEnd { diagnostic } => Pdu::DataEnd {
            diagnostic: *diagnostic,
        },
        Pdu::TransferEndRequest => Pdu::TransferEndRequest,
        Pdu::TransferEndResponse { diagnostic } => Pdu::TransferEndResponse {
            diagnostic: *diagnostic,
        },
        Pdu::CancelRequest { diagnostic } => Pdu::CancelRequest {
            diagnostic: *diagnostic,
        },
        Pdu::CancelResponse => Pdu::CancelResponse,
        Pdu::RestartRequest { point } => Pdu::RestartRequest { point: *point },
        Pdu::RestartResponse { point } => Pdu::RestartResponse { point: *point },
        _ => unreachable!(),
    }
}

fn read_restart_request(parts: &[Value]) -> Result<Pdu, PduError>
    requires { length parts.now < 2 ^ 32 }
    ensures { Reads 39 restart (trees_in parts.now) result }
{
    let mut at = 0;
    let point = natural_or(parts, &mut at, 0, 0, u64::from(MOST_POINT), 0)?;
    end(parts, at)?;
    Ok(Pdu::RestartRequest {
        point: point as u32,
    })
}

#[tactic(auto, unfolding(crate::specs::PduRows::row_of))]
fn write_restart_request(alloc: Global, pdu: &Pdu) -> Result<Values, NoMemory>
    requires { number_of pdu.now ≡ 39 }
    ensures { IfOk result (λ made. made ≡ parts_put pdu.now) }
{
    let Pdu::RestartRequest { point } = pdu else {
        unreachable!()
    };
    let mut parts = Values::new(alloc);
    put_integer_or(alloc, &mut parts, 0, 0, i64::from(*point))?;
    Ok(parts)
}

fn read_restart_response(parts: &[Value]) -> Result<Pdu, PduError>
    requires { length parts.now < 2 ^ 32 }
    ensures { Reads 40 restart (trees_in parts.now) result }
{
    let mut at = 0;
    let point = natural_or(parts, &mut at, 0, 0, u64::from(MOST_POINT), 0)?;
    end(parts, at)?;
    Ok(Pdu::RestartResponse {
        point: point as u32,
    })
}

#[tactic(auto, unfolding(crate::specs::PduRows::row_of))]
fn write_restart_response(alloc: Global, pdu: &Pdu) -> Result<Values, NoMemory>
    requires { number_of pdu.now ≡ 40 }
    ensures { IfOk result (λ made. made ≡ parts_put pdu.now) }
{
    let Pdu::RestartResponse { point } = pdu else {
        unreachable!()
    };
    let mut parts = Values::new(alloc);
    put_integer_or(alloc, &mut parts, 0, 0, i64::from(*point))?;
    Ok(parts)
}
