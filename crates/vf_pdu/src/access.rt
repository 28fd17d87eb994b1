//! The PDUs of access to the contents, numbers 28 to 33: read, looked at, written and copied.
ghost use Rattle.std.specs.Prelude.{◌≡◌, ◌≤◌, ◌<◌, ◌^◌, IfOk, length};
ghost use Rattle.vf_ber.specs.Views.{trees_in};
ghost use Rattle.vf_pdu.specs.PduAccess.{locate_request, locate_response, erase_request, read_request, write_request};
ghost use Rattle.vf_pdu_fields.specs.InRange.{slots_fit};
ghost use Rattle.vf_pdu.specs.PduMeaning.{IsInRange};
ghost use Rattle.vf_pdu.specs.PduNumbers.{number_of};
ghost use Rattle.vf_pdu.specs.PduResults.{Reads};
ghost use Rattle.vf_pdu.specs.PduRows.{row_of};
ghost use Rattle.vf_pdu.specs.PduSlots.{slots_of};
ghost use Rattle.vf_pdu.specs.PduValue.{parts_put};

use crate::Pdu;
use crate::read::answer;
use crate::write::write_answer;
use std::alloc::Global;
use vf_base::NoMemory;
use vf_ber::{Value, Values};
use vf_pdu_fields::{
    PduError, context_of, end, fadu, fadu_or_begin, is_fadu, is_within, natural, natural_or,
    operation_of, put_context_or_ua, put_fadu, put_fadu_or_begin, put_integer_or, put_operation,
};
use vf_pdu_parameters::{is_parameter, optional_parameter, put_diagnostic};

/// The PDU of this number, of 28 to 33, whose fields these parts have.
#[tactic(auto, unfolding(crate::specs::PduRows::row_of))]
pub(crate) fn read_access(alloc: Global, number: u16, parts: &[Value]) -> Result<Pdu, PduError>
    requires few { length parts.now < 2 ^ 32 }
    requires from { 28 ≤ number }
    requires to { number ≤ 33 }
    ensures { Reads number (row_of number) (trees_in parts.now) result }
{
    match number {
        28 => read_locate_request(parts),
        29 => return read_locate_response(alloc, parts),
        30 => read_erase_request(parts),
        31 => {
            let diagnostic = answer(alloc, parts)?;
            Ok(Pdu::EraseResponse { diagnostic })
        }
        32 => read_read_request(parts),
        _ => read_write_request(parts),
    }
}

/// The fields of a PDU of these numbers, in the range of its row.
#[tactic(auto, unfolding(crate::specs::PduRows::row_of))]
pub(crate) fn write_access(alloc: Global, pdu: &Pdu) -> Result<Values, NoMemory>
    requires range { IsInRange pdu.now }
    requires from { 28 ≤ number_of pdu.now }
    requires to { number_of pdu.now ≤ 33 }
    ensures { IfOk result (λ made. made ≡ parts_put pdu.now) }
{
    match pdu {
        Pdu::LocateRequest { .. } => write_locate_request(alloc, pdu),
        Pdu::LocateResponse { .. } => write_locate_response(alloc, pdu),
        Pdu::EraseRequest { .. } => write_erase_request(alloc, pdu),
        Pdu::ReadRequest { .. } => write_read_request(alloc, pdu),
        Pdu::WriteRequest { .. } => write_write_request(alloc, pdu),
        Pdu::EraseResponse { diagnostic } => write_answer(alloc, diagnostic),
        _ => unreachable!(),
    }
}

/// Whether each field of a PDU of these numbers is in the range of its row.
#[tactic(auto, using(vf_pdu_fields::proofs::InRange::in_range), unfolding(crate::specs::PduRows::row_of))]
pub(crate) fn is_access_in_range(pdu: &Pdu) -> bool
    requires from { 28 ≤ number_of pdu.now }
    requires to { number_of pdu.now ≤ 33 }
    ensures { result ≡ slots_fit (row_of (number_of pdu.now)) (slots_of pdu.now) }
{
    match pdu {
        Pdu::LocateRequest { fadu } => { is_fadu(*fadu) }
        Pdu::LocateResponse {
            diagnostic,
            position,
        } => { is_parameter(diagnostic) && is_within(u64::from(*position), 0, u64::from(u32::MAX)) }
        Pdu::EraseRequest { fadu } => { is_fadu(*fadu) }
        Pdu::ReadRequest { fadu, .. } => { is_fadu(*fadu) }
        Pdu::WriteRequest { fadu, .. } => { is_fadu(*fadu) }
        Pdu::EraseResponse { diagnostic } => is_parameter(diagnostic),
        _ => unreachable!(),
    }
}

/// The same PDU of these numbers.
pub(crate) fn copy_access(pdu: &Pdu) -> Pdu
    requires from { 28 ≤ number_of pdu.now }
    requires to { number_of pdu.now ≤ 33 }
    ensures { result ≡ pdu.now }
{
    match pdu {
        Pdu::LocateRequest { fadu } => Pdu::LocateRequest { fadu: *fadu },
        Pdu::LocateResponse {
            diagnostic,
            position,
        } => Pdu::LocateResponse {
            diagnostic: *diagnostic,
            position: *position,
        },
        Pdu::EraseRequest { fadu } => Pdu::EraseRequest { fadu: *fadu },
        Pdu::EraseResponse { diagnostic } => Pdu::EraseResponse {
            diagnostic: *diagnostic,
        },
        Pdu::ReadRequest { fadu, context } => Pdu::ReadRequest {
            fadu: *fadu,
            context: *context,
        },
        Pdu::WriteRequest { operation, fadu } => Pdu::WriteRequest {
            operation: *operation,
            fadu: *fadu,
        },
        _ => unreachable!(),
    }
}

fn read_locate_request(parts: &[Value]) -> Result<Pdu, PduError>
    requires { length parts.now < 2 ^ 32 }
    ensures { Reads 28 locate_request (trees_in parts.now) result }
{
    let mut at = 0;
    let fadu = fadu(parts, &mut at, 0)?;
    end(parts, at)?;
    let Some(fadu) = fadu else {
        return Err(PduError::Missing { field: 0 });
    };
    Ok(Pdu::LocateRequest { fadu })
}

#[tactic(auto, using(crate::proofs::Ranges::units), unfolding(crate::specs::PduRows::row_of))]
fn write_locate_request(alloc: Global, pdu: &Pdu) -> Result<Values, NoMemory>
    requires range { IsInRange pdu.now }
    requires number { number_of pdu.now ≡ 28 }
    ensures { IfOk result (λ made. made ≡ parts_put pdu.now) }
{
    let Pdu::LocateRequest { fadu } = pdu else {
        unreachable!()
    };
    let mut parts = Values::new(alloc);
    put_fadu(alloc, &mut parts, 0, *fadu)?;
    Ok(parts)
}

fn read_locate_response(alloc: Global, parts: &[Value]) -> Result<Pdu, PduError>
    requires { length parts.now < 2 ^ 32 }
    ensures { Reads 29 locate_response (trees_in parts.now) result }
{
    let mut at = 0;
    let diagnostic = optional_parameter(alloc, parts, &mut at, 0)?;
    let position = natural_or(parts, &mut at, 1, 0, u64::from(u32::MAX), 0)?;
    end(parts, at)?;
    Ok(Pdu::LocateResponse {
        diagnostic,
        position: position as u32,
    })
}

#[tactic(auto, unfolding(crate::specs::PduRows::row_of))]
fn write_locate_response(alloc: Global, pdu: &Pdu) -> Result<Values, NoMemory>
    requires { number_of pdu.now ≡ 29 }
    ensures { IfOk result (λ made. made ≡ parts_put pdu.now) }
{
    let Pdu::LocateResponse {
        diagnostic,
        position,
    } = pdu
    else {
        unreachable!()
    };
    let mut parts = Values::new(alloc);
    put_diagnostic(alloc, &mut parts, 0, diagnostic)?;
    put_integer_or(alloc, &mut parts, 1, 0, i64::from(*position))?;
    Ok(parts)
}

fn read_erase_request(parts: &[Value]) -> Result<Pdu, PduError>
    requires { length parts.now < 2 ^ 32 }
    ensures { Reads 30 erase_request (trees_in parts.now) result }
{
    let mut at = 0;
    let fadu = fadu_or_begin(parts, &mut at, 0)?;
    end(parts, at)?;
    Ok(Pdu::EraseRequest { fadu })
}

#[tactic(auto, using(crate::proofs::Ranges::units), unfolding(crate::specs::PduRows::row_of))]
fn write_erase_request(alloc: Global, pdu: &Pdu) -> Result<Values, NoMemory>
    requires range { IsInRange pdu.now }
    requires number { number_of pdu.now ≡ 30 }
    ensures { IfOk result (λ made. made ≡ parts_put pdu.now) }
{
    let Pdu::EraseRequest { fadu } = pdu else {
        unreachable!()
    };
    let mut parts = Values::new(alloc);
    put_fadu_or_begin(alloc, &mut parts, 0, *fadu)?;
    Ok(parts)
}

fn read_read_request(parts: &[Value]) -> Result<Pdu, PduError>
    requires { length parts.now < 2 ^ 32 }
    ensures { Reads 32 read_request (trees_in parts.now) result }
{
    let mut at = 0;
    let fadu = fadu_or_begin(parts, &mut at, 0)?;
    let context = natural_or(parts, &mut at, 1, 0, 3, 2)?;
    end(parts, at)?;
    Ok(Pdu::ReadRequest {
        fadu,
        context: context_of(context),
    })
}

#[tactic(auto, using(crate::proofs::Ranges::units), unfolding(crate::specs::PduRows::row_of))]
fn write_read_request(alloc: Global, pdu: &Pdu) -> Result<Values, NoMemory>
    requires range { IsInRange pdu.now }
    requires number { number_of pdu.now ≡ 32 }
    ensures { IfOk result (λ made. made ≡ parts_put pdu.now) }
{
    let Pdu::ReadRequest { fadu, context } = pdu else {
        unreachable!()
    };
    let mut parts = Values::new(alloc);
    put_fadu_or_begin(alloc, &mut parts, 0, *fadu)?;
    put_context_or_ua(alloc, &mut parts, 1, *context)?;
    Ok(parts)
}

fn read_write_request(parts: &[Value]) -> Result<Pdu, PduError>
    requires { length parts.now < 2 ^ 32 }
    ensures { Reads 33 write_request (trees_in parts.now) result }
{
    let mut at = 0;
    let operation = natural(parts, &mut at, 0, 1, 3)?;
    let fadu = fadu_or_begin(parts, &mut at, 1)?;
    end(parts, at)?;
    let Some(operation) = operation else {
        return Err(PduError::Missing { field: 0 });
    };
    Ok(Pdu::WriteRequest {
        operation: operation_of(operation),
        fadu,
    })
}

#[tactic(auto, using(crate::proofs::Ranges::units), unfolding(crate::specs::PduRows::row_of))]
fn write_write_request(alloc: Global, pdu: &Pdu) -> Result<Values, NoMemory>
    requires range { IsInRange pdu.now }
    requires number { number_of pdu.now ≡ 33 }
    ensures { IfOk result (λ made. made ≡ parts_put pdu.now) }
{
    let Pdu::WriteRequest { operation, fadu } = pdu else {
        unreachable!()
    };
    let mut parts = Values::new(alloc);
    put_operation(alloc, &mut parts, 0, *operation)?;
    put_fadu_or_begin(alloc, &mut parts, 1, *fadu)?;
    Ok(parts)
}
