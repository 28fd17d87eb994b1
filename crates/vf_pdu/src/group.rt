//! The PDUs of groups and recovery, numbers 22 to 27: read, looked at, written and copied.
ghost use Rattle.std.specs.Prelude.{◌≡◌, ◌≤◌, ◌<◌, ◌^◌, false, IfOk, OnOk, Some, length};
ghost use Rattle.vf_ber.specs.Views.{trees_in};
ghost use Rattle.vf_pdu_fields.specs.Content.{Truth};
ghost use Rattle.vf_pdu_fields.specs.Rows.{Boolean, default, int, one, or, point as point_form};
ghost use Rattle.vf_pdu_fields.specs.Slots.{num};
ghost use Rattle.vf_pdu_fields.specs.Writing.{◌▸◌, part_of};
ghost use Rattle.vf_pdu.specs.PduGroup.{begin_group_request, recover_request, recover_response};
ghost use Rattle.vf_pdu_fields.specs.InRange.{slots_fit};
ghost use Rattle.vf_pdu.specs.PduMeaning.{IsInRange};
ghost use Rattle.vf_pdu.specs.PduNumbers.{number_of};
ghost use Rattle.vf_pdu.specs.PduResults.{Reads};
ghost use Rattle.vf_pdu.specs.PduRows.{row_of};
ghost use Rattle.vf_pdu.specs.PduSlots.{slots_of};
ghost use Rattle.vf_pdu.specs.PduValue.{parts_put};

use crate::Pdu;
use std::alloc::Global;
use vf_base::NoMemory;
use vf_ber::{Value, Values};
use vf_pdu_fields::{
    MOST_ACTIVITY, MOST_POINT, PduError, boolean_or, end, is_within, maybe_within, natural,
    natural_or, put_boolean_or, put_integer, put_integer_or, put_maybe_natural, small,
};
use vf_pdu_parameters::{is_parameter, optional_parameter, put_diagnostic};

/// The PDU of this number, of 22 to 27, whose fields these parts have.
#[tactic(auto, unfolding(crate::specs::PduRows::row_of))]
pub(crate) fn read_group(alloc: Global, number: u16, parts: &[Value]) -> Result<Pdu, PduError>
    requires few { length parts.now < 2 ^ 32 }
    requires from { 22 ≤ number }
    requires to { number ≤ 27 }
    ensures { Reads number (row_of number) (trees_in parts.now) result }
{
    match number {
        22 => read_begin_group_request(parts),
        23 => {
            end(parts, 0)?;
            Ok(Pdu::BeginGroupResponse)
        }
        24 => {
            end(parts, 0)?;
            Ok(Pdu::EndGroupRequest)
        }
        25 => {
            end(parts, 0)?;
            Ok(Pdu::EndGroupResponse)
        }
        26 => read_recover_request(parts),
        _ => return read_recover_response(alloc, parts),
    }
}

/// The fields of a PDU of these numbers, in the range of its row.
#[tactic(auto, unfolding(crate::specs::PduRows::row_of))]
pub(crate) fn write_group(alloc: Global, pdu: &Pdu) -> Result<Values, NoMemory>
    requires range { IsInRange pdu.now }
    requires from { 22 ≤ number_of pdu.now }
    requires to { number_of pdu.now ≤ 27 }
    ensures { IfOk result (λ made. made ≡ parts_put pdu.now) }
{
    match pdu {
        Pdu::BeginGroupRequest { .. } => write_begin_group_request(alloc, pdu),
        Pdu::RecoverRequest { .. } => write_recover_request(alloc, pdu),
        Pdu::RecoverResponse { .. } => write_recover_response(alloc, pdu),
        Pdu::BeginGroupResponse | Pdu::EndGroupRequest | Pdu::EndGroupResponse => Ok(Values::new(
            alloc,
        )),
        _ => unreachable!(),
    }
}

/// Whether each field of a PDU of these numbers is in the range of its row.
#[tactic(auto, using(vf_pdu_fields::proofs::InRange::in_range), unfolding(crate::specs::PduRows::row_of))]
pub(crate) fn is_group_in_range(pdu: &Pdu) -> bool
    requires from { 22 ≤ number_of pdu.now }
    requires to { number_of pdu.now ≤ 27 }
    ensures { result ≡ slots_fit (row_of (number_of pdu.now)) (slots_of pdu.now) }
{
    match pdu {
        Pdu::BeginGroupRequest { threshold } => { is_within(u64::from(*threshold), 1, 16) }
        Pdu::RecoverRequest {
            activity,
            number,
            point,
        } => {
            is_within(u64::from(*activity), 1, u64::from(MOST_ACTIVITY))
                && is_within(u64::from(*number), 1, u64::from(MOST_POINT))
                && is_within(u64::from(*point), 0, u64::from(MOST_POINT))
        }
        Pdu::RecoverResponse {
            diagnostic,
            number,
            point,
            last,
            ..
        } => {
            is_parameter(diagnostic)
                && maybe_within(*number, 1, u64::from(MOST_POINT) + 1)
                && is_within(u64::from(*point), 0, u64::from(MOST_POINT))
                && is_within(u64::from(*last), 0, 65_535)
        }
        Pdu::BeginGroupResponse | Pdu::EndGroupRequest | Pdu::EndGroupResponse => true,
        _ => unreachable!(),
    }
}

/// The same PDU of these numbers.
pub(crate) fn copy_group(pdu: &Pdu) -> Pdu
    requires from { 22 ≤ number_of pdu.now }
    requires to { number_of pdu.now ≤ 27 }
    ensures { result ≡ pdu.now }
{
    match pdu {
        Pdu::BeginGroupRequest { threshold } => Pdu::BeginGroupRequest {
            threshold: *threshold,
        },
        Pdu::BeginGroupResponse => Pdu::BeginGroupResponse,
        Pdu::EndGroupRequest => Pdu::EndGroupRequest,
        Pdu::EndGroupResponse => Pdu::EndGroupResponse,
        Pdu::RecoverRequest {
            activity,
            number,
            point,
        } => Pdu::RecoverRequest {
            activity: *activity,
            number: *number,
            point: *point,
        },
        Pdu::RecoverResponse {
            diagnostic,
            number,
            point,
            moving,
            last,
        } => Pdu::RecoverResponse {
            diagnostic: *diagnostic,
            number: *number,
            point: *point,
            moving: *moving,
            last: *last,
        },
        _ => unreachable!(),
    }
}

fn read_begin_group_request(parts: &[Value]) -> Result<Pdu, PduError>
    requires { length parts.now < 2 ^ 32 }
    ensures { Reads 22 begin_group_request (trees_in parts.now) result }
{
    let mut at = 0;
    let threshold = natural(parts, &mut at, 0, 1, 16)?;
    end(parts, at)?;
    let Some(threshold) = threshold else {
        return Err(PduError::Missing { field: 0 });
    };
    Ok(Pdu::BeginGroupRequest {
        threshold: threshold as u8,
    })
}

#[tactic(auto, unfolding(crate::specs::PduRows::row_of))]
fn write_begin_group_request(alloc: Global, pdu: &Pdu) -> Result<Values, NoMemory>
    requires { number_of pdu.now ≡ 22 }
    ensures { IfOk result (λ made. made ≡ parts_put pdu.now) }
{
    let Pdu::BeginGroupRequest { threshold } = pdu else {
        unreachable!()
    };
    let mut parts = Values::new(alloc);
    put_integer(alloc, &mut parts, 0, i64::from(*threshold))?;
    Ok(parts)
}

fn read_recover_request(parts: &[Value]) -> Result<Pdu, PduError>
    requires { length parts.now < 2 ^ 32 }
    ensures { Reads 26 recover_request (trees_in parts.now) result }
{
    let mut at = 0;
    let activity = natural(parts, &mut at, 0, 1, u64::from(MOST_ACTIVITY))?;
    let number = natural(parts, &mut at, 1, 1, u64::from(MOST_POINT))?;
    let point = natural_or(parts, &mut at, 2, 0, u64::from(MOST_POINT), 0)?;
    end(parts, at)?;
    let Some(activity) = activity else {
        return Err(PduError::Missing { field: 0 });
    };
    let Some(number) = number else {
        return Err(PduError::Missing { field: 1 });
    };
    Ok(Pdu::RecoverRequest {
        activity: activity as u32,
        number: number as u32,
        point: point as u32,
    })
}

#[tactic(auto, unfolding(crate::specs::PduRows::row_of))]
fn write_recover_request(alloc: Global, pdu: &Pdu) -> Result<Values, NoMemory>
    requires { number_of pdu.now ≡ 26 }
    ensures { IfOk result (λ made. made ≡ parts_put pdu.now) }
{
    let Pdu::RecoverRequest {
        activity,
        number,
        point,
    } = pdu
    else {
        unreachable!()
    };
    let mut parts = Values::new(alloc);
    put_integer(alloc, &mut parts, 0, i64::from(*activity))?;
    put_integer(alloc, &mut parts, 1, i64::from(*number))?;
    put_integer_or(alloc, &mut parts, 2, 0, i64::from(*point))?;
    Ok(parts)
}

fn read_recover_response(alloc: Global, parts: &[Value]) -> Result<Pdu, PduError>
    requires { length parts.now < 2 ^ 32 }
    ensures { Reads 27 recover_response (trees_in parts.now) result }
{
    let mut at = 0;
    let diagnostic = optional_parameter(alloc, parts, &mut at, 0)?;
    let number = natural(parts, &mut at, 1, 1, u64::from(MOST_POINT) + 1)?;
    let point = natural_or(parts, &mut at, 2, 0, u64::from(MOST_POINT), 0)?;
    let moving = boolean_or(parts, &mut at, 3, false)?;
    let last = natural_or(parts, &mut at, 4, 0, 65_535, 0)?;
    end(parts, at)?;
    Ok(Pdu::RecoverResponse {
        diagnostic,
        number: small(number),
        point: point as u32,
        moving,
        last: last as u16,
    })
}

#[tactic(auto, unfolding(crate::specs::PduRows::row_of))]
fn write_recover_response(alloc: Global, pdu: &Pdu) -> Result<Values, NoMemory>
    requires { number_of pdu.now ≡ 27 }
    ensures { IfOk result (λ made. made ≡ parts_put pdu.now) }
{
    let Pdu::RecoverResponse {
        diagnostic,
        number,
        point,
        moving,
        last,
    } = pdu
    else {
        unreachable!()
    };
    let mut parts = Values::new(alloc);
    put_diagnostic(alloc, &mut parts, 0, diagnostic)?;
    put_maybe_natural(alloc, &mut parts, 1, *number)?;
    put_progress(alloc, &mut parts, *point, *moving, *last)?;
    Ok(parts)
}

/// How far the transfer has come: the last three fields.
fn put_progress(
    alloc: Global,
    parts: &mut Values,
    point: u32,
    moving: bool,
    last: u16,
) -> Result<(), NoMemory>
    ensures { OnOk result (parts.new ≡ parts.old ▸ part_of 2 point_form (or 0) (num point) ▸ part_of 3 (one Boolean) (default (Truth false)) (Some (Truth moving)) ▸ part_of 4 (int 0 65535) (or 0) (num last)) }
{
    put_integer_or(alloc, parts, 2, 0, i64::from(point))?;
    put_boolean_or(alloc, parts, 3, false, moving)?;
    put_integer_or(alloc, parts, 4, 0, i64::from(last))?;
    Ok(())
}
