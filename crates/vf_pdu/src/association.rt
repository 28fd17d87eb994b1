//! The PDUs of associations and aborts, numbers 0 to 5: read, looked at, written and copied.
ghost use Rattle.std.specs.Prelude.{◌≡◌, ◌≤◌, ◌<◌, ◌^◌, IfOk, length};
ghost use Rattle.vf_ber.specs.Views.{trees_in};
ghost use Rattle.vf_pdu.specs.PduAssociation.{initialize_request, initialize_response, user_abort, provider_abort};
ghost use Rattle.vf_pdu_fields.specs.InRange.{slots_fit};
ghost use Rattle.vf_pdu.specs.PduMeaning.{IsInRange};
ghost use Rattle.vf_pdu.specs.PduNumbers.{number_of};
ghost use Rattle.vf_pdu.specs.PduResults.{Reads};
ghost use Rattle.vf_pdu.specs.PduRows.{row_of};
ghost use Rattle.vf_pdu.specs.PduSlots.{slots_of};
ghost use Rattle.vf_pdu.specs.PduValue.{parts_put};

use crate::Pdu;
use std::alloc::Global;
use vf_base::{NoMemory, copy_option};
use vf_ber::{Value, Values};
use vf_pdu_fields::{
    MOST_PLACE, PduError, end, is_within, maybe_in_range, natural, natural_or, optional,
    put_integer, put_integer_or, put_maybe_string, put_maybe_text,
};
use vf_pdu_parameters::{is_parameter, optional_parameter, put_diagnostic};

/// The PDU of this number, of 0 to 5, whose fields these parts have.
#[tactic(auto, unfolding(crate::specs::PduRows::row_of))]
pub(crate) fn read_association(alloc: Global, number: u16, parts: &[Value]) -> Result<Pdu, PduError>
    requires few { length parts.now < 2 ^ 32 }
    requires to { number ≤ 5 }
    ensures { Reads number (row_of number) (trees_in parts.now) result }
{
    match number {
        0 => return read_initialize_request(alloc, parts),
        1 => return read_initialize_response(alloc, parts),
        2 => {
            end(parts, 0)?;
            Ok(Pdu::TerminateRequest)
        }
        3 => {
            end(parts, 0)?;
            Ok(Pdu::TerminateResponse)
        }
        4 => read_user_abort(parts),
        _ => read_provider_abort(parts),
    }
}

/// The fields of a PDU of these numbers, in the range of its row.
#[tactic(auto, unfolding(crate::specs::PduRows::row_of))]
pub(crate) fn write_association(alloc: Global, pdu: &Pdu) -> Result<Values, NoMemory>
    requires range { IsInRange pdu.now }
    requires to { number_of pdu.now ≤ 5 }
    ensures { IfOk result (λ made. made ≡ parts_put pdu.now) }
{
    match pdu {
        Pdu::InitializeRequest { .. } => write_initialize_request(alloc, pdu),
        Pdu::InitializeResponse { .. } => write_initialize_response(alloc, pdu),
        Pdu::UserAbort { .. } => write_user_abort(alloc, pdu),
        Pdu::ProviderAbort { .. } => write_provider_abort(alloc, pdu),
        Pdu::TerminateRequest | Pdu::TerminateResponse => Ok(Values::new(alloc)),
        _ => unreachable!(),
    }
}

/// Whether each field of a PDU of these numbers is in the range of its row.
#[tactic(auto, using(vf_pdu_fields::proofs::InRange::in_range), unfolding(crate::specs::PduRows::row_of))]
pub(crate) fn is_association_in_range(pdu: &Pdu) -> bool
    requires to { number_of pdu.now ≤ 5 }
    ensures { result ≡ slots_fit (row_of (number_of pdu.now)) (slots_of pdu.now) }
{
    match pdu {
        Pdu::InitializeRequest {
            units,
            identity,
            password,
            window,
        } => {
            is_within(u64::from(*units), 0, 65_535)
                && maybe_in_range(identity)
                && maybe_in_range(password)
                && is_within(u64::from(*window), 1, 65_535)
        }
        Pdu::InitializeResponse {
            diagnostic,
            units,
            window,
        } => {
            is_parameter(diagnostic)
                && is_within(u64::from(*units), 0, 65_535)
                && is_within(u64::from(*window), 1, 65_535)
        }
        Pdu::UserAbort { number } => { is_within(u64::from(*number), 0, 65_535) }
        Pdu::ProviderAbort { number, place } => {
            is_within(u64::from(*number), 0, 65_535) && is_within(*place, 0, MOST_PLACE)
        }
        Pdu::TerminateRequest | Pdu::TerminateResponse => true,
        _ => unreachable!(),
    }
}

/// The same PDU of these numbers.
pub(crate) fn copy_association(alloc: Global, pdu: &Pdu) -> Result<Pdu, NoMemory>
    requires { number_of pdu.now ≤ 5 }
    ensures { IfOk result (λ made. made ≡ pdu.now) }
{
    match pdu {
        Pdu::InitializeRequest {
            units,
            identity,
            password,
            window,
        } => {
            let identity = copy_option(alloc, identity)?;
            let password = copy_option(alloc, password)?;
            Ok(Pdu::InitializeRequest {
                units: *units,
                identity,
                password,
                window: *window,
            })
        }
        Pdu::InitializeResponse {
            diagnostic,
            units,
            window,
        } => Ok(Pdu::InitializeResponse {
            diagnostic: *diagnostic,
            units: *units,
            window: *window,
        }),
        Pdu::TerminateRequest => Ok(Pdu::TerminateRequest),
        Pdu::TerminateResponse => Ok(Pdu::TerminateResponse),
        Pdu::UserAbort { number } => Ok(Pdu::UserAbort { number: *number }),
        Pdu::ProviderAbort { number, place } => Ok(Pdu::ProviderAbort {
            number: *number,
            place: *place,
        }),
        _ => unreachable!(),
    }
}

fn read_initialize_request(alloc: Global, parts: &[Value]) -> Result<Pdu, PduError>
    requires { length parts.now < 2 ^ 32 }
    ensures { Reads 0 initialize_request (trees_in parts.now) result }
{
    let mut at = 0;
    let units = natural(parts, &mut at, 0, 0, 65_535)?;
    let identity = optional(alloc, parts, &mut at, 1)?;
    let password = optional(alloc, parts, &mut at, 2)?;
    let window = natural_or(parts, &mut at, 3, 1, 65_535, 1)?;
    end(parts, at)?;
    let Some(units) = units else {
        return Err(PduError::Missing { field: 0 });
    };
    Ok(Pdu::InitializeRequest {
        units: units as u16,
        identity,
        password,
        window: window as u16,
    })
}

#[tactic(auto, unfolding(crate::specs::PduRows::row_of))]
fn write_initialize_request(alloc: Global, pdu: &Pdu) -> Result<Values, NoMemory>
    requires { number_of pdu.now ≡ 0 }
    ensures { IfOk result (λ made. made ≡ parts_put pdu.now) }
{
    let Pdu::InitializeRequest {
        units,
        identity,
        password,
        window,
    } = pdu
    else {
        unreachable!()
    };
    let mut parts = Values::new(alloc);
    put_integer(alloc, &mut parts, 0, i64::from(*units))?;
    put_maybe_text(alloc, &mut parts, 1, identity)?;
    put_maybe_string(alloc, &mut parts, 2, password)?;
    put_integer_or(alloc, &mut parts, 3, 1, i64::from(*window))?;
    Ok(parts)
}

fn read_initialize_response(alloc: Global, parts: &[Value]) -> Result<Pdu, PduError>
    requires { length parts.now < 2 ^ 32 }
    ensures { Reads 1 initialize_response (trees_in parts.now) result }
{
    let mut at = 0;
    let diagnostic = optional_parameter(alloc, parts, &mut at, 0)?;
    let units = natural_or(parts, &mut at, 1, 0, 65_535, 0)?;
    let window = natural_or(parts, &mut at, 2, 1, 65_535, 1)?;
    end(parts, at)?;
    Ok(Pdu::InitializeResponse {
        diagnostic,
        units: units as u16,
        window: window as u16,
    })
}

#[tactic(auto, unfolding(crate::specs::PduRows::row_of))]
fn write_initialize_response(alloc: Global, pdu: &Pdu) -> Result<Values, NoMemory>
    requires { number_of pdu.now ≡ 1 }
    ensures { IfOk result (λ made. made ≡ parts_put pdu.now) }
{
    let Pdu::InitializeResponse {
        diagnostic,
        units,
        window,
    } = pdu
    else {
        unreachable!()
    };
    let mut parts = Values::new(alloc);
    put_diagnostic(alloc, &mut parts, 0, diagnostic)?;
    put_integer_or(alloc, &mut parts, 1, 0, i64::from(*units))?;
    put_integer_or(alloc, &mut parts, 2, 1, i64::from(*window))?;
    Ok(parts)
}

fn read_user_abort(parts: &[Value]) -> Result<Pdu, PduError>
    requires { length parts.now < 2 ^ 32 }
    ensures { Reads 4 user_abort (trees_in parts.now) result }
{
    let mut at = 0;
    let number = natural_or(parts, &mut at, 0, 0, 65_535, 0)?;
    end(parts, at)?;
    Ok(Pdu::UserAbort {
        number: number as u16,
    })
}

#[tactic(auto, unfolding(crate::specs::PduRows::row_of))]
fn write_user_abort(alloc: Global, pdu: &Pdu) -> Result<Values, NoMemory>
    requires { number_of pdu.now ≡ 4 }
    ensures { IfOk result (λ made. made ≡ parts_put pdu.now) }
{
    let Pdu::UserAbort { number } = pdu else {
        unreachable!()
    };
    let mut parts = Values::new(alloc);
    put_integer_or(alloc, &mut parts, 0, 0, i64::from(*number))?;
    Ok(parts)
}

fn read_provider_abort(parts: &[Value]) -> Result<Pdu, PduError>
    requires { length parts.now < 2 ^ 32 }
    ensures { Reads 5 provider_abort (trees_in parts.now) result }
{
    let mut at = 0;
    let number = natural(parts, &mut at, 0, 0, 65_535)?;
    let place = natural_or(parts, &mut at, 1, 0, MOST_PLACE, 0)?;
    end(parts, at)?;
    let Some(number) = number else {
        return Err(PduError::Missing { field: 0 });
    };
    Ok(Pdu::ProviderAbort {
        number: number as u16,
        place,
    })
}

#[tactic(auto, using(crate::proofs::Ranges::place_is), unfolding(crate::specs::PduRows::row_of))]
fn write_provider_abort(alloc: Global, pdu: &Pdu) -> Result<Values, NoMemory>
    requires range { IsInRange pdu.now }
    requires number { number_of pdu.now ≡ 5 }
    ensures { IfOk result (λ made. made ≡ parts_put pdu.now) }
{
    let Pdu::ProviderAbort { number, place } = pdu else {
        unreachable!()
    };
    let mut parts = Values::new(alloc);
    put_integer(alloc, &mut parts, 0, i64::from(*number))?;
    put_integer_or(alloc, &mut parts, 1, 0, *place as i64)?;
    Ok(parts)
}
