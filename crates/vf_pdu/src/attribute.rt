//! The PDUs of attributes and opens, numbers 14 to 21: read, looked at, written and copied.
ghost use Rattle.std.specs.Prelude.{◌≡◌, ◌≤◌, ◌<◌, ◌^◌, IfOk, length};
ghost use Rattle.vf_ber.specs.Views.{trees_in};
ghost use Rattle.vf_pdu_fields.specs.Rows.{int, optional as maybe_absent};
ghost use Rattle.vf_pdu_fields.specs.Slots.{maybe_actions};
ghost use Rattle.vf_pdu.specs.PduAttribute.{read_attrib_request, read_attrib_response, change_attrib_request, open_request, open_response};
ghost use Rattle.vf_pdu_fields.specs.InRange.{slot_fits, slots_fit};
ghost use Rattle.vf_pdu.specs.PduMeaning.{IsInRange};
ghost use Rattle.vf_pdu.specs.PduNumbers.{number_of};
ghost use Rattle.vf_pdu.specs.PduResults.{Reads};
ghost use Rattle.vf_pdu.specs.PduRows.{row_of};
ghost use Rattle.vf_pdu.specs.PduSlots.{slots_of};
ghost use Rattle.vf_pdu.specs.PduValue.{parts_put};

use crate::read::answer;
use crate::write::write_answer;
use crate::{Boxed, Pdu};
use std::alloc::Global;
use vf_base::{Actions, NoMemory, copy_option};
use vf_ber::{Value, Values};
use vf_pdu_fields::{
    MOST_ACTIVITY, PduError, actions_of, end, is_within, maybe_in_range, maybe_within, natural,
    natural_or, optional, put_content_controls, put_integer, put_integer_or, put_maybe_actions,
    put_maybe_natural, put_maybe_text, small,
};
use vf_pdu_parameters::{
    is_parameter, optional_parameter, put_diagnostic, put_maybe_attributes, put_maybe_contents,
    put_maybe_list,
};

/// The PDU of this number, of 14 to 21, whose fields these parts have.
#[tactic(auto, unfolding(crate::specs::PduRows::row_of))]
pub(crate) fn read_attribute(alloc: Global, number: u16, parts: &[Value]) -> Result<Pdu, PduError>
    requires few { length parts.now < 2 ^ 32 }
    requires from { 14 ≤ number }
    requires to { number ≤ 21 }
    ensures { Reads number (row_of number) (trees_in parts.now) result }
{
    match number {
        14 => read_read_attrib_request(parts),
        15 => return read_read_attrib_response(alloc, parts),
        16 => return read_change_attrib_request(alloc, parts),
        17 => {
            let diagnostic = answer(alloc, parts)?;
            Ok(Pdu::ChangeAttribResponse { diagnostic })
        }
        18 => return read_open_request(alloc, parts),
        19 => return read_open_response(alloc, parts),
        20 => {
            end(parts, 0)?;
            Ok(Pdu::CloseRequest)
        }
        _ => {
            let diagnostic = answer(alloc, parts)?;
            Ok(Pdu::CloseResponse { diagnostic })
        }
    }
}

/// The fields of a PDU of these numbers, in the range of its row.
#[tactic(auto, unfolding(crate::specs::PduRows::row_of))]
pub(crate) fn write_attribute(alloc: Global, pdu: &Pdu) -> Result<Values, NoMemory>
    requires range { IsInRange pdu.now }
    requires from { 14 ≤ number_of pdu.now }
    requires to { number_of pdu.now ≤ 21 }
    ensures { IfOk result (λ made. made ≡ parts_put pdu.now) }
{
    match pdu {
        Pdu::ReadAttribRequest { .. } => write_read_attrib_request(alloc, pdu),
        Pdu::ReadAttribResponse { .. } => write_read_attrib_response(alloc, pdu),
        Pdu::ChangeAttribRequest { .. } => write_change_attrib_request(alloc, pdu),
        Pdu::OpenRequest { .. } => write_open_request(alloc, pdu),
        Pdu::OpenResponse { .. } => write_open_response(alloc, pdu),
        Pdu::ChangeAttribResponse { diagnostic } | Pdu::CloseResponse { diagnostic } =>
            write_answer(alloc, diagnostic),
        Pdu::CloseRequest => Ok(Values::new(alloc)),
        _ => unreachable!(),
    }
}

/// Whether each field of a PDU of these numbers is in the range of its row.
#[tactic(auto, using(vf_pdu_fields::proofs::InRange::in_range), unfolding(crate::specs::PduRows::row_of))]
pub(crate) fn is_attribute_in_range(pdu: &Pdu) -> bool
    requires from { 14 ≤ number_of pdu.now }
    requires to { number_of pdu.now ≤ 21 }
    ensures { result ≡ slots_fit (row_of (number_of pdu.now)) (slots_of pdu.now) }
{
    match pdu {
        Pdu::ReadAttribRequest { names } => { is_within(u64::from(*names), 0, 65_535) }
        Pdu::ReadAttribResponse {
            diagnostic,
            attributes,
        } => { is_parameter(diagnostic) && is_parameter(attributes.value()) }
        Pdu::ChangeAttribRequest {
            name,
            permitted,
            terms,
            others,
        } => {
            maybe_in_range(name)
                && are_actions(*permitted)
                && is_parameter(terms)
                && is_within(u64::from(*others), 0, 65_535)
        }
        Pdu::OpenRequest {
            mode,
            contents,
            controls,
            activity,
        } => {
            is_within(u64::from(*mode), 0, 31)
                && is_parameter(contents)
                && maybe_in_range(controls)
                && maybe_within(*activity, 1, u64::from(MOST_ACTIVITY))
        }
        Pdu::OpenResponse {
            diagnostic,
            contents,
        } => { is_parameter(diagnostic) && is_parameter(contents) }
        Pdu::ChangeAttribResponse { diagnostic } | Pdu::CloseResponse { diagnostic } =>
            is_parameter(diagnostic),
        Pdu::CloseRequest => true,
        _ => unreachable!(),
    }
}

/// The same PDU of these numbers.
pub(crate) fn copy_attribute(alloc: Global, pdu: &Pdu) -> Result<Pdu, NoMemory>
    requires from { 14 ≤ number_of pdu.now }
    requires to { number_of pdu.now ≤ 21 }
    ensures { IfOk result (λ made. made ≡ pdu.now) }
{
    match pdu {
        Pdu::ReadAttribRequest { names } => Ok(Pdu::ReadAttribRequest { names: *names }),
        Pdu::ReadAttribResponse {
            diagnostic,
            attributes,
        } => {
            let attributes = copy_option(alloc, attributes.value())?;
            let attributes = Boxed::new(alloc, attributes)?;
            Ok(Pdu::ReadAttribResponse {
                diagnostic: *diagnostic,
                attributes,
            })
        }
        Pdu::ChangeAttribRequest {
            name,
            permitted,
            terms,
            others,
        } => {
            let name = copy_option(alloc, name)?;
            let terms = copy_option(alloc, terms)?;
            Ok(Pdu::ChangeAttribRequest {
                name,
                permitted: *permitted,
                terms,
                others: *others,
            })
        }
        Pdu::ChangeAttribResponse { diagnostic } => Ok(Pdu::ChangeAttribResponse {
            diagnostic: *diagnostic,
        }),
        Pdu::OpenRequest {
            mode,
            contents,
            controls,
            activity,
        } => {
            let contents = copy_option(alloc, contents)?;
            Ok(Pdu::OpenRequest {
                mode: *mode,
                contents,
                controls: *controls,
                activity: *activity,
            })
        }
        Pdu::OpenResponse {
            diagnostic,
            contents,
        } => {
            let contents = copy_option(alloc, contents)?;
            Ok(Pdu::OpenResponse {
                diagnostic: *diagnostic,
                contents,
            })
        }
        Pdu::CloseRequest => Ok(Pdu::CloseRequest),
        Pdu::CloseResponse { diagnostic } => Ok(Pdu::CloseResponse {
            diagnostic: *diagnostic,
        }),
        _ => unreachable!(),
    }
}

fn read_read_attrib_request(parts: &[Value]) -> Result<Pdu, PduError>
    requires { length parts.now < 2 ^ 32 }
    ensures { Reads 14 read_attrib_request (trees_in parts.now) result }
{
    let mut at = 0;
    let names = natural(parts, &mut at, 0, 0, 65_535)?;
    end(parts, at)?;
    let Some(names) = names else {
        return Err(PduError::Missing { field: 0 });
    };
    Ok(Pdu::ReadAttribRequest {
        names: names as u16,
    })
}

#[tactic(auto, unfolding(crate::specs::PduRows::row_of))]
fn write_read_attrib_request(alloc: Global, pdu: &Pdu) -> Result<Values, NoMemory>
    requires { number_of pdu.now ≡ 14 }
    ensures { IfOk result (λ made. made ≡ parts_put pdu.now) }
{
    let Pdu::ReadAttribRequest { names } = pdu else {
        unreachable!()
    };
    let mut parts = Values::new(alloc);
    put_integer(alloc, &mut parts, 0, i64::from(*names))?;
    Ok(parts)
}

fn read_read_attrib_response(alloc: Global, parts: &[Value]) -> Result<Pdu, PduError>
    requires { length parts.now < 2 ^ 32 }
    ensures { Reads 15 read_attrib_response (trees_in parts.now) result }
{
    let mut at = 0;
    let diagnostic = optional_parameter(alloc, parts, &mut at, 0)?;
    let attributes = optional_parameter(alloc, parts, &mut at, 1)?;
    end(parts, at)?;
    let attributes = Boxed::new(alloc, attributes)?;
    Ok(Pdu::ReadAttribResponse {
        diagnostic,
        attributes,
    })
}

#[tactic(auto, unfolding(crate::specs::PduRows::row_of))]
fn write_read_attrib_response(alloc: Global, pdu: &Pdu) -> Result<Values, NoMemory>
    requires { number_of pdu.now ≡ 15 }
    ensures { IfOk result (λ made. made ≡ parts_put pdu.now) }
{
    let Pdu::ReadAttribResponse {
        diagnostic,
        attributes,
    } = pdu
    else {
        unreachable!()
    };
    let mut parts = Values::new(alloc);
    put_diagnostic(alloc, &mut parts, 0, diagnostic)?;
    put_maybe_attributes(alloc, &mut parts, 1, attributes.value())?;
    Ok(parts)
}

fn read_change_attrib_request(alloc: Global, parts: &[Value]) -> Result<Pdu, PduError>
    requires { length parts.now < 2 ^ 32 }
    ensures { Reads 16 change_attrib_request (trees_in parts.now) result }
{
    let mut at = 0;
    let name = optional(alloc, parts, &mut at, 0)?;
    let permitted = natural(parts, &mut at, 1, 0, 255)?;
    let terms = optional_parameter(alloc, parts, &mut at, 2)?;
    let others = natural_or(parts, &mut at, 3, 0, 65_535, 0)?;
    end(parts, at)?;
    Ok(Pdu::ChangeAttribRequest {
        name,
        permitted: actions_of(permitted),
        terms,
        others: others as u16,
    })
}

#[tactic(auto, unfolding(crate::specs::PduRows::row_of))]
fn write_change_attrib_request(alloc: Global, pdu: &Pdu) -> Result<Values, NoMemory>
    requires { number_of pdu.now ≡ 16 }
    ensures { IfOk result (λ made. made ≡ parts_put pdu.now) }
{
    let Pdu::ChangeAttribRequest {
        name,
        permitted,
        terms,
        others,
    } = pdu
    else {
        unreachable!()
    };
    let mut parts = Values::new(alloc);
    put_maybe_text(alloc, &mut parts, 0, name)?;
    put_maybe_actions(alloc, &mut parts, 1, *permitted)?;
    put_maybe_list(alloc, &mut parts, 2, terms)?;
    put_integer_or(alloc, &mut parts, 3, 0, i64::from(*others))?;
    Ok(parts)
}

fn read_open_request(alloc: Global, parts: &[Value]) -> Result<Pdu, PduError>
    requires { length parts.now < 2 ^ 32 }
    ensures { Reads 18 open_request (trees_in parts.now) result }
{
    let mut at = 0;
    let mode = natural(parts, &mut at, 0, 0, 31)?;
    let contents = optional_parameter(alloc, parts, &mut at, 1)?;
    let controls = optional(alloc, parts, &mut at, 2)?;
    let activity = natural(parts, &mut at, 3, 1, u64::from(MOST_ACTIVITY))?;
    end(parts, at)?;
    let Some(mode) = mode else {
        return Err(PduError::Missing { field: 0 });
    };
    Ok(Pdu::OpenRequest {
        mode: mode as u8,
        contents,
        controls,
        activity: small(activity),
    })
}

#[tactic(auto, unfolding(crate::specs::PduRows::row_of))]
fn write_open_request(alloc: Global, pdu: &Pdu) -> Result<Values, NoMemory>
    requires { number_of pdu.now ≡ 18 }
    ensures { IfOk result (λ made. made ≡ parts_put pdu.now) }
{
    let Pdu::OpenRequest {
        mode,
        contents,
        controls,
        activity,
    } = pdu
    else {
        unreachable!()
    };
    let mut parts = Values::new(alloc);
    put_integer(alloc, &mut parts, 0, i64::from(*mode))?;
    put_maybe_contents(alloc, &mut parts, 1, contents)?;
    put_content_controls(alloc, &mut parts, 2, *controls)?;
    put_maybe_natural(alloc, &mut parts, 3, *activity)?;
    Ok(parts)
}

fn read_open_response(alloc: Global, parts: &[Value]) -> Result<Pdu, PduError>
    requires { length parts.now < 2 ^ 32 }
    ensures { Reads 19 open_response (trees_in parts.now) result }
{
    let mut at = 0;
    let diagnostic = optional_parameter(alloc, parts, &mut at, 0)?;
    let contents = optional_parameter(alloc, parts, &mut at, 1)?;
    end(parts, at)?;
    Ok(Pdu::OpenResponse {
        diagnostic,
        contents,
    })
}

#[tactic(auto, unfolding(crate::specs::PduRows::row_of))]
fn write_open_response(alloc: Global, pdu: &Pdu) -> Result<Values, NoMemory>
    requires { number_of pdu.now ≡ 19 }
    ensures { IfOk result (λ made. made ≡ parts_put pdu.now) }
{
    let Pdu::OpenResponse {
        diagnostic,
        contents,
    } = pdu
    else {
        unreachable!()
    };
    let mut parts = Values::new(alloc);
    put_diagnostic(alloc, &mut parts, 0, diagnostic)?;
    put_maybe_contents(alloc, &mut parts, 1, contents)?;
    Ok(parts)
}

/// Whether a set of actions is one of eight bits, which each is.
fn are_actions(actions: Option<Actions>) -> bool
    ensures { result ≡ slot_fits (int 0 255) maybe_absent (maybe_actions actions) }
{
    match actions {
        Some(actions) => is_within(u64::from(actions.value), 0, 255),
        None => true,
    }
}
