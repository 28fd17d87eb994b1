//! The PDUs of selections, numbers 6 to 13: read, looked at, written and copied.
ghost use Rattle.std.specs.Prelude.{◌≡◌, ◌≤◌, ◌<◌, ◌^◌, IfOk, OnOk, Some, length};
ghost use Rattle.std.specs.Option.{option_map};
ghost use Rattle.vf_ber.specs.Views.{trees_in};
ghost use Rattle.vf_pdu_fields.specs.Content.{Octets as OctetsContent};
ghost use Rattle.vf_pdu_fields.specs.Rows.{Controls, String as StringField, Text, int, one, optional as maybe_absent, or, required};
ghost use Rattle.vf_pdu_fields.specs.Slots.{attribute_controls, maybe_octets, num};
ghost use Rattle.vf_pdu_fields.specs.Writing.{◌▸◌, part_of};
ghost use Rattle.vf_pdu_parameters.specs.Parameters.{contents as contents_form, no_terms, terms as terms_form};
ghost use Rattle.vf_pdu_parameters.specs.ParameterSlots.{contents_content, terms_content};
ghost use Rattle.vf_pdu.specs.PduSelection.{select_request, create_request};
ghost use Rattle.vf_pdu_fields.specs.InRange.{slots_fit};
ghost use Rattle.vf_pdu.specs.PduMeaning.{IsInRange};
ghost use Rattle.vf_pdu.specs.PduNumbers.{number_of};
ghost use Rattle.vf_pdu.specs.PduResults.{Reads};
ghost use Rattle.vf_pdu.specs.PduRows.{row_of};
ghost use Rattle.vf_pdu.specs.PduSlots.{slots_of};
ghost use Rattle.vf_pdu.specs.PduValue.{parts_put};

use crate::Pdu;
use crate::read::answer;
use crate::write::write_answer;
use std::alloc::Global;
use vf_base::{Actions, Contents, Name, NoMemory, Octets, Terms, copy_option};
use vf_ber::{Value, Values};
use vf_pdu_fields::{
    AttributeControls, Field, PduError, end, is_within, maybe_in_range, natural_or, optional,
    put_attribute_controls, put_integer_or, put_maybe_string, put_text,
};
use vf_pdu_parameters::{
    Parameter, is_parameter, optional_parameter, put_contents, put_terms_or_none, terms_or_none,
};

/// The PDU of this number, of 6 to 13, whose fields these parts have.
#[tactic(auto, unfolding(crate::specs::PduRows::row_of))]
pub(crate) fn read_selection(alloc: Global, number: u16, parts: &[Value]) -> Result<Pdu, PduError>
    requires few { length parts.now < 2 ^ 32 }
    requires from { 6 ≤ number }
    requires to { number ≤ 13 }
    ensures { Reads number (row_of number) (trees_in parts.now) result }
{
    match number {
        6 => return read_select_request(alloc, parts),
        7 => {
            let diagnostic = answer(alloc, parts)?;
            Ok(Pdu::SelectResponse { diagnostic })
        }
        8 => {
            end(parts, 0)?;
            Ok(Pdu::DeselectRequest)
        }
        9 => {
            let diagnostic = answer(alloc, parts)?;
            Ok(Pdu::DeselectResponse { diagnostic })
        }
        10 => return read_create_request(alloc, parts),
        11 => {
            let diagnostic = answer(alloc, parts)?;
            Ok(Pdu::CreateResponse { diagnostic })
        }
        12 => {
            end(parts, 0)?;
            Ok(Pdu::DeleteRequest)
        }
        _ => {
            let diagnostic = answer(alloc, parts)?;
            Ok(Pdu::DeleteResponse { diagnostic })
        }
    }
}

/// The fields of a PDU of these numbers, in the range of its row.
#[tactic(auto, unfolding(crate::specs::PduRows::row_of))]
pub(crate) fn write_selection(alloc: Global, pdu: &Pdu) -> Result<Values, NoMemory>
    requires range { IsInRange pdu.now }
    requires from { 6 ≤ number_of pdu.now }
    requires to { number_of pdu.now ≤ 13 }
    ensures { IfOk result (λ made. made ≡ parts_put pdu.now) }
{
    match pdu {
        Pdu::SelectRequest { .. } => write_select_request(alloc, pdu),
        Pdu::CreateRequest { .. } => write_create_request(alloc, pdu),
        Pdu::SelectResponse { diagnostic }
        | Pdu::DeselectResponse { diagnostic }
        | Pdu::CreateResponse { diagnostic }
        | Pdu::DeleteResponse { diagnostic } => write_answer(alloc, diagnostic),
        Pdu::DeselectRequest | Pdu::DeleteRequest => Ok(Values::new(alloc)),
        _ => unreachable!(),
    }
}

/// Whether each field of a PDU of these numbers is in the range of its row.
#[tactic(auto, using(vf_pdu_fields::proofs::InRange::in_range), unfolding(crate::specs::PduRows::row_of))]
pub(crate) fn is_selection_in_range(pdu: &Pdu) -> bool
    requires from { 6 ≤ number_of pdu.now }
    requires to { number_of pdu.now ≤ 13 }
    ensures { result ≡ slots_fit (row_of (number_of pdu.now)) (slots_of pdu.now) }
{
    match pdu {
        Pdu::SelectRequest {
            name,
            requested,
            controls,
            password,
        } => {
            name.is_in_range()
                && is_within(u64::from(requested.value), 0, 255)
                && maybe_in_range(controls)
                && maybe_in_range(password)
        }
        Pdu::CreateRequest {
            over,
            name,
            contents,
            permitted,
            terms,
            requested,
            controls,
            password,
        } => {
            is_within(u64::from(*over), 0, 1)
                && name.is_in_range()
                && contents.is_in_range()
                && is_within(u64::from(permitted.value), 0, 255)
                && terms.is_in_range()
                && is_within(u64::from(requested.value), 0, 255)
                && maybe_in_range(controls)
                && maybe_in_range(password)
        }
        Pdu::SelectResponse { diagnostic }
        | Pdu::DeselectResponse { diagnostic }
        | Pdu::CreateResponse { diagnostic }
        | Pdu::DeleteResponse { diagnostic } => is_parameter(diagnostic),
        Pdu::DeselectRequest | Pdu::DeleteRequest => true,
        _ => unreachable!(),
    }
}

/// The same PDU of these numbers.
pub(crate) fn copy_selection(alloc: Global, pdu: &Pdu) -> Result<Pdu, NoMemory>
    requires from { 6 ≤ number_of pdu.now }
    requires to { number_of pdu.now ≤ 13 }
    ensures { IfOk result (λ made. made ≡ pdu.now) }
{
    match pdu {
        Pdu::SelectRequest {
            name,
            requested,
            controls,
            password,
        } => {
            let name = name.copy(alloc)?;
            let password = copy_option(alloc, password)?;
            Ok(Pdu::SelectRequest {
                name,
                requested: *requested,
                controls: *controls,
                password,
            })
        }
        Pdu::CreateRequest { .. } => copy_create(alloc, pdu),
        Pdu::SelectResponse { diagnostic } => Ok(Pdu::SelectResponse {
            diagnostic: *diagnostic,
        }),
        Pdu::DeselectRequest => Ok(Pdu::DeselectRequest),
        Pdu::DeselectResponse { diagnostic } => Ok(Pdu::DeselectResponse {
            diagnostic: *diagnostic,
        }),
        Pdu::CreateResponse { diagnostic } => Ok(Pdu::CreateResponse {
            diagnostic: *diagnostic,
        }),
        Pdu::DeleteRequest => Ok(Pdu::DeleteRequest),
        Pdu::DeleteResponse { diagnostic } => Ok(Pdu::DeleteResponse {
            diagnostic: *diagnostic,
        }),
        _ => unreachable!(),
    }
}

fn copy_create(alloc: Global, pdu: &Pdu) -> Result<Pdu, NoMemory>
    requires { number_of pdu.now ≡ 10 }
    ensures { IfOk result (λ made. made ≡ pdu.now) }
{
    let Pdu::CreateRequest {
        over,
        name,
        contents,
        permitted,
        terms,
        requested,
        controls,
        password,
    } = pdu
    else {
        unreachable!()
    };
    let name = name.copy(alloc)?;
    let contents = contents.copy(alloc)?;
    let terms = terms.copy(alloc)?;
    let password = copy_option(alloc, password)?;
    Ok(Pdu::CreateRequest {
        over: *over,
        name,
        contents,
        permitted: *permitted,
        terms,
        requested: *requested,
        controls: *controls,
        password,
    })
}

fn read_select_request(alloc: Global, parts: &[Value]) -> Result<Pdu, PduError>
    requires { length parts.now < 2 ^ 32 }
    ensures { Reads 6 select_request (trees_in parts.now) result }
{
    let mut at = 0;
    let name = optional(alloc, parts, &mut at, 0)?;
    let requested = natural_or(parts, &mut at, 1, 0, 255, 0)?;
    let controls = optional(alloc, parts, &mut at, 2)?;
    let password = optional(alloc, parts, &mut at, 3)?;
    end(parts, at)?;
    let Some(name) = name else {
        return Err(PduError::Missing { field: 0 });
    };
    Ok(Pdu::SelectRequest {
        name,
        requested: Actions {
            value: requested as u8,
        },
        controls,
        password,
    })
}

#[tactic(auto, unfolding(crate::specs::PduRows::row_of))]
fn write_select_request(alloc: Global, pdu: &Pdu) -> Result<Values, NoMemory>
    requires { number_of pdu.now ≡ 6 }
    ensures { IfOk result (λ made. made ≡ parts_put pdu.now) }
{
    let Pdu::SelectRequest {
        name,
        requested,
        controls,
        password,
    } = pdu
    else {
        unreachable!()
    };
    let mut parts = Values::new(alloc);
    put_text(alloc, &mut parts, 0, name)?;
    put_integer_or(alloc, &mut parts, 1, 0, i64::from(requested.value))?;
    put_attribute_controls(alloc, &mut parts, 2, *controls)?;
    put_maybe_string(alloc, &mut parts, 3, password)?;
    Ok(parts)
}

fn read_create_request(alloc: Global, parts: &[Value]) -> Result<Pdu, PduError>
    requires { length parts.now < 2 ^ 32 }
    ensures { Reads 10 create_request (trees_in parts.now) result }
{
    let mut at = 0;
    let over = natural_or(parts, &mut at, 0, 0, 1, 0)?;
    let name = optional(alloc, parts, &mut at, 1)?;
    let contents = optional_parameter(alloc, parts, &mut at, 2)?;
    let permitted = natural_or(parts, &mut at, 3, 0, 255, 255)?;
    let terms = terms_or_none(alloc, parts, &mut at, 4)?;
    let requested = natural_or(parts, &mut at, 5, 0, 255, 0)?;
    let controls = optional(alloc, parts, &mut at, 6)?;
    let password = optional(alloc, parts, &mut at, 7)?;
    end(parts, at)?;
    let Some(name) = name else {
        return Err(PduError::Missing { field: 1 });
    };
    let Some(contents) = contents else {
        return Err(PduError::Missing { field: 2 });
    };
    Ok(Pdu::CreateRequest {
        over: over as u8,
        name,
        contents,
        permitted: Actions {
            value: permitted as u8,
        },
        terms,
        requested: Actions {
            value: requested as u8,
        },
        controls,
        password,
    })
}

#[tactic(auto, unfolding(crate::specs::PduRows::row_of))]
fn write_create_request(alloc: Global, pdu: &Pdu) -> Result<Values, NoMemory>
    requires { number_of pdu.now ≡ 10 }
    ensures { IfOk result (λ made. made ≡ parts_put pdu.now) }
{
    let Pdu::CreateRequest {
        over,
        name,
        contents,
        permitted,
        terms,
        requested,
        controls,
        password,
    } = pdu
    else {
        unreachable!()
    };
    let mut parts = Values::new(alloc);
    put_name(alloc, &mut parts, *over, name)?;
    put_file(alloc, &mut parts, contents, *permitted)?;
    put_access(alloc, &mut parts, terms, *requested, *controls, password)?;
    Ok(parts)
}

/// The first two fields: the name of the file, and what is done where it exists.
fn put_name(alloc: Global, parts: &mut Values, over: u8, name: &Name) -> Result<(), NoMemory>
    ensures { OnOk result (parts.new ≡ parts.old ▸ part_of 0 (int 0 1) (or 0) (num over) ▸ part_of 1 (one Text) required (Some (OctetsContent name.now))) }
{
    put_integer_or(alloc, parts, 0, 0, i64::from(over))?;
    put_text(alloc, parts, 1, name)?;
    Ok(())
}

/// The next two: what it consists of, and the actions on it.
fn put_file(
    alloc: Global,
    parts: &mut Values,
    contents: &Contents,
    permitted: Actions,
) -> Result<(), NoMemory>
    ensures { OnOk result (parts.new ≡ parts.old ▸ part_of 2 contents_form required (Some (contents_content contents.now)) ▸ part_of 3 (int 0 255) (or 255) (num permitted.value)) }
{
    put_contents(alloc, parts, 2, contents)?;
    put_integer_or(alloc, parts, 3, 255, i64::from(permitted.value))?;
    Ok(())
}

/// Who may use it and how it is selected: the last four fields.
fn put_access(
    alloc: Global,
    parts: &mut Values,
    terms: &Terms,
    requested: Actions,
    controls: Option<AttributeControls>,
    password: &Option<Octets>,
) -> Result<(), NoMemory>
    ensures { OnOk result (parts.new ≡ parts.old ▸ part_of 4 terms_form no_terms (Some (terms_content terms.now)) ▸ part_of 5 (int 0 255) (or 0) (num requested.value) ▸ part_of 6 (one (Controls 3)) maybe_absent (option_map attribute_controls controls) ▸ part_of 7 (one StringField) maybe_absent (maybe_octets password.now)) }
{
    put_terms_or_none(alloc, parts, 4, terms)?;
    put_integer_or(alloc, parts, 5, 0, i64::from(requested.value))?;
    put_attribute_controls(alloc, parts, 6, controls)?;
    put_maybe_string(alloc, parts, 7, password)?;
    Ok(())
}
