//! The parts of an SPDU.
ghost use Rattle.std.specs.Prelude.{◌≡◌, ◌<◌, ◌≤◌, ◌^◌, ◌+◌, IfOk, OnOk, length};
ghost use Rattle.vf_session_spdu.specs.Parts.{parts_by, inner, outer, parts};
ghost use Rattle.vf_session_spdu.specs.Fields.{Gives, data_after_reason as data_after, with_row, with_parts, with_octet as octet_fields, with_number as number_fields, with_value as value_of};
ghost use Rattle.vf_session_spdu.specs.Steps.{Measures, IsFit, Stands};
ghost use Rattle.vf_session_spdu.specs.Table.{row_at as row_found};

use crate::numbers::{length_at, number};
use crate::table::{Form, opens, row_at};
use crate::{Spdu, SpduError, SpduFields};
use std::alloc::Global;
use vf_base::{NoMemory, Octets};

/// What follows the identifier at this place: how many octets spell the length, the value, and the octets after it.
pub(crate) fn value_at(place: usize, octets: &[u8]) -> Result<(usize, &[u8], &[u8]), SpduError>
    requires { place < 2 ^ 31 }
    ensures { Measures place octets.now result }
{
    let fault = SpduError::Length {
        at: place as u32 + 1,
    };
    let Some((spelled, count)) = length_at(octets) else {
        return Err(fault);
    };
    if octets.len() < spelled + count {
        return Err(fault);
    }
    let (_, after) = octets.split_at(spelled);
    let (value, more) = after.split_at(count);
    Ok((spelled, value, more))
}

/// Octets that stand at this place of those that are kept, shared with them.
pub(crate) fn shared(kept: &Octets, place: usize, octets: &[u8]) -> Result<Octets, NoMemory>
    requires { Stands kept.now place octets.now }
    ensures octets { IfOk result (λ made. made ≡ octets.now) }
    ensures place { place ≤ length kept.now }
{
    kept.slice(place, octets.len())
}

/// Takes the parameters of an SPDU, of which the first stands at this place of the TSDU.
pub(crate) fn take_parts(
    alloc: Global,
    kept: &Octets,
    place: usize,
    octets: &[u8],
    spdu: &mut Spdu,
) -> Result<(), SpduError>
    requires small { place + length octets.now < 2 ^ 31 }
    requires kept { Stands kept.now place octets.now }
    ensures with_part { Gives (λ _. spdu.new) result (with_parts spdu.old (parts spdu.old.kind place octets.now)) }
    ensures kind { spdu.new.kind ≡ spdu.old.kind }
{
    let mut at = place;
    let mut rest = octets;
    while !rest.is_empty() {
        let (identifier, after) = rest.split_at(1);
        let (spelled, value, more) = value_at(at, after)?;
        at = at + 1 + spelled;
        take_part(alloc, kept, at, identifier[0], value, spdu)?;
        at += value.len();
        rest = more;
    }
    Ok(())
}

/// Takes one parameter, or those within a group.
fn take_part(
    alloc: Global,
    kept: &Octets,
    place: usize,
    code: u8,
    value: &[u8],
    spdu: &mut Spdu,
) -> Result<(), SpduError>
    requires small { place + length value.now < 2 ^ 31 }
    requires kept { Stands kept.now place value.now }
    ensures with_part { Gives (λ _. spdu.new) result (with_parts spdu.old (outer spdu.old.kind place code value.now)) }
    ensures kind { spdu.new.kind ≡ spdu.old.kind }
{
    if opens(spdu.kind, code) {
        take_item(alloc, kept, place, value, spdu)?;
    } else {
        take_parameter(alloc, kept, place, 0, code, value, spdu)?;
    }
    Ok(())
}

/// Takes the parameters within the connect/accept item.
fn take_item(
    alloc: Global,
    kept: &Octets,
    place: usize,
    octets: &[u8],
    spdu: &mut Spdu,
) -> Result<(), SpduError>
    requires small { place + length octets.now < 2 ^ 31 }
    requires kept { Stands kept.now place octets.now }
    ensures with_part { Gives (λ _. spdu.new) result (with_parts spdu.old (parts_by inner place octets.now)) }
    ensures kind { spdu.new.kind ≡ spdu.old.kind }
{
    let mut at = place;
    let mut rest = octets;
    while !rest.is_empty() {
        let (identifier, after) = rest.split_at(1);
        let (spelled, value, more) = value_at(at, after)?;
        at = at + 1 + spelled;
        take_parameter(alloc, kept, at, 5, identifier[0], value, spdu)?;
        at += value.len();
        rest = more;
    }
    Ok(())
}

/// Takes one parameter, whose value stands at this place, by its row; one that has no row is skipped.
fn take_parameter(
    alloc: Global,
    kept: &Octets,
    place: usize,
    group: u8,
    code: u8,
    value: &[u8],
    spdu: &mut Spdu,
) -> Result<(), SpduError>
    requires small { place + length value.now < 2 ^ 31 }
    requires kept { Stands kept.now place value.now }
    ensures with_part { Gives (λ _. spdu.new) result (with_row (row_found spdu.old.kind group code) code value.now spdu.old) }
    ensures kind { spdu.new.kind ≡ spdu.old.kind }
{
    let Some(row) = row_at(spdu.kind, group, code) else {
        return Ok(());
    };
    if !row.form.fits(value) {
        return Err(SpduError::Value { code });
    }
    set_value(alloc, kept, place, row.form, code, value, spdu)?;
    Ok(())
}

/// Sets the field of a parameter that is of its form.
fn set_value(
    alloc: Global,
    kept: &Octets,
    place: usize,
    form: Form,
    code: u8,
    value: &[u8],
    spdu: &mut Spdu,
) -> Result<(), NoMemory>
    requires small { place + length value.now < 2 ^ 31 }
    requires kept { Stands kept.now place value.now }
    requires fit { IsFit form value.now }
    ensures ok { OnOk result (spdu.new ≡ value_of form code value.now spdu.old) }
    ensures kind { spdu.new.kind ≡ spdu.old.kind }
{
    match form {
        Form::Fixed(_) | Form::Either(_, _) | Form::Octet => {
            spdu.fields = with_octet(code, value[0], spdu.fields);
        }
        Form::Pair => {
            spdu.fields.units = Some(u16::from(value[0]) * 256 + u16::from(value[1]));
        }
        Form::Digits => {
            spdu.fields = with_number(code, number(value), spdu.fields);
        }
        Form::Reasoned => set_reason(alloc, kept, place, value, spdu)?,
        Form::AtMost(_) | Form::UserData => {
            spdu.octets = shared(kept, place, value)?;
        }
    }
    Ok(())
}

/// The user data after a reason: there is some after the reason 2 alone.
fn data_after_reason(
    alloc: Global,
    kept: &Octets,
    place: usize,
    value: &[u8],
) -> Result<Octets, NoMemory>
    requires small { place + length value.now < 2 ^ 31 }
    requires kept { Stands kept.now place value.now }
    requires some { 1 ≤ length value.now }
    ensures { IfOk result (λ made. made ≡ data_after value.now) }
{
    let (reason, octets) = value.split_at(1);
    if reason[0] != 2 {
        return Octets::of(alloc, &[]);
    }
    shared(kept, place + 1, octets)
}

/// Sets the reason, and the user data after the reason 2.
fn set_reason(
    alloc: Global,
    kept: &Octets,
    place: usize,
    value: &[u8],
    spdu: &mut Spdu,
) -> Result<(), NoMemory>
    requires small { place + length value.now < 2 ^ 31 }
    requires kept { Stands kept.now place value.now }
    requires some { 1 ≤ length value.now }
    ensures ok { OnOk result (spdu.new ≡ value_of Form.Reasoned 50 value.now spdu.old) }
    ensures kind { spdu.new.kind ≡ spdu.old.kind }
{
    spdu.octets = data_after_reason(alloc, kept, place, value)?;
    spdu.fields.reason = Some(value[0]);
    Ok(())
}

fn with_octet(code: u8, octet: u8, fields: SpduFields) -> SpduFields
    ensures { result ≡ octet_fields code octet fields }
{
    let mut made = fields;
    match code {
        16 => made.given = Some(octet),
        17 => made.abort = Some(octet),
        26 => made.tokens = Some(octet),
        27 => made.resync = Some(octet),
        _ => {}
    }
    made
}

fn with_number(code: u8, number: u32, fields: SpduFields) -> SpduFields
    ensures { result ≡ number_fields code number fields }
{
    let mut made = fields;
    match code {
        23 => made.first = Some(number),
        42 => made.serial = Some(number),
        _ => {}
    }
    made
}
