//! Attributes: read as the fields of a PDU are, and where that fails, looked at for their form alone.
ghost use Rattle.std.specs.Prelude.{◌≡◌, ◌≤◌, ◌<◌, ◌^◌, ◌&&◌, [], ◌∷◌, Some, is_some, IfOk, length};
ghost use Rattle.vf_ber.specs.Views.{tree_of, trees_in};
ghost use Rattle.vf_pdu_parameters.specs.AttributeTails.{contents_and_terms, size_field, two_stamps};
ghost use Rattle.vf_pdu_fields.specs.InRange.{slots_fit};
ghost use Rattle.vf_pdu_fields.specs.Reading.{checked, reading, rest, shape, shapes, unread as unread_by};
ghost use Rattle.vf_pdu_fields.specs.Results.{Fails, Gives};
ghost use Rattle.vf_pdu_fields.specs.Rows.{Row};
ghost use Rattle.vf_pdu_fields.specs.Slots.{maybe_integer};
ghost use Rattle.vf_pdu_parameters.specs.Parameters.{attribute_fields as attribute_row, attribute_stamps, attributes as attributes_field};
ghost use Rattle.vf_pdu_parameters.specs.ParameterSlots.{attribute_slots, attributes_content, maybe_stamp};

use crate::inner::{maybe_integer_in, maybe_octets_in, parts_of};
use crate::parameters::{Parameter, is_parameter, maybe_has, optional_parameter};
use crate::{Attributes, Grants, Stamp};
use std::alloc::Global;
use vf_base::{Contents, NoMemory};
use vf_ber::Value;
use vf_pdu_fields::{PduError, close, end, maybe_in_range, optional};

fn attribute_fields(alloc: Global, parts: &[Value]) -> Result<Attributes, PduError>
    requires { length parts.now < 2 ^ 32 }
    ensures { Gives attribute_slots result (reading attribute_row (trees_in parts.now)) }
{
    let mut at = 0;
    let name = optional(alloc, parts, &mut at, 0)?;
    let permitted = optional(alloc, parts, &mut at, 1)?;
    let contents = optional_parameter(alloc, parts, &mut at, 2)?;
    let terms = optional_parameter(alloc, parts, &mut at, 3)?;
    let created = optional_parameter(alloc, parts, &mut at, 4)?;
    let modified = optional_parameter(alloc, parts, &mut at, 5)?;
    let read = optional_parameter(alloc, parts, &mut at, 6)?;
    let changed = optional_parameter(alloc, parts, &mut at, 7)?;
    let size = optional(alloc, parts, &mut at, 8)?;
    end(parts, at)?;
    Ok(Attributes {
        name,
        permitted,
        contents,
        terms,
        created,
        modified,
        read,
        changed,
        size,
    })
}

/// Whether the parts have the form of attributes, whatever their ranges.
fn has_form(alloc: Global, parts: &[Value]) -> Result<bool, NoMemory>
    requires { length parts.now < 2 ^ 32 }
    ensures { IfOk result (λ found. found ≡ is_some (shapes attribute_row (trees_in parts.now))) }
{
    let mut at = 0;
    let Some(_) = maybe_octets_in(alloc, parts, &mut at, 0)? else {
        return Ok(false);
    };
    let Some(_) = maybe_integer_in(parts, &mut at, 1) else {
        return Ok(false);
    };
    have_contents_and_terms(alloc, parts, at)
}

/// The same of the fields from the contents type on.
fn have_contents_and_terms(alloc: Global, parts: &[Value], from: u32) -> Result<bool, NoMemory>
    requires { length parts.now < 2 ^ 32 }
    ensures { IfOk result (λ found. found ≡ is_some (shapes contents_and_terms (rest parts.now from))) }
{
    let mut at = from;
    if !maybe_has::<Contents>(alloc, parts, &mut at, 2)? {
        return Ok(false);
    }
    if !maybe_has::<Grants>(alloc, parts, &mut at, 3)? {
        return Ok(false);
    }
    have_all_stamps(alloc, parts, at)
}

/// The same of the fields from the stamps on.
fn have_all_stamps(alloc: Global, parts: &[Value], from: u32) -> Result<bool, NoMemory>
    requires { length parts.now < 2 ^ 32 }
    ensures { IfOk result (λ found. found ≡ is_some (shapes attribute_stamps (rest parts.now from))) }
{
    let mut at = from;
    if !have_stamps(alloc, parts, &mut at, 4)? {
        return Ok(false);
    }
    if !have_stamps(alloc, parts, &mut at, 6)? {
        return Ok(false);
    }
    Ok(has_size(parts, at))
}

/// The same of two stamps, whatever follows.
fn have_stamps(alloc: Global, parts: &[Value], at: &mut u32, number: u16) -> Result<bool, NoMemory>
    requires few { length parts.now < 2 ^ 32 }
    requires number { number ≤ 6 }
    ensures { IfOk result (λ found. (row : Row) → is_some (shapes (two_stamps number row) (rest parts.now at.old)) ≡ (found && is_some (shapes row (rest parts.now at.new)))) }
{
    if !maybe_has::<Stamp>(alloc, parts, at, number)? {
        return Ok(false);
    }
    maybe_has::<Stamp>(alloc, parts, at, number + 1)
}

fn has_size(parts: &[Value], from: u32) -> bool
    requires { length parts.now < 2 ^ 32 }
    ensures { result ≡ is_some (shapes size_field (rest parts.now from)) }
{
    let mut at = from;
    match maybe_integer_in(parts, &mut at, 8) {
        Some(_) => close(parts, at).is_some(),
        None => false,
    }
}

/// Why these parts aren't read as attributes.
fn unread(alloc: Global, parts: &[Value], place: u32, field: u16) -> PduError
    requires { length parts.now < 2 ^ 32 }
    ensures { Fails result (unread_by place field (is_some (shapes attribute_row (trees_in parts.now)))) }
{
    match has_form(alloc, parts) {
        Ok(true) => PduError::Range { field },
        Ok(false) => PduError::Field { place },
        Err(_) => PduError::NoMemory,
    }
}

fn attributes_of(
    alloc: Global,
    part: &Value,
    place: u32,
    field: u16,
) -> Result<Attributes, PduError>
    ensures { Gives (λ made. Some (attributes_content made)) result (checked place field attributes_field (shape attributes_field (tree_of part.now))) }
{
    let Some(fields) = parts_of(part) else {
        return Err(PduError::Field { place });
    };
    let parts = fields.as_slice();
    match attribute_fields(alloc, parts) {
        Ok(made) => Ok(made),
        Err(PduError::NoMemory) => Err(PduError::NoMemory),
        Err(PduError::Unknown { tag: _ }) => Err(unread(alloc, parts, place, field)),
        Err(PduError::Field { place: _ }) => Err(unread(alloc, parts, place, field)),
        Err(PduError::Range { field: _ }) => Err(unread(alloc, parts, place, field)),
        Err(PduError::Missing { field: _ }) => Err(unread(alloc, parts, place, field)),
    }
}

/// Whether the fields from the stamps on are in range.
fn are_stamps_in_range(attributes: &Attributes) -> bool
    ensures { result ≡ slots_fit attribute_stamps (maybe_stamp attributes.now.created ∷ maybe_stamp attributes.now.modified ∷ maybe_stamp attributes.now.read ∷ maybe_stamp attributes.now.changed ∷ maybe_integer attributes.now.size ∷ []) }
{
    is_parameter(&attributes.created)
        && is_parameter(&attributes.modified)
        && is_parameter(&attributes.read)
        && is_parameter(&attributes.changed)
        && maybe_in_range(&attributes.size)
}

/// Whether each field is in range.
fn are_fields_in_range(attributes: &Attributes) -> bool
    ensures { result ≡ slots_fit attribute_row (attribute_slots attributes.now) }
{
    maybe_in_range(&attributes.name)
        && maybe_in_range(&attributes.permitted)
        && is_parameter(&attributes.contents)
        && is_parameter(&attributes.terms)
        && are_stamps_in_range(attributes)
}

impl Parameter for Attributes {
    ghost use Rattle.vf_pdu_parameters.specs.Parameters.{attributes};
    ghost use Rattle.vf_pdu_parameters.specs.ParameterSlots.{attributes_content};

    ghost form = { attributes };

    ghost content = { attributes_content };

    fn of_part(
        alloc: Global,
        part: &Value,
        place: u32,
        field: u16,
    ) -> Result<Attributes, PduError> {
        attributes_of(alloc, part, place, field)
    }

    fn has_form(alloc: Global, part: &Value) -> Result<bool, NoMemory> {
        match parts_of(part) {
            Some(fields) => has_form(alloc, fields.as_slice()),
            None => Ok(false),
        }
    }

    fn is_in_range(&self) -> bool {
        are_fields_in_range(self)
    }
}
