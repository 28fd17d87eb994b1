//! The fields of sequences inside PDUs, taken in the order of their tags. Their ranges are looked at later, when the
//! form of the whole field is seen.
ghost use Rattle.std.specs.Prelude.{◌≡◌, ◌<◌, ◌^◌, false, true, nat_le, None, Some, IfOk, IfSome, IsSomeAnd, MatchOption, length};
ghost use Rattle.std.specs.Option.{option_copied, option_map};
ghost use Rattle.vf_base.specs.Name.{is_name};
ghost use Rattle.vf_ber.specs.Views.{tree_of};
ghost use Rattle.vf_pdu_fields.specs.Content.{Arcs, Number, Octets as OctetsContent};
ghost use Rattle.vf_pdu_fields.specs.Meaning.{fits};
ghost use Rattle.vf_pdu_fields.specs.Reading.{parts_after, part_here, next_place, parts_of as parts_in, rest, sequence_parts, shape, slot_at};
ghost use Rattle.vf_pdu_fields.specs.Rows.{Any, Integer, Oid as OidField, Text, one};
ghost use Rattle.vf_pdu_fields.specs.declared.limits.TheConstants.{MOST_TEXT_OCTETS};
ghost use Rattle.vf_pdu_fields.specs.Slots.{maybe_integer, maybe_octets};

use std::alloc::Global;
use vf_base::{BaseError, Name, NoMemory, Octets, Oid};
use vf_ber::{Value, Values};
use vf_pdu_fields::{MOST_TEXT_OCTETS, take};

pub(crate) fn parts_of(value: &Value) -> Option<&Values>
    ensures { option_copied result ≡ parts_in (tree_of value.now) }
{
    match value {
        Value::Plain { .. } => None,
        Value::Built { parts, .. } => Some(parts),
    }
}

/// A number that has to be there.
#[tactic(auto, unfolding(vf_pdu_fields::specs::Reading::slot_at))]
pub(crate) fn integer(parts: &[Value], at: &mut u32, number: u16) -> Option<i64>
    requires { length parts.now < 2 ^ 32 }
    ensures value { option_map (λ n. Some (Number n)) result ≡ slot_at (shape (one (Integer Any))) None (part_here number (rest parts.now at.old)) }
    ensures place { at.new ≡ next_place at.old (part_here number (rest parts.now at.old)) }
    ensures others { rest parts.now at.new ≡ parts_after number (rest parts.now at.old) }
{
    let part = take(parts, at, number)?;
    vf_ber::integer(part)
}

/// A number or its default.
#[tactic(auto, unfolding(vf_pdu_fields::specs::Reading::slot_at))]
pub(crate) fn integer_or(parts: &[Value], at: &mut u32, number: u16, default: i64) -> Option<i64>
    requires { length parts.now < 2 ^ 32 }
    ensures value { option_map (λ n. Some (Number n)) result ≡ slot_at (shape (one (Integer Any))) (Some (Some (Number default))) (part_here number (rest parts.now at.old)) }
    ensures place { at.new ≡ next_place at.old (part_here number (rest parts.now at.old)) }
    ensures others { rest parts.now at.new ≡ parts_after number (rest parts.now at.old) }
{
    let Some(part) = take(parts, at, number) else {
        return Some(default);
    };
    vf_ber::integer(part)
}

/// A number that may be absent.
#[tactic(auto, unfolding(vf_pdu_fields::specs::Reading::slot_at))]
pub(crate) fn maybe_integer_in(parts: &[Value], at: &mut u32, number: u16) -> Option<Option<i64>>
    requires { length parts.now < 2 ^ 32 }
    ensures value { option_map maybe_integer result ≡ slot_at (shape (one (Integer Any))) (Some None) (part_here number (rest parts.now at.old)) }
    ensures place { at.new ≡ next_place at.old (part_here number (rest parts.now at.old)) }
    ensures others { rest parts.now at.new ≡ parts_after number (rest parts.now at.old) }
{
    let Some(part) = take(parts, at, number) else {
        return Some(None);
    };
    let n = vf_ber::integer(part)?;
    Some(Some(n))
}

/// Octets that may be absent.
#[tactic(auto, unfolding(vf_pdu_fields::specs::Reading::slot_at))]
pub(crate) fn maybe_octets_in(
    alloc: Global,
    parts: &[Value],
    at: &mut u32,
    number: u16,
) -> Result<Option<Option<Octets>>, NoMemory>
    requires { length parts.now < 2 ^ 32 }
    ensures value { IfOk result (λ found. option_map maybe_octets found ≡ slot_at (shape (one Text)) (Some None) (part_here number (rest parts.now at.old))) }
    ensures place { at.new ≡ next_place at.old (part_here number (rest parts.now at.old)) }
    ensures others { rest parts.now at.new ≡ parts_after number (rest parts.now at.old) }
{
    let Some(part) = take(parts, at, number) else {
        return Ok(Some(None));
    };
    match vf_ber::octets(alloc, part) {
        Ok(Some(octets)) => Ok(Some(Some(octets))),
        Ok(None) => Ok(None),
        Err(error) => Err(error),
    }
}

/// Octets that have to be there.
#[tactic(auto, unfolding(vf_pdu_fields::specs::Reading::slot_at))]
pub(crate) fn octets(
    alloc: Global,
    parts: &[Value],
    at: &mut u32,
    number: u16,
) -> Result<Option<Octets>, NoMemory>
    requires { length parts.now < 2 ^ 32 }
    ensures value { IfOk result (λ found. option_map (λ given. Some (OctetsContent given)) found ≡ slot_at (shape (one Text)) None (part_here number (rest parts.now at.old))) }
    ensures place { at.new ≡ next_place at.old (part_here number (rest parts.now at.old)) }
    ensures others { rest parts.now at.new ≡ parts_after number (rest parts.now at.old) }
{
    let Some(part) = take(parts, at, number) else {
        return Ok(None);
    };
    vf_ber::octets(alloc, part)
}

/// An object identifier that has to be there.
#[tactic(auto, unfolding(vf_pdu_fields::specs::Reading::slot_at))]
pub(crate) fn oid(
    alloc: Global,
    parts: &[Value],
    at: &mut u32,
    number: u16,
) -> Result<Option<Oid>, NoMemory>
    requires { length parts.now < 2 ^ 32 }
    ensures value { IfOk result (λ found. option_map (λ arcs. Some (Arcs arcs)) found ≡ slot_at (shape (one OidField)) None (part_here number (rest parts.now at.old))) }
    ensures place { at.new ≡ next_place at.old (part_here number (rest parts.now at.old)) }
    ensures others { rest parts.now at.new ≡ parts_after number (rest parts.now at.old) }
{
    let Some(part) = take(parts, at, number) else {
        return Ok(None);
    };
    vf_ber::oid(alloc, part)
}

/// The parts of a universal SEQUENCE.
pub(crate) fn sequence_of(value: &Value) -> Option<&Values>
    ensures { option_copied result ≡ sequence_parts (tree_of value.now) }
{
    match value {
        Value::Built { tag, parts } if tag.class == 0 && tag.number == 16 => Some(parts),
        _ => None,
    }
}

/// The octets as a name, where they are one.
pub(crate) fn name_in(alloc: Global, octets: &Octets) -> Result<Option<Name>, NoMemory>
    ensures { IfOk result (λ found. MatchOption found (is_name octets.now ≡ false) (λ name. (name ≡ octets.now) × (is_name octets.now ≡ true))) }
{
    match Name::of(alloc, octets.as_slice()) {
        Ok(name) => Ok(Some(name)),
        Err(BaseError::BadName) => Ok(None),
        Err(_) => Err(NoMemory),
    }
}

/// The octets as a name, where they are one or absent.
pub(crate) fn maybe_name(
    alloc: Global,
    octets: &Option<Octets>,
) -> Result<Option<Option<Name>>, NoMemory>
    ensures { IfOk result (λ found. MatchOption found (IsSomeAnd octets.now (λ o. is_name o ≡ false)) (λ name. (name ≡ octets.now) × IfSome octets.now (λ o. is_name o ≡ true))) }
{
    let Some(octets) = octets else {
        return Ok(Some(None));
    };
    match name_in(alloc, octets)? {
        Some(name) => Ok(Some(Some(name))),
        None => Ok(None),
    }
}

/// The same octets, where they are at most 255 or absent.
pub(crate) fn maybe_short(
    alloc: Global,
    octets: &Option<Octets>,
) -> Result<Option<Option<Octets>>, NoMemory>
    ensures { IfOk result (λ found. MatchOption found (IsSomeAnd octets.now (λ o. nat_le (length o) MOST_TEXT_OCTETS ≡ false)) (λ same. (same ≡ octets.now) × IfSome octets.now (λ o. nat_le (length o) MOST_TEXT_OCTETS ≡ true))) }
{
    let Some(octets) = octets else {
        return Ok(Some(None));
    };
    if octets.len() > MOST_TEXT_OCTETS {
        return Ok(None);
    }
    let same = octets.copy(alloc)?;
    Ok(Some(Some(same)))
}

/// Whether the arcs are within the limits, which those of each object identifier are.
pub(crate) fn is_oid(oid: &Oid) -> bool
    ensures { result ≡ fits (one OidField) (Arcs oid.now) }
{
    !oid.arcs().is_empty()
}
