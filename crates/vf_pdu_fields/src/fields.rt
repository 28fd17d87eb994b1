//! The fields of PDUs, taken in the order of their tags.
ghost use Rattle.std.specs.Prelude.{◌≡◌, ◌≤◌, ◌<◌, ◌^◌, None, Some, IfOk, IfSome, length};
ghost use Rattle.std.specs.Option.{option_and_then, option_map};
ghost use Rattle.vf_pdu_fields.specs.Content.{Truth};
ghost use Rattle.vf_pdu_fields.specs.Reading.{parts_after, field_at, part_here, needed, next_place, rest};
ghost use Rattle.vf_pdu_fields.specs.Results.{Gives};
ghost use Rattle.vf_pdu_fields.specs.Rows.{Boolean, int, natural as natural_content, one};
ghost use Rattle.vf_pdu_fields.specs.Rows.{fadu as fadu_form};
ghost use Rattle.vf_pdu_fields.specs.Slots.{fadu_slot, maybe_num, num};

use crate::parts::take;
use crate::simple::{boolean_of, fadu_of, natural_of};
use crate::{Field, PduError};
use std::alloc::Global;
use vf_base::FaduId;
use vf_ber::Value;

/// A number from `low` to `high`, where it is there.
#[tactic(auto, unfolding(crate::specs::Reading::field_at))]
pub fn natural(
    parts: &[Value],
    at: &mut u32,
    number: u16,
    low: u64,
    high: u64,
) -> Result<Option<u64>, PduError>
    requires { length parts.now < 2 ^ 32 }
    ensures value { Gives maybe_num result (field_at at.old number (int low high) None (part_here number (rest parts.now at.old))) }
    ensures place { at.new ≡ next_place at.old (part_here number (rest parts.now at.old)) }
    ensures others { rest parts.now at.new ≡ parts_after number (rest parts.now at.old) }
    ensures range { IfOk result (λ found. IfSome found (λ n. (low ≤ n) × (n ≤ high))) }
{
    let place = *at;
    let Some(part) = take(parts, at, number) else {
        return Ok(None);
    };
    match natural_of(part, place, number, low, high) {
        Ok(found) => Ok(Some(found)),
        Err(error) => Err(error),
    }
}

/// A number from `low` to `high`, or its default.
#[tactic(auto, unfolding(crate::specs::Reading::field_at))]
pub fn natural_or(
    parts: &[Value],
    at: &mut u32,
    number: u16,
    low: u64,
    high: u64,
    default: u64,
) -> Result<u64, PduError>
    requires few { length parts.now < 2 ^ 32 }
    requires low { low ≤ default }
    requires high { default ≤ high }
    ensures value { Gives num result (field_at at.old number (int low high) (Some (natural_content default)) (part_here number (rest parts.now at.old))) }
    ensures place { at.new ≡ next_place at.old (part_here number (rest parts.now at.old)) }
    ensures others { rest parts.now at.new ≡ parts_after number (rest parts.now at.old) }
    ensures range { IfOk result (λ n. (low ≤ n) × (n ≤ high)) }
{
    let place = *at;
    let Some(part) = take(parts, at, number) else {
        return Ok(default);
    };
    natural_of(part, place, number, low, high)
}

/// A FADU, where it is there.
#[tactic(auto, unfolding(crate::specs::Reading::field_at))]
pub fn fadu(parts: &[Value], at: &mut u32, number: u16) -> Result<Option<FaduId>, PduError>
    requires { length parts.now < 2 ^ 32 }
    ensures value { Gives (λ found. option_and_then fadu_slot found) result (field_at at.old number fadu_form None (part_here number (rest parts.now at.old))) }
    ensures place { at.new ≡ next_place at.old (part_here number (rest parts.now at.old)) }
    ensures others { rest parts.now at.new ≡ parts_after number (rest parts.now at.old) }
    ensures range { IfOk result (λ found. IfSome found (λ unit. needed number (fadu_slot unit) ≡ Ok (fadu_slot unit))) }
{
    let place = *at;
    let Some(part) = take(parts, at, number) else {
        return Ok(None);
    };
    match fadu_of(part, place, number) {
        Ok(found) => Ok(Some(found)),
        Err(error) => Err(error),
    }
}

/// A FADU, or the beginning.
#[tactic(auto, unfolding(crate::specs::Reading::field_at))]
pub fn fadu_or_begin(parts: &[Value], at: &mut u32, number: u16) -> Result<FaduId, PduError>
    requires { length parts.now < 2 ^ 32 }
    ensures value { Gives fadu_slot result (field_at at.old number fadu_form (Some (natural_content 0)) (part_here number (rest parts.now at.old))) }
    ensures place { at.new ≡ next_place at.old (part_here number (rest parts.now at.old)) }
    ensures others { rest parts.now at.new ≡ parts_after number (rest parts.now at.old) }
{
    let place = *at;
    let Some(part) = take(parts, at, number) else {
        return Ok(FaduId::Begin);
    };
    fadu_of(part, place, number)
}

/// A truth value, or its default.
#[tactic(auto, unfolding(crate::specs::Reading::field_at))]
pub fn boolean_or(
    parts: &[Value],
    at: &mut u32,
    number: u16,
    default: bool,
) -> Result<bool, PduError>
    requires { length parts.now < 2 ^ 32 }
    ensures value { Gives (λ truth. Some (Truth truth)) result (field_at at.old number (one Boolean) (Some (Truth default)) (part_here number (rest parts.now at.old))) }
    ensures place { at.new ≡ next_place at.old (part_here number (rest parts.now at.old)) }
    ensures others { rest parts.now at.new ≡ parts_after number (rest parts.now at.old) }
{
    let place = *at;
    let Some(part) = take(parts, at, number) else {
        return Ok(default);
    };
    boolean_of(part, place, number)
}

/// A field of the type's form, where it is there.
#[tactic(auto, unfolding(crate::specs::Reading::field_at))]
pub fn optional<F: Field>(
    alloc: Global,
    parts: &[Value],
    at: &mut u32,
    number: u16,
) -> Result<Option<F>, PduError>
    requires { length parts.now < 2 ^ 32 }
    ensures value { Gives (λ found. option_map F.content found) result (field_at at.old number F.form None (part_here number (rest parts.now at.old))) }
    ensures place { at.new ≡ next_place at.old (part_here number (rest parts.now at.old)) }
    ensures others { rest parts.now at.new ≡ parts_after number (rest parts.now at.old) }
{
    let place = *at;
    let Some(part) = take(parts, at, number) else {
        return Ok(None);
    };
    match F::of_part(alloc, part, place, number) {
        Ok(found) => Ok(Some(found)),
        Err(error) => Err(error),
    }
}
