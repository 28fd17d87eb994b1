//! What a part is read as, by the type of its parameter.
ghost use Rattle.std.specs.Prelude.{◌≡◌, ◌<◌, ◌^◌, None, Some, IfOk, is_some, length};
ghost use Rattle.std.specs.Option.{option_map};
ghost use Rattle.vf_ber.specs.Views.{tree_of};
ghost use Rattle.vf_pdu_fields.specs.Content.{Content};
ghost use Rattle.vf_pdu_fields.specs.InRange.{slot_fits};
ghost use Rattle.vf_pdu_fields.specs.Meaning.{fits};
ghost use Rattle.vf_pdu_fields.specs.Reading.{parts_after, checked, field_at, part_here, next_place, rest, shape, slot_at};
ghost use Rattle.vf_pdu_fields.specs.Results.{Gives};
ghost use Rattle.vf_pdu_fields.specs.Rows.{Form, optional};

use std::alloc::Global;
use vf_base::NoMemory;
use vf_ber::Value;
use vf_pdu_fields::{PduError, take};

/// A type whose values are parameters of one form, as `vf_pdu_fields::Field` is of the fields that are primitive.
pub trait Parameter: Drop {
    ghost form: { Form };

    ghost content: { Self → Content };

    /// The parameter that the part at this place has, which is the field of this number: `Field` with the place where
    /// it isn't of the form, `Range` with the number where it is and anything in it is out of range.
    fn of_part(alloc: Global, part: &Value, place: u32, field: u16) -> Result<Self, PduError>
        ensures { Gives (λ made. Some (content made)) result (checked place field form (shape form (tree_of part.now))) };

    /// Whether the part has the form, whatever its ranges.
    fn has_form(alloc: Global, part: &Value) -> Result<bool, NoMemory>
        ensures { IfOk result (λ found. found ≡ is_some (shape form (tree_of part.now))) };

    /// Whether all that is in it is in range.
    fn is_in_range(&self) -> bool
        ensures { result ≡ fits form (content self.now) };
}

/// A parameter of the type's form, where it is there.
#[tactic(auto, unfolding(vf_pdu_fields::specs::Reading::field_at))]
pub fn optional_parameter<P: Parameter>(
    alloc: Global,
    parts: &[Value],
    at: &mut u32,
    number: u16,
) -> Result<Option<P>, PduError>
    requires { length parts.now < 2 ^ 32 }
    ensures value { Gives (λ found. option_map P.content found) result (field_at at.old number P.form None (part_here number (rest parts.now at.old))) }
    ensures place { at.new ≡ next_place at.old (part_here number (rest parts.now at.old)) }
    ensures others { rest parts.now at.new ≡ parts_after number (rest parts.now at.old) }
{
    let place = *at;
    let Some(part) = take(parts, at, number) else {
        return Ok(None);
    };
    match P::of_part(alloc, part, place, number) {
        Ok(found) => Ok(Some(found)),
        Err(error) => Err(error),
    }
}

/// Whether the parameter of this number has its form or is absent.
#[tactic(auto, unfolding(vf_pdu_fields::specs::Reading::slot_at))]
pub(crate) fn maybe_has<P: Parameter>(
    alloc: Global,
    parts: &[Value],
    at: &mut u32,
    number: u16,
) -> Result<bool, NoMemory>
    requires { length parts.now < 2 ^ 32 }
    ensures value { IfOk result (λ found. found ≡ is_some (slot_at (shape P.form) (Some None) (part_here number (rest parts.now at.old)))) }
    ensures others { rest parts.now at.new ≡ parts_after number (rest parts.now at.old) }
{
    let Some(part) = take(parts, at, number) else {
        return Ok(true);
    };
    P::has_form(alloc, part)
}

/// Whether a parameter is in range where it is there.
pub fn is_parameter<P: Parameter>(parameter: &Option<P>) -> bool
    ensures { result ≡ slot_fits P.form optional (option_map P.content parameter.now) }
{
    match parameter {
        Some(parameter) => parameter.is_in_range(),
        None => true,
    }
}
