//! The parts of a value, taken from the first on.
ghost use Rattle.std.specs.Prelude.{◌≡◌, ◌<◌, ◌^◌, [], List, length};
ghost use Rattle.std.specs.Option.{option_copied, option_map};
ghost use Rattle.vf_ber.specs.Views.{tag_of, tree_of};
ghost use Rattle.vf_pdu_fields.specs.Content.{Slot, nil};
ghost use Rattle.vf_pdu_fields.specs.Reading.{parts_after, end_at, ended, part_here, is_field as field_test, next_place, rest};
ghost use Rattle.vf_pdu_fields.specs.Results.{Gives};

use crate::PduError;
use vf_ber::{Tag, Value};

/// The part at this place, where it is the field of this number; the place then is the next one.
#[tactic(auto, using(crate::proofs::PartsAfter::parts), unfolding(crate::specs::Reading::part_here, crate::specs::Reading::parts_after, crate::specs::Reading::next_place))]
pub fn take<'a>(parts: &'a [Value], at: &mut u32, number: u16) -> Option<&'a Value>
    requires { length parts.now < 2 ^ 32 }
    ensures part { option_map tree_of (option_copied result) ≡ part_here number (rest parts.now at.old) }
    ensures place { at.new ≡ next_place at.old (part_here number (rest parts.now at.old)) }
    ensures others { rest parts.now at.new ≡ parts_after number (rest parts.now at.old) }
{
    let part = parts.get(*at as usize)?;
    if !is_field(part.tag(), number) {
        return None;
    }
    *at += 1;
    Some(part)
}

fn is_field(tag: Tag, number: u16) -> bool
    ensures { result ≡ field_test number (tag_of tag) }
{
    tag.class == 2 && tag.number == number
}

/// No part is left; else it is a fault at its place.
#[tactic(auto, using(crate::proofs::PartsAfter::parts), unfolding(crate::specs::Reading::end_at))]
pub fn end(parts: &[Value], at: u32) -> Result<(), PduError>
    requires { length parts.now < 2 ^ 32 }
    ensures { Gives {Y = List Slot} (λ _. []) result (end_at at (rest parts.now at)) }
{
    match parts.get(at as usize) {
        Some(_) => Err(PduError::Field { place: at }),
        None => Ok(()),
    }
}

/// No part of a sequence is left.
#[tactic(auto, using(crate::proofs::PartsAfter::parts))]
pub fn close(parts: &[Value], at: u32) -> Option<()>
    requires { length parts.now < 2 ^ 32 }
    ensures { option_map (λ _. nil) result ≡ ended (rest parts.now at) }
{
    match parts.get(at as usize) {
        Some(_) => None,
        None => Some(()),
    }
}
