//! The fields that may stand at a place.
ghost use Rattle.std.specs.Prelude.{◌≡◌, ◌<◌, ◌≤◌, IfSome, map};
ghost use Rattle.std.specs.List.{list_any};
ghost use Rattle.std.specs.Option.{option_map};
ghost use Rattle.vf_upper_grammar.specs.Forms.{due as due_field, has_tag as has_tags, is_known as known, leading as leading_part, leads as leads_with};
ghost use Rattle.vf_upper_grammar.specs.Parts.{parts_of};
ghost use Rattle.vf_upper_grammar.specs.Rows.{field_of, rank, tags_of};
ghost use Rattle.vf_upper_grammar.specs.Types.{refuses as refusing};
ghost use Rattle.vf_upper_grammar.specs.Views.{part_of, text_of};
ghost use Rattle.vf_upper_grammar.specs.WalkViews.{due_of, IsLacking, most};

use crate::form::Field;
use crate::marks::Stop;
use crate::parts::first_part;
use crate::text::{Part, Text};
use vf_base::SpduKind;

pub(crate) fn has_tag(field: Field, first: u8) -> bool
    ensures { result ≡ has_tags (tags_of field) first }
{
    let number = first % 32;
    first / 64 == field.class && field.from <= number && number <= field.to
}

/// The field of this tag, where no required one is due before it, and those after it.
pub(crate) fn due(carrier: SpduKind, first: u8, fields: &[Field]) -> Option<(Field, &[Field])>
    ensures due { option_map (λ x. due_of carrier x.0 x.1.now) result ≡ due_field first (map (field_of carrier) fields.now) }
    ensures rank { IfSome result (λ x. rank x.0.form < most fields.now) }
    ensures most { IfSome result (λ x. most x.1.now ≤ most fields.now) }
{
    let _ = carrier;
    let mut rest = fields;
    while let Some((field, others)) = rest.split_first() {
        if has_tag(*field, first) {
            return Some((*field, others));
        }
        if field.is_required {
            return None;
        }
        rest = others;
    }
    None
}

/// Whether one of the fields has this tag.
pub(crate) fn is_known(carrier: SpduKind, fields: &[Field], first: u8) -> bool
    ensures { result ≡ known (map (field_of carrier) fields.now) first }
{
    let _ = carrier;
    for field in fields {
        if has_tag(*field, first) {
            return true;
        }
    }
    false
}

fn is_one_required(carrier: SpduKind, fields: &[Field]) -> bool
    ensures { result ≡ list_any (λ field. field.is_required) (map (field_of carrier) fields.now) }
{
    let _ = carrier;
    for field in fields {
        if field.is_required {
            return true;
        }
    }
    false
}

/// What is found where no part follows: a required field that is missing is a fault.
pub(crate) fn lacking(carrier: SpduKind, fields: &[Field], text: Text<'_>) -> Result<(), Stop>
    ensures { IsLacking carrier fields.now (text_of text.entry) result }
{
    let closes = text.whole || !text.octets.is_empty();
    if closes && is_one_required(carrier, fields) {
        return Err(Stop::At(text.at));
    }
    Ok(())
}

/// The first part that is one of the fields.
pub(crate) fn leading<'a>(carrier: SpduKind, fields: &[Field], text: Text<'a>) -> Option<Part<'a>>
    ensures { option_map part_of result ≡ leading_part (map (field_of carrier) fields.now) (parts_of (text_of text.entry)) }
{
    let mut rest = text;
    while let Some((part, after)) = first_part(rest) {
        if is_known(carrier, fields, part.first) {
            return Some(part);
        }
        rest = after;
    }
    None
}

/// Whether the leading part has the tag of this field.
pub(crate) fn leads(field: Field, part: Option<Part<'_>>) -> bool
    ensures { result ≡ leads_with (tags_of field) (option_map part_of part.entry) }
{
    match part {
        Some(part) => has_tag(field, part.first),
        None => false,
    }
}

/// Whether the leading part is a result that refuses.
pub(crate) fn refuses(part: Option<Part<'_>>) -> bool
    ensures { result ≡ refusing (option_map part_of part.entry) }
{
    let Some(part) = part else {
        return false;
    };
    // a primitive [0]
    if part.first != 128 {
        return false;
    }
    match part.contents.octets {
        [] => false,
        [octet] => *octet == 2,
        [_, _, ..] => false,
    }
}
