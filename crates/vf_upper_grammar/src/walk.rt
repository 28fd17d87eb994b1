//! The walk over the parts of user data.
ghost use Rattle.std.specs.Prelude.{◌≡◌, ◌<◌, ◌≤◌, ◌^◌, IfErr, IfOk, length, List, map, true};
ghost use Rattle.vf_upper_grammar.specs.Forms.{each as each_read, in_order as fields_read, skipped as skipped_form};
ghost use Rattle.vf_upper_grammar.specs.HeldViews.{IsIn, IsKept, octets_of};
ghost use Rattle.vf_upper_grammar.specs.Marks.{Mark};
ghost use Rattle.vf_upper_grammar.specs.MarkViews.{Gives, marks_of};
ghost use Rattle.vf_upper_grammar.specs.Parts.{parts_of};
ghost use Rattle.vf_upper_grammar.specs.Rows.{values_read, values_within, field_of, label_in, listing_of, pair_of, read_of, result_in, tags_of, type_of};
ghost use Rattle.vf_upper_grammar.specs.Texts.{typed as typed_by};
ghost use Rattle.vf_upper_grammar.specs.Types.{outcome as outcome_form};
ghost use Rattle.vf_upper_grammar.specs.Views.{part_of, text_of};
ghost use Rattle.vf_upper_grammar.specs.WalkViews.{most, StepsTo, StepStops};

use crate::fields::{due, has_tag, is_known, lacking, leading, leads, refuses};
use crate::form::{DataValues, Field, Form, Listing, Pair, TypeName};
use crate::held::{Held, located, number_of, octets_held};
use crate::labels::{NameLabel, NumberLabel};
use crate::leaf::{integer, object_identifier};
use crate::marks::{Marks, Stop};
use crate::parts::{first_part, is_constructed};
use crate::table::{accepted_outcome, apdu, both, element, fields, refused_outcome, skips_others};
use crate::text::{Part, Text};
use crate::values::{one, seen, some};
use std::alloc::Global;
use vf_base::{Octets, SpduKind};

/// The result of the AARE of an SPDU.
fn result_of(carrier: SpduKind) -> u8
    ensures { result ≡ result_in carrier }
{
    match carrier {
        SpduKind::AC => 0,
        SpduKind::CN => 1,
        SpduKind::RF => 1,
        SpduKind::FN => 1,
        SpduKind::DN => 1,
        SpduKind::AB => 1,
        SpduKind::AA => 1,
        SpduKind::DT => 1,
        SpduKind::GT => 1,
        SpduKind::MIP => 1,
        SpduKind::MIA => 1,
        SpduKind::RS => 1,
        SpduKind::RA => 1,
    }
}

/// What the context of the PDU of an ACSE value is.
fn pdu_context(carrier: SpduKind) -> NumberLabel
    ensures { result ≡ label_in carrier }
{
    match carrier {
        SpduKind::CN => NumberLabel::PciContext,
        SpduKind::AC => NumberLabel::PciContext,
        SpduKind::RF => NumberLabel::PciContext,
        SpduKind::FN => NumberLabel::AnyContext,
        SpduKind::DN => NumberLabel::AnyContext,
        SpduKind::AB => NumberLabel::AnyContext,
        SpduKind::AA => NumberLabel::AnyContext,
        SpduKind::DT => NumberLabel::AnyContext,
        SpduKind::GT => NumberLabel::AnyContext,
        SpduKind::MIP => NumberLabel::AnyContext,
        SpduKind::MIA => NumberLabel::AnyContext,
        SpduKind::RS => NumberLabel::AnyContext,
        SpduKind::RA => NumberLabel::AnyContext,
    }
}

/// Reads a part by its form.
#[cycle(walk)]
pub(crate) fn read_part(
    alloc: Global,
    carrier: SpduKind,
    all: &Octets,
    form: Form,
    part: &Part<'_>,
    found: &mut Marks,
) -> Result<(), Stop>
    requires { IsIn all.now (part_of part.now).contents }
    ensures { Gives result (marks_of found.new) (read_of carrier form (part_of part.now) (marks_of found.old)) }
{
    match form {
        Form::Number(only, label) => integer(only, label, part, found),
        Form::AareResult => { integer(Some(result_of(carrier)), NumberLabel::Fixed, part, found) }
        Form::PduContext => integer(None, pdu_context(carrier), part, found),
        Form::Name(label) => object_identifier(alloc, false, label, part, found),
        Form::Ber => object_identifier(alloc, true, NameLabel::Stated, part, found),
        Form::Skipped => skipped(part),
        Form::Fields(name) => sequence(alloc, carrier, all, name, part, found),
        Form::Set(pair) => set(alloc, carrier, all, pair, part, found),
        Form::Each(listing) => list(alloc, carrier, all, listing, part, found),
        Form::Outcome => outcome(alloc, carrier, all, part, found),
        Form::Carried(values) => carried(alloc, carrier, all, values, part, found),
    }
}

/// A list of which nothing is used is constructed.
fn skipped(part: &Part<'_>) -> Result<(), Stop>
    ensures { (marks : List Mark) → Gives result marks (skipped_form (part_of part.now) marks) }
{
    if is_constructed(part.first) {
        Ok(())
    } else {
        Err(Stop::At(part.at))
    }
}

/// Reads a type with fields.
#[cycle(walk)]
fn sequence(
    alloc: Global,
    carrier: SpduKind,
    all: &Octets,
    name: TypeName,
    part: &Part<'_>,
    found: &mut Marks,
) -> Result<(), Stop>
    requires { IsIn all.now (part_of part.now).contents }
    ensures { Gives result (marks_of found.new) (type_of carrier name (part_of part.now) (marks_of found.old)) }
{
    if !is_constructed(part.first) {
        return Err(Stop::At(part.at));
    }
    let skips = skips_others(name);
    let rows = fields(carrier, name);
    in_order(alloc, carrier, all, skips, rows, part.contents, found)
}

/// Reads a SET of two fields.
#[cycle(walk)]
fn set(
    alloc: Global,
    carrier: SpduKind,
    all: &Octets,
    pair: Pair,
    part: &Part<'_>,
    found: &mut Marks,
) -> Result<(), Stop>
    requires { IsIn all.now (part_of part.now).contents }
    ensures { Gives result (marks_of found.new) (pair_of carrier pair (part_of part.now) (marks_of found.old)) }
{
    if !is_constructed(part.first) {
        return Err(Stop::At(part.at));
    }
    let (one, other) = both(carrier, pair);
    let is_other_first = leads(other, leading(carrier, &[one, other], part.contents));
    if is_other_first {
        in_order(
            alloc,
            carrier,
            all,
            true,
            &[other, one],
            part.contents,
            found,
        )
    } else {
        in_order(
            alloc,
            carrier,
            all,
            true,
            &[one, other],
            part.contents,
            found,
        )
    }
}

/// Reads the parts of a list.
#[cycle(walk)]
fn list(
    alloc: Global,
    carrier: SpduKind,
    all: &Octets,
    listing: Listing,
    part: &Part<'_>,
    found: &mut Marks,
) -> Result<(), Stop>
    requires { IsIn all.now (part_of part.now).contents }
    ensures { Gives result (marks_of found.new) (listing_of listing (part_of part.now) (marks_of found.old)) }
{
    if !is_constructed(part.first) {
        return Err(Stop::At(part.at));
    }
    each(
        alloc,
        carrier,
        all,
        element(carrier, listing),
        part.contents,
        found,
    )
}

#[cycle(walk)]
fn each(
    alloc: Global,
    carrier: SpduKind,
    all: &Octets,
    element: Field,
    text: Text<'_>,
    found: &mut Marks,
) -> Result<(), Stop>
    requires { IsIn all.now (text_of text) }
    ensures { Gives result (marks_of found.new) (each_read (parts_of (text_of text.entry)) (tags_of element) (read_of carrier element.form) (marks_of found.old)) }
{
    let mut rest = text;
    while let Some((part, after)) = first_part(rest) {
        if !has_tag(element, part.first) {
            return Err(Stop::At(part.at));
        }
        match read_part(alloc, carrier, all, element.form, &part, found) {
            Ok(()) => rest = after,
            Err(stop) => return Err(stop),
        }
    }
    Ok(())
}

/// Reads an entry of the result list.
#[cycle(walk)]
fn outcome(
    alloc: Global,
    carrier: SpduKind,
    all: &Octets,
    part: &Part<'_>,
    found: &mut Marks,
) -> Result<(), Stop>
    requires { IsIn all.now (part_of part.now).contents }
    ensures { Gives result (marks_of found.new) (outcome_form (part_of part.now) (marks_of found.old)) }
{
    if !is_constructed(part.first) {
        return Err(Stop::At(part.at));
    }
    let accepted = accepted_outcome(carrier);
    if refuses(leading(carrier, accepted, part.contents)) {
        in_order(
            alloc,
            carrier,
            all,
            true,
            refused_outcome(carrier),
            part.contents,
            found,
        )
    } else {
        in_order(alloc, carrier, all, true, accepted, part.contents, found)
    }
}

/// Reads what stands within \[0\] or \[1\].
#[cycle(walk)]
fn carried(
    alloc: Global,
    carrier: SpduKind,
    all: &Octets,
    values: DataValues,
    part: &Part<'_>,
    found: &mut Marks,
) -> Result<(), Stop>
    requires { IsIn all.now (part_of part.now).contents }
    ensures { Gives result (marks_of found.new) (values_read carrier values (part_of part.now) (marks_of found.old)) }
{
    let Some(held) = octets_held(alloc, part)? else {
        return Err(Stop::At(part.at));
    };
    let read = within(
        alloc,
        carrier,
        all,
        values,
        number_of(part.first),
        &held,
        found,
    );
    located(part, held.octets().len(), read)
}

/// Reads octets that are held.
#[cycle(walk)]
fn within(
    alloc: Global,
    carrier: SpduKind,
    all: &Octets,
    values: DataValues,
    number: u8,
    held: &Held<'_>,
    found: &mut Marks,
) -> Result<(), Stop>
    requires small { length (octets_of held.now) < 2 ^ 32 }
    requires kept { IsKept all.now held.now }
    ensures { Gives result (marks_of found.new) (values_within carrier values number (octets_of held.now) (marks_of found.old)) }
{
    match values {
        DataValues::One => one(alloc, all, held, found),
        DataValues::Some => {
            if number == 0 {
                one(alloc, all, held, found)
            } else {
                some(alloc, all, held, found)
            }
        }
        DataValues::Apdu => {
            let kept = held.kept(alloc, all)?;
            typed(alloc, carrier, apdu(carrier), &kept, held.octets(), found)
        }
    }
}

/// Reads octets, all of them, that are one value, with the tag of a field.
#[cycle(walk)]
pub(crate) fn typed(
    alloc: Global,
    carrier: SpduKind,
    field: Field,
    all: &Octets,
    octets: &[u8],
    found: &mut Marks,
) -> Result<(), Stop>
    requires required { field.is_required ≡ true }
    requires all { all.now ≡ octets.now }
    ensures { Gives result (marks_of found.new) (typed_by (tags_of field) (read_of carrier field.form) octets.now (marks_of found.old)) }
{
    let prefix = seen(alloc, octets)?;
    let (seen, _) = octets.split_at(prefix.len);
    let text = Text {
        octets: seen,
        at: 0,
        whole: prefix.whole,
    };
    match in_order(alloc, carrier, all, false, &[field], text, found) {
        Ok(()) => match prefix.fault {
            Some(place) => Err(Stop::At(place)),
            None => Ok(()),
        },
        Err(stop) => Err(stop),
    }
}

/// Reads the fields of a type in order.
#[cycle(walk)]
fn in_order(
    alloc: Global,
    carrier: SpduKind,
    all: &Octets,
    skips: bool,
    fields: &[Field],
    text: Text<'_>,
    found: &mut Marks,
) -> Result<(), Stop>
    requires { IsIn all.now (text_of text) }
    ensures { Gives result (marks_of found.new) (fields_read (parts_of (text_of text.entry)) skips (map (field_of carrier) fields.now) (map (field_of carrier) fields.now) (marks_of found.old)) }
{
    let mut left = fields;
    let mut rest = text;
    while let Some((part, after)) = first_part(rest) {
        match step(alloc, carrier, all, skips, fields, left, &part, found) {
            Ok(next) => left = next,
            Err(stop) => return Err(stop),
        }
        rest = after;
    }
    lacking(carrier, left, rest)
}

/// Reads one part, and gives the fields that may come after it.
#[cycle(walk)]
fn step<'a>(
    alloc: Global,
    carrier: SpduKind,
    all: &Octets,
    skips: bool,
    fields: &[Field],
    left: &'a [Field],
    part: &Part<'_>,
    found: &mut Marks,
) -> Result<&'a [Field], Stop>
    requires { IsIn all.now (part_of part.now).contents }
    ensures ok { IfOk result (λ next. StepsTo carrier skips fields.now left.now (part_of part.now) (marks_of found.old) next.now (marks_of found.new)) }
    ensures err { IfErr result (λ stop. StepStops carrier skips fields.now left.now (part_of part.now) (marks_of found.old) stop) }
    ensures most { IfOk result (λ next. most next.now ≤ most left.now) }
{
    match due(carrier, part.first, left) {
        Some((field, others)) => {
            match read_part(alloc, carrier, all, field.form, part, found) {
                Ok(()) => Ok(others),
                Err(stop) => Err(stop),
            }
        }
        None => {
            if skips && !is_known(carrier, fields, part.first) {
                Ok(left)
            } else {
                Err(Stop::At(part.at))
            }
        }
    }
}
