//! Integers and object identifiers.
ghost use Rattle.std.specs.Prelude.{◌≡◌, None, Some, if◌then◌else◌};
ghost use Rattle.vf_upper_grammar.specs.Forms.{integer as integer_form, is_allowed as allowance, object_identifier as name_form};
ghost use Rattle.vf_upper_grammar.specs.MarkViews.{Gives, marks_of};
ghost use Rattle.vf_upper_grammar.specs.Syntaxes.{ber};
ghost use Rattle.vf_upper_grammar.specs.Views.{part_of};

use crate::labels::{NameLabel, NumberLabel};
use crate::marks::{Mark, Marks, Stop};
use crate::parts::is_constructed;
use crate::syntaxes::is_ber;
use crate::text::Part;
use std::alloc::Global;
use vf_ber::{integer_from, oid_from};

fn is_allowed(only: Option<u8>, n: i64) -> bool
    ensures { result ≡ allowance only n }
{
    match only {
        Some(only) => n == i64::from(only),
        None => true,
    }
}

/// Reads an INTEGER, which is the number that is demanded, if one is.
pub(crate) fn integer(
    only: Option<u8>,
    label: NumberLabel,
    part: &Part<'_>,
    found: &mut Marks,
) -> Result<(), Stop>
    ensures { Gives result (marks_of found.new) (integer_form only label (part_of part.now) (marks_of found.old)) }
{
    if is_constructed(part.first) {
        return Err(Stop::At(part.at));
    }
    if !part.contents.whole {
        return Ok(());
    }
    let Some(n) = integer_from(part.contents.octets) else {
        return Err(Stop::At(part.at));
    };
    if !is_allowed(only, n) {
        return Err(Stop::At(part.at));
    }
    found.push(Mark::Number { label, n })?;
    Ok(())
}

/// Reads an OBJECT IDENTIFIER, which is that of BER where it must be.
pub(crate) fn object_identifier(
    alloc: Global,
    must_be_ber: bool,
    label: NameLabel,
    part: &Part<'_>,
    found: &mut Marks,
) -> Result<(), Stop>
    ensures { Gives result (marks_of found.new) (name_form (if must_be_ber then Some ber else None) label (part_of part.now) (marks_of found.old)) }
{
    if is_constructed(part.first) {
        return Err(Stop::At(part.at));
    }
    if !part.contents.whole {
        return Ok(());
    }
    let Some(oid) = oid_from(alloc, part.contents.octets)? else {
        return Err(Stop::At(part.at));
    };
    if must_be_ber && !is_ber(&oid) {
        return Err(Stop::At(part.at));
    }
    found.push(Mark::Name { label, oid })?;
    Ok(())
}
