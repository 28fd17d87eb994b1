//! Writing attributes of files.
ghost use Rattle.std.specs.Prelude.{◌≡◌, ◌≤◌, IfOk, OnErr, OnOk};
ghost use Rattle.vf_pdu_fields.specs.Content.{slots};
ghost use Rattle.vf_pdu_fields.specs.Rows.{optional};
ghost use Rattle.vf_pdu_fields.specs.Writing.{◌▸◌, fields, part_of};
ghost use Rattle.vf_pdu_parameters.specs.ParameterSlots.{attribute_slots, maybe_attributes, maybe_stamp, stamp_slots};
ghost use Rattle.vf_pdu_parameters.specs.Parameters.{attribute_fields, attributes as attributes_form, stamp as stamp_form, stamp_fields};

use crate::lists::put_maybe_list;
use crate::writing::{put_maybe_contents, put_sequence};
use crate::{Attributes, Stamp};
use std::alloc::Global;
use vf_base::NoMemory;
use vf_ber::Values;
use vf_pdu_fields::{put_maybe_integer, put_maybe_text, put_string, put_text};

fn stamp_parts(alloc: Global, stamp: &Stamp) -> Result<Values, NoMemory>
    ensures { IfOk result (λ made. made ≡ fields stamp_fields (slots (stamp_slots stamp.now))) }
{
    let mut parts = Values::new(alloc);
    put_string(alloc, &mut parts, 0, &stamp.date)?;
    put_text(alloc, &mut parts, 1, &stamp.identity)?;
    Ok(parts)
}

/// A stamp, where there is one.
fn put_maybe_stamp(
    alloc: Global,
    parts: &mut Values,
    number: u16,
    stamp: &Option<Stamp>,
) -> Result<(), NoMemory>
    requires { number ≤ 16383 }
    ensures ok { OnOk result (parts.new ≡ parts.old ▸ part_of number stamp_form optional (maybe_stamp stamp.now)) }
    ensures err { OnErr result (parts.new ≡ parts.old) }
{
    let Some(stamp) = stamp else {
        return Ok(());
    };
    let inside = stamp_parts(alloc, stamp)?;
    put_sequence(parts, number, inside)?;
    Ok(())
}

fn attribute_parts(alloc: Global, attributes: &Attributes) -> Result<Values, NoMemory>
    ensures { IfOk result (λ made. made ≡ fields attribute_fields (slots (attribute_slots attributes.now))) }
{
    let mut parts = Values::new(alloc);
    put_maybe_text(alloc, &mut parts, 0, &attributes.name)?;
    put_maybe_integer(alloc, &mut parts, 1, attributes.permitted)?;
    put_maybe_contents(alloc, &mut parts, 2, &attributes.contents)?;
    put_maybe_list(alloc, &mut parts, 3, &attributes.terms)?;
    put_maybe_stamp(alloc, &mut parts, 4, &attributes.created)?;
    put_maybe_stamp(alloc, &mut parts, 5, &attributes.modified)?;
    put_maybe_stamp(alloc, &mut parts, 6, &attributes.read)?;
    put_maybe_stamp(alloc, &mut parts, 7, &attributes.changed)?;
    put_maybe_integer(alloc, &mut parts, 8, attributes.size)?;
    Ok(parts)
}

/// Attributes, where they are there.
pub fn put_maybe_attributes(
    alloc: Global,
    parts: &mut Values,
    number: u16,
    attributes: &Option<Attributes>,
) -> Result<(), NoMemory>
    requires { number ≤ 16383 }
    ensures ok { OnOk result (parts.new ≡ parts.old ▸ part_of number attributes_form optional (maybe_attributes attributes.now)) }
    ensures err { OnErr result (parts.new ≡ parts.old) }
{
    let Some(attributes) = attributes else {
        return Ok(());
    };
    let inside = attribute_parts(alloc, attributes)?;
    put_sequence(parts, number, inside)?;
    Ok(())
}
