//! Writing fields, each after those before it: one that is absent or has its default is left out.
ghost use Rattle.std.specs.Prelude.{◌≡◌, ◌≤◌, None, Some, OnErr, OnOk, IsSome};
ghost use Rattle.std.specs.Option.{option_map};
ghost use Rattle.vf_ber.specs.Views.{tag_of};
ghost use Rattle.vf_pdu_fields.specs.Content.{Number, Octets as OctetsContent, Truth};
ghost use Rattle.vf_pdu_fields.specs.Meaning.{context as context_tag};
ghost use Rattle.vf_pdu_fields.specs.Rows.{Any, Boolean, Controls, Integer, String as StringField, Text, default, fadu as fadu_form, one, optional, or, required};
ghost use Rattle.vf_pdu_fields.specs.Slots.{attribute_controls, content_controls, context_slot, fadu_slot, maybe_actions, maybe_integer, maybe_num, maybe_octets, operation_slot};
ghost use Rattle.vf_pdu_fields.specs.Writing.{◌▸◌, part_of};

use crate::numbers::{context_number, fadu_number, octet_of, operation_number};
use crate::{AttributeControls, ContentControls, WriteOperation};
use std::alloc::Global;
use vf_base::{Actions, Context, FaduId, Name, NoMemory, Octets};
use vf_ber::{Tag, Value, Values};

/// The tag of context class of this number, of 0 to 16383.
pub fn context(number: u16) -> Tag
    requires { number ≤ 16383 }
    ensures { tag_of result ≡ context_tag number }
{
    Tag { class: 2, number }
}

/// An integer in the fewest octets.
pub fn put_integer(alloc: Global, parts: &mut Values, number: u16, n: i64) -> Result<(), NoMemory>
    requires { number ≤ 16383 }
    ensures ok { OnOk result (parts.new ≡ parts.old ▸ part_of number (one (Integer Any)) required (Some (Number n))) }
    ensures err { OnErr result (parts.new ≡ parts.old) }
{
    let field = Value::of_integer(alloc, context(number), n)?;
    parts.push(field)?;
    Ok(())
}

/// An integer that is left out where it is the usual one.
pub fn put_integer_or(
    alloc: Global,
    parts: &mut Values,
    number: u16,
    usual: i64,
    n: i64,
) -> Result<(), NoMemory>
    requires { number ≤ 16383 }
    ensures ok { OnOk result (parts.new ≡ parts.old ▸ part_of number (one (Integer Any)) (default (Number usual)) (Some (Number n))) }
    ensures err { OnErr result (parts.new ≡ parts.old) }
{
    if n == usual {
        return Ok(());
    }
    put_integer(alloc, parts, number, n)?;
    Ok(())
}

/// An integer, where it is there.
pub fn put_maybe_integer(
    alloc: Global,
    parts: &mut Values,
    number: u16,
    n: Option<i64>,
) -> Result<(), NoMemory>
    requires { number ≤ 16383 }
    ensures ok { OnOk result (parts.new ≡ parts.old ▸ part_of number (one (Integer Any)) optional (maybe_integer n)) }
    ensures err { OnErr result (parts.new ≡ parts.old) }
{
    let Some(n) = n else {
        return Ok(());
    };
    put_integer(alloc, parts, number, n)?;
    Ok(())
}

/// A natural number, where it is there.
pub fn put_maybe_natural(
    alloc: Global,
    parts: &mut Values,
    number: u16,
    n: Option<u32>,
) -> Result<(), NoMemory>
    requires { number ≤ 16383 }
    ensures ok { OnOk result (parts.new ≡ parts.old ▸ part_of number (one (Integer Any)) optional (maybe_num n)) }
    ensures err { OnErr result (parts.new ≡ parts.old) }
{
    let Some(n) = n else {
        return Ok(());
    };
    put_integer(alloc, parts, number, i64::from(n))?;
    Ok(())
}

/// A set of actions, where it is there.
pub fn put_maybe_actions(
    alloc: Global,
    parts: &mut Values,
    number: u16,
    actions: Option<Actions>,
) -> Result<(), NoMemory>
    requires { number ≤ 16383 }
    ensures ok { OnOk result (parts.new ≡ parts.old ▸ part_of number (one (Integer Any)) optional (maybe_actions actions)) }
    ensures err { OnErr result (parts.new ≡ parts.old) }
{
    let Some(actions) = actions else {
        return Ok(());
    };
    put_integer(alloc, parts, number, i64::from(actions.value))?;
    Ok(())
}

/// A truth value in one octet, left out where it is the usual one.
pub fn put_boolean_or(
    alloc: Global,
    parts: &mut Values,
    number: u16,
    usual: bool,
    truth: bool,
) -> Result<(), NoMemory>
    requires { number ≤ 16383 }
    ensures ok { OnOk result (parts.new ≡ parts.old ▸ part_of number (one Boolean) (default (Truth usual)) (Some (Truth truth))) }
    ensures err { OnErr result (parts.new ≡ parts.old) }
{
    if truth == usual {
        return Ok(());
    }
    let field = Value::of_boolean(alloc, context(number), truth)?;
    parts.push(field)?;
    Ok(())
}

/// A name.
pub fn put_text(alloc: Global, parts: &mut Values, number: u16, name: &Name) -> Result<(), NoMemory>
    requires { number ≤ 16383 }
    ensures ok { OnOk result (parts.new ≡ parts.old ▸ part_of number (one Text) required (Some (OctetsContent name.now))) }
    ensures err { OnErr result (parts.new ≡ parts.old) }
{
    let field = Value::of_octets(alloc, context(number), name.as_slice())?;
    parts.push(field)?;
    Ok(())
}

/// A name, where it is there.
pub fn put_maybe_text(
    alloc: Global,
    parts: &mut Values,
    number: u16,
    name: &Option<Name>,
) -> Result<(), NoMemory>
    requires { number ≤ 16383 }
    ensures ok { OnOk result (parts.new ≡ parts.old ▸ part_of number (one Text) optional (maybe_octets name.now)) }
    ensures err { OnErr result (parts.new ≡ parts.old) }
{
    let Some(name) = name else {
        return Ok(());
    };
    put_text(alloc, parts, number, name)?;
    Ok(())
}

/// Octets, which are shared.
pub fn put_string(
    alloc: Global,
    parts: &mut Values,
    number: u16,
    octets: &Octets,
) -> Result<(), NoMemory>
    requires { number ≤ 16383 }
    ensures ok { OnOk result (parts.new ≡ parts.old ▸ part_of number (one StringField) required (Some (OctetsContent octets.now))) }
    ensures err { OnErr result (parts.new ≡ parts.old) }
{
    let octets = octets.copy(alloc)?;
    parts.push(Value::Plain {
        tag: context(number),
        octets,
    })?;
    Ok(())
}

/// Octets, which are shared, where they are there.
pub fn put_maybe_string(
    alloc: Global,
    parts: &mut Values,
    number: u16,
    octets: &Option<Octets>,
) -> Result<(), NoMemory>
    requires { number ≤ 16383 }
    ensures ok { OnOk result (parts.new ≡ parts.old ▸ part_of number (one StringField) optional (maybe_octets octets.now)) }
    ensures err { OnErr result (parts.new ≡ parts.old) }
{
    let Some(octets) = octets else {
        return Ok(());
    };
    put_string(alloc, parts, number, octets)?;
    Ok(())
}

/// Controls of the actions on attributes, an octet each, where they are there.
pub fn put_attribute_controls(
    alloc: Global,
    parts: &mut Values,
    number: u16,
    controls: Option<AttributeControls>,
) -> Result<(), NoMemory>
    requires { number ≤ 16383 }
    ensures ok { OnOk result (parts.new ≡ parts.old ▸ part_of number (one (Controls 3)) optional (option_map attribute_controls controls)) }
    ensures err { OnErr result (parts.new ≡ parts.old) }
{
    let Some(controls) = controls else {
        return Ok(());
    };
    let octets = [
        octet_of(controls.read_attribute),
        octet_of(controls.change_attribute),
        octet_of(controls.delete),
    ];
    let field = Value::of_octets(alloc, context(number), &octets)?;
    parts.push(field)?;
    Ok(())
}

/// Controls of the actions on contents, an octet each, where they are there.
pub fn put_content_controls(
    alloc: Global,
    parts: &mut Values,
    number: u16,
    controls: Option<ContentControls>,
) -> Result<(), NoMemory>
    requires { number ≤ 16383 }
    ensures ok { OnOk result (parts.new ≡ parts.old ▸ part_of number (one (Controls 5)) optional (option_map content_controls controls)) }
    ensures err { OnErr result (parts.new ≡ parts.old) }
{
    let Some(controls) = controls else {
        return Ok(());
    };
    let octets = [
        octet_of(controls.read),
        octet_of(controls.insert),
        octet_of(controls.replace),
        octet_of(controls.extend),
        octet_of(controls.erase),
    ];
    let field = Value::of_octets(alloc, context(number), &octets)?;
    parts.push(field)?;
    Ok(())
}

/// The number of a FADU; units are numbered from 1 on.
pub fn put_fadu(
    alloc: Global,
    parts: &mut Values,
    number: u16,
    fadu: FaduId,
) -> Result<(), NoMemory>
    requires tag { number ≤ 16383 }
    requires unit { IsSome (fadu_slot fadu) }
    ensures ok { OnOk result (parts.new ≡ parts.old ▸ part_of number fadu_form required (fadu_slot fadu)) }
    ensures err { OnErr result (parts.new ≡ parts.old) }
{
    put_integer(alloc, parts, number, fadu_number(fadu))?;
    Ok(())
}

/// The number of a FADU, left out where it is the beginning.
pub fn put_fadu_or_begin(
    alloc: Global,
    parts: &mut Values,
    number: u16,
    fadu: FaduId,
) -> Result<(), NoMemory>
    requires tag { number ≤ 16383 }
    requires unit { IsSome (fadu_slot fadu) }
    ensures ok { OnOk result (parts.new ≡ parts.old ▸ part_of number fadu_form (or 0) (fadu_slot fadu)) }
    ensures err { OnErr result (parts.new ≡ parts.old) }
{
    put_integer_or(alloc, parts, number, 0, fadu_number(fadu))?;
    Ok(())
}

/// The number of an access context, left out where it is UA.
pub fn put_context_or_ua(
    alloc: Global,
    parts: &mut Values,
    number: u16,
    context: Context,
) -> Result<(), NoMemory>
    requires { number ≤ 16383 }
    ensures ok { OnOk result (parts.new ≡ parts.old ▸ part_of number (one (Integer Any)) (or 2) (context_slot context)) }
    ensures err { OnErr result (parts.new ≡ parts.old) }
{
    put_integer_or(alloc, parts, number, 2, context_number(context))?;
    Ok(())
}

/// The number of what a write does.
pub fn put_operation(
    alloc: Global,
    parts: &mut Values,
    number: u16,
    operation: WriteOperation,
) -> Result<(), NoMemory>
    requires { number ≤ 16383 }
    ensures ok { OnOk result (parts.new ≡ parts.old ▸ part_of number (one (Integer Any)) required (operation_slot operation)) }
    ensures err { OnErr result (parts.new ≡ parts.old) }
{
    put_integer(alloc, parts, number, operation_number(operation))?;
    Ok(())
}
