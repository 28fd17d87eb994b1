//! Writing diagnostics and contents types, each after the parts before it.
ghost use Rattle.std.specs.Prelude.{◌≡◌, ◌≤◌, Some, IfOk, OnErr, OnOk};
ghost use Rattle.vf_ber.specs.Tree.{built};
ghost use Rattle.vf_pdu_fields.specs.Content.{Arcs, slots};
ghost use Rattle.vf_pdu_fields.specs.Meaning.{context as context_tag};
ghost use Rattle.vf_pdu_fields.specs.Rows.{Oid as OidField, one, optional, required};
ghost use Rattle.vf_pdu_fields.specs.Writing.{◌▸◌, fields, part_of};
ghost use Rattle.vf_pdu_parameters.specs.ParameterSlots.{contents_content, contents_slots, diagnostic_slots, maybe_contents, maybe_diagnostic};
ghost use Rattle.vf_pdu_parameters.specs.Parameters.{contents as contents_form, contents_fields, diagnostic as diagnostic_form, diagnostic_fields};

use std::alloc::Global;
use vf_base::{Contents, Diagnostic, NoMemory, Oid};
use vf_ber::{Value, Values};
use vf_pdu_fields::{context, put_integer, put_integer_or};

pub(crate) fn put_sequence(parts: &mut Values, number: u16, inside: Values) -> Result<(), NoMemory>
    requires { number ≤ 16383 }
    ensures ok { OnOk result (parts.new ≡ parts.old ▸ Some (built (context_tag number) inside)) }
    ensures err { OnErr result (parts.new ≡ parts.old) }
{
    parts.push(Value::Built {
        tag: context(number),
        parts: inside,
    })?;
    Ok(())
}

fn put_oid(alloc: Global, parts: &mut Values, number: u16, oid: &Oid) -> Result<(), NoMemory>
    requires { number ≤ 16383 }
    ensures ok { OnOk result (parts.new ≡ parts.old ▸ part_of number (one OidField) required (Some (Arcs oid.now))) }
    ensures err { OnErr result (parts.new ≡ parts.old) }
{
    let field = Value::of_oid(alloc, context(number), oid)?;
    parts.push(field)?;
    Ok(())
}

fn diagnostic_parts(alloc: Global, diagnostic: &Diagnostic) -> Result<Values, NoMemory>
    ensures { IfOk result (λ made. made ≡ fields diagnostic_fields (slots (diagnostic_slots diagnostic.now))) }
{
    let mut parts = Values::new(alloc);
    put_integer(alloc, &mut parts, 0, i64::from(diagnostic.number))?;
    put_integer_or(alloc, &mut parts, 1, 0, diagnostic.first)?;
    put_integer_or(alloc, &mut parts, 2, 0, diagnostic.second)?;
    Ok(parts)
}

/// A diagnostic, where there is one.
pub fn put_diagnostic(
    alloc: Global,
    parts: &mut Values,
    number: u16,
    diagnostic: &Option<Diagnostic>,
) -> Result<(), NoMemory>
    requires { number ≤ 16383 }
    ensures ok { OnOk result (parts.new ≡ parts.old ▸ part_of number diagnostic_form optional (maybe_diagnostic diagnostic.now)) }
    ensures err { OnErr result (parts.new ≡ parts.old) }
{
    let Some(diagnostic) = diagnostic else {
        return Ok(());
    };
    let inside = diagnostic_parts(alloc, diagnostic)?;
    put_sequence(parts, number, inside)?;
    Ok(())
}

fn contents_parts(alloc: Global, contents: &Contents) -> Result<Values, NoMemory>
    ensures { IfOk result (λ made. made ≡ fields contents_fields (slots (contents_slots contents.now))) }
{
    let mut parts = Values::new(alloc);
    put_oid(alloc, &mut parts, 0, &contents.kind)?;
    put_integer_or(alloc, &mut parts, 1, 25, i64::from(contents.class))?;
    put_integer_or(alloc, &mut parts, 2, 0, i64::from(contents.longest))?;
    put_integer_or(alloc, &mut parts, 3, 0, i64::from(contents.significance))?;
    Ok(parts)
}

/// A contents type.
pub fn put_contents(
    alloc: Global,
    parts: &mut Values,
    number: u16,
    contents: &Contents,
) -> Result<(), NoMemory>
    requires { number ≤ 16383 }
    ensures ok { OnOk result (parts.new ≡ parts.old ▸ part_of number contents_form required (Some (contents_content contents.now))) }
    ensures err { OnErr result (parts.new ≡ parts.old) }
{
    let inside = contents_parts(alloc, contents)?;
    put_sequence(parts, number, inside)?;
    Ok(())
}

/// A contents type, where there is one.
pub fn put_maybe_contents(
    alloc: Global,
    parts: &mut Values,
    number: u16,
    contents: &Option<Contents>,
) -> Result<(), NoMemory>
    requires { number ≤ 16383 }
    ensures ok { OnOk result (parts.new ≡ parts.old ▸ part_of number contents_form optional (maybe_contents contents.now)) }
    ensures err { OnErr result (parts.new ≡ parts.old) }
{
    let Some(contents) = contents else {
        return Ok(());
    };
    let inside = contents_parts(alloc, contents)?;
    put_sequence(parts, number, inside)?;
    Ok(())
}
