//! Data elements as values.
ghost use Rattle.std.specs.Prelude.{◌≡◌, ◌<◌, ◌≤◌, [], IfOk};
ghost use Rattle.vf_pdu_fields.specs.Meaning.{context, universal};
ghost use Rattle.vf_ber.specs.Tree.{built, plain};
ghost use Rattle.vf_ber.specs.Views.{tree_of};
ghost use Rattle.vf_elements.specs.ElementValue.{IsWritable, descriptor_parts, value as value_meant};
ghost use Rattle.vf_elements.specs.Elements.{application};

use std::alloc::Global;
use vf_base::{Element, Name, NoMemory, Octets};
use vf_ber::{Tag, Value, Values};

/// The value of the element (ISO 8571-2), defaults left out. The class of a text is 22, 25, 26 or 27.
pub fn to_value(alloc: Global, element: &Element) -> Result<Value, NoMemory>
    requires { IsWritable element.now }
    ensures { IfOk result (λ made. tree_of made ≡ value_meant element.now) }
{
    match element {
        Element::Descriptor { name, filled } => descriptor(alloc, name, *filled),
        Element::Enter => mark(alloc, 1),
        Element::Exit => mark(alloc, 2),
        Element::Text { class, octets } => string(alloc, *class as u16, octets),
        Element::Binary { octets } => string(alloc, 4, octets),
    }
}

/// A string of universal class, whose octets are shared.
fn string(alloc: Global, number: u16, octets: &Octets) -> Result<Value, NoMemory>
    requires some { 0 < number }
    requires low { number ≤ 27 }
    ensures { IfOk result (λ made. tree_of made ≡ plain (universal number) octets.now) }
{
    let tag = Tag { class: 0, number };
    let octets = octets.copy(alloc)?;
    Ok(Value::Plain { tag, octets })
}

/// An empty value of application class.
fn mark(alloc: Global, number: u16) -> Result<Value, NoMemory>
    requires { number ≤ 2 }
    ensures { IfOk result (λ made. tree_of made ≡ plain (application number) []) }
{
    let tag = Tag { class: 1, number };
    let octets = Octets::of(alloc, &[])?;
    Ok(Value::Plain { tag, octets })
}

fn descriptor(alloc: Global, name: &Option<Name>, filled: bool) -> Result<Value, NoMemory>
    ensures { IfOk result (λ made. tree_of made ≡ built (application 0) (descriptor_parts name.now filled)) }
{
    let mut parts = Values::new(alloc);
    if let Some(name) = name {
        parts.push(field(alloc, 0, name.as_slice())?)?;
    }
    if !filled {
        parts.push(field(alloc, 1, &[0])?)?;
    }
    let tag = Tag {
        class: 1,
        number: 0,
    };
    Ok(Value::Built { tag, parts })
}

/// A primitive field of context class.
fn field(alloc: Global, number: u16, octets: &[u8]) -> Result<Value, NoMemory>
    requires { number ≤ 1 }
    ensures { IfOk result (λ made. tree_of made ≡ plain (context number) octets.now) }
{
    let tag = Tag { class: 2, number };
    let octets = Octets::of(alloc, octets)?;
    Ok(Value::Plain { tag, octets })
}
