//! How long the spelling of a data element is.
ghost use Rattle.std.specs.Prelude.{◌≡◌, ◌+◌, ◌<◌, ◌≤◌, ◌^◌, length};
ghost use Rattle.vf_ber.specs.Spelling.{length_octets, spell, spells};
ghost use Rattle.vf_elements.specs.ElementValue.{IsWritable, descriptor_parts, filled_part, value as value_meant};

use vf_base::{Element, Name};

/// The octets that the value of the element takes as `vf_ber::write` spells it, found without memory.
pub fn spelled_length(element: &Element) -> u64
    requires { IsWritable element.now }
    ensures { result ≡ length (spell (value_meant element.now)) }
{
    match element {
        Element::Descriptor { name, filled } => with_header(descriptor_length(name, *filled)),
        Element::Enter => 2,
        Element::Exit => 2,
        Element::Text { octets, .. } => with_header(octets.as_slice().len() as u64),
        Element::Binary { octets } => with_header(octets.as_slice().len() as u64),
    }
}

/// So many contents octets, and before them one of the tag and those of the length.
#[tactic(auto, using(crate::proofs::Lengths::lengths))]
fn with_header(contents: u64) -> u64
    requires { contents < 2 ^ 63 }
    ensures { result ≡ 1 + length (length_octets contents) + contents }
{
    if contents < 128 {
        return contents + 2;
    }
    if contents < 256 {
        return contents + 3;
    }
    if contents < 65_536 {
        return contents + 4;
    }
    contents + 5
}

/// The octets of a descriptor's fields.
fn descriptor_length(name: &Option<Name>, filled: bool) -> u64
    ensures exact { result ≡ length (spells (descriptor_parts name.now filled)) }
    ensures small { result ≤ 300 }
{
    let rest = filled_length(filled);
    match name {
        Some(name) => rest + named_length(name),
        None => rest,
    }
}

/// Those of the part that says whether there is a data unit.
fn filled_length(filled: bool) -> u64
    ensures exact { result ≡ length (spells (filled_part filled)) }
    ensures small { result ≤ 3 }
{
    if filled { 0 } else { 3 }
}

/// Those of the name.
fn named_length(name: &Name) -> u64
    ensures exact { result ≡ 1 + length (length_octets (length name.now)) + length name.now }
    ensures small { result ≤ 260 }
{
    let octets = name.as_slice();
    with_header(octets.len() as u64)
}
