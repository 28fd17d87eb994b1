//! Values as data elements.
ghost use Rattle.std.specs.Prelude.{◌≡◌, ◌<◌, ◌^◌, ℕ, Bool, true, false, List, Option, None, Some, Ok, length, IfOk, IfErr};
ghost use Rattle.std.specs.Option.{option_map};
ghost use Rattle.vf_ber.specs.Primitive.{octets_of};
ghost use Rattle.vf_pdu_fields.specs.Fault.{Field};
ghost use Rattle.vf_ber.specs.Tree.{Tree, plain, root};
ghost use Rattle.vf_ber.specs.Views.{tag_of, tree_of, trees_in};
ghost use Rattle.vf_elements.specs.ElementFaults.{element_fault, is_descriptor as descriptor_tag, is_segment as segment_tree, is_string as string_tag, wrong_segment};
ghost use Rattle.vf_elements.specs.ElementReading.{element_in};
ghost use Rattle.vf_elements.specs.ElementValue.{IsWritable};
ghost use Rattle.vf_elements.specs.Elements.{Means, descriptor as descriptor_row, descriptor_slots, is_text as text_class};
ghost use Rattle.vf_pdu_fields.specs.Reading.{reading};
ghost use Rattle.vf_pdu_fields.specs.Results.{Fails, Gives, Names};

use std::alloc::Global;
use vf_base::{Element, NoMemory, Octets};
use vf_ber::{Tag, Value};
use vf_pdu_fields::{PduError, boolean_or, end, optional};

/// The data element that the value means (ISO 8571-2): a text (IA5 22, graphic 25, visible 26, general 27) or a binary
/// (OCTET STRING) of universal class, in segments or not, or a descriptor, enter or exit of application class 0, 1, 2
/// (profile). `Unknown` exactly where it has none of these tags or isn't primitive or constructed as they are; `Field`
/// with the place of the outermost wrong segment; else the fault of a descriptor's fields, as of those of a PDU.
#[tactic(auto, using(crate::proofs::Written::ok_writable))]
pub fn of_value(alloc: Global, value: &Value) -> Result<Element, PduError>
    ensures meaning { IfOk result (λ element. Means (tree_of value.now) element) }
    ensures faults { IfErr result (λ error. Names error (element_fault (tree_of value.now))) }
    ensures read { Gives (λ element. element) result (element_in (tree_of value.now)) }
    ensures writable { IfOk result (λ element. IsWritable element) }
{
    let tag = value.tag();
    if is_string(tag) {
        return string_in(alloc, value);
    }
    match value {
        Value::Plain { octets, .. } => mark_in(tag, octets),
        Value::Built { parts, .. } => {
            if !is_descriptor(tag) {
                return Err(PduError::Unknown { tag });
            }
            descriptor_in(alloc, parts.as_slice())
        }
    }
}

/// Universal OCTET STRING, or a universal class of character strings.
fn is_string(tag: Tag) -> bool
    ensures { result ≡ string_tag (tag_of tag) }
{
    tag.class == 0 && (tag.number == OCTET_STRING || is_text(tag.number))
}

/// The number of OCTET STRING.
const OCTET_STRING: u16 = 4;

fn is_text(number: u16) -> bool
    ensures { result ≡ text_class number }
{
    number == 22 || number == 25 || number == 26 || number == 27
}

fn is_descriptor(tag: Tag) -> bool
    ensures { result ≡ descriptor_tag (tag_of tag) }
{
    tag.class == 1 && tag.number == 0
}

/// A text or a binary, by its tag.
fn string_in(alloc: Global, value: &Value) -> Result<Element, PduError>
    requires { string_tag (root (tree_of value.now)) ≡ true }
    ensures meaning { IfOk result (λ element. Means (tree_of value.now) element) }
    ensures faults { IfErr result (λ error. Names error (element_fault (tree_of value.now))) }
    ensures read { Gives (λ element. element) result (element_in (tree_of value.now)) }
{
    let Some(octets) = vf_ber::octets(alloc, value)? else {
        return Err(wrong_in(alloc, value)?);
    };
    Ok(string_of(value.tag(), octets))
}

/// The element of these octets, by a tag of a string.
fn string_of(tag: Tag, octets: Octets) -> Element
    requires { string_tag (tag_of tag) ≡ true }
    ensures meaning { (tree : Tree) → root tree ≡ tag_of tag → octets_of tree ≡ Some octets → Means tree result }
    ensures read { (tree : Tree) → root tree ≡ tag_of tag → octets_of tree ≡ Some octets → element_in tree ≡ Ok result }
{
    if tag.number == OCTET_STRING {
        return Element::Binary { octets };
    }
    Element::Text {
        class: tag.number as u8,
        octets,
    }
}

/// The fault of a string that has no octets.
fn wrong_in(alloc: Global, value: &Value) -> Result<PduError, NoMemory>
    requires string { string_tag (root (tree_of value.now)) ≡ true }
    requires none { octets_of (tree_of value.now) ≡ None }
    ensures fault { IfOk result (λ error. Names error (element_fault (tree_of value.now))) }
    ensures read { IfOk result (λ error. Fails error (element_in (tree_of value.now))) }
{
    let Value::Built { parts, .. } = value else {
        unreachable!()
    };
    let Some(place) = first_wrong(alloc, parts.as_slice())? else {
        unreachable!()
    };
    Ok(PduError::Field { place })
}

/// The place of the first part that is no segment.
fn first_wrong(alloc: Global, parts: &[Value]) -> Result<Option<u32>, NoMemory>
    requires { length parts.now < 2 ^ 32 }
    ensures { IfOk result (λ found. wrong_segment 0 (trees_in parts.now) ≡ option_map Field found) }
{
    for (place, part) in parts.iter().enumerate() {
        if !is_segment(alloc, part)? {
            return Ok(Some(place as u32));
        }
    }
    Ok(None)
}

/// Whether the value is an OCTET STRING with its segments.
fn is_segment(alloc: Global, value: &Value) -> Result<bool, NoMemory>
    ensures { IfOk result (λ is. is ≡ segment_tree (tree_of value.now)) }
{
    let tag = value.tag();
    if tag.class != 0 || tag.number != OCTET_STRING {
        return Ok(false);
    }
    let octets = vf_ber::octets(alloc, value)?;
    Ok(octets.is_some())
}

/// An enter or an exit, by its tag, where it is empty.
fn mark_in(tag: Tag, octets: &Octets) -> Result<Element, PduError>
    requires { string_tag (tag_of tag) ≡ false }
    ensures meaning { IfOk result (λ element. Means (plain (tag_of tag) octets.now) element) }
    ensures faults { IfErr result (λ error. Names error (element_fault (plain (tag_of tag) octets.now))) }
    ensures read { Gives (λ element. element) result (element_in (plain (tag_of tag) octets.now)) }
{
    if tag.class != 1 || !octets.is_empty() {
        return Err(PduError::Unknown { tag });
    }
    match tag.number {
        1 => Ok(Element::Enter),
        2 => Ok(Element::Exit),
        _ => Err(PduError::Unknown { tag }),
    }
}

/// The fields of a descriptor.
fn descriptor_in(alloc: Global, parts: &[Value]) -> Result<Element, PduError>
    requires { length parts.now < 2 ^ 32 }
    ensures read { Gives descriptor_slots result (reading descriptor_row (trees_in parts.now)) }
    ensures kind { IfOk result (λ element. (name : Option (List ℕ)) × (filled : Bool) × (element ≡ Element.Descriptor name filled)) }
{
    let mut at = 0;
    let name = optional(alloc, parts, &mut at, 0)?;
    let filled = boolean_or(parts, &mut at, 1, true)?;
    end(parts, at)?;
    Ok(Element::Descriptor { name, filled })
}
