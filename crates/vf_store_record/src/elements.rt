//! Users and data elements in a record.
ghost use Rattle.std.specs.Prelude.{◌≡◌};
ghost use Rattle.vf_doctype.specs.DocumentTypes.{is_class as class_meant};
ghost use Rattle.vf_store_record.specs.Entries.{element, element_after, elements, user};
ghost use Rattle.vf_store_record.specs.Formats.{repeated_read};
ghost use Rattle.vf_store_record.specs.Reading.{Gives};

use crate::fields::{
    name_at, octet_at, optional_name_at, optional_text_at, string_at, truth_at, u32_at,
};
use crate::{ReadError, Rest};
use std::alloc::Global;
use vf_base::{Element, Elements, Sequence};
use vf_tables::User;

#[tactic(auto, unfolding(crate::specs::Entries::user))]
pub(crate) fn user_at(alloc: Global, rest: &mut Rest<'_>) -> Result<User, ReadError>
    ensures { Gives (λ found. (found, rest.new)) result (user.read rest.old) }
{
    let identity = name_at(alloc, rest)?;
    let password = optional_text_at(alloc, rest)?;
    Ok(User { identity, password })
}

fn is_class(kind: u8) -> bool
    ensures { result ≡ class_meant kind }
{
    kind == 22 || kind == 25 || kind == 26 || kind == 27
}

#[tactic(auto, unfolding(crate::specs::Entries::descriptor))]
fn descriptor_at(alloc: Global, rest: &mut Rest<'_>) -> Result<Element, ReadError>
    ensures { Gives (λ found. (found, rest.new)) result (element_after 0 rest.old) }
{
    let name = optional_name_at(alloc, rest)?;
    let filled = truth_at(rest)?;
    Ok(Element::Descriptor { name, filled })
}

/// An element whose kind was read.
fn element_of(alloc: Global, kind: u8, rest: &mut Rest<'_>) -> Result<Element, ReadError>
    ensures { Gives (λ found. (found, rest.new)) result (element_after kind rest.old) }
{
    match kind {
        0 => descriptor_at(alloc, rest),
        1 => Ok(Element::Enter),
        2 => Ok(Element::Exit),
        4 => {
            let octets = string_at(alloc, rest)?;
            Ok(Element::Binary { octets })
        }
        class if is_class(class) => {
            let octets = string_at(alloc, rest)?;
            Ok(Element::Text { class, octets })
        }
        _ => Err(ReadError::Foreign),
    }
}

#[tactic(auto, unfolding(crate::specs::Entries::element))]
fn element_at(alloc: Global, rest: &mut Rest<'_>) -> Result<Element, ReadError>
    ensures { Gives (λ found. (found, rest.new)) result (element.read rest.old) }
{
    let kind = octet_at(rest)?;
    element_of(alloc, kind, rest)
}

fn elements_of(alloc: Global, count: u32, rest: &mut Rest<'_>) -> Result<Elements, ReadError>
    ensures { Gives (λ found. (found, rest.new)) result (repeated_read element count rest.old) }
{
    let mut elements = Sequence::new(alloc);
    for _ in 0..count {
        let element = element_at(alloc, rest)?;
        elements.push(element)?;
    }
    Ok(elements)
}

#[tactic(auto, unfolding(crate::specs::Entries::elements, crate::specs::Fields::number32))]
pub(crate) fn elements_at(alloc: Global, rest: &mut Rest<'_>) -> Result<Elements, ReadError>
    ensures { Gives (λ found. (found, rest.new)) result (elements.read rest.old) }
{
    let count = u32_at(rest)?;
    elements_of(alloc, count, rest)
}
