//! How many octets the values of requests take: nothing is made, so that no memory is wanted.
ghost use Rattle.std.specs.Prelude.{◌≡◌, ◌+◌, ◌↔◌, ◌<◌, ◌≤◌, IsTrue, MatchOption, length, pos};
ghost use Rattle.vf_ber.specs.Spelling.{spell};
ghost use Rattle.vf_elements.specs.ElementValue.{IsNamed, IsWritable as IsElement, value as element_value};
ghost use Rattle.vf_elements.specs.Elements.{is_text as text_class};
ghost use Rattle.vf_pdu.specs.PduNumbers.{number_of};
ghost use Rattle.vf_pdu.specs.PduValue.{value as pdu_value};
ghost use Rattle.vf_stack.specs.Lengths.{default_octets, diagnostic_octets, number_octets};

use vf_base::{Diagnostic, Element, MOST_VALUE_OCTETS, Name};
use vf_elements::spelled_length;
use vf_pdu::Pdu;

fn is_text(class: u8) -> bool
    ensures { result ≡ text_class class }
{
    matches!(class, 22 | 25 | 26 | 27)
}

/// A name is one wherever there is one.
fn is_named(name: &Option<Name>) -> bool
    ensures { IsTrue result ↔ IsNamed name.now }
{
    match name {
        Some(name) => {
            let _octets = name.as_slice();
            true
        }
        None => true,
    }
}

/// Whether an element can be written: a text is of a class that this profile has.
pub(crate) fn is_element(element: &Element) -> bool
    ensures { IsTrue result ↔ IsElement element.now }
{
    match element {
        Element::Text { class, .. } => is_text(*class),
        Element::Descriptor { name, .. } => is_named(name),
        Element::Enter => true,
        Element::Exit => true,
        Element::Binary { .. } => true,
    }
}

/// An element; none where it passes the limit of a value.
pub(crate) fn element_length(element: &Element) -> Option<u32>
    requires { IsElement element.now }
    ensures { MatchOption result (MOST_VALUE_OCTETS < length (spell (element_value element.now))) (λ octets. octets ≡ length (spell (element_value element.now))) }
{
    let octets = spelled_length(element);
    if octets > u64::from(MOST_VALUE_OCTETS) {
        return None;
    }
    Some(octets as u32)
}

/// A field with this number.
#[tactic(auto, unfolding(crate::specs::Lengths::number_octets))]
fn number_length(n: i64) -> u32
    ensures length { result ≡ number_octets n }
    ensures small { result ≤ 10 }
{
    2 + vf_ber::integer_len(n)
}

/// The same, which is left out where it has its default.
fn default_length(n: i64, usual: i64) -> u32
    ensures length { result ≡ default_octets n usual }
    ensures small { result ≤ 10 }
{
    if n == usual { 0 } else { number_length(n) }
}

/// A diagnostic with its tag and its length.
fn diagnostic_length(diagnostic: &Option<Diagnostic>) -> u32
    ensures length { result ≡ diagnostic_octets diagnostic.now }
    ensures small { result ≤ 32 }
{
    match diagnostic {
        Some(d) => {
            let others = default_length(d.first, 0) + default_length(d.second, 0);
            2 + number_length(i64::from(d.number)) + others
        }
        None => 0,
    }
}

/// The two numbers of an F-INITIALIZE response.
fn numbers_length(units: u16, window: u16) -> u32
    ensures length { result ≡ default_octets (pos units) (pos 0) + default_octets (pos window) (pos 1) }
    ensures small { result ≤ 20 }
{
    default_length(i64::from(units), 0) + default_length(i64::from(window), 1)
}

/// An F-INITIALIZE response.
pub(crate) fn response_length(pdu: &Pdu) -> u32
    requires { number_of pdu.now ≡ 1 }
    ensures { result ≡ length (spell (pdu_value pdu.now)) }
{
    let Pdu::InitializeResponse {
        diagnostic,
        units,
        window,
    } = pdu
    else {
        unreachable!()
    };
    2 + (diagnostic_length(diagnostic) + numbers_length(*units, *window))
}
