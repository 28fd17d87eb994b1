//! Whether two files have equal units, and whether two data units have equal elements.
ghost use Rattle.std.specs.Prelude.{◌≡◌};
ghost use Rattle.std.specs.Cmp.Lexicographic.{pointwise};
ghost use Rattle.vf_tree.specs.Same.{are_same_units, is_same_element as element_meant, is_same_name as name_meant, is_same_unit as unit_meant};

use crate::Tree;
use vf_base::{DataUnit, Element, Name};

impl Tree {
    /// Whether the other file has equal units.
    #[tactic(auto, unfolding(crate::specs::Same::are_same_units))]
    pub fn has_same_units(&self, other: &Tree) -> bool
        ensures { result ≡ are_same_units self.now.units other.now.units }
    {
        are_same(self.units(), other.units())
    }
}

#[tactic(auto, using(crate::proofs::EqualUnits::same))]
fn are_same(units: &[DataUnit], others: &[DataUnit]) -> bool
    ensures { result ≡ pointwise unit_meant units.now others.now }
{
    if units.len() != others.len() {
        return false;
    }
    for (place, unit) in units.iter().enumerate() {
        if !is_same_unit(unit.as_slice(), others[place].as_slice()) {
            return false;
        }
    }
    true
}

/// Whether two data units have equal elements in the same order.
#[tactic(auto, using(crate::proofs::EqualUnits::same))]
pub fn is_same_unit(unit: &[Element], other: &[Element]) -> bool
    ensures { result ≡ unit_meant unit.now other.now }
{
    if unit.len() != other.len() {
        return false;
    }
    for (place, element) in unit.iter().enumerate() {
        if !is_same_element(element, &other[place]) {
            return false;
        }
    }
    true
}

fn is_same_element(element: &Element, other: &Element) -> bool
    ensures { result ≡ element_meant element.now other.now }
{
    match (element, other) {
        (
            Element::Text { class, octets },
            Element::Text {
                class: second,
                octets: others,
            },
        ) => class == second && octets == others,
        (Element::Binary { octets }, Element::Binary { octets: others }) => octets == others,
        (
            Element::Descriptor { name, filled },
            Element::Descriptor {
                name: second,
                filled: full,
            },
        ) => (if *filled { *full } else { !*full }) && is_same_name(name, second),
        (Element::Enter, Element::Enter) | (Element::Exit, Element::Exit) => true,
        _ => false,
    }
}

fn is_same_name(name: &Option<Name>, other: &Option<Name>) -> bool
    ensures { result ≡ name_meant name.now other.now }
{
    match (name, other) {
        (Some(name), Some(other)) => name == other,
        (None, None) => true,
        _ => false,
    }
}
