ghost use Rattle.std.specs.Prelude.{◌≡◌, ◌≤◌, ◌++◌, IfOk, OnOk, length};
ghost use Rattle.vf_tree.specs.Contexts.{described};
ghost use Rattle.vf_tree.specs.FileTree.{octets_in, octets_of as octets_meant, octets_of_unit as unit_octets_meant, parts_in, strings};

use crate::limits::{MOST_FILE_OCTETS, MOST_FILE_PARTS};
use std::alloc::Global;
use vf_base::{DataUnit, Element, NoMemory};

/// Equal units; the octets of their strings are shared.
pub(crate) fn copied(alloc: Global, units: &[DataUnit]) -> Result<Vec<DataUnit>, NoMemory>
    ensures { IfOk result (λ made. made.items ≡ units.now) }
{
    let mut made = Vec::new(alloc);
    for unit in units {
        let unit = unit.copy(alloc)?;
        made.push(unit)?;
    }
    Ok(made)
}

/// Puts the strings of a unit after what is there; their octets are shared.
pub(crate) fn show_unit(
    alloc: Global,
    unit: &[Element],
    shown: &mut Vec<Element>,
) -> Result<(), NoMemory>
    ensures { OnOk result (shown.new.items ≡ shown.old.items ++ unit.now) }
{
    for element in unit {
        let element = element.copy(alloc)?;
        shown.push(element)?;
    }
    Ok(())
}

#[tactic(auto, using(crate::proofs::Lists::lists))]
/// Puts the strings of all units after what is there.
pub(crate) fn show_strings(
    alloc: Global,
    units: &[DataUnit],
    shown: &mut Vec<Element>,
) -> Result<(), NoMemory>
    ensures { OnOk result (shown.new.items ≡ shown.old.items ++ strings units.now) }
{
    for unit in units {
        show_unit(alloc, unit.as_slice(), shown)?;
    }
    Ok(())
}

#[tactic(auto, using(crate::proofs::Lists::lists))]
/// Puts each unit's descriptor and strings after what is there.
pub(crate) fn show_described(
    alloc: Global,
    units: &[DataUnit],
    shown: &mut Vec<Element>,
) -> Result<(), NoMemory>
    ensures { OnOk result (shown.new.items ≡ shown.old.items ++ described units.now) }
{
    for unit in units {
        shown.push(Element::Descriptor {
            name: None,
            filled: true,
        })?;
        show_unit(alloc, unit.as_slice(), shown)?;
    }
    Ok(())
}

/// The octets of a string; none where the element is no string.
pub fn octets_of(element: &Element) -> u64
    ensures { result ≡ octets_meant element.now }
{
    match element {
        Element::Text { octets, .. } | Element::Binary { octets } => octets.len() as u64,
        _ => 0,
    }
}

/// The octets of a unit's strings.
pub(crate) fn octets_of_unit(unit: &[Element]) -> u64
    requires { unit_octets_meant unit.now ≤ MOST_FILE_OCTETS }
    ensures { result ≡ unit_octets_meant unit.now }
{
    let mut octets = 0;
    for element in unit {
        octets += octets_of(element);
    }
    octets
}

/// The octets of all strings.
pub(crate) fn octets_of_units(units: &[DataUnit]) -> u64
    requires { octets_in units.now ≤ MOST_FILE_OCTETS }
    ensures { result ≡ octets_in units.now }
{
    let mut octets = 0;
    for unit in units {
        octets += octets_of_unit(unit.as_slice());
    }
    octets
}

/// The strings and the units together.
pub(crate) fn parts_of_units(units: &[DataUnit]) -> u32
    requires { parts_in units.now ≤ MOST_FILE_PARTS }
    ensures { result ≡ parts_in units.now }
{
    let mut parts = 0;
    for unit in units {
        parts += unit.len() as u32 + 1;
    }
    parts
}

#[tactic(auto, using(crate::proofs::Sizes::length_parts))]
/// The number of units.
pub(crate) fn count(units: &[DataUnit]) -> u32
    requires { parts_in units.now ≤ MOST_FILE_PARTS }
    ensures number { result ≡ length units.now }
    ensures within { result ≤ MOST_FILE_PARTS }
{
    units.len() as u32
}
