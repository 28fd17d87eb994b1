//! Files in a record: their units as lists of strings.
ghost use Rattle.std.specs.Prelude.{◌≡◌, ◌+◌, ◌<◌, ◌≤◌, ◌↔◌, true, length, IfOk, IsTrue, MatchOption};
ghost use Rattle.vf_store_record.specs.Entries.{attributes, kind_number as number_meant, string_in, string_of as string_meant, unit_in, units_in};
ghost use Rattle.vf_store_record.specs.Fields.{name};
ghost use Rattle.vf_store_record.specs.Formats.{both, repeated_read};
ghost use Rattle.vf_store_record.specs.Reading.{Gives};
ghost use Rattle.vf_store_record.specs.Records.{constraint_for as constraint_meant, file, file_from, has_shape as shape_meant, is_tree as tree_meant, tree_read};
ghost use Rattle.vf_tree.specs.FileTree.{IsWithinFile, octets_in, octets_of_unit, parts_in};

use crate::fields::{name_at, string_at, u32_at};
use crate::files::attributes_at;
use crate::{ReadError, Rest};
use std::alloc::Global;
use vf_attr::{Attributes, File};
use vf_base::{Constraint, Contents, DataUnit, Element, FaduId, Name, NoMemory, Octets, Sequence};
use vf_tree::{MOST_FILE_OCTETS, MOST_FILE_PARTS, Tree, octets_of};

/// The number of the document type.
pub(crate) fn kind_number(contents: &Contents) -> u8
    ensures { result ≡ number_meant contents.now.kind }
{
    let arcs = contents.kind.arcs();
    if arcs == [1, 0, 8571, 5, 1].as_slice() {
        1
    } else if arcs == [1, 0, 8571, 5, 2].as_slice() {
        2
    } else {
        3
    }
}

fn string_of(contents: &Contents, octets: Octets) -> Element
    ensures { result ≡ string_meant contents.now octets }
{
    if kind_number(contents) == 3 {
        Element::Binary { octets }
    } else {
        Element::Text {
            class: contents.class,
            octets,
        }
    }
}

fn constraint_for(contents: &Contents) -> Constraint
    ensures { result ≡ constraint_meant contents.now }
{
    if kind_number(contents) == 2 {
        Constraint::SequentialFlat
    } else {
        Constraint::Unstructured
    }
}

#[tactic(auto, unfolding(crate::specs::Entries::string_in))]
fn element_in(alloc: Global, contents: &Contents, rest: &mut Rest<'_>) -> Result<Element, ReadError>
    ensures { Gives (λ found. (found, rest.new)) result ((string_in contents.now).read rest.old) }
{
    let string = string_at(alloc, rest)?;
    Ok(string_of(contents, string))
}

fn strings_in(
    alloc: Global,
    contents: &Contents,
    count: u32,
    rest: &mut Rest<'_>,
) -> Result<DataUnit, ReadError>
    ensures { Gives (λ found. (found, rest.new)) result (repeated_read (string_in contents.now) count rest.old) }
{
    let mut unit = Sequence::new(alloc);
    for _ in 0..count {
        let element = element_in(alloc, contents, rest)?;
        unit.push(element)?;
    }
    Ok(unit)
}

#[tactic(auto, unfolding(crate::specs::Entries::unit_in, crate::specs::Fields::number32))]
fn unit_at(alloc: Global, contents: &Contents, rest: &mut Rest<'_>) -> Result<DataUnit, ReadError>
    ensures { Gives (λ found. (found, rest.new)) result ((unit_in contents.now).read rest.old) }
{
    let count = u32_at(rest)?;
    strings_in(alloc, contents, count, rest)
}

fn units_of(
    alloc: Global,
    contents: &Contents,
    count: u32,
    rest: &mut Rest<'_>,
) -> Result<Vec<DataUnit>, ReadError>
    ensures { Gives (λ found. (found.items, rest.new)) result (repeated_read (unit_in contents.now) count rest.old) }
{
    let mut units = Vec::new(alloc);
    for _ in 0..count {
        let unit = unit_at(alloc, contents, rest)?;
        units.push(unit)?;
    }
    Ok(units)
}

#[tactic(auto, unfolding(crate::specs::Entries::units_in, crate::specs::Fields::number32))]
fn units_at(
    alloc: Global,
    contents: &Contents,
    rest: &mut Rest<'_>,
) -> Result<Vec<DataUnit>, ReadError>
    ensures { Gives (λ found. (found.items, rest.new)) result ((units_in contents.now).read rest.old) }
{
    let count = u32_at(rest)?;
    units_of(alloc, contents, count, rest)
}

/// The octets of a unit's strings; absent where they are more than so many.
fn octets_within(unit: &[Element], most: u64) -> Option<u64>
    requires { most ≤ MOST_FILE_OCTETS }
    ensures { MatchOption result (most < octets_of_unit unit.now) (λ octets. (octets ≡ octets_of_unit unit.now) × (octets ≤ most)) }
{
    let mut octets = 0;
    for element in unit {
        let more = octets_of(element);
        if more > most - octets {
            return None;
        }
        octets += more;
    }
    Some(octets)
}

/// Whether the units are within a file.
fn are_within(units: &[DataUnit]) -> bool
    ensures { IsTrue result ↔ ((octets_in units.now ≤ MOST_FILE_OCTETS) × (parts_in units.now ≤ MOST_FILE_PARTS)) }
{
    let mut octets_left = MOST_FILE_OCTETS;
    let mut parts_left = u64::from(MOST_FILE_PARTS);
    for unit in units {
        let Some(octets) = octets_within(unit.as_slice(), octets_left) else {
            return false;
        };
        octets_left -= octets;
        if unit.len() as u64 >= parts_left {
            return false;
        }
        parts_left -= unit.len() as u64 + 1;
    }
    true
}

fn has_shape(constraint: Constraint, units: &[DataUnit]) -> bool
    ensures { result ≡ shape_meant constraint units.now }
{
    match constraint {
        Constraint::Unstructured => units.len() == 1,
        Constraint::SequentialFlat => true,
    }
}

/// Whether the units are a tree of the constraint set.
fn is_tree(constraint: Constraint, units: &[DataUnit]) -> bool
    ensures { result ≡ tree_meant constraint units.now }
{
    has_shape(constraint, units) && are_within(units)
}

/// A sequential flat file of these units.
fn flat(alloc: Global, units: Vec<DataUnit>) -> Result<Tree, NoMemory>
    requires { IsWithinFile units.items }
    ensures { IfOk result (λ tree. tree ≡ record { constraint = Constraint.SequentialFlat; units = units.items }) }
{
    let mut tree = Tree::empty(alloc, Constraint::SequentialFlat)?;
    match tree.insert(alloc, FaduId::End, units) {
        Ok(_) => Ok(tree),
        Err(_) => Err(NoMemory),
    }
}

/// An unstructured file of this unit.
fn unstructured(alloc: Global, units: Vec<DataUnit>) -> Result<Tree, NoMemory>
    requires shape { length units.items ≡ 1 }
    requires within { IsWithinFile units.items }
    ensures { IfOk result (λ tree. tree ≡ record { constraint = Constraint.Unstructured; units = units.items }) }
{
    let mut tree = Tree::empty(alloc, Constraint::Unstructured)?;
    let mut units = units;
    let Some(unit) = units.pop() else {
        return Err(NoMemory);
    };
    match tree.replace(alloc, FaduId::Begin, unit) {
        Ok(_) => Ok(tree),
        Err(_) => Err(NoMemory),
    }
}

/// The tree of these units.
fn tree_of(alloc: Global, constraint: Constraint, units: Vec<DataUnit>) -> Result<Tree, NoMemory>
    requires { tree_meant constraint units.items ≡ true }
    ensures { IfOk result (λ tree. tree ≡ record { constraint = constraint; units = units.items }) }
{
    match constraint {
        Constraint::Unstructured => unstructured(alloc, units),
        Constraint::SequentialFlat => flat(alloc, units),
    }
}

/// The tree of the units that follow, in a file of this contents type.
fn tree_at(alloc: Global, contents: &Contents, rest: &mut Rest<'_>) -> Result<Tree, ReadError>
    ensures units { Gives (λ tree. (tree.units, rest.new)) result (tree_read contents.now rest.old) }
    ensures constraint { IfOk result (λ tree. tree.constraint ≡ constraint_meant contents.now) }
{
    let units = units_at(alloc, contents, rest)?;
    let constraint = constraint_for(contents);
    if !is_tree(constraint, &units) {
        return Err(ReadError::Foreign);
    }
    Ok(tree_of(alloc, constraint, units)?)
}

/// What stands of a file before its units.
struct Head {
    name: Name,
    attributes: Attributes,
}

impl Drop for Head {
    fn drop(self) {
        let Head { name, attributes } = self;
        drop(name);
        drop(attributes);
    }
}

impl Head {
    /// The file of this tree.
    fn with(self, tree: Tree) -> File
        ensures { tree.constraint ≡ constraint_meant self.attributes.contents → result ≡ file_from self.name self.attributes tree.units }
    {
        let Head { name, attributes } = self;
        File {
            name,
            permitted: attributes.permitted,
            contents: attributes.contents,
            terms: attributes.terms,
            created: attributes.created,
            modified: attributes.modified,
            read: attributes.read,
            changed: attributes.changed,
            version: attributes.version,
            tree,
        }
    }
}

fn head_at(alloc: Global, rest: &mut Rest<'_>) -> Result<Head, ReadError>
    ensures { Gives (λ head. ((head.name, head.attributes), rest.new)) result ((both name attributes).read rest.old) }
{
    let name = name_at(alloc, rest)?;
    let attributes = attributes_at(alloc, rest)?;
    Ok(Head { name, attributes })
}

#[tactic(auto, unfolding(crate::specs::Records::file))]
pub(crate) fn file_at(alloc: Global, rest: &mut Rest<'_>) -> Result<File, ReadError>
    ensures { Gives (λ found. (found, rest.new)) result (file.read rest.old) }
{
    let head = head_at(alloc, rest)?;
    let tree = tree_at(alloc, &head.attributes.contents, rest)?;
    Ok(head.with(tree))
}
