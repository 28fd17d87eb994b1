ghost use Rattle.std.specs.Prelude.{◌≡◌, ◌++◌, [], ◌∷◌, Some, IfOk, IfErr, OnOk, option_to_list};
ghost use Rattle.std.specs.Option.{option_map};
ghost use Rattle.vf_doctype.specs.Units.{Refuses, first_fault as fault_meant, grouped, is_descriptor as descriptor_meant, starts_open as open_meant, units as units_meant};

use crate::DocError;
use crate::doc_type::DocType;
use std::alloc::Global;
use vf_base::{Constraint, DataUnit, Element, NoMemory, Sequence};

impl DocType {
    /// The data units of elements: all are one unit of an unstructured file, and each descriptor begins a unit of a
    /// sequential flat one. The octets of the strings are shared.
    ///
    /// The first bad element decides: `BadElement` or `TooLong` as `check` has it, and `BadElement` for one before any
    /// descriptor of a sequential flat file.
    pub fn units(&self, alloc: Global, elements: &[Element]) -> Result<Vec<DataUnit>, DocError>
        ensures units { IfOk result (λ units. units_meant self.now elements.now ≡ Ok units.items) }
        ensures errors { IfErr result (λ error. Refuses (units_meant self.now elements.now) error) }
    {
        let constraint = self.constraint();
        if let Some(error) = first_fault(self, starts_open(constraint), elements) {
            return Err(error);
        }
        let units = match constraint {
            Constraint::Unstructured => together(alloc, elements)?,
            Constraint::SequentialFlat => apart(alloc, elements)?,
        };
        Ok(units)
    }
}

/// Whether the elements begin inside a unit.
fn starts_open(constraint: Constraint) -> bool
    ensures { result ≡ open_meant constraint }
{
    matches!(constraint, Constraint::Unstructured)
}

#[tactic(auto, using(crate::proofs::Groups::faults))]
/// The first fault, where the elements begin inside a unit or before any.
fn first_fault(doc: &DocType, is_open: bool, elements: &[Element]) -> Option<DocError>
    ensures { result ≡ fault_meant doc.now is_open elements.now }
{
    let mut is_open = is_open;
    for element in elements {
        is_open = is_open || is_descriptor(element);
        if !is_open {
            return Some(DocError::BadElement);
        }
        if let Err(error) = doc.check(element) {
            return Some(error);
        }
    }
    None
}

fn is_descriptor(element: &Element) -> bool
    ensures { result ≡ descriptor_meant element.now }
{
    matches!(element, Element::Descriptor { .. })
}

/// One unit of all elements.
fn together(alloc: Global, elements: &[Element]) -> Result<Vec<DataUnit>, NoMemory>
    ensures { IfOk result (λ units. units.items ≡ elements.now ∷ []) }
{
    let mut unit = Sequence::new(alloc);
    for element in elements {
        let element = element.copy(alloc)?;
        unit.push(element)?;
    }
    let mut units = Vec::new(alloc);
    units.push(unit)?;
    Ok(units)
}

#[tactic(auto, using(crate::proofs::Groups::groups))]
/// A unit after each descriptor.
fn apart(alloc: Global, elements: &[Element]) -> Result<Vec<DataUnit>, NoMemory>
    ensures { IfOk result (λ units. units.items ≡ (grouped elements.now).1) }
{
    let mut groups = Groups {
        whole: Vec::new(alloc),
        last: None,
    };
    for element in elements {
        if is_descriptor(element) {
            groups.begin(alloc)?;
        } else {
            groups.put(alloc, element)?;
        }
    }
    groups.close()?;
    Ok(groups.whole)
}

/// The units that are whole, and the one to which strings are still added.
#[derive(Drop)]
struct Groups {
    whole: Vec<DataUnit>,
    last: Option<DataUnit>,
}

impl Groups {
    /// Makes the last unit whole.
    fn close(&mut self) -> Result<(), NoMemory>
        ensures { OnOk result ((self.new.whole.items ≡ self.old.whole.items ++ option_to_list self.old.last) × (self.new.last ≡ None)) }
    {
        if let Some(unit) = self.last.take() {
            self.whole.push(unit)?;
        }
        Ok(())
    }

    /// Begins a unit.
    fn begin(&mut self, alloc: Global) -> Result<(), NoMemory>
        ensures { OnOk result ((self.new.whole.items ≡ self.old.whole.items ++ option_to_list self.old.last) × (self.new.last ≡ Some [])) }
    {
        self.close()?;
        self.last = Some(Sequence::new(alloc));
        Ok(())
    }

    /// Puts a string into the last unit; before any unit there is nothing to put it into.
    fn put(&mut self, alloc: Global, element: &Element) -> Result<(), NoMemory>
        ensures { OnOk result ((self.new.whole.items ≡ self.old.whole.items) × (self.new.last ≡ option_map (λ unit. unit ++ element.now ∷ []) self.old.last)) }
    {
        if let Some(unit) = &mut self.last {
            let element = element.copy(alloc)?;
            unit.push(element)?;
        }
        Ok(())
    }
}
