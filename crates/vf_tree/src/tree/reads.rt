ghost use Rattle.std.specs.Prelude.{◌≡◌, ◌≤◌, length, IfOk, option_copied};
ghost use Rattle.vf_tree.specs.Acts.{Reads, does, shown_of};
ghost use Rattle.vf_tree.specs.Contexts.{one as one_meant, reading_flat, reading_whole, takes as takes_meant, unit_there, whole as whole_meant};
ghost use Rattle.vf_tree.specs.FileTree.{parts_in};
ghost use Rattle.vf_tree.specs.Identities.{standing};
ghost use Rattle.vf_tree.specs.TreeRefusal.{Meets};

use super::Tree;
use super::identities::meant;
use crate::TreeError;
use crate::limits::MOST_FILE_PARTS;
use crate::units::{count, show_described, show_strings, show_unit};
use std::alloc::Global;
use vf_base::{Constraint, Context, DataUnit, Element, FaduId, NoMemory};

#[tactic(auto, using(crate::proofs::Acts::acts))]
impl Tree {
    /// What a read of an identity shows in a context, from a position that was kept, and the position after it. The
    /// octets of the strings are shared.
    ///
    /// `BadContext` where the constraint set has no such context, `NotFound` where the identity means no unit that is
    /// there, or one that a read doesn't take.
    pub fn shown(
        &self,
        alloc: Global,
        position: u32,
        id: FaduId,
        context: Context,
    ) -> Result<(Vec<Element>, u32), TreeError>
        ensures { Meets (λ answer. (answer.0.items, answer.1)) (shown_of (does self.now position (Reads id context))) result }
    {
        if !takes(self.constraint, context) {
            return Err(TreeError::BadContext);
        }
        match self.constraint {
            Constraint::Unstructured => read_whole(alloc, self.units(), id),
            Constraint::SequentialFlat => read_flat(alloc, self.units(), position, id, context),
        }
    }
}

fn takes(constraint: Constraint, context: Context) -> bool
    ensures { result ≡ takes_meant constraint context }
{
    match constraint {
        Constraint::Unstructured => matches!(context, Context::UA | Context::US),
        Constraint::SequentialFlat => !matches!(context, Context::US),
    }
}

fn read_whole(
    alloc: Global,
    units: &[DataUnit],
    id: FaduId,
) -> Result<(Vec<Element>, u32), TreeError>
    ensures { Meets (λ answer. (answer.0.items, answer.1)) (reading_whole units.now id) result }
{
    match id {
        FaduId::Begin | FaduId::First => {
            let shown = whole(alloc, units, Context::UA)?;
            Ok((shown, 0))
        }
        _ => Err(TreeError::NotFound),
    }
}

fn read_flat(
    alloc: Global,
    units: &[DataUnit],
    kept: u32,
    id: FaduId,
    context: Context,
) -> Result<(Vec<Element>, u32), TreeError>
    requires { parts_in units.now ≤ MOST_FILE_PARTS }
    ensures { Meets (λ answer. (answer.0.items, answer.1)) (reading_flat units.now (standing (length units.now) kept) id context) result }
{
    if id == FaduId::Begin {
        let shown = whole(alloc, units, context)?;
        return Ok((shown, 0));
    }
    let position = meant(count(units), kept, id);
    let Some(unit) = unit_at(units, position) else {
        return Err(TreeError::NotFound);
    };
    let shown = one(alloc, unit, context)?;
    Ok((shown, position))
}

/// The unit at a position, which is absent at begin and end.
fn unit_at(units: &[DataUnit], position: u32) -> Option<&DataUnit>
    ensures { option_copied result ≡ unit_there units.now position }
{
    if position == 0 {
        return None;
    }
    units.get((position - 1) as usize)
}

fn whole(alloc: Global, units: &[DataUnit], context: Context) -> Result<Vec<Element>, NoMemory>
    ensures { IfOk result (λ shown. shown.items ≡ whole_meant context units.now) }
{
    let mut shown = Vec::new(alloc);
    match context {
        Context::HA => {
            shown.push(Element::Descriptor {
                name: None,
                filled: false,
            })?;
            shown.push(Element::Enter)?;
            show_described(alloc, units, &mut shown)?;
            shown.push(Element::Exit)?;
        }
        Context::FA => show_described(alloc, units, &mut shown)?,
        Context::UA | Context::US => show_strings(alloc, units, &mut shown)?,
    }
    Ok(shown)
}

fn one(alloc: Global, unit: &DataUnit, context: Context) -> Result<Vec<Element>, NoMemory>
    ensures { IfOk result (λ shown. shown.items ≡ one_meant context unit.now) }
{
    let mut shown = Vec::new(alloc);
    if context == Context::HA || context == Context::FA {
        shown.push(Element::Descriptor {
            name: None,
            filled: true,
        })?;
    }
    show_unit(alloc, unit.as_slice(), &mut shown)?;
    Ok(shown)
}
