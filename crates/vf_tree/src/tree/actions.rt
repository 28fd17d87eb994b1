ghost use Rattle.std.specs.Prelude.{◌≡◌, ◌++◌, [], ◌∷◌, IfOk, OnOk, OnErr};
ghost use Rattle.std.specs.Rc.{rc_value};
ghost use Rattle.vf_tree.specs.Actions.{LeavesFile, Performs};
ghost use Rattle.vf_tree.specs.Acts.{Erases, Extends, Inserts, Replaces, does};
ghost use Rattle.vf_tree.specs.FileTree.{IsFile, strings};

use super::Tree;
use crate::TreeError;
use crate::units::{copied, count, octets_of_units, parts_of_units};
use std::alloc::Global;
use std::rc::Rc;
use vf_base::{Constraint, DataUnit, FaduId, NoMemory, Sequence};

impl Tree {
    /// Puts units after the last one, and answers the new end. After an error the file is as before.
    ///
    /// `Outside` where the file is unstructured, `NotFound` where the identity isn't the end.
    pub fn insert(
        &mut self,
        alloc: Global,
        id: FaduId,
        units: Vec<DataUnit>,
    ) -> Result<u32, TreeError>
        requires { LeavesFile (does self.old 0 (Inserts id units.items)) }
        ensures { Performs (does self.old 0 (Inserts id units.items)) self.old self.new result }
    {
        if self.constraint == Constraint::Unstructured {
            return Err(TreeError::Outside);
        }
        if id != FaduId::End {
            return Err(TreeError::NotFound);
        }
        let octets = octets_of_units(&units);
        let parts = parts_of_units(&units);
        put_after(alloc, &mut self.units, units)?;
        self.octets += octets;
        self.parts += parts;
        Ok(count(self.units()) + 1)
    }

    /// Puts a unit in the place of the whole of an unstructured file, and answers position 0. After an error the file
    /// is as before.
    ///
    /// `Outside` where the file is sequential flat, `NotFound` where the identity isn't begin or first.
    pub fn replace(&mut self, alloc: Global, id: FaduId, unit: DataUnit) -> Result<u32, TreeError>
        requires { LeavesFile (does self.old 0 (Replaces id unit)) }
        ensures { Performs (does self.old 0 (Replaces id unit)) self.old self.new result }
    {
        if self.constraint == Constraint::SequentialFlat {
            return Err(TreeError::Outside);
        }
        if id != FaduId::Begin && id != FaduId::First {
            return Err(TreeError::NotFound);
        }
        let mut units = Vec::new(alloc);
        let Ok(()) = units.push(unit) else {
            return Err(TreeError::NoMemory);
        };
        *self = Tree::of(alloc, Constraint::Unstructured, units)?;
        Ok(0)
    }

    /// Puts the strings of a unit after those of an unstructured file, and answers position 0. After an error the
    /// file is as before.
    ///
    /// `Outside` where the file is sequential flat, `NotFound` where the identity isn't begin or first.
    pub fn extend(&mut self, alloc: Global, id: FaduId, unit: DataUnit) -> Result<u32, TreeError>
        requires { LeavesFile (does self.old 0 (Extends id unit)) }
        ensures { Performs (does self.old 0 (Extends id unit)) self.old self.new result }
    {
        if self.constraint == Constraint::SequentialFlat {
            return Err(TreeError::Outside);
        }
        if id != FaduId::Begin && id != FaduId::First {
            return Err(TreeError::NotFound);
        }
        let mut units = Vec::new(alloc);
        let unit = longer(alloc, &self.units, unit)?;
        let Ok(()) = units.push(unit) else {
            return Err(TreeError::NoMemory);
        };
        *self = Tree::of(alloc, Constraint::Unstructured, units)?;
        Ok(0)
    }

    /// Takes the contents of the file away, and answers position 0: an unstructured file keeps one unit without
    /// strings. After an error the file is as before.
    ///
    /// `NotFound` where the identity isn't begin, nor, in an unstructured file, first.
    pub fn erase(&mut self, alloc: Global, id: FaduId) -> Result<u32, TreeError>
        ensures { Performs (does self.old 0 (Erases id)) self.old self.new result }
    {
        let first = self.constraint == Constraint::Unstructured && id == FaduId::First;
        if id != FaduId::Begin && !first {
            return Err(TreeError::NotFound);
        }
        *self = Tree::empty(alloc, self.constraint)?;
        Ok(0)
    }

    /// A file of these units.
    fn of(alloc: Global, constraint: Constraint, units: Vec<DataUnit>) -> Result<Tree, NoMemory>
        requires { IsFile (record { constraint = constraint; units = units.items }) }
        ensures { IfOk result (λ tree. tree ≡ record { constraint = constraint; units = units.items }) }
    {
        let octets = octets_of_units(&units);
        let parts = parts_of_units(&units);
        let units = Rc::new(alloc, units)?;
        Ok(Tree {
            constraint,
            units,
            octets,
            parts,
        })
    }
}

/// Puts units after the others: in their place where nobody else has these, else after a copy of them, whose strings
/// share their octets. After an error they are as before.
fn put_after(
    alloc: Global,
    units: &mut Rc<Vec<DataUnit>>,
    mut more: Vec<DataUnit>,
) -> Result<(), NoMemory>
    ensures ok { OnOk result ((rc_value units.new).items ≡ (rc_value units.old).items ++ more.items) }
    ensures err { OnErr result ((rc_value units.new).items ≡ (rc_value units.old).items) }
{
    if let Some(own) = Rc::get_mut(units) {
        own.append(&mut more)?;
        return Ok(());
    }
    let mut all = copied(alloc, units)?;
    all.append(&mut more)?;
    *units = Rc::new(alloc, all)?;
    Ok(())
}

#[tactic(auto, using(crate::proofs::Lists::lists))]
/// A unit of the strings of all units, and of those of one more; their octets are shared.
fn longer(alloc: Global, units: &[DataUnit], more: DataUnit) -> Result<DataUnit, NoMemory>
    ensures { IfOk result (λ unit. unit ≡ strings units.now ++ more) }
{
    let mut all = Sequence::new(alloc);
    for unit in units {
        extend_by(alloc, &mut all, unit)?;
    }
    extend_by(alloc, &mut all, &more)?;
    Ok(all)
}

fn extend_by(alloc: Global, all: &mut DataUnit, unit: &DataUnit) -> Result<(), NoMemory>
    ensures { OnOk result (all.new ≡ all.old ++ unit.now) }
{
    for string in unit.as_slice() {
        let string = string.copy(alloc)?;
        all.push(string)?;
    }
    Ok(())
}
