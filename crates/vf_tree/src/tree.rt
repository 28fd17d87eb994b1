ghost use Rattle.std.specs.Prelude.{◌≡◌, IfOk};
ghost use Rattle.vf_tree.specs.FileTree.{IsFile, new_file, octets_in};

mod actions;
mod identities;
mod reads;
mod room;

use std::alloc::Global;
use std::marker::Model;
use std::rc::Rc;
use vf_base::{Constraint, DataUnit, NoMemory, Sequence};

/// A file within its limits, `MOST_FILE_OCTETS` and `MOST_FILE_PARTS`.
///
/// The units are kept under one pointer, which trees that are equal may share, and their strings are shared octets.
/// An action makes a new list of units, so a tree that shared the old one stays as it was.
#[derive(Drop)]
pub struct Tree {
    constraint: Constraint,
    units: Rc<Vec<DataUnit>>,
    octets: u64,
    parts: u32,
}

impl Model for Tree {
    ghost use Rattle.std.specs.Prelude.{◌≡◌};
    ghost use Rattle.std.specs.Rc.{rc_value};
    ghost use Rattle.vf_tree.specs.FileTree.{FileTree, IsFile, octets_in, parts_in};

    ghost Value = { FileTree };

    ghost view = { λ tree. record { constraint = tree.constraint; units = (rc_value tree.units).items } };

    ghost invariant = { λ tree. IsFile (record { constraint = tree.constraint; units = (rc_value tree.units).items }) × (tree.octets ≡ octets_in (rc_value tree.units).items) × (tree.parts ≡ parts_in (rc_value tree.units).items) };
}

impl Tree {
    /// A new file: one unit without strings where it is unstructured, no unit where it is sequential flat.
    pub fn empty(alloc: Global, constraint: Constraint) -> Result<Tree, NoMemory>
        ensures { IfOk result (λ tree. tree ≡ new_file constraint) }
    {
        let mut units = Vec::new(alloc);
        let parts = match constraint {
            Constraint::Unstructured => {
                units.push(Sequence::new(alloc))?;
                1
            }
            Constraint::SequentialFlat => 0,
        };
        let units = Rc::new(alloc, units)?;
        Ok(Tree {
            constraint,
            units,
            octets: 0,
            parts,
        })
    }

    /// An equal tree over the same units; `NoMemory` only where the pointer's count of owners is at its end.
    pub fn share(&self) -> Result<Tree, NoMemory>
        ensures { IfOk result (λ tree. tree ≡ self.now) }
    {
        let units = self.units.clone()?;
        Ok(Tree {
            constraint: self.constraint,
            units,
            octets: self.octets,
            parts: self.parts,
        })
    }

    /// An equal tree, which shares the units.
    pub fn copy(&self, _alloc: Global) -> Result<Tree, NoMemory>
        ensures { IfOk result (λ tree. tree ≡ self.now) }
    {
        let tree = self.share()?;
        Ok(tree)
    }

    pub fn constraint(&self) -> Constraint
        ensures { result ≡ self.now.constraint }
    {
        self.constraint
    }

    /// The units, in order.
    pub fn units(&self) -> &[DataUnit]
        ensures units { result.now ≡ self.now.units }
        ensures within { IsFile self.now }
    {
        self.units.as_slice()
    }

    /// The octets of all strings, which are kept as a number.
    pub fn size(&self) -> u64
        ensures { result ≡ octets_in self.now.units }
    {
        self.octets
    }
}
