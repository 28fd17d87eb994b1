ghost use Rattle.std.specs.Prelude.{◌↔◌, IsTrue};
ghost use Rattle.vf_tree.specs.Actions.{LeavesFile};
ghost use Rattle.vf_tree.specs.Acts.{Extends, Inserts, Replaces, does};

use super::Tree;
use crate::limits::{has_room, is_within};
use vf_base::{Constraint, DataUnit, FaduId};

#[tactic(auto, using(crate::proofs::Sizes::sizes))]
impl Tree {
    /// Whether an insert is refused or leaves the file within its limits.
    pub fn has_room_to_insert(&self, id: FaduId, units: &[DataUnit]) -> bool
        ensures { IsTrue result ↔ LeavesFile (does self.now 0 (Inserts id units.now)) }
    {
        if self.constraint == Constraint::Unstructured || id != FaduId::End {
            return true;
        }
        is_within(self.octets, self.parts, units)
    }

    /// Whether a replace is refused or leaves the file within its limits.
    pub fn has_room_to_replace(&self, id: FaduId, unit: &DataUnit) -> bool
        ensures { IsTrue result ↔ LeavesFile (does self.now 0 (Replaces id unit.now)) }
    {
        if self.constraint == Constraint::SequentialFlat {
            return true;
        }
        if id != FaduId::Begin && id != FaduId::First {
            return true;
        }
        has_room(0, 1, unit.as_slice())
    }

    /// Whether an extend is refused or leaves the file within its limits.
    pub fn has_room_to_extend(&self, id: FaduId, unit: &DataUnit) -> bool
        ensures { IsTrue result ↔ LeavesFile (does self.now 0 (Extends id unit.now)) }
    {
        if self.constraint == Constraint::SequentialFlat {
            return true;
        }
        if id != FaduId::Begin && id != FaduId::First {
            return true;
        }
        has_room(self.octets, self.parts, unit.as_slice())
    }
}
