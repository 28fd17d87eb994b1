ghost use Rattle.std.specs.Prelude.{◌≡◌, ◌≤◌};
ghost use Rattle.vf_tree.specs.Acts.{Locates, does, position_of};
ghost use Rattle.vf_tree.specs.Identities.{located as located_by, meant as meant_by, standing, unit_at as unit_found};
ghost use Rattle.vf_tree.specs.TreeRefusal.{answered};

use super::Tree;
use crate::TreeError;
use crate::limits::MOST_FILE_PARTS;
use crate::units::count;
use vf_base::{Constraint, FaduId};

#[tactic(auto, using(crate::proofs::Acts::acts))]
impl Tree {
    /// The position that an identity gives, from a position that was kept: 0 is the begin, `i` is unit `i`, and one
    /// above the number of units is the end, as which a higher position counts.
    ///
    /// `Outside` where the file is unstructured, `NotFound` where the identity means no unit that is there.
    pub fn locate(&self, position: u32, id: FaduId) -> Result<u32, TreeError>
        ensures { result ≡ answered (position_of (does self.now position (Locates id))) }
    {
        match self.constraint {
            Constraint::Unstructured => Err(TreeError::Outside),
            Constraint::SequentialFlat => located(count(self.units()), position, id),
        }
    }
}

fn located(units: u32, kept: u32, id: FaduId) -> Result<u32, TreeError>
    requires { units ≤ MOST_FILE_PARTS }
    ensures { result ≡ answered (located_by units (standing units kept) id) }
{
    match id {
        FaduId::Begin => Ok(0),
        FaduId::End => Ok(units + 1),
        _ => unit_at(units, meant(units, kept, id)),
    }
}

/// The position that an identity means, whether or not a unit is there.
pub(super) fn meant(units: u32, kept: u32, id: FaduId) -> u32
    requires { units ≤ MOST_FILE_PARTS }
    ensures { result ≡ meant_by units (standing units kept) id }
{
    let position = kept.min(units + 1);
    match id {
        FaduId::Begin => 0,
        FaduId::End => units + 1,
        FaduId::First => 1,
        FaduId::Last => units,
        FaduId::Current => position,
        FaduId::Next => position + 1,
        FaduId::Previous => position.saturating_sub(1),
        FaduId::Number(number) => number,
    }
}

fn unit_at(units: u32, unit: u32) -> Result<u32, TreeError>
    ensures { result ≡ answered (unit_found units unit) }
{
    if 1 <= unit && unit <= units {
        Ok(unit)
    } else {
        Err(TreeError::NotFound)
    }
}
