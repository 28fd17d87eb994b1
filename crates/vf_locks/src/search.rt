ghost use Rattle.std.specs.Prelude.{◌≡◌, length, option_copied};
ghost use Rattle.std.specs.List.Sorted.{IsSearchInRange};
ghost use Rattle.std.specs.Option.{option_map};
ghost use Rattle.vf_locks.specs.Clash.{conflict};
ghost use Rattle.vf_locks.specs.Holders.{IsOrdered, first_other as other_than};
ghost use Rattle.vf_locks.specs.Place.{place_of};

use crate::clash::lowest_clashing;
use crate::{Held, Holder};
use vf_base::{Action, Controls};

/// The place of the holder among those that stand in order, or that before which it would stand.
pub fn search(standing: &[Held], holder: &Holder) -> Result<usize, usize>
    requires { IsOrdered standing.now }
    ensures place { result ≡ place_of holder.now standing.now }
    ensures within { IsSearchInRange result (length standing.now) }
{
    standing.binary_search_by(|held| held.holder.compare(holder))
}

/// The first that isn't this holder.
pub fn first_other<'a>(standing: &'a [Held], holder: &Holder) -> Option<&'a Holder>
    ensures { option_copied result ≡ other_than holder.now standing.now }
{
    let other = standing.iter().find(|held| !held.holder.is_same(holder))?;
    Some(&other.holder)
}

/// The first other holder that stands against what this one wants, and the lowest action on which it does.
pub fn first_against<'a>(
    standing: &'a [Held],
    holder: &Holder,
    wanted: &Controls,
) -> Option<(&'a Holder, Action)>
    ensures { option_map (λ found. record { holder = found.0.now; action = found.1 }) result ≡ conflict holder.now wanted.now standing.now }
{
    for held in standing {
        if !held.holder.is_same(holder) {
            if let Some(action) = lowest_clashing(wanted, &held.controls) {
                return Some((&held.holder, action));
            }
        }
    }
    None
}
