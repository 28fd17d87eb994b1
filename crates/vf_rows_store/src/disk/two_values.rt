//! A caller that is proved from the trait's clauses alone: three octets stand for one of two values, by the first.
ghost use Rattle.std.specs.Prelude.{◌≡◌, ◌⊎◌, [], ◌∷◌, Some, ℕ, OnOk};
ghost use Rattle.vf_disk.specs.Disk.{LeavesOnly, LeavesShown};
ghost use Rattle.vf_rows_store.specs.Value.{value_of};

use vf_base::Failed;
use vf_disk::Disk;

/// Writes a value beside the old one, syncs, lets the first octet choose it, and syncs. A crash at any moment
/// leaves one of the two.
pub fn choose<D: Disk>(disk: &mut D, old: u8, value: u8) -> Result<(), Failed>
    requires shown { D.shown disk.old ≡ Some (0 ∷ old ∷ 0 ∷ []) }
    requires synced { LeavesShown (D.shown disk.old) (D.may_leave disk.old) }
    requires size { D.size disk.old ≡ 3 }
    ensures any_moment { LeavesOnly D.moment D.left_since disk.old disk.new (λ image. (value_of image ≡ old) ⊎ (value_of image ≡ value)) }
    ensures done { OnOk result (D.shown disk.new ≡ Some (1 ∷ old ∷ value ∷ [])) }
    ensures synced { OnOk result (LeavesShown (D.shown disk.new) (D.may_leave disk.new)) }
{
    let _ = old;
    disk.write_at(2, &[value])?;
    disk.sync()?;
    disk.write_at(0, &[1])?;
    disk.sync()?;
    Ok(())
}
