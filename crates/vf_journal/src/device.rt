//! Calls of a disk that belong together.
ghost use Rattle.std.specs.Prelude.{◌≡◌, ◌+◌, ◌≤◌, ◌∷◌, ℕ, List, Some, length, is_err, max, true, IfOk, OnOk, OnErr};
ghost use Rattle.vf_base.specs.Faults.{HasRisen};
ghost use Rattle.vf_disk.specs.Disk.{Torn, LeavesOnly, LeavesShown, greatest_length, overwritten};
ghost use Rattle.vf_disk.specs.Calls.{MakesChanges};
ghost use Rattle.vf_disk.specs.Steps.{MakesSteps};
ghost use Rattle.vf_disk.specs.declared.step.Step.TheVariants.{Wrote};
ghost use Rattle.vf_journal.specs.Layout.{part};
ghost use Rattle.vf_journal.specs.Looking.{IsLookedAt};
ghost use Rattle.vf_journal.specs.Writes.{MadeBy, Shows, written_steps};

use vf_base::Failed;
use vf_disk::{Disk, Parts};

/// Writes octets at a place and syncs. A crash at any moment leaves an image from before, or that write cut short, and
/// after a fault a read gives such an image.
pub(crate) fn write_synced<D: Disk>(disk: &mut D, at: u64, octets: &[u8]) -> Result<(), Failed>
    requires { at ≤ D.size disk.old }
    ensures shown { (old : List ℕ) → D.shown disk.old ≡ Some old → OnOk result (D.shown disk.new ≡ Some (overwritten old at octets.now)) }
    ensures seen { (old : List ℕ) → D.shown disk.old ≡ Some old → Shows (D.shown disk.new) (Torn at (length octets.now) old) }
    ensures synced { OnOk result (LeavesShown (D.shown disk.new) (D.may_leave disk.new)) }
    ensures size { OnOk result (D.size disk.new ≡ max (D.size disk.old) (at + length octets.now)) }
    ensures bound { OnOk result (at + length octets.now ≤ greatest_length) }
    ensures grows { D.size disk.old ≤ D.size disk.new }
    ensures any_moment { LeavesOnly D.moment D.left_since disk.old disk.new (MadeBy (Torn at (length octets.now)) (D.may_leave disk.old)) }
    ensures calls { MakesChanges 2 (D.plan disk.old) (D.plan disk.new) (is_err result) }
    ensures steps { MakesSteps (written_steps at octets.now) (D.plan disk.old) (D.plan disk.new) (D.state disk.old) (D.state disk.new) (is_err result) (D.lack_count disk.old) (D.lack_count disk.new) }
    ensures ok { OnOk result (D.fault_count disk.new ≡ D.fault_count disk.old) }
    ensures failed { OnErr result (HasRisen (D.fault_count disk.old) (D.fault_count disk.new)) }
{
    disk.write_at(at, octets)?;
    disk.sync()?;
    Ok(())
}

/// Writes octets that stand in parts at a place and syncs. A crash at any moment leaves an image from before, or that write cut short, and
/// after a fault a read gives such an image.
pub(crate) fn write_parts_synced<D: Disk>(
    disk: &mut D,
    at: u64,
    octets: &Parts,
) -> Result<(), Failed>
    requires { at ≤ D.size disk.old }
    ensures shown { (old : List ℕ) → D.shown disk.old ≡ Some old → OnOk result (D.shown disk.new ≡ Some (overwritten old at octets.now.items)) }
    ensures seen { (old : List ℕ) → D.shown disk.old ≡ Some old → Shows (D.shown disk.new) (Torn at (length octets.now.items) old) }
    ensures synced { OnOk result (LeavesShown (D.shown disk.new) (D.may_leave disk.new)) }
    ensures size { OnOk result (D.size disk.new ≡ max (D.size disk.old) (at + length octets.now.items)) }
    ensures bound { OnOk result (at + length octets.now.items ≤ greatest_length) }
    ensures grows { D.size disk.old ≤ D.size disk.new }
    ensures any_moment { LeavesOnly D.moment D.left_since disk.old disk.new (MadeBy (Torn at (length octets.now.items)) (D.may_leave disk.old)) }
    ensures calls { MakesChanges 2 (D.plan disk.old) (D.plan disk.new) (is_err result) }
    ensures steps { MakesSteps (written_steps at octets.now.items) (D.plan disk.old) (D.plan disk.new) (D.state disk.old) (D.state disk.new) (is_err result) (D.lack_count disk.old) (D.lack_count disk.new) }
    ensures ok { OnOk result (D.fault_count disk.new ≡ D.fault_count disk.old) }
    ensures failed { OnErr result (HasRisen (D.fault_count disk.old) (D.fault_count disk.new)) }
{
    disk.write_parts(at, octets)?;
    disk.sync()?;
    Ok(())
}

/// Writes octets at a place and others at another, and syncs. A crash at any moment leaves an image from before, or
/// one after both writes cut short, and after a fault a read gives such an image.
pub(crate) fn write_both_synced<D: Disk>(
    disk: &mut D,
    at: u64,
    octets: &Parts,
    then_at: u64,
    then: &[u8],
) -> Result<(), Failed>
    requires at { at ≤ D.size disk.old }
    requires then { then_at ≤ D.size disk.old }
    ensures shown { (old : List ℕ) → D.shown disk.old ≡ Some old → OnOk result (D.shown disk.new ≡ Some (overwritten (overwritten old at octets.now.items) then_at then.now)) }
    ensures seen { (old : List ℕ) → D.shown disk.old ≡ Some old → Shows (D.shown disk.new) (MadeBy (Torn then_at (length then.now)) (Torn at (length octets.now.items) old)) }
    ensures synced { OnOk result (LeavesShown (D.shown disk.new) (D.may_leave disk.new)) }
    ensures size { OnOk result (D.size disk.new ≡ max (max (D.size disk.old) (at + length octets.now.items)) (then_at + length then.now)) }
    ensures bound { OnOk result (at + length octets.now.items ≤ greatest_length) }
    ensures grows { D.size disk.old ≤ D.size disk.new }
    ensures any_moment { LeavesOnly D.moment D.left_since disk.old disk.new (MadeBy (Torn then_at (length then.now)) (MadeBy (Torn at (length octets.now.items)) (D.may_leave disk.old))) }
    ensures calls { MakesChanges 3 (D.plan disk.old) (D.plan disk.new) (is_err result) }
    ensures steps { MakesSteps (Wrote at octets.now.items true ∷ written_steps then_at then.now) (D.plan disk.old) (D.plan disk.new) (D.state disk.old) (D.state disk.new) (is_err result) (D.lack_count disk.old) (D.lack_count disk.new) }
    ensures ok { OnOk result (D.fault_count disk.new ≡ D.fault_count disk.old) }
    ensures failed { OnErr result (HasRisen (D.fault_count disk.old) (D.fault_count disk.new)) }
{
    disk.write_parts(at, octets)?;
    write_synced(disk, then_at, then)?;
    Ok(())
}

/// The number of octets of a disk.
pub(crate) fn measure<D: Disk>(disk: &mut D) -> Result<u64, Failed>
    ensures length { IfOk result (λ length. length ≡ D.size disk.old) }
    ensures bound { IfOk result (λ length. length ≤ greatest_length) }
    ensures looks { IsLookedAt D.shown D.size D.may_leave D.moment D.left_since D.plan D.state D.lack_count (is_err result) disk.old disk.new }
    ensures ok { OnOk result (D.fault_count disk.new ≡ D.fault_count disk.old) }
    ensures failed { OnErr result (HasRisen (D.fault_count disk.old) (D.fault_count disk.new)) }
{
    let length = disk.len()?;
    Ok(length)
}

/// Fills `into` with the octets from a place on.
pub(crate) fn read_at<D: Disk>(disk: &mut D, at: u64, into: &mut [u8]) -> Result<(), Failed>
    requires { at + length into.old ≤ D.size disk.old }
    ensures octets { (image : List ℕ) → D.shown disk.old ≡ Some image → OnOk result (into.new ≡ part image at (length into.old)) }
    ensures looks { IsLookedAt D.shown D.size D.may_leave D.moment D.left_since D.plan D.state D.lack_count (is_err result) disk.old disk.new }
    ensures ok { OnOk result (D.fault_count disk.new ≡ D.fault_count disk.old) }
    ensures failed { OnErr result (HasRisen (D.fault_count disk.old) (D.fault_count disk.new)) }
{
    disk.read(at, into)?;
    Ok(())
}
