ghost use Rattle.std.specs.Prelude.{◌≡◌, ◌+◌, ◌<◌, ◌≤◌, ◌∷◌, [], ℕ, List, Option, Some, true, length, is_err, IfOk, OnOk, OnErr, IsErr};
ghost use Rattle.vf_base.specs.Faults.{HasRisen, NeverFalls};
ghost use Rattle.vf_disk.specs.Disk.{greatest_length, Torn, Shortened, Follows, Within, LeavesShown, Gives, Writes, Cuts, length_written, length_cut, Elapses};
ghost use Rattle.vf_disk.specs.Plans.{StopPlan, LooksAsPlanned, SyncsAsPlanned, ChangesWherePlanned};
ghost use Rattle.vf_disk.specs.State.{State};
ghost use Rattle.vf_disk.specs.Steps.{LeavesState, MakesSteps};
ghost use Rattle.vf_disk.specs.declared.step.Step.TheVariants.{Wrote, CutTo, Synced};

use crate::Parts;
use vf_base::Failed;

/// A disk: octets that are read and written at places from 0, and what a crash may leave of them.
pub trait Disk {
    /// What a read of all octets gives, where the disk tells it.
    ghost shown: { Self → Option (List ℕ) };

    /// The number of octets, which every disk tells.
    ghost size: { Self → ℕ };

    /// The images that a crash now may leave; none where the disk can't tell them.
    ghost may_leave: { Self → List ℕ → Type 0 };

    /// A clock that doesn't fall.
    ghost moment: { Self → ℕ };

    /// The images that a crash at some moment from that one on might have left, during a call or between two.
    ghost left_since: { Self → ℕ → List ℕ → Type 0 };

    /// The number of calls that failed.
    ghost fault_count: { Self → ℕ };

    /// The calls that are to fail, where the disk tells them.
    ghost plan: { Self → Option StopPlan };

    /// What the calls since the last sync have made, where the disk tells it: what each form of a crash leaves can be
    /// computed from it.
    ghost state: { Self → Option State };

    /// The number of calls that found no memory.
    ghost lack_count: { Self → ℕ };

    /// The number of octets.
    fn len(&mut self) -> Result<u64, Failed>
        ensures length { IfOk result (λ length. length ≡ size self.old) }
        ensures bound { IfOk result (λ length. length ≤ greatest_length) }
        ensures shown { shown self.new ≡ shown self.old }
        ensures size { size self.new ≡ size self.old }
        ensures crash { Within (may_leave self.old) (may_leave self.new) }
        ensures time { Elapses (moment self.old) (moment self.new) (left_since self.old) (left_since self.new) (may_leave self.new) }
        ensures plan { LooksAsPlanned (plan self.old) (plan self.new) (is_err result) }
        ensures state { (state self.new ≡ state self.old) × (lack_count self.new ≡ lack_count self.old) }
        ensures ok { OnOk result (fault_count self.new ≡ fault_count self.old) }
        ensures falls { NeverFalls (fault_count self.old) (fault_count self.new) }
        ensures failed { OnErr result (HasRisen (fault_count self.old) (fault_count self.new)) };

    /// Fills `into` with the octets from a place on.
    fn read(&mut self, at: u64, into: &mut [u8]) -> Result<(), Failed>
        requires { at + length into.old ≤ size self.old }
        ensures octets { Gives (shown self.old) at into.new result }
        ensures shown { shown self.new ≡ shown self.old }
        ensures size { size self.new ≡ size self.old }
        ensures crash { Within (may_leave self.old) (may_leave self.new) }
        ensures time { Elapses (moment self.old) (moment self.new) (left_since self.old) (left_since self.new) (may_leave self.new) }
        ensures plan { LooksAsPlanned (plan self.old) (plan self.new) (is_err result) }
        ensures state { (state self.new ≡ state self.old) × (lack_count self.new ≡ lack_count self.old) }
        ensures ok { OnOk result (fault_count self.new ≡ fault_count self.old) }
        ensures falls { NeverFalls (fault_count self.old) (fault_count self.new) }
        ensures failed { OnErr result (HasRisen (fault_count self.old) (fault_count self.new)) };

    /// Writes over what is there and past the end. Until a sync a crash may leave any octets in the range, whether
    /// the write succeeds or fails. A write that would pass the greatest length fails and changes nothing.
    fn write_at(&mut self, at: u64, octets: &[u8]) -> Result<(), Failed>
        requires { at ≤ size self.old }
        ensures shown { Writes (shown self.old) (shown self.new) at octets.now result }
        ensures size { size self.new ≡ length_written (size self.old) at (length octets.now) result }
        ensures crash { Follows (Torn at (length octets.now)) (may_leave self.old) (may_leave self.new) }
        ensures long { greatest_length < at + length octets.now → IsErr result × (shown self.new ≡ shown self.old) × Within (may_leave self.old) (may_leave self.new) }
        ensures time { Elapses (moment self.old) (moment self.new) (left_since self.old) (left_since self.new) (may_leave self.new) }
        ensures plan { ChangesWherePlanned (plan self.old) (plan self.new) (is_err result) }
        ensures state { MakesSteps (Wrote at octets.now true ∷ []) (plan self.old) (plan self.new) (state self.old) (state self.new) (is_err result) (lack_count self.old) (lack_count self.new) }
        ensures ok { OnOk result (fault_count self.new ≡ fault_count self.old) }
        ensures falls { NeverFalls (fault_count self.old) (fault_count self.new) }
        ensures failed { OnErr result (HasRisen (fault_count self.old) (fault_count self.new)) };

    /// Writes octets that stand in parts, as `write_at` writes them, in one call.
    fn write_parts(&mut self, at: u64, octets: &Parts) -> Result<(), Failed>
        requires { at ≤ size self.old }
        ensures shown { Writes (shown self.old) (shown self.new) at octets.now.items result }
        ensures size { size self.new ≡ length_written (size self.old) at (length octets.now.items) result }
        ensures crash { Follows (Torn at (length octets.now.items)) (may_leave self.old) (may_leave self.new) }
        ensures long { greatest_length < at + length octets.now.items → IsErr result × (shown self.new ≡ shown self.old) × Within (may_leave self.old) (may_leave self.new) }
        ensures time { Elapses (moment self.old) (moment self.new) (left_since self.old) (left_since self.new) (may_leave self.new) }
        ensures plan { ChangesWherePlanned (plan self.old) (plan self.new) (is_err result) }
        ensures state { MakesSteps (Wrote at octets.now.items true ∷ []) (plan self.old) (plan self.new) (state self.old) (state self.new) (is_err result) (lack_count self.old) (lack_count self.new) }
        ensures ok { OnOk result (fault_count self.new ≡ fault_count self.old) }
        ensures falls { NeverFalls (fault_count self.old) (fault_count self.new) }
        ensures failed { OnErr result (HasRisen (fault_count self.old) (fault_count self.new)) };

    /// Cuts the disk to a length. Until a sync a crash may leave octets that the cut took away, holding anything,
    /// whether the cut succeeds or fails.
    fn cut(&mut self, to: u64) -> Result<(), Failed>
        requires { to ≤ size self.old }
        ensures shown { Cuts (shown self.old) (shown self.new) to result }
        ensures size { size self.new ≡ length_cut (size self.old) to result }
        ensures crash { Follows (Shortened to) (may_leave self.old) (may_leave self.new) }
        ensures time { Elapses (moment self.old) (moment self.new) (left_since self.old) (left_since self.new) (may_leave self.new) }
        ensures plan { ChangesWherePlanned (plan self.old) (plan self.new) (is_err result) }
        ensures state { MakesSteps (CutTo to true ∷ []) (plan self.old) (plan self.new) (state self.old) (state self.new) (is_err result) (lack_count self.old) (lack_count self.new) }
        ensures ok { OnOk result (fault_count self.new ≡ fault_count self.old) }
        ensures falls { NeverFalls (fault_count self.old) (fault_count self.new) }
        ensures failed { OnErr result (HasRisen (fault_count self.old) (fault_count self.new)) };

    /// After it a crash leaves what a read gives. One that fails changes nothing.
    fn sync(&mut self) -> Result<(), Failed>
        ensures durable { OnOk result (LeavesShown (shown self.new) (may_leave self.new)) }
        ensures shown { shown self.new ≡ shown self.old }
        ensures size { size self.new ≡ size self.old }
        ensures crash { Within (may_leave self.old) (may_leave self.new) }
        ensures time { Elapses (moment self.old) (moment self.new) (left_since self.old) (left_since self.new) (may_leave self.new) }
        ensures plan { SyncsAsPlanned (plan self.old) (plan self.new) (is_err result) }
        ensures state { LeavesState (Synced ∷ []) (plan self.old) (state self.old) (state self.new) }
        ensures memory { lack_count self.new ≡ lack_count self.old }
        ensures ok { OnOk result (fault_count self.new ≡ fault_count self.old) }
        ensures falls { NeverFalls (fault_count self.old) (fault_count self.new) }
        ensures failed { OnErr result (HasRisen (fault_count self.old) (fault_count self.new)) };

    /// How many calls failed; it stands still at its type's end.
    fn faults(&self) -> u64
        ensures { result ≡ fault_count self.now };

    /// What a read gives has the disk's number of octets.
    ghost measured: { (disk : Self) (octets : List ℕ) → shown disk ≡ Some octets → length octets ≡ size disk };

    /// This moment is one of those since an earlier one.
    ghost counts_now: { (disk : Self) (since : ℕ) (image : List ℕ) → since ≤ moment disk → may_leave disk image → left_since disk since image };

    /// Since this moment there is no other.
    ghost only_now: { (disk : Self) (image : List ℕ) → left_since disk (moment disk) image → may_leave disk image };

    /// A disk that tells its state tells what a read gives by it.
    ghost told: { (disk : Self) (now : State) → state disk ≡ Some now → shown disk ≡ Some now.shown };
}
