//! Laws of the disk model, each the contract of a function that does nothing.
ghost use Rattle.std.specs.Prelude.{◌≡◌, ℕ, List, Some};
ghost use Rattle.vf_disk.specs.Disk.{LeavesShown};
ghost use Rattle.vf_disk.specs.Laws.{CallsJoin, FewerCalls, GoesOn, Joins, Starts, StepsJoin, StopLeaves, Weakens};

use crate::Disk;

/// What an image may be, for the laws on all such.
pub trait Outcome {
    ghost allows: { List ℕ → Type 0 };
}

/// Before the first call a crash leaves what the disk may leave now.
pub fn starts<D: Disk, P: Outcome>()
    ensures { Starts D.moment D.left_since D.may_leave P.allows }
{}

/// A call more goes on from "a crash since leaves only such images" to the same, where what it may leave is such.
pub fn goes_on<D: Disk, P: Outcome>()
    ensures { GoesOn D.moment D.left_since D.may_leave P.allows }
{}

/// Two runs of calls, each of which leaves only images that are allowed, are one that does.
pub fn runs_join<D: Disk, P: Outcome, Q: Outcome, R: Outcome>()
    ensures { Joins D.moment D.left_since P.allows Q.allows R.allows }
{}

/// A run of calls that leaves only some of the images that are allowed leaves only such.
pub fn runs_weaken<D: Disk, P: Outcome, R: Outcome>()
    ensures { Weakens D.moment D.left_since P.allows R.allows }
{}

/// A synced disk leaves only what a read gives.
pub fn synced_leaves<D: Disk>()
    ensures { (disk : D) (octets image : List ℕ) → LeavesShown (D.shown disk) (D.may_leave disk) → D.shown disk ≡ Some octets → D.may_leave disk image → image ≡ octets }
{}

/// Calls after calls that all succeeded are counted together.
pub fn calls_join()
    ensures { CallsJoin }
{}

/// A run of calls that ends early is an early end of a longer one.
pub fn fewer_calls()
    ensures { FewerCalls }
{}

/// A row of calls after another of which all succeeded goes on as the two in one.
pub fn steps_join()
    ensures { StepsJoin }
{}

/// What a stop at a call of a row leaves can be computed: the calls before it, and that one as one that failed.
pub fn stop_leaves()
    ensures { StopLeaves }
{}
