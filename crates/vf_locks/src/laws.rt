//! Laws of the holders of one file, each the contract of a function that does nothing.
ghost use Rattle.std.specs.Prelude.{◌≡◌, List};
ghost use Rattle.vf_base.specs.declared.action.Controls.{Controls};
ghost use Rattle.vf_locks.specs.declared.held.Held.{Held};
ghost use Rattle.vf_locks.specs.declared.holder.Holder.{Holder};
ghost use Rattle.vf_locks.specs.Holders.{IsOrdered, controls_of, granted, others, passed};

/// Holders that stand in order do so too once one of them is granted controls, goes, or is passed to another.
pub fn stay_ordered()
    ensures granted { (holder : Holder) (controls : Controls) (helds : List Held) → IsOrdered helds → IsOrdered (granted holder controls helds) }
    ensures released { (holder : Holder) (helds : List Held) → IsOrdered helds → IsOrdered (others holder helds) }
    ensures passed { (from to : Holder) (helds : List Held) → IsOrdered helds → IsOrdered (passed from to helds) }
{}

/// Holders that stand in order are told by the controls of each: where two lists agree on these, they are one.
pub fn told_by_controls()
    ensures { (ones twos : List Held) → IsOrdered ones → IsOrdered twos → ((holder : Holder) → controls_of holder ones ≡ controls_of holder twos) → ones ≡ twos }
{}
