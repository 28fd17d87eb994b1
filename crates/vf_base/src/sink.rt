ghost use Rattle.std.specs.Prelude.{◌≡◌, ℕ, List, Option, is_err, OnOk, OnErr};
ghost use Rattle.vf_base.specs.Faults.{HasRisen, NeverFalls};
ghost use Rattle.vf_base.specs.Plans.{FailurePlan, FailsWherePlanned};
ghost use Rattle.vf_base.specs.Streams.{Writes};

use crate::Failed;

/// Where octets go.
pub trait Sink {
    /// The octets that were taken, where the sink tells them.
    ghost taken: { Self → Option (List ℕ) };

    /// The number of calls that failed.
    ghost fault_count: { Self → ℕ };

    /// The calls that are to fail, where the sink tells them.
    ghost plan: { Self → Option FailurePlan };

    /// Takes all of the octets, or a prefix of them where it fails.
    fn write(&mut self, octets: &[u8]) -> Result<(), Failed>
        ensures octets { Writes (taken self.old) (taken self.new) octets.now result }
        ensures plan { FailsWherePlanned (plan self.old) (plan self.new) (is_err result) }
        ensures ok { OnOk result (fault_count self.new ≡ fault_count self.old) }
        ensures falls { NeverFalls (fault_count self.old) (fault_count self.new) }
        ensures failed { OnErr result (HasRisen (fault_count self.old) (fault_count self.new)) };

    /// How many calls failed; it stands still at its type's end.
    fn faults(&self) -> u64
        ensures { result ≡ fault_count self.now };
}
