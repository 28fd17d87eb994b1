ghost use Rattle.std.specs.Prelude.{◌≡◌, ◌<◌, ◌≤◌, ℕ, List, Option, length, is_err, IfOk, OnOk, OnErr};
ghost use Rattle.vf_base.specs.Faults.{HasRisen, NeverFalls};
ghost use Rattle.vf_base.specs.Plans.{FailurePlan, FailsAsPlanned};
ghost use Rattle.vf_base.specs.Streams.{Reads};

use crate::Failed;

/// Where octets come from.
pub trait Source {
    /// The octets that are left, where the source tells them.
    ghost left: { Self → Option (List ℕ) };

    /// The number of calls that failed.
    ghost fault_count: { Self → ℕ };

    /// The calls that are to fail, where the source tells them.
    ghost plan: { Self → Option FailurePlan };

    /// Reads some of the octets that are left, and says how many; 0 only at their end.
    fn read(&mut self, into: &mut [u8]) -> Result<usize, Failed>
        requires { 0 < length into.old }
        ensures within { IfOk result (λ count. count ≤ length into.new) }
        ensures octets { Reads (left self.old) (left self.new) into.new result }
        ensures plan { FailsAsPlanned (plan self.old) (plan self.new) (is_err result) }
        ensures ok { OnOk result (fault_count self.new ≡ fault_count self.old) }
        ensures falls { NeverFalls (fault_count self.old) (fault_count self.new) }
        ensures failed { OnErr result (HasRisen (fault_count self.old) (fault_count self.new)) };

    /// How many calls failed; it stands still at its type's end.
    fn faults(&self) -> u64
        ensures { result ≡ fault_count self.now };
}
