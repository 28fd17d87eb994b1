ghost use Rattle.std.specs.Prelude.{◌≡◌, ◌<◌, ◌≤◌, ℕ, Bool, true, false, is_ok, is_err, Option, length, IfOk, OnOk, OnErr, if◌then◌else◌};
ghost use Rattle.vf_base.specs.Faults.{HasRisen, NeverFalls, counted};
ghost use Rattle.vf_base.specs.Dial.{Connections, Connects, Says, Reads, goes_on};
ghost use Rattle.vf_base.specs.Plans.{FailurePlan, FailsAsPlanned, FailsWherePlanned};

use crate::Failed;

/// One connection after another to one peer.
pub trait Dial {
    /// The connections with what was said and heard on each, where the dial tells it.
    ghost told: { Self → Option Connections };

    /// A connection stands: from a good `connect` to a failed call, a read of 0 or a `close`.
    ghost stands: { Self → Bool };

    /// The number of connections that were lost or not had.
    ghost lost_count: { Self → ℕ };

    /// The number of calls that failed.
    ghost fault_count: { Self → ℕ };

    /// The calls of `connect`, `read` and `send` that are to fail, where the dial tells them.
    ghost plan: { Self → Option FailurePlan };

    fn connect(&mut self) -> Result<(), Failed>
        requires { stands self.old ≡ false }
        ensures connections { Connects (told self.old) (told self.new) result }
        ensures plan { FailsWherePlanned (plan self.old) (plan self.new) (is_err result) }
        ensures stands { stands self.new ≡ is_ok result }
        ensures lost { lost_count self.new ≡ (if is_ok result then lost_count self.old else counted (lost_count self.old)) }
        ensures ok { OnOk result (fault_count self.new ≡ fault_count self.old) }
        ensures falls { NeverFalls (fault_count self.old) (fault_count self.new) }
        ensures failed { OnErr result (HasRisen (fault_count self.old) (fault_count self.new)) };

    /// Reads some octets, and says how many; 0 only where the peer has ended the stream.
    fn read(&mut self, into: &mut [u8]) -> Result<usize, Failed>
        requires stands { stands self.old ≡ true }
        requires room { 0 < length into.old }
        ensures within { IfOk result (λ count. count ≤ length into.new) }
        ensures connections { Reads (told self.old) (told self.new) into.new result }
        ensures plan { FailsAsPlanned (plan self.old) (plan self.new) (is_err result) }
        ensures stands { stands self.new ≡ goes_on result }
        ensures lost { lost_count self.new ≡ (if goes_on result then lost_count self.old else counted (lost_count self.old)) }
        ensures ok { OnOk result (fault_count self.new ≡ fault_count self.old) }
        ensures falls { NeverFalls (fault_count self.old) (fault_count self.new) }
        ensures failed { OnErr result (HasRisen (fault_count self.old) (fault_count self.new)) };

    /// Sends all of the octets, or a prefix of them where it fails.
    fn send(&mut self, octets: &[u8]) -> Result<(), Failed>
        requires { stands self.old ≡ true }
        ensures connections { Says (told self.old) (told self.new) octets.now result }
        ensures plan { FailsWherePlanned (plan self.old) (plan self.new) (is_err result) }
        ensures stands { stands self.new ≡ is_ok result }
        ensures lost { lost_count self.new ≡ (if is_ok result then lost_count self.old else counted (lost_count self.old)) }
        ensures ok { OnOk result (fault_count self.new ≡ fault_count self.old) }
        ensures falls { NeverFalls (fault_count self.old) (fault_count self.new) }
        ensures failed { OnErr result (HasRisen (fault_count self.old) (fault_count self.new)) };

    /// Ends the connection, where one stands.
    fn close(&mut self)
        ensures connections { told self.new ≡ told self.old }
        ensures plan { plan self.new ≡ plan self.old }
        ensures stands { stands self.new ≡ false }
        ensures lost { lost_count self.new ≡ lost_count self.old }
        ensures count { fault_count self.new ≡ fault_count self.old };

    /// How many connections a call lost by failing or by reading the end, or did not get; it stands still at its
    /// type's end.
    fn lost(&self) -> u64
        ensures { result ≡ lost_count self.now };

    /// How many calls failed; it stands still at its type's end.
    fn faults(&self) -> u64
        ensures { result ≡ fault_count self.now };
}
