ghost use Rattle.std.specs.Prelude.{◌≡◌, ℕ, Bool, Option, is_err, OnOk, OnErr};
ghost use Rattle.vf_base.specs.Faults.{HasRisen, NeverFalls};
ghost use Rattle.vf_base.specs.Links.{Traffic, Nexts, Fills, Rises, Turns, Counts, Sends, Shuts};
ghost use Rattle.vf_base.specs.Plans.{FailurePlan, FailsAsPlanned, FailsWherePlanned, has_failed};

use crate::{Failed, LinkEvent, LinkFault};
use std::alloc::Global;

/// Many associations that come to one place.
pub trait Links {
    /// What was handed out, taken, shut and lost so far, where the object tells it.
    ghost told: { Self → Option Traffic };

    /// At most so many events are still handed out.
    ghost turns: { Self → ℕ };

    /// The number of the last link that arrived, 0 before the first.
    ghost last_link: { Self → ℕ };

    /// The peers are through.
    ghost through: { Self → Bool };

    /// The number of calls of `next` that failed.
    ghost fault_count: { Self → ℕ };

    /// The number of sends that failed.
    ghost send_fault_count: { Self → ℕ };

    /// The calls of `next` that are to fail, where the object tells them.
    ghost plan: { Self → Option FailurePlan };

    /// The calls of `send` that are to fail, where the object tells them.
    ghost send_plan: { Self → Option FailurePlan };

    /// The next event. `piece` is cleared, and filled with the octets that came.
    fn next(&mut self, alloc: Global, piece: &mut Vec<u8>) -> Result<LinkEvent, LinkFault>
        ensures piece { Fills piece.new.items result }
        ensures traffic { Nexts (told self.old) (told self.new) piece.new.items result }
        ensures plan { FailsAsPlanned (plan self.old) (plan self.new) (has_failed result) }
        ensures send_plan { send_plan self.new ≡ send_plan self.old }
        ensures link { Rises (last_link self.old) (last_link self.new) result }
        ensures turns { Turns (turns self.old) (turns self.new) (through self.new) result }
        ensures count { Counts (fault_count self.old) (fault_count self.new) result }
        ensures falls { NeverFalls (fault_count self.old) (fault_count self.new) }
        ensures send_count { send_fault_count self.new ≡ send_fault_count self.old };

    /// Sends octets on a link: all of them, or a prefix of them where it fails.
    fn send(&mut self, link: u32, octets: &[u8]) -> Result<(), Failed>
        ensures traffic { Sends (told self.old) (told self.new) link octets.now result }
        ensures plan { plan self.new ≡ plan self.old }
        ensures send_plan { FailsWherePlanned (send_plan self.old) (send_plan self.new) (is_err result) }
        ensures link { last_link self.new ≡ last_link self.old }
        ensures turns { turns self.new ≡ turns self.old }
        ensures through { through self.new ≡ through self.old }
        ensures count { fault_count self.new ≡ fault_count self.old }
        ensures ok { OnOk result (send_fault_count self.new ≡ send_fault_count self.old) }
        ensures falls { NeverFalls (send_fault_count self.old) (send_fault_count self.new) }
        ensures failed { OnErr result (HasRisen (send_fault_count self.old) (send_fault_count self.new)) };

    /// Ends a link.
    fn shut(&mut self, link: u32)
        ensures traffic { Shuts (told self.old) (told self.new) link }
        ensures plan { plan self.new ≡ plan self.old }
        ensures send_plan { send_plan self.new ≡ send_plan self.old }
        ensures link { last_link self.new ≡ last_link self.old }
        ensures turns { turns self.new ≡ turns self.old }
        ensures through { through self.new ≡ through self.old }
        ensures count { fault_count self.new ≡ fault_count self.old }
        ensures send_count { send_fault_count self.new ≡ send_fault_count self.old };

    /// At most so many events are still handed out.
    fn turns_left(&self) -> u64
        ensures { result ≡ turns self.now };

    /// How many sends failed; it stands still at its type's end.
    fn send_faults(&self) -> u64
        ensures { result ≡ send_fault_count self.now };

    /// How many calls of `next` failed; it stands still at its type's end.
    fn faults(&self) -> u64
        ensures { result ≡ fault_count self.now };
}
