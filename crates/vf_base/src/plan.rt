ghost use Rattle.std.specs.Prelude.{◌≡◌, [], Vec};
ghost use Rattle.vf_base.specs.Faults.{HasRisen, counted};
ghost use Rattle.vf_base.specs.Plans.{is_planned, after_call};

use crate::Failed;
use std::marker::Model;

/// The calls that are to fail, by their numbers from 1, and the number of calls made.
#[derive(Drop)]
pub(crate) struct Plan {
    failing: Vec<u64>,
    calls: u64,
}

impl Model for Plan {
    ghost use Rattle.vf_base.specs.Plans.{FailurePlan};

    ghost Value = { FailurePlan };

    ghost view = { λ plan. record { failing = plan.failing.items; calls = plan.calls } };
}

impl Plan {
    pub(crate) fn new(failing: Vec<u64>) -> Plan
        ensures { result ≡ record { failing = failing.items; calls = 0 } }
    {
        Plan { failing, calls: 0 }
    }

    /// Counts a call, and says whether it is to fail.
    pub(crate) fn fails(&mut self) -> bool
        ensures planned { result ≡ is_planned self.old }
        ensures call { self.new ≡ after_call self.old }
    {
        self.calls = self.calls.saturating_add(1);
        self.failing.contains(&self.calls)
    }
}

/// Counts a fault.
pub(crate) fn fail(faults: &mut u64) -> Failed
    ensures count { faults.new ≡ counted faults.old }
    ensures risen { HasRisen faults.old faults.new }
{
    *faults = faults.saturating_add(1);
    Failed
}
