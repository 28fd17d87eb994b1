//! Which calls of a disk in memory fail.
ghost use Rattle.std.specs.Prelude.{◌≡◌, Some, IfOk};
ghost use Rattle.vf_disk.specs.Plans.{after_change, after_look, change_fails, counted_down as nearer, is_after_stop as after_stop_test, is_stopped as stopped_test, look_fails, planned, sooner as sooner_of};

use std::alloc::Global;
use std::marker::Model;
use vf_base::NoMemory;

/// The calls that are to fail: those of certain numbers, from 1, and from a stop on all.
#[derive(Drop)]
pub(crate) struct Plan {
    failing: Vec<u64>,
    calls: u64,
    until_stop: Option<u32>,
}

impl Model for Plan {
    ghost use Rattle.vf_disk.specs.Plans.{StopPlan};

    ghost Value = { StopPlan };

    ghost view = { λ plan. record { numbers = record { failing = plan.failing.items; calls = plan.calls }; until_stop = plan.until_stop } };
}

impl Plan {
    pub(crate) fn new(failing: Vec<u64>) -> Plan
        ensures { result ≡ planned failing.items }
    {
        Plan {
            failing,
            calls: 0,
            until_stop: None,
        }
    }

    /// An equal plan.
    pub(crate) fn copy(&self, alloc: Global) -> Result<Plan, NoMemory>
        ensures { IfOk result (λ plan. plan ≡ self.now) }
    {
        let failing = self.failing.as_slice().to_vec(alloc)?;
        Ok(Plan {
            failing,
            calls: self.calls,
            until_stop: self.until_stop,
        })
    }

    /// Lets the `call`-th write, cut or sync from now, and every call after it, fail, unless a stop comes sooner.
    pub(crate) fn stop(&mut self, call: u32)
        ensures { self.new ≡ record self.old { until_stop = Some (sooner_of call self.old.until_stop) } }
    {
        self.until_stop = Some(sooner(call, self.until_stop));
    }

    /// Whether the stopped call was made.
    pub(crate) fn is_after_stop(&self) -> bool
        ensures { result ≡ after_stop_test self.now.until_stop }
    {
        is_after_stop(self.until_stop)
    }

    /// Counts a `len` or a `read`, and says whether it is to fail.
    pub(crate) fn looks(&mut self) -> bool
        ensures fails { result ≡ look_fails self.old }
        ensures call { self.new ≡ after_look self.old }
    {
        self.calls = self.calls.saturating_add(1);
        is_after_stop(self.until_stop) || self.failing.contains(&self.calls)
    }

    /// Counts a write, a cut or a sync, and says whether it is to fail.
    pub(crate) fn changes(&mut self) -> bool
        ensures fails { result ≡ change_fails self.old }
        ensures call { self.new ≡ after_change self.old }
    {
        let stopped = is_stopped(self.until_stop);
        self.until_stop = counted_down(self.until_stop);
        self.calls = self.calls.saturating_add(1);
        stopped || self.failing.contains(&self.calls)
    }
}

fn is_after_stop(until_stop: Option<u32>) -> bool
    ensures { result ≡ after_stop_test until_stop }
{
    match until_stop {
        None => false,
        Some(left) => left == 0,
    }
}

fn is_stopped(until_stop: Option<u32>) -> bool
    ensures { result ≡ stopped_test until_stop }
{
    match until_stop {
        None => false,
        Some(left) => left <= 1,
    }
}

fn sooner(call: u32, until_stop: Option<u32>) -> u32
    ensures { result ≡ sooner_of call until_stop }
{
    match until_stop {
        None => call,
        Some(left) => call.min(left),
    }
}

fn counted_down(until_stop: Option<u32>) -> Option<u32>
    ensures { result ≡ nearer until_stop }
{
    match until_stop {
        None => None,
        Some(left) => Some(left.saturating_sub(1)),
    }
}
