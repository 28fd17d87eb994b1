//! A source and a sink in memory, with planned failures.
ghost use Rattle.std.specs.Prelude.{◌≡◌, [], Some};

use crate::plan::{Plan, fail};
use crate::{Failed, Sink, Source};
use std::alloc::Global;
use std::marker::Model;

/// A source over octets in memory; the calls of the numbers in `failing`, from 1, fail.
#[derive(Drop)]
pub struct SliceSource<'a> {
    octets: &'a [u8],
    plan: Plan,
    faults: u64,
}

impl<'a> Model for SliceSource<'a> {
    ghost use Rattle.vf_base.specs.Memory.{Slice};

    ghost Value = { Slice };

    ghost view = { λ source. record { left = source.octets.now; plan = source.plan; faults = source.faults } };
}

impl<'a> SliceSource<'a> {
    pub fn new(octets: &'a [u8], failing: Vec<u64>) -> SliceSource<'a>
        ensures { result ≡ record { left = octets.now; plan = record { failing = failing.items; calls = 0 }; faults = 0 } }
    {
        SliceSource {
            octets,
            plan: Plan::new(failing),
            faults: 0,
        }
    }
}

impl<'a> Source for SliceSource<'a> {
    ghost left = { λ source. Some source.left };

    ghost fault_count = { λ source. source.faults };

    ghost plan = { λ source. Some source.plan };

    fn read(&mut self, into: &mut [u8]) -> Result<usize, Failed> {
        if self.plan.fails() {
            return Err(fail(&mut self.faults));
        }
        let count = into.len().min(self.octets.len());
        let (prefix, rest) = self.octets.split_at(count);
        into[..count].copy_from_slice(prefix);
        self.octets = rest;
        Ok(count)
    }

    fn faults(&self) -> u64 {
        self.faults
    }
}

/// A sink into memory; the calls of the numbers in `failing`, from 1, fail with half of their octets taken.
#[derive(Drop)]
pub struct VecSink {
    octets: Vec<u8>,
    plan: Plan,
    faults: u64,
}

impl Model for VecSink {
    ghost use Rattle.vf_base.specs.Memory.{Taken};

    ghost Value = { Taken };

    ghost view = { λ sink. record { octets = sink.octets.items; plan = sink.plan; faults = sink.faults } };
}

impl VecSink {
    pub fn new(alloc: Global, failing: Vec<u64>) -> VecSink
        ensures { result ≡ record { octets = []; plan = record { failing = failing.items; calls = 0 }; faults = 0 } }
    {
        VecSink {
            octets: Vec::new(alloc),
            plan: Plan::new(failing),
            faults: 0,
        }
    }

    /// What was taken so far.
    pub fn octets(&self) -> &[u8]
        ensures { result.now ≡ self.now.octets }
    {
        self.octets.as_slice()
    }
}

impl Sink for VecSink {
    ghost taken = { λ sink. Some sink.octets };

    ghost fault_count = { λ sink. sink.faults };

    ghost plan = { λ sink. Some sink.plan };

    fn write(&mut self, octets: &[u8]) -> Result<(), Failed> {
        if self.plan.fails() {
            let (prefix, _) = octets.split_at(octets.len() / 2);
            let _ = self.octets.extend_from_slice(prefix);
            return Err(fail(&mut self.faults));
        }
        if self.octets.extend_from_slice(octets).is_err() {
            return Err(fail(&mut self.faults));
        }
        Ok(())
    }

    fn faults(&self) -> u64 {
        self.faults
    }
}
