//! A source that gives few octets at once.
ghost use Rattle.std.specs.Prelude.{◌<◌};

use crate::call::{Printed, call};
use std::alloc::Global;
use vf_base::{Failed, NoMemory, SliceSource, Source};

/// A source in memory, of which a read gives so many octets at most.
#[derive(Drop)]
pub(crate) struct Sips<'a> {
    pub(crate) octets: SliceSource<'a>,
    /// One at least.
    pub(crate) most: usize,
    ghost some: { 0 < most },
}

impl<'a> Source for Sips<'a> {
    ghost use Rattle.std.specs.Prelude.{None};

    ghost left = { λ source. None };

    ghost fault_count = { λ source. source.octets.faults };

    ghost plan = { λ source. None };

    fn read(&mut self, into: &mut [u8]) -> Result<usize, Failed> {
        let most = into.len().min(self.most);
        self.octets.read(&mut into[..most])
    }

    fn faults(&self) -> u64 {
        self.octets.faults()
    }
}

/// What `dialogue` prints for lines of which so many octets, one at least, come at once.
pub(crate) fn sipped(alloc: Global, lines: &[u8], most: usize) -> Result<Printed, NoMemory> {
    let octets = SliceSource::new(lines, Vec::new(alloc));
    let mut input = Sips {
        octets,
        most: most.max(1),
    };
    call(alloc, "dialogue", &mut input, Vec::new(alloc))
}
