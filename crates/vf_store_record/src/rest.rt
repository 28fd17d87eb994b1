//! What is left of a record that is being read.
ghost use Rattle.std.specs.Prelude.{◌≡◌, ◌≤◌, IfOk, drop, length, nat_eq, take};

use std::alloc::Global;
use std::marker::Model;
use vf_base::{NoMemory, Octets};

/// A string of so many octets and more is a part of its record; shorter ones keep none.
const SHARED_FROM: usize = 4_096;

/// The last octets of a record, after those that were read.
#[derive(Drop)]
pub(crate) struct Rest<'a> {
    whole: &'a Octets,
    octets: &'a [u8],
}

impl<'a> Model for Rest<'a> {
    ghost use Rattle.std.specs.Prelude.{◌≡◌, ◌-◌, List, ℕ, drop, length};

    ghost Value = { List ℕ };

    ghost view = { λ rest. rest.octets.now };

    ghost invariant = { λ rest. rest.octets.now ≡ drop (length rest.whole.now - length rest.octets.now) rest.whole.now };
}

#[tactic(auto, using(crate::proofs::Rests::rests))]
impl<'a> Rest<'a> {
    /// All of a record.
    pub(crate) fn of(whole: &'a Octets) -> Rest<'a>
        ensures { result ≡ whole.now }
    {
        Rest {
            whole,
            octets: whole.as_slice(),
        }
    }

    pub(crate) fn len(&self) -> usize
        ensures { result ≡ length self.now }
    {
        self.octets.len()
    }

    pub(crate) fn is_empty(&self) -> bool
        ensures { result ≡ nat_eq (length self.now) 0 }
    {
        self.octets.is_empty()
    }

    /// The first so many octets; those after them are left.
    pub(crate) fn take(&mut self, count: usize) -> &'a [u8]
        requires { count ≤ length self.old }
        ensures first { result.now ≡ take count self.old }
        ensures rest { self.new ≡ drop count self.old }
    {
        let (first, octets) = self.octets.split_at(count);
        self.octets = octets;
        first
    }

    /// The first so many octets as a string: a long one is a part of the record, and a short one is copied.
    pub(crate) fn string(&self, alloc: Global, count: usize) -> Result<Octets, NoMemory>
        requires { count ≤ length self.now }
        ensures { IfOk result (λ string. string ≡ take count self.now) }
    {
        if count < SHARED_FROM {
            let (string, _) = self.octets.split_at(count);
            return Octets::of(alloc, string);
        }
        let start = self.whole.len() - self.octets.len();
        self.whole.slice(start, count)
    }
}
