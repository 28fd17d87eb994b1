//! Octets that stand in parts, so that long strings need no copy.
ghost use Rattle.std.specs.Prelude.{◌≡◌, ◌+◌, ◌≤◌, ◌∷◌, ◌++◌, [], IfOk, OnOk, OnErr, length, nat_eq};
ghost use Rattle.vf_disk.specs.Disk.{greatest_length, overwritten};
ghost use Rattle.vf_disk.specs.Parts.{loose};

use crate::part::Part;
use crate::{GREATEST_LENGTH, LEAST_SHARED};
use std::alloc::Global;
use std::marker::Model;
use vf_base::{NoMemory, Octets};

/// Octets that stand in parts: short ones together, and between them long strings, which they share.
#[derive(Drop)]
pub struct Parts {
    alloc: Global,
    /// All octets but those of the shared strings.
    pub(crate) short: Vec<u8>,
    pub(crate) strings: Vec<Part>,
    /// How many short octets stand before the last string.
    closed: usize,
    /// How many octets stand in all.
    count: usize,
}

impl Model for Parts {
    ghost use Rattle.std.specs.Prelude.{◌≤◌};
    ghost use Rattle.vf_disk.specs.Disk.{greatest_length};
    ghost use Rattle.vf_disk.specs.Parts.{IsSound, Joined, joined};

    ghost Value = { Joined };

    ghost view = { λ parts. record { items = joined parts.short.items parts.strings.items } };

    ghost invariant = { λ parts. IsSound parts.short.items parts.strings.items parts.closed parts.count × (parts.count ≤ greatest_length) };
}

impl Parts {
    /// No octets.
    pub fn new(alloc: Global) -> Parts
        ensures { result.items ≡ [] }
    {
        Parts {
            alloc,
            short: Vec::new(alloc),
            strings: Vec::new(alloc),
            closed: 0,
            count: 0,
        }
    }

    /// No octets, with room for so many short ones.
    pub fn with_capacity(alloc: Global, room: usize) -> Result<Parts, NoMemory>
        ensures { IfOk result (λ made. made.items ≡ []) }
    {
        let short = Vec::with_capacity(alloc, room)?;
        Ok(Parts {
            alloc,
            short,
            strings: Vec::new(alloc),
            closed: 0,
            count: 0,
        })
    }

    /// The number of octets, at most that of a disk.
    pub fn len(&self) -> usize
        ensures count { result ≡ length self.now.items }
        ensures bound { result ≤ greatest_length }
    {
        self.count
    }

    pub fn is_empty(&self) -> bool
        ensures { result ≡ nat_eq (length self.now.items) 0 }
    {
        self.count == 0
    }

    /// Puts an octet after the others.
    pub fn push(&mut self, octet: u8) -> Result<(), NoMemory>
        ensures items { OnOk result (self.new.items ≡ self.old.items ++ octet ∷ []) }
        ensures err { OnErr result (self.new.items ≡ self.old.items) }
    {
        let count = grown(self.count, 1)?;
        self.short.push(octet)?;
        self.count = count;
        Ok(())
    }

    /// Puts octets after the others, copied.
    pub fn extend_from_slice(&mut self, octets: &[u8]) -> Result<(), NoMemory>
        ensures items { OnOk result (self.new.items ≡ self.old.items ++ octets.now) }
        ensures err { OnErr result (self.new.items ≡ self.old.items) }
    {
        let count = grown(self.count, octets.len())?;
        self.short.extend_from_slice(octets)?;
        self.count = count;
        Ok(())
    }

    /// Puts a string after the others; one of 1,024 octets and more is shared.
    pub fn push_shared(&mut self, octets: &Octets) -> Result<(), NoMemory>
        ensures items { OnOk result (self.new.items ≡ self.old.items ++ octets.now) }
        ensures err { OnErr result (self.new.items ≡ self.old.items) }
    {
        if octets.len() < LEAST_SHARED {
            return self.extend_from_slice(octets.as_slice());
        }
        let string = octets.copy(self.alloc)?;
        self.close(string)
    }

    /// Puts a string after the others, which ends the short octets before it.
    fn close(&mut self, string: Octets) -> Result<(), NoMemory>
        ensures items { OnOk result (self.new.items ≡ self.old.items ++ string) }
        ensures err { OnErr result (self.new.items ≡ self.old.items) }
    {
        let count = grown(self.count, string.len())?;
        let short = self.short.len();
        let part = Part {
            before: short - self.closed,
            octets: string,
        };
        self.strings.push(part)?;
        self.closed = short;
        self.count = count;
        Ok(())
    }

    /// Puts octets in the place of as many at a place, and one octet after all. Where these stand in a shared string, all
    /// octets are copied into one row.
    pub fn end(&mut self, at: usize, over: &[u8], last: u8) -> Result<(), NoMemory>
        requires { at + length over.now ≤ length self.old.items }
        ensures ok { OnOk result (self.new.items ≡ overwritten (self.old.items ++ last ∷ []) at over.now) }
        ensures err { OnErr result (self.new.items ≡ self.old.items) }
    {
        let count = grown(self.count, 1)?;
        if at + over.len() <= first_run(self.short.as_slice(), self.strings.as_slice()) {
            self.short.push(last)?;
            put_over(&mut self.short, at, over);
            self.count = count;
            return Ok(());
        }
        let mut all = self.to_vec(self.alloc)?;
        all.push(last)?;
        put_over(&mut all, at, over);
        self.short = all;
        self.strings = Vec::new(self.alloc);
        self.closed = 0;
        self.count = count;
        Ok(())
    }

    /// All octets, copied into one row.
    pub fn to_vec(&self, alloc: Global) -> Result<Vec<u8>, NoMemory>
        ensures { IfOk result (λ octets. octets.items ≡ self.now.items) }
    {
        let mut octets = Vec::with_capacity(alloc, self.count)?;
        let strings = self.strings.as_slice();
        let mut rest = self.short.as_slice();
        for part in strings {
            let (here, later) = rest.split_at(part.before);
            octets.extend_from_slice(here)?;
            octets.extend_from_slice(part.octets.as_slice())?;
            rest = later;
        }
        octets.extend_from_slice(rest)?;
        Ok(octets)
    }
}

/// So many octets and more; memory is wanting for more than a disk has.
fn grown(count: usize, more: usize) -> Result<usize, NoMemory>
    ensures sum { IfOk result (λ sum. sum ≡ count + more) }
    ensures bound { IfOk result (λ sum. sum ≤ greatest_length) }
{
    match count.checked_add(more) {
        Some(sum) if sum as u64 <= GREATEST_LENGTH => Ok(sum),
        _ => Err(NoMemory),
    }
}

/// How many octets stand before the first string.
fn first_run(short: &[u8], strings: &[Part]) -> usize
    ensures { result ≡ loose short.now strings.now }
{
    match strings.split_first() {
        Some((first, _)) => first.before,
        None => short.len(),
    }
}

/// Puts octets in the place of as many.
fn put_over(octets: &mut Vec<u8>, at: usize, over: &[u8])
    requires { at + length over.now ≤ length octets.old.items }
    ensures { octets.new.items ≡ overwritten octets.old.items at over.now }
{
    octets[at..at + over.len()].copy_from_slice(over);
}
