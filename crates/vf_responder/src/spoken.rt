//! What is spoken on a link, in parts, so that long strings aren't copied before they are sent.
ghost use Rattle.std.specs.Prelude.{◌≡◌, ◌++◌, [], IfOk, IfSome, OnOk, length, nat_eq};
ghost use Rattle.vf_responder.specs.Spoken.{joined};
ghost use Rattle.vf_stack.specs.Association.{Association};
ghost use Rattle.vf_stack.specs.Represents.{Represents, side_of};
ghost use Rattle.vf_stack.specs.Sends.{IsSame, MaySend, Sends};

use std::alloc::Global;
use std::marker::Model;
use std::mem;
use vf_base::{NoMemory, Octets};
use vf_stack::{Request, Stack};

/// A string of so many octets and more is shared; a shorter one is copied.
const LEAST_SHARED: usize = 1_024;

/// So many octets that stand in one row are a part of their own, so that they aren't moved as more come.
const LONG: usize = 65_536;

/// Room for what stands before a string where it is sent, and for a short PDU.
const AROUND: usize = 64;

/// Octets that are spoken, and a string after them.
#[derive(Drop)]
pub(crate) struct Part {
    pub(crate) before: Vec<u8>,
    pub(crate) string: Octets,
}

/// The octets that are spoken on a link, in parts: long strings are shared with the files that have them.
pub struct Spoken {
    pub(crate) parts: Vec<Part>,
    /// What stands after all parts.
    pub(crate) last: Vec<u8>,
}

impl Drop for Spoken {
    fn drop(self) {
        let Spoken { parts, last } = self;
        drop(parts);
        drop(last);
    }
}

impl Model for Spoken {
    ghost use Rattle.std.specs.Prelude.{List, ℕ};
    ghost use Rattle.vf_responder.specs.Spoken.{joined};

    ghost Value = { List ℕ };

    ghost view = { λ spoken. joined spoken.parts.items spoken.last.items };
}

impl Spoken {
    /// Nothing.
    pub(crate) fn new(alloc: Global) -> Spoken
        ensures { result ≡ [] }
    {
        Spoken::of(alloc, Vec::new(alloc))
    }

    /// The octets of a vector.
    pub(crate) fn of(alloc: Global, octets: Vec<u8>) -> Spoken
        ensures { result ≡ octets.items }
    {
        Spoken {
            parts: Vec::new(alloc),
            last: octets,
        }
    }

    pub fn is_empty(&self) -> bool
        ensures { result ≡ nat_eq (length self.now) 0 }
    {
        for part in &self.parts {
            if !part.before.is_empty() || !part.string.is_empty() {
                return false;
            }
        }
        self.last.is_empty()
    }

    /// Sends a request that may be sent, and puts what it is sent in after the other octets.
    pub(crate) fn send(
        &mut self,
        alloc: Global,
        stack: &mut Stack,
        request: &Request,
    ) -> Result<(), NoMemory>
        requires { MaySend stack.old request.now }
        ensures sent { (a : Association) → Represents stack.old a → OnOk result (Sends (side_of stack.old) a request.now self.old stack.new self.new) }
        ensures end { IsSame stack.old.exchange stack.new.exchange }
    {
        self.last.reserve(AROUND)?;
        match stack.send_front(alloc, request, &mut self.last)? {
            Some(string) => {
                self.put(alloc, string)?;
                Ok(())
            }
            None => {
                self.close_long(alloc)?;
                Ok(())
            }
        }
    }

    /// Puts a string after the other octets; a long one is shared.
    fn put(&mut self, alloc: Global, string: &Octets) -> Result<(), NoMemory>
        ensures { OnOk result (self.new ≡ self.old ++ string.now) }
    {
        if string.len() >= LEAST_SHARED {
            let string = string.copy(alloc)?;
            self.close(alloc, string)?;
            return Ok(());
        }
        self.last.extend_from_slice(string.as_slice())?;
        self.close_long(alloc)?;
        Ok(())
    }

    /// Ends a part, where what stands after the others is long.
    fn close_long(&mut self, alloc: Global) -> Result<(), NoMemory>
        ensures { OnOk result (self.new ≡ self.old) }
    {
        if self.last.len() < LONG {
            return Ok(());
        }
        let none = Octets::of(alloc, &[])?;
        self.close(alloc, none)?;
        Ok(())
    }

    /// Ends a part by a string.
    fn close(&mut self, alloc: Global, string: Octets) -> Result<(), NoMemory>
        ensures { OnOk result (self.new ≡ self.old ++ string) }
    {
        let before = mem::replace(&mut self.last, Vec::new(alloc));
        self.parts.push(Part { before, string })?;
        Ok(())
    }

    /// Appends all octets.
    pub fn append_to(&self, out: &mut Vec<u8>) -> Result<(), NoMemory>
        ensures { OnOk result (out.new.items ≡ out.old.items ++ self.now) }
    {
        for part in &self.parts {
            out.extend_from_slice(part.before.as_slice())?;
            out.extend_from_slice(part.string.as_slice())?;
        }
        out.extend_from_slice(self.last.as_slice())?;
        Ok(())
    }

    /// All octets in one row.
    pub fn to_vec(&self, alloc: Global) -> Result<Vec<u8>, NoMemory>
        ensures { IfOk result (λ octets. octets.items ≡ self.now) }
    {
        let mut octets = Vec::new(alloc);
        self.append_to(&mut octets)?;
        Ok(octets)
    }
}
