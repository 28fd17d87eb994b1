//! What a write has received. Each check is acknowledged at once, so that all that stand are (ISO 8571-4, F-CHECK).
ghost use Rattle.std.specs.Prelude.{◌≡◌, ◌+◌, ◌∷◌, [], List, is_err, length, min, IfOk, OnOk, OnErr};
ghost use Rattle.vf_transfer.specs.Checks.{RepresentsReceived, is_unknown, mark, offered};
ghost use Rattle.vf_transfer.specs.Transfer.{Acknowledgement, Check, Entry, Restart, Value, front as front_meant, last_check, point as point_meant, standing, survivors};
ghost use Rattle.vf_tree.specs.FileTree.{octets_of_unit};

use std::alloc::Global;
use std::marker::Model;
use vf_base::{Element, NoMemory};
use vf_transfer::{Receiving, Unknown};
use vf_tree::octets_of;

/// The values of a write from its start on, whose checks are numbered from 1.
#[derive(Drop)]
pub(crate) struct Received {
    receiving: Receiving,
}

impl Model for Received {
    ghost use Rattle.std.specs.Prelude.{◌≡◌, ◌≤◌, length};
    ghost use Rattle.vf_transfer.specs.Checks.{Receiver};

    ghost Value = { Receiver };

    ghost view = { λ received. received.receiving };

    ghost invariant = { λ received. (received.receiving.checks.start ≡ 0) × (length received.receiving.checks.marks ≤ 4294967295) };
}

impl Received {
    /// No value and no check yet.
    pub(crate) fn new(alloc: Global) -> Received
        ensures start { result.checks.start ≡ 0 }
        ensures represents { RepresentsReceived result [] }
    {
        Received {
            receiving: Receiving::start(alloc, 0, u32::MAX),
        }
    }

    /// Takes a value.
    pub(crate) fn value(&mut self, element: Element) -> Result<(), NoMemory>
        ensures ok { OnOk result ((entries : List Entry) → RepresentsReceived self.old entries → RepresentsReceived self.new (Value element ∷ entries)) }
        ensures checks { self.new.checks ≡ self.old.checks }
        ensures err { OnErr result (self.new ≡ self.old) }
    {
        self.receiving.value(element)?;
        Ok(())
    }

    /// The number of the last check.
    pub(crate) fn point(&self) -> u32
        ensures { result ≡ offered self.now.checks }
    {
        self.receiving.marks().len() as u32
    }

    /// Takes a check, and acknowledges it. More checks than a number counts want memory.
    pub(crate) fn check(&mut self) -> Result<(), NoMemory>
        ensures ok { OnOk result ((entries : List Entry) → RepresentsReceived self.old entries → RepresentsReceived self.new (Acknowledgement (offered self.old.checks + 1) ∷ Check ∷ entries)) }
        ensures start { self.new.checks.start ≡ self.old.checks.start }
        ensures err { OnErr result (self.new ≡ self.old) }
    {
        if self.point() == u32::MAX {
            return Err(NoMemory);
        }
        let Ok(number) = self.receiving.offer() else {
            return Err(NoMemory);
        };
        let Ok(()) = self.receiving.acknowledge(number) else {
            unreachable!()
        };
        Ok(())
    }

    /// Takes away the values and the checks after this one; `Unknown` exactly where it is above the last check.
    pub(crate) fn restart(&mut self, point: u32) -> Result<(), Unknown>
        ensures ok { OnOk result ((entries : List Entry) → RepresentsReceived self.old entries → RepresentsReceived self.new (Restart point ∷ entries)) }
        ensures start { self.new.checks.start ≡ self.old.checks.start }
        ensures unknown { is_err result ≡ is_unknown point self.old.checks }
        ensures err { OnErr result (self.new ≡ self.old) }
    {
        self.receiving.restart(point)?;
        Ok(())
    }

    /// The octets of the strings of the values that a restart at this check leaves. More than 18,446,744,073,709,551,615
    /// want memory.
    pub(crate) fn octets_before(&self, check: u32) -> Result<u64, NoMemory>
        ensures { IfOk result (λ octets. (entries : List Entry) → RepresentsReceived self.now entries → octets_of_unit (survivors 0 (Restart check ∷ entries)) ≡ octets) }
    {
        let values = self.receiving.values();
        let (left, _) = values.split_at(self.count_before(check).min(values.len()));
        let octets = octets_in(left)?;
        Ok(octets)
    }

    /// How many values are before this check, or before the last where that is lower.
    fn count_before(&self, check: u32) -> usize
        ensures { result ≡ mark (min check (length self.now.checks.marks)) self.now.checks.marks }
    {
        let marks = self.receiving.marks();
        let Some(place) = (check as usize).min(marks.len()).checked_sub(1) else {
            return 0;
        };
        marks[place]
    }

    /// The octets of the strings of all values. More than 18,446,744,073,709,551,615 want memory.
    pub(crate) fn octets(&self) -> Result<u64, NoMemory>
        ensures { IfOk result (λ octets. octets ≡ octets_of_unit self.now.values) }
    {
        let octets = octets_in(self.receiving.values())?;
        Ok(octets)
    }

    /// All values.
    pub(crate) fn values(&self) -> &[Element]
        ensures { result.now ≡ self.now.values }
    {
        self.receiving.values()
    }

    /// The values before the last check.
    pub(crate) fn front(&self) -> &[Element]
        ensures { (entries : List Entry) → RepresentsReceived self.now entries → result.now ≡ front_meant 0 entries }
    {
        let values = self.receiving.values();
        let (front, _) = values.split_at(self.receiving.front().min(values.len()));
        front
    }

    /// The values after the last check.
    pub(crate) fn since_check(&self) -> &[Element]
        ensures { (entries : List Entry) → RepresentsReceived self.now entries → point_meant 0 entries ≡ last_check 0 entries → result.now ≡ (standing 0 entries).after }
    {
        let values = self.receiving.values();
        let (_, after) = values.split_at(self.receiving.front().min(values.len()));
        after
    }
}

/// The octets of the strings of values. More than 18,446,744,073,709,551,615 want memory.
fn octets_in(values: &[Element]) -> Result<u64, NoMemory>
    ensures { IfOk result (λ octets. octets ≡ octets_of_unit values.now) }
{
    let mut octets: u64 = 0;
    for element in values {
        let Some(more) = octets.checked_add(octets_of(element)) else {
            return Err(NoMemory);
        };
        octets = more;
    }
    Ok(octets)
}
