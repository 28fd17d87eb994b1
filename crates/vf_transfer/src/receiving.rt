ghost use Rattle.std.specs.Prelude.{◌≡◌, ◌<◌, ◌+◌, ◌∷◌, [], List, length, is_err, IfOk, OnOk, OnErr, Err, ◌↔◌, true};
ghost use Rattle.vf_transfer.specs.Checks.{KeepLimits, RepresentsReceived, is_full, is_unknown, offered};
ghost use Rattle.vf_transfer.specs.Transfer.{Acknowledgement, Check, Entry, Restart, Value, front, marks as marks_of, survivors};

use crate::checks::Checks;
use crate::{TransferError, Unknown};
use std::alloc::Global;
use std::marker::Model;
use vf_base::{Element, NoMemory};

/// The end of a transfer that receives. It keeps the values that stand, and for each check that stands how many of
/// them are before it.
#[derive(Drop)]
pub struct Receiving {
    checks: Checks,
    values: Vec<Element>,
}

impl Model for Receiving {
    ghost use Rattle.vf_transfer.specs.Checks.{Receiver};

    ghost Value = { Receiver };

    ghost view = { λ receiving. record { checks = receiving.checks; values = receiving.values.items } };
}

impl Receiving {
    /// Begins at a point: 0, or the check at which the transfer was recovered. The next check is the one after it.
    /// At most `window` checks may be open.
    pub fn start(alloc: Global, point: u32, window: u32) -> Receiving
        ensures value { result ≡ record { checks = record { start = point; window = window; marks = []; acknowledged = point }; values = [] } }
        ensures represents { RepresentsReceived result [] }
    {
        Receiving {
            checks: Checks::new(alloc, point, window),
            values: Vec::new(alloc),
        }
    }

    /// Takes a value.
    pub fn value(&mut self, element: Element) -> Result<(), NoMemory>
        ensures ok { OnOk result ((entries : List Entry) → RepresentsReceived self.old entries → RepresentsReceived self.new (Value element ∷ entries)) }
        ensures checks { self.new.checks ≡ self.old.checks }
        ensures err { OnErr result (self.new ≡ self.old) }
    {
        self.values.push(element)?;
        Ok(())
    }

    /// Takes a check, and answers its number.
    pub fn offer(&mut self) -> Result<u32, TransferError>
        requires { offered self.old.checks < 4294967295 }
        ensures number { IfOk result (λ number. number ≡ offered self.old.checks + 1) }
        ensures more { OnOk result (offered self.new.checks ≡ offered self.old.checks + 1) }
        ensures ok { OnOk result ((entries : List Entry) → RepresentsReceived self.old entries → RepresentsReceived self.new (Check ∷ entries)) }
        ensures window { (result ≡ Err TransferError.Window) ↔ (is_full self.old.checks ≡ true) }
        ensures serials { result ≡ Err TransferError.SerialsSpent → ⊥ }
        ensures limits { KeepLimits self.old.checks self.new.checks }
        ensures err { OnErr result (self.new ≡ self.old) }
    {
        if self.checks.is_full() {
            return Err(TransferError::Window);
        }
        let number = self.checks.offer(self.values.len())?;
        Ok(number)
    }

    /// Acknowledges the checks up to this one. `Unknown` exactly where it is above the last check or below the point
    /// at which the transfer began.
    pub fn acknowledge(&mut self, point: u32) -> Result<(), Unknown>
        ensures ok { OnOk result ((entries : List Entry) → RepresentsReceived self.old entries → RepresentsReceived self.new (Acknowledgement point ∷ entries)) }
        ensures same { offered self.new.checks ≡ offered self.old.checks }
        ensures unknown { is_err result ≡ is_unknown point self.old.checks }
        ensures limits { KeepLimits self.old.checks self.new.checks }
        ensures err { OnErr result (self.new ≡ self.old) }
    {
        self.checks.acknowledge(point)?;
        Ok(())
    }

    /// Takes away the values and the checks after this one, and what was acknowledged of these. `Unknown` as in
    /// `acknowledge`.
    pub fn restart(&mut self, point: u32) -> Result<(), Unknown>
        ensures ok { OnOk result ((entries : List Entry) → RepresentsReceived self.old entries → RepresentsReceived self.new (Restart point ∷ entries)) }
        ensures back { OnOk result (offered self.new.checks ≡ point) }
        ensures unknown { is_err result ≡ is_unknown point self.old.checks }
        ensures limits { KeepLimits self.old.checks self.new.checks }
        ensures err { OnErr result (self.new ≡ self.old) }
    {
        let values = self.checks.restart(point)?;
        self.values.truncate(values);
        Ok(())
    }

    /// The number of values before the last check that is acknowledged.
    pub fn front(&self) -> usize
        ensures { (entries : List Entry) → RepresentsReceived self.now entries → result ≡ length (front self.now.checks.start entries) }
    {
        self.checks.front()
    }

    /// For each check that stands, how many of the values that stand are before it.
    pub fn marks(&self) -> &[usize]
        ensures kept { result.now ≡ self.now.checks.marks }
        ensures marks { (entries : List Entry) → RepresentsReceived self.now entries → result.now ≡ marks_of self.now.checks.start entries }
    {
        self.checks.marks()
    }

    /// The values that stand, so far.
    pub fn values(&self) -> &[Element]
        ensures { result.now ≡ self.now.values }
    {
        self.values.as_slice()
    }

    /// The values that stand at the end.
    pub fn end(self) -> Vec<Element>
        ensures kept { result.items ≡ self.values }
        ensures survivors { (entries : List Entry) → RepresentsReceived self entries → result.items ≡ survivors self.checks.start entries }
    {
        self.values
    }
}
