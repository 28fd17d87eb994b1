//! The checks of a transfer, which both ends keep alike.
ghost use Rattle.std.specs.Prelude.{◌≡◌, ◌+◌, ◌<◌, ◌≤◌, [], ◌∷◌, ◌++◌, length, is_err, IfOk, OnOk, OnErr, max};
ghost use Rattle.vf_transfer.specs.Checks.{before_check, cut_to, is_full as full, is_unknown as unknown, offered as last_check};

use crate::Unknown;
use std::alloc::Global;
use std::marker::Model;
use vf_base::NoMemory;

/// The checks from a point on, each with the number of values that stand before it.
#[derive(Drop)]
pub(crate) struct Checks {
    start: u32,
    window: u32,
    marks: Vec<usize>,
    acknowledged: u32,
}

impl Model for Checks {
    ghost use Rattle.std.specs.Prelude.{◌≤◌, ◌+◌, length};
    ghost use Rattle.vf_transfer.specs.Checks.{Checkpoints};

    ghost Value = { Checkpoints };

    ghost view = { λ checks. record { start = checks.start; window = checks.window; marks = checks.marks.items; acknowledged = checks.acknowledged } };

    ghost invariant = { λ checks. (checks.start ≤ checks.acknowledged) × (checks.acknowledged ≤ checks.start + length checks.marks.items) × (checks.start + length checks.marks.items ≤ 4294967295) };
}

impl Checks {
    /// No check yet.
    pub(crate) fn new(alloc: Global, point: u32, window: u32) -> Checks
        ensures { result ≡ record { start = point; window = window; marks = []; acknowledged = point } }
    {
        Checks {
            start: point,
            window,
            marks: Vec::new(alloc),
            acknowledged: point,
        }
    }

    /// The number of the last check, or the point.
    fn offered(&self) -> u32
        ensures number { result ≡ last_check self.now }
        ensures acknowledged { self.now.acknowledged ≤ result }
    {
        self.start + self.marks.len() as u32
    }

    /// As many checks as the window aren't acknowledged.
    pub(crate) fn is_full(&self) -> bool
        ensures { result ≡ full self.now }
    {
        self.window <= self.offered() - self.acknowledged
    }

    /// Offers a check after so many values, and answers its number.
    pub(crate) fn offer(&mut self, values: usize) -> Result<u32, NoMemory>
        requires { last_check self.old < 4294967295 }
        ensures ok { OnOk result (self.new ≡ record self.old { marks = self.old.marks ++ values ∷ [] }) }
        ensures number { IfOk result (λ number. number ≡ last_check self.old + 1) }
        ensures err { OnErr result (self.new ≡ self.old) }
    {
        let number = self.offered() + 1;
        self.marks.push(values)?;
        Ok(number)
    }

    fn is_unknown(&self, check: u32) -> bool
        ensures { result ≡ unknown check self.now }
    {
        check < self.start || self.offered() < check
    }

    /// Acknowledges the checks up to this one.
    pub(crate) fn acknowledge(&mut self, check: u32) -> Result<(), Unknown>
        ensures known { is_err result ≡ unknown check self.old }
        ensures ok { OnOk result (self.new ≡ record self.old { acknowledged = max check self.old.acknowledged }) }
        ensures err { OnErr result (self.new ≡ self.old) }
    {
        if self.is_unknown(check) {
            return Err(Unknown);
        }
        self.acknowledged = self.acknowledged.max(check);
        Ok(())
    }

    /// Takes the checks after this one away, and answers how many values stand before it.
    pub(crate) fn restart(&mut self, check: u32) -> Result<usize, Unknown>
        ensures known { is_err result ≡ unknown check self.old }
        ensures ok { OnOk result (self.new ≡ cut_to check self.old) }
        ensures values { IfOk result (λ values. values ≡ before_check check self.old) }
        ensures err { OnErr result (self.new ≡ self.old) }
    {
        if self.is_unknown(check) {
            return Err(Unknown);
        }
        let values = self.before(check);
        self.marks.truncate((check - self.start) as usize);
        self.acknowledged = self.acknowledged.min(check);
        Ok(values)
    }

    /// How many values stand before a check that stands.
    fn before(&self, check: u32) -> usize
        requires from { self.now.start ≤ check }
        requires to { check ≤ last_check self.now }
        ensures { result ≡ before_check check self.now }
    {
        let number = (check - self.start) as usize;
        if number == 0 {
            return 0;
        }
        self.marks[number - 1]
    }

    /// How many values stand before the last check that is acknowledged.
    pub(crate) fn front(&self) -> usize
        ensures values { result ≡ before_check self.now.acknowledged self.now }
        ensures within { self.now.acknowledged ≤ last_check self.now }
    {
        self.before(self.acknowledged)
    }

    /// For each check, how many values stand before it.
    pub(crate) fn marks(&self) -> &[usize]
        ensures { result.now ≡ self.now.marks }
    {
        self.marks.as_slice()
    }
}
