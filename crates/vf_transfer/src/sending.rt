ghost use Rattle.std.specs.Prelude.{◌≡◌, ◌<◌, ◌≤◌, ◌+◌, ◌∷◌, [], List, is_err, IfOk, OnOk, OnErr, Err, ◌↔◌, true, false, slice_get, option_copied};
ghost use Rattle.vf_transfer.specs.Checks.{KeepLimits, RepresentsSent, is_full, is_unknown, offered};
ghost use Rattle.vf_transfer.specs.Transfer.{Acknowledgement, Check, Entry, Restart};

use crate::checks::Checks;
use crate::{TransferError, Unknown};
use std::alloc::Global;
use std::marker::Model;
use vf_base::{Element, NoMemory};

/// The end of a transfer that sends these elements, those after the point at which it begins.
#[derive(Drop)]
pub struct Sending {
    checks: Checks,
    elements: Vec<Element>,
    sent: usize,
}

impl Model for Sending {
    ghost use Rattle.std.specs.Prelude.{◌≤◌, length};
    ghost use Rattle.vf_transfer.specs.Checks.{Sender};

    ghost Value = { Sender };

    ghost view = { λ sending. record { checks = sending.checks; elements = sending.elements.items; sent = sending.sent } };

    ghost invariant = { λ sending. sending.sent ≤ length sending.elements.items };
}

/// How many serial numbers there are, 0 to 999,999 (ISO 8327, six digits).
pub const SERIAL_NUMBERS: u32 = 1_000_000;

impl Sending {
    ghost use Rattle.std.specs.Borrow.{sem};
    ghost use Rattle.vf_transfer.specs.Lending.{Advances};

    /// Begins at a point: 0, or the check at which the transfer was recovered. The next check is the one after it.
    /// At most `window` checks may be open.
    pub fn start(
        alloc: Global,
        elements: Vec<Element>,
        point: u32,
        window: u32,
    ) -> Result<Sending, NoMemory>
        ensures value { IfOk result (λ made. made ≡ record { checks = record { start = point; window = window; marks = []; acknowledged = point }; elements = elements.items; sent = 0 }) }
        ensures represents { IfOk result (λ made. RepresentsSent made []) }
    {
        Ok(Sending {
            checks: Checks::new(alloc, point, window),
            elements,
            sent: 0,
        })
    }

    /// The next value, which is sent by this; none exactly at the end.
    pub fn value(&mut self) -> Option<&Element>
        ensures next { option_copied result ≡ slice_get self.old.elements self.old.sent }
        ensures* sends { sem 𝓛 (Advances self.entry) }
    {
        let element = self.elements.get(self.sent)?;
        self.sent += 1;
        Some(element)
    }

    /// Offers a check, which has this serial number, and answers its number in the transfer.
    pub fn offer(&mut self, next_serial: u32) -> Result<u32, TransferError>
        requires { offered self.old.checks < 4294967295 }
        ensures number { IfOk result (λ number. number ≡ offered self.old.checks + 1) }
        ensures more { OnOk result (offered self.new.checks ≡ offered self.old.checks + 1) }
        ensures ok { OnOk result ((entries : List Entry) → RepresentsSent self.old entries → RepresentsSent self.new (Check ∷ entries)) }
        ensures window { (result ≡ Err TransferError.Window) ↔ (is_full self.old.checks ≡ true) }
        ensures serials { (result ≡ Err TransferError.SerialsSpent) ↔ ((is_full self.old.checks ≡ false) × (next_serial ≡ SERIAL_NUMBERS)) }
        ensures elements { self.new.elements ≡ self.old.elements }
        ensures limits { KeepLimits self.old.checks self.new.checks }
        ensures err { OnErr result (self.new ≡ self.old) }
    {
        if self.checks.is_full() {
            return Err(TransferError::Window);
        }
        if next_serial == SERIAL_NUMBERS {
            return Err(TransferError::SerialsSpent);
        }
        let number = self.checks.offer(self.sent)?;
        Ok(number)
    }

    /// Takes the acknowledgement of the checks up to this one. `Unknown` exactly where it is above the last check or
    /// below the point at which the transfer began.
    pub fn acknowledge(&mut self, point: u32) -> Result<(), Unknown>
        ensures ok { OnOk result ((entries : List Entry) → RepresentsSent self.old entries → RepresentsSent self.new (Acknowledgement point ∷ entries)) }
        ensures same { offered self.new.checks ≡ offered self.old.checks }
        ensures unknown { is_err result ≡ is_unknown point self.old.checks }
        ensures elements { self.new.elements ≡ self.old.elements }
        ensures limits { KeepLimits self.old.checks self.new.checks }
        ensures err { OnErr result (self.new ≡ self.old) }
    {
        self.checks.acknowledge(point)?;
        Ok(())
    }

    /// Goes back to this check: the values after it are sent again. `Unknown` as in `acknowledge`.
    pub fn restart(&mut self, point: u32) -> Result<(), Unknown>
        ensures ok { OnOk result ((entries : List Entry) → RepresentsSent self.old entries → RepresentsSent self.new (Restart point ∷ entries)) }
        ensures back { OnOk result (offered self.new.checks ≡ point) }
        ensures unknown { is_err result ≡ is_unknown point self.old.checks }
        ensures elements { self.new.elements ≡ self.old.elements }
        ensures limits { KeepLimits self.old.checks self.new.checks }
        ensures err { OnErr result (self.new ≡ self.old) }
    {
        let values = self.checks.restart(point)?;
        self.sent = values.min(self.sent);
        Ok(())
    }
}
