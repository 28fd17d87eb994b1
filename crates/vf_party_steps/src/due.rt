//! What a party that reads is due to be sent (ISO 8571-3, F-DATA, F-CHECK and F-DATA-END; the rule is profile).
ghost use Rattle.std.specs.Prelude.{◌≡◌, ◌+◌, ◌*◌, ◌<◌, false, [], ◌∷◌, ◌++◌, None, Some, IfOk, OnOk, drop, length, if◌then◌else◌};
ghost use Rattle.vf_elements.specs.declared.message.Said.TheVariants as answers;
ghost use Rattle.vf_filestore.specs.Due.{check_window as window_meant, due as due_meant, is_check_due as check_due_meant};
ghost use Rattle.vf_filestore.specs.Units.{has_checks as checks_meant};
ghost use Rattle.vf_tables.specs.Validity.{includes as includes_meant};
ghost use Rattle.vf_party_steps.specs.Dues.{Offers, Onward, Says, is_full_with, progress_at};
ghost use Rattle.vf_party_steps.specs.Reads.{dues};
ghost use Rattle.vf_party_steps.specs.Represents.{association_of};
ghost use Rattle.vf_pdu.specs.declared.pdu.Pdu.TheVariants.{DataEnd};

use std::alloc::Global;
use vf_base::{Diagnostic, Element, NoMemory};
use vf_elements::Said;
use vf_filestore::diagnostics::plain;
use vf_pdu::Pdu;
use vf_regime_effects::Reading as Given;
use vf_regime_refusals::Association;

/// So many elements stand between two checks of a read.
const BETWEEN_CHECKS: usize = 8;

/// The largest number of a check in a session.
const MOST_SERIAL: u64 = 999_999;

/// The abort in the place of a check that no number of the session is left for.
const NUMBERS_SPENT: u16 = 105;

/// The functional units under which there are checks.
const RESTART_UNIT: u16 = 64;

const RECOVERY_UNIT: u16 = 128;

/// What is said to a party that reads, and how far the read has come with it.
#[derive(Drop)]
pub(crate) struct Due {
    pub(crate) said: Vec<Said>,
    /// The number of the last check that stands; the elements before it stand as said.
    pub(crate) check: u32,
    /// How many checks aren't acknowledged.
    pub(crate) unacknowledged: u32,
    /// The number that the next check has in the session.
    pub(crate) serial: u64,
}

impl Due {
    /// Says what is due of a read that was given this: the elements behind the last check, a check after each eighth one
    /// that isn't the last while the window isn't full, and then the end of the values, with the diagnostic of a read
    /// that is refused. The abort 105 stands in the place of a check whose number would pass 999,999, and nothing follows
    /// it. Whether the end of the values is said.
    pub(crate) fn say(
        &mut self,
        alloc: Global,
        association: &Association,
        given: &Given,
    ) -> Result<bool, NoMemory>
        ensures { IfOk result (λ shown. Says false (dues association.now given.now self.old) self.old self.new shown) }
    {
        let window = check_window(association);
        if is_full(window, self.unacknowledged) {
            return Ok(false);
        }
        match given {
            Given::Refused { number, .. } => {
                self.end(Some(plain(*number)))?;
                Ok(true)
            }
            Given::Showed { elements, .. } => {
                let shown = self.show(alloc, window, elements.as_slice())?;
                Ok(shown)
            }
        }
    }

    /// Says what is due of these elements, where the window isn't full; whether the end of the values is.
    fn show(
        &mut self,
        alloc: Global,
        window: Option<u16>,
        elements: &[Element],
    ) -> Result<bool, NoMemory>
        ensures { IfOk result (λ shown. Says false (due_meant window None (progress_at self.old (8 * self.old.check)) (drop (8 * self.old.check) elements.now)) self.old self.new shown) }
    {
        let first = BETWEEN_CHECKS * self.check as usize;
        for place in first..elements.len() {
            let goes_on = self.put(alloc, window, elements, place)?;
            if !goes_on {
                return Ok(false);
            }
        }
        self.end(None)?;
        Ok(true)
    }

    /// Says the element at this place, and the check that is due after it; whether anything follows.
    fn put(
        &mut self,
        alloc: Global,
        window: Option<u16>,
        elements: &[Element],
        place: usize,
    ) -> Result<bool, NoMemory>
        requires { place < length elements.now }
        ensures { IfOk result (λ goes_on. Onward (due_meant window None (progress_at self.old place) (drop place elements.now)) self.old (if goes_on then due_meant window None (progress_at self.new (place + 1)) (drop (place + 1) elements.now) else []) self.new) }
    {
        let element = elements[place].copy(alloc)?;
        self.said.push(Said::Element(element))?;
        if !is_check_due(window, elements, place + 1) {
            return Ok(true);
        }
        let goes_on = self.offer(window)?;
        Ok(goes_on)
    }

    /// Says the check that is due, or the abort in its place; whether anything follows.
    fn offer(&mut self, window: Option<u16>) -> Result<bool, NoMemory>
        ensures { IfOk result (λ goes_on. Offers window self.old self.new goes_on) }
    {
        if self.serial > MOST_SERIAL {
            self.said.push(Said::Abort {
                number: NUMBERS_SPENT,
                place: 0,
            })?;
            return Ok(false);
        }
        let Some(check) = self.check.checked_add(1) else {
            return Err(NoMemory);
        };
        let Some(unacknowledged) = self.unacknowledged.checked_add(1) else {
            return Err(NoMemory);
        };
        self.said.push(Said::Check { point: check })?;
        self.check = check;
        self.unacknowledged = unacknowledged;
        self.serial += 1;
        Ok(!is_full(window, unacknowledged))
    }

    /// Says the end of the values.
    fn end(&mut self, diagnostic: Option<Diagnostic>) -> Result<(), NoMemory>
        ensures said { OnOk result (self.new.said.items ≡ self.old.said.items ++ answers.Pdu (DataEnd diagnostic) ∷ []) }
        ensures check { self.new.check ≡ self.old.check }
    {
        self.said.push(Said::Pdu(Pdu::DataEnd { diagnostic }))?;
        Ok(())
    }
}

/// How many checks may be open, where there are checks.
fn check_window(association: &Association) -> Option<u16>
    ensures { result ≡ window_meant (Some (association_of association.now)) }
{
    if !has_checks(association.units) {
        return None;
    }
    Some(association.window)
}

fn has_checks(units: u16) -> bool
    ensures { result ≡ checks_meant units }
{
    includes(units, RESTART_UNIT) || includes(units, RECOVERY_UNIT)
}

/// Whether a functional unit is among these.
fn includes(units: u16, unit: u16) -> bool
    ensures { result ≡ includes_meant units unit }
{
    unit & units == unit
}

/// Whether as many checks as the window aren't acknowledged.
fn is_full(window: Option<u16>, unacknowledged: u32) -> bool
    ensures { result ≡ is_full_with window unacknowledged }
{
    match window {
        Some(window) => u32::from(window) <= unacknowledged,
        None => false,
    }
}

/// Whether a check is due after so many of these elements: where others follow, after each eighth one.
fn is_check_due(window: Option<u16>, elements: &[Element], count: usize) -> bool
    ensures { result ≡ check_due_meant window count (drop count elements.now) }
{
    if window.is_none() {
        return false;
    }
    if count >= elements.len() {
        return false;
    }
    count % BETWEEN_CHECKS == 0
}
