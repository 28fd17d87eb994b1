//! The values of a put, its checkpoints, and their acknowledgements (ISO 8571-3, F-DATA and F-CHECK).
ghost use Rattle.std.specs.Prelude.{◌≡◌, ◌+◌, ◌<◌, ◌≤◌, ◌∷◌, ◌++◌, ◌&&◌, IfOk, IsTrue, length};
ghost use Rattle.vf_initiator.specs.Rows as rows;
ghost use Rattle.vf_initiator.specs.Steps.{Answers, Follows};
ghost use Rattle.vf_initiator.specs.Values as values_meant;

use crate::conduct::{Conduct, Setting};
use crate::given::Given;
use crate::heard::Heard;
use crate::requests::{item, value};
use crate::stage::{Sent, Stage};
use std::alloc::Global;
use vf_base::{Element, NoMemory};
use vf_pdu::Pdu;
use vf_stack::Request;
use vf_tables::MOST_POINT;

/// The last serial number that there is (ISO 8327, six digits).
const LAST_SERIAL: u32 = 999_999;

/// By what the values of a put are sent.
#[derive(Clone, Copy)]
pub(crate) struct Pace {
    /// Checks may be sent.
    pub(crate) checks: bool,
    pub(crate) every: u32,
    pub(crate) window: u16,
    /// The last checkpoint that is acknowledged.
    pub(crate) point: u32,
}

impl Conduct {
    pub(crate) fn sending(
        &mut self,
        alloc: Global,
        given: &Given,
        setting: Setting,
        sent: Sent,
        heard: &Heard,
        said: &mut Vec<Request>,
    ) -> Result<bool, NoMemory>
        ensures { IfOk result (λ is_good. Answers (rows.sending given.now setting self.old sent heard.now) said.old.items said.new.items self.old self.new is_good) }
    {
        match heard {
            Heard::Acknowledged { serial } => {
                self.acknowledged(alloc, given, setting, sent, *serial, said)
            }
            Heard::TransferEnded { diagnostic } => {
                if !sent.is_ended {
                    return Ok(false);
                }
                self.conclude(alloc, *diagnostic, said)?;
                Ok(true)
            }
            _ => Ok(false),
        }
    }

    /// A check that is open is acknowledged: its point is kept, and values for which the window is free again are sent.
    fn acknowledged(
        &mut self,
        alloc: Global,
        given: &Given,
        setting: Setting,
        sent: Sent,
        serial: u32,
        said: &mut Vec<Request>,
    ) -> Result<bool, NoMemory>
        ensures { IfOk result (λ is_good. Answers (rows.acknowledged given.now setting self.old sent serial) said.old.items said.new.items self.old self.new is_good) }
    {
        let Some(point) = open_check(sent, self.progress.point, serial) else {
            return Ok(false);
        };
        self.progress.point = point;
        if !sent.is_ended {
            self.send_on(alloc, given, setting, sent, said)?;
        }
        Ok(true)
    }

    /// Sends values from a checkpoint on.
    pub(crate) fn send_from(
        &mut self,
        alloc: Global,
        given: &Given,
        setting: Setting,
        point: u32,
        said: &mut Vec<Request>,
    ) -> Result<(), NoMemory>
        ensures { IfOk result (λ done. Follows (rows.sends_from given.now setting self.old point) said.old.items said.new.items self.new) }
    {
        let sent = Sent {
            start: point,
            serial: setting.serial,
            offered: point,
            values: point as usize * given.assignment.every as usize,
            is_ended: false,
        };
        self.send_on(alloc, given, setting, sent, said)
    }

    /// Sends the values that aren't sent, as far as the window is free.
    fn send_on(
        &mut self,
        alloc: Global,
        given: &Given,
        setting: Setting,
        sent: Sent,
        said: &mut Vec<Request>,
    ) -> Result<(), NoMemory>
        ensures { IfOk result (λ done. Follows (rows.sends_on given.now setting self.old sent) said.old.items said.new.items self.new) }
    {
        let pace = Pace {
            checks: self.agreed.checks && setting.token,
            every: given.assignment.every,
            window: self.agreed.window,
            point: self.progress.point,
        };
        let values = given.values();
        let (_, rest) = values.split_at(sent.values.min(values.len()));
        let outbox = Outbox {
            sent,
            serial: setting.serial,
        };
        let sent = send_values(alloc, pace, outbox, rest, said)?;
        self.stage = Stage::Sending(sent);
        Ok(())
    }
}

/// The checkpoint of a serial number, where it is sent and not acknowledged.
fn open_check(sent: Sent, acknowledged: u32, serial: u32) -> Option<u32>
    ensures { result ≡ rows.open_check sent acknowledged serial }
{
    if serial < sent.serial {
        return None;
    }
    let point = u64::from(sent.start) + u64::from(serial - sent.serial) + 1;
    if point <= u64::from(acknowledged) || point > u64::from(sent.offered) {
        return None;
    }
    Some(point as u32)
}

/// What is sent, and the serial number of the next check.
#[derive(Clone, Copy)]
pub(crate) struct Outbox {
    pub(crate) sent: Sent,
    pub(crate) serial: u32,
}

/// Sends values, a check behind each so many where more follow, until the window is full or all are sent.
fn send_values(
    alloc: Global,
    pace: Pace,
    outbox: Outbox,
    rest: &[Element],
    said: &mut Vec<Request>,
) -> Result<Sent, NoMemory>
    requires { outbox.sent.values + length rest.now ≤ 18446744073709551615 }
    ensures { IfOk result (λ sent. values_meant.IsSaid (values_meant.values pace outbox.serial outbox.sent rest.now) said.old.items said.new.items sent) }
{
    let mut now = outbox;
    for (place, element) in rest.iter().enumerate() {
        let (_, later) = rest.split_at(place + 1);
        let goes_on = send_value(alloc, pace, &mut now, element, later, said)?;
        if !goes_on {
            return Ok(now.sent);
        }
    }
    send_end(alloc, said)?;
    now.sent.is_ended = true;
    Ok(now.sent)
}

/// Sends the end of the data and of the transfer.
fn send_end(alloc: Global, said: &mut Vec<Request>) -> Result<(), NoMemory>
    ensures { IfOk result (λ done. said.new.items ≡ said.old.items ++ values_meant.end_said) }
{
    said.push(item(alloc, Pdu::DataEnd { diagnostic: None })?)?;
    said.push(item(alloc, Pdu::TransferEndRequest)?)?;
    Ok(())
}

/// Sends a value, and a check behind it where one is due; false where the window is full then.
fn send_value(
    alloc: Global,
    pace: Pace,
    outbox: &mut Outbox,
    element: &Element,
    later: &[Element],
    said: &mut Vec<Request>,
) -> Result<bool, NoMemory>
    requires { outbox.old.sent.values < 18446744073709551615 }
    ensures sends { IfOk result (λ goes_on. values_meant.Onward said.old.items (values_meant.values pace outbox.old.serial outbox.old.sent (element.now ∷ later.now)) said.new.items (values_meant.left_of pace outbox.new later.now goes_on)) }
    ensures more { IfOk result (λ goes_on. outbox.new.sent.values ≡ outbox.old.sent.values + 1) }
{
    said.push(value(alloc, element)?)?;
    outbox.sent.values += 1;
    if !is_check_behind(pace, *outbox, later) {
        return Ok(true);
    }
    said.push(Request::Check {
        serial: outbox.serial,
    })?;
    outbox.sent.offered += 1;
    outbox.serial += 1;
    if is_full(pace, outbox.sent) {
        return Ok(false);
    }
    Ok(true)
}

/// A check is due, and more values follow.
fn is_check_behind(pace: Pace, outbox: Outbox, later: &[Element]) -> bool
    ensures due { result ≡ (values_meant.is_more later.now && values_meant.is_check_due pace outbox.sent outbox.serial) }
    ensures serial { IsTrue result → outbox.serial ≤ 999999 }
    ensures point { IsTrue result → outbox.sent.offered < 1000000 }
{
    if later.is_empty() {
        return false;
    }
    is_check_due(pace, outbox.sent, outbox.serial)
}

/// A check stands behind the values that are sent, and may be sent.
fn is_check_due(pace: Pace, sent: Sent, serial: u32) -> bool
    ensures due { result ≡ values_meant.is_check_due pace sent serial }
    ensures serial { IsTrue result → serial ≤ 999999 }
    ensures point { IsTrue result → sent.offered < 1000000 }
{
    pace.checks
        && serial <= LAST_SERIAL
        && sent.offered < MOST_POINT
        && pace.every > 0
        && sent.values % pace.every as usize == 0
}

/// As many checks as the window aren't acknowledged.
fn is_full(pace: Pace, sent: Sent) -> bool
    ensures { result ≡ values_meant.is_full pace sent }
{
    u64::from(sent.offered) >= u64::from(pace.point) + u64::from(pace.window)
}
