//! What the values of a unit's user data tell.
ghost use Rattle.std.specs.Prelude.{◌≡◌, IfOk, Ok, drop, map};
ghost use Rattle.vf_ber.specs.Views.{tree_of};
ghost use Rattle.vf_elements.specs.Messages.{message_in};
ghost use Rattle.vf_elements.specs.declared.message.Message.TheVariants as messages;
ghost use Rattle.vf_pdu.specs.PduNumbers.{number_of};
ghost use Rattle.vf_pdu.specs.PduReading.{pdu_in};
ghost use Rattle.vf_stack.specs.Carriage.{answer_told, bare_told, due as due_told, goes_in_data as goes, item_told, items_told, one_told, pdu_read, pdu_told, plain_told, read_told, resync_told, resynced_told, single_told, values_told};
ghost use Rattle.vf_stack.specs.FaultNames.{IsFault};
ghost use Rattle.vf_stack.specs.Represents.{Puts};
ghost use Rattle.vf_upper.specs.Carried.{carried_of};

use crate::carriage::{is_data, values_of};
use crate::fault::{Fault, misplaced, upper_fault, value_fault};
use crate::{Indication, Item};
use std::alloc::Global;
use vf_base::NoMemory;
use vf_ber::Value;
use vf_elements::{Message, message_of};
use vf_pdu::{Boxed, Pdu, PduError};
use vf_session::{PendingResync, ResyncKind, SayParameters, SessionState};
use vf_upper::{CarriedValue, Primitive, UpperError};

/// Appends an indication, or answers the fault that stands for it.
fn put(
    told: Result<Indication, Fault>,
    out: &mut Vec<Indication>,
) -> Result<Option<Fault>, NoMemory>
    ensures { IfOk result (λ fault. Puts (one_told told) out.old.items out.new.items fault) }
{
    match told {
        Ok(indication) => {
            out.push(indication)?;
            Ok(None)
        }
        Err(fault) => Ok(Some(fault)),
    }
}

// ---- P-DATA

/// Whether a PDU of this number goes in P-DATA.
pub(crate) fn goes_in_data(sync: bool, number: u16) -> bool
    ensures { result ≡ goes sync number }
{
    6 <= number && (if sync { number <= 36 } else { true })
}

/// What a PDU in P-DATA tells, or its fault.
fn placed_pdu(alloc: Global, sync: bool, pdu: Pdu) -> Result<Result<Indication, Fault>, NoMemory>
    ensures { IfOk result (λ told. told ≡ item_told sync (Ok (messages.Pdu pdu))) }
{
    if !goes_in_data(sync, pdu.number()) {
        drop(pdu);
        return Ok(Err(misplaced()));
    }
    let pdu = Boxed::new(alloc, pdu)?;
    Ok(Ok(Indication::Item(Item::Pdu(pdu))))
}

/// What a message in P-DATA tells, or its fault.
fn placed(
    alloc: Global,
    sync: bool,
    message: Message,
) -> Result<Result<Indication, Fault>, NoMemory>
    ensures { IfOk result (λ told. told ≡ item_told sync (Ok message)) }
{
    match message {
        Message::Pdu(pdu) => placed_pdu(alloc, sync, pdu),
        Message::Element(element) => Ok(Ok(Indication::Item(Item::Element(element)))),
        Message::Check => Ok(Err(misplaced())),
        Message::Acknowledge { .. } => Ok(Err(misplaced())),
        Message::Restart { .. } => Ok(Err(misplaced())),
        Message::Break => Ok(Err(misplaced())),
    }
}

/// Appends what a value of P-DATA tells, or answers its fault.
fn put_item(
    alloc: Global,
    sync: bool,
    value: &Value,
    out: &mut Vec<Indication>,
) -> Result<Option<Fault>, NoMemory>
    ensures { IfOk result (λ fault. Puts (one_told (item_told sync (message_in (tree_of value.now)))) out.old.items out.new.items fault) }
{
    match message_of(alloc, value) {
        Ok(message) => {
            let told = placed(alloc, sync, message)?;
            put(told, out)
        }
        Err(error) => named(error),
    }
}

/// The fault that an error of a value names.
fn named(error: PduError) -> Result<Option<Fault>, NoMemory>
    ensures { IfOk result (λ told. IsFault error told) }
{
    match value_fault(error) {
        Some(fault) => Ok(Some(fault)),
        None => Err(NoMemory),
    }
}

/// Appends what the values of P-DATA tell, up to the first fault.
fn put_items(
    alloc: Global,
    sync: bool,
    values: &[CarriedValue],
    out: &mut Vec<Indication>,
) -> Result<Option<Fault>, NoMemory>
    ensures { IfOk result (λ fault. Puts (items_told sync (map carried_of values.now)) out.old.items out.new.items fault) }
{
    for value in values {
        let fault = put_item(alloc, sync, &value.value, out)?;
        if fault.is_some() {
            return Ok(fault);
        }
    }
    Ok(None)
}

// ---- the other units: one value, which is a PDU

fn due(is_due: bool, indication: Indication) -> Result<Indication, Fault>
    ensures { result ≡ due_told is_due indication }
{
    if is_due {
        Ok(indication)
    } else {
        drop(indication);
        Err(misplaced())
    }
}

fn resync(kind: ResyncKind, serial: u32, number: u16, pdu: Boxed<Pdu>) -> Result<Indication, Fault>
    requires { number ≡ number_of pdu }
    ensures { result ≡ resync_told kind serial pdu }
{
    match kind {
        ResyncKind::Restart => due(number == 39, Indication::Restart { serial, pdu }),
        ResyncKind::Abandon => due(number == 37, Indication::Cancel { pdu }),
    }
}

fn answer(kind: ResyncKind, serial: u32, number: u16, pdu: Boxed<Pdu>) -> Result<Indication, Fault>
    requires { number ≡ number_of pdu }
    ensures { result ≡ answer_told kind serial pdu }
{
    match kind {
        ResyncKind::Restart => due(number == 40, Indication::Restarted { serial, pdu }),
        ResyncKind::Abandon => due(number == 38, Indication::Cancelled { pdu }),
    }
}

fn resynced(
    pending: Option<PendingResync>,
    serial: u32,
    number: u16,
    pdu: Boxed<Pdu>,
) -> Result<Indication, Fault>
    requires { number ≡ number_of pdu }
    ensures { result ≡ resynced_told pending serial pdu }
{
    match pending {
        Some(pending) => answer(pending.kind, serial, number, pdu),
        None => Err(misplaced()),
    }
}

/// What a unit tells by its PDU.
fn carried(
    pending: Option<PendingResync>,
    unit: SayParameters,
    pdu: Boxed<Pdu>,
) -> Result<Indication, Fault>
    ensures { result ≡ pdu_told pending unit pdu }
{
    let number = pdu.value().number();
    match unit {
        SayParameters::Connect { sync, .. } => due(
            number == 0,
            Indication::Associate { sync, pdu },
        ),
        SayParameters::Accept { sync, .. } => due(number == 1, Indication::Accepted { sync, pdu }),
        SayParameters::Refuse => due(number == 1, Indication::Refused { pdu: Some(pdu) }),
        SayParameters::Finish => due(number == 2, Indication::Release { pdu }),
        SayParameters::Finished => due(number == 3, Indication::Released { pdu }),
        SayParameters::Resync { kind, serial, .. } => resync(kind, serial, number, pdu),
        SayParameters::Resynced { serial, .. } => resynced(pending, serial, number, pdu),
        SayParameters::Abort => due(
            number == 4 || number == 5,
            Indication::Abort { pdu: Some(pdu) },
        ),
        SayParameters::Data { .. } => Err(misplaced()),
        SayParameters::Check { .. } => Err(misplaced()),
        SayParameters::Acknowledge { .. } => Err(misplaced()),
        SayParameters::Token { .. } => Err(misplaced()),
    }
}

/// Appends what a unit tells by its value, or answers its fault.
fn put_pdu(
    alloc: Global,
    pending: Option<PendingResync>,
    unit: SayParameters,
    value: &Value,
    out: &mut Vec<Indication>,
) -> Result<Option<Fault>, NoMemory>
    ensures { IfOk result (λ fault. Puts (one_told (pdu_read pending unit (pdu_in (tree_of value.now)))) out.old.items out.new.items fault) }
{
    match vf_pdu::of_value(alloc, value) {
        Ok(pdu) => {
            let pdu = Boxed::new(alloc, pdu)?;
            put(carried(pending, unit, pdu), out)
        }
        Err(error) => named(error),
    }
}

/// What a unit tells without a PDU.
fn bare(unit: SayParameters) -> Result<Indication, Fault>
    ensures { result ≡ bare_told unit }
{
    match unit {
        SayParameters::Refuse => Ok(Indication::Refused { pdu: None }),
        SayParameters::Abort => Ok(Indication::Abort { pdu: None }),
        SayParameters::Connect { .. } => Err(misplaced()),
        SayParameters::Accept { .. } => Err(misplaced()),
        SayParameters::Finish => Err(misplaced()),
        SayParameters::Finished => Err(misplaced()),
        SayParameters::Data { .. } => Err(misplaced()),
        SayParameters::Check { .. } => Err(misplaced()),
        SayParameters::Acknowledge { .. } => Err(misplaced()),
        SayParameters::Resync { .. } => Err(misplaced()),
        SayParameters::Resynced { .. } => Err(misplaced()),
        SayParameters::Token { .. } => Err(misplaced()),
    }
}

fn put_single(
    alloc: Global,
    pending: Option<PendingResync>,
    unit: SayParameters,
    values: &[CarriedValue],
    out: &mut Vec<Indication>,
) -> Result<Option<Fault>, NoMemory>
    ensures { IfOk result (λ fault. Puts (one_told (single_told pending unit (map carried_of values.now))) out.old.items out.new.items fault) }
{
    let Some((value, _)) = values.split_first() else {
        return put(bare(unit), out);
    };
    put_pdu(alloc, pending, unit, &value.value, out)
}

// ---- a unit

fn put_values(
    alloc: Global,
    state: SessionState,
    unit: SayParameters,
    values: &[CarriedValue],
    out: &mut Vec<Indication>,
) -> Result<Option<Fault>, NoMemory>
    ensures { IfOk result (λ fault. Puts (values_told state unit (map carried_of values.now)) out.old.items out.new.items fault) }
{
    if is_data(unit) {
        put_items(alloc, state.agreed, values, out)
    } else {
        put_single(alloc, state.resync, unit, values, out)
    }
}

/// Appends what a unit tells by its user data, as they were read where the connection stood so; answers its fault.
pub(crate) fn put_read(
    alloc: Global,
    state: SessionState,
    unit: SayParameters,
    read: Result<Primitive, UpperError>,
    out: &mut Vec<Indication>,
) -> Result<Option<Fault>, NoMemory>
    ensures { IfOk result (λ fault. Puts (read_told state unit read) out.old.items out.new.items fault) }
{
    match read {
        Ok(primitive) => {
            let values = values_of(primitive);
            put_values(alloc, state, unit, values.as_slice(), out)
        }
        Err(fault) => Ok(Some(upper_fault(fault))),
    }
}

/// Appends what a unit without user data tells.
pub(crate) fn put_plain(
    unit: SayParameters,
    out: &mut Vec<Indication>,
) -> Result<Option<Fault>, NoMemory>
    ensures { IfOk result (λ fault. Puts (plain_told unit) out.old.items out.new.items fault) }
{
    match unit {
        SayParameters::Check { serial } => put(Ok(Indication::Check { serial }), out),
        SayParameters::Acknowledge { serial } => put(Ok(Indication::Acknowledged { serial }), out),
        SayParameters::Connect { .. } => Ok(None),
        SayParameters::Accept { .. } => Ok(None),
        SayParameters::Refuse => Ok(None),
        SayParameters::Finish => Ok(None),
        SayParameters::Finished => Ok(None),
        SayParameters::Data { .. } => Ok(None),
        SayParameters::Resync { .. } => Ok(None),
        SayParameters::Resynced { .. } => Ok(None),
        SayParameters::Abort => Ok(None),
        SayParameters::Token { .. } => Ok(None),
    }
}
