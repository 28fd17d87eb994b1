//! The SPDUs in which a unit is sent.
ghost use Rattle.std.specs.Prelude.{◌≡◌, ◌++◌, ◌∷◌, [], true, false, IfOk, OnOk, OnErr, Some};
ghost use Rattle.std.specs.Option.{option_map};
ghost use Rattle.vf_session_spdu.specs.Fields.{no_fields};
ghost use Rattle.vf_session.specs.Sending.{abort_fields as with_abort, gt as gt_spdu, reason_fields as with_reason, resync_code as code_of_resync, serial_fields as with_serial, spdus, token_item as item_of, units_fields as with_units};

use crate::meaning::is_side;
use crate::{ResyncKind, SessionSay, Spdu, SpduFields, TokenSide};
use std::alloc::Global;
use vf_base::{NoMemory, Octets, SpduKind};

/// Appends the SPDUs of a unit: one, or a GT and what follows it.
pub(crate) fn put_spdus(
    alloc: Global,
    own: TokenSide,
    say: &SessionSay,
    out: &mut Vec<Spdu>,
) -> Result<(), NoMemory>
    ensures ok { OnOk result (out.new.items ≡ out.old.items ++ spdus own say.now) }
    ensures err { OnErr result (out.new.items ≡ out.old.items) }
{
    match say {
        SessionSay::Connect { sync, serial, data } => {
            put_one(alloc, SpduKind::CN, units_fields(*sync, *serial), data, out)
        }
        SessionSay::Accept { sync, serial, data } => {
            put_one(alloc, SpduKind::AC, units_fields(*sync, *serial), data, out)
        }
        SessionSay::Refuse { data } => {
            let reason = if data.len() == 0 { 0 } else { 2 };
            put_one(alloc, SpduKind::RF, reason_fields(reason), data, out)
        }
        SessionSay::Finish { data } => put_one(alloc, SpduKind::FN, SpduFields::none(), data, out),
        SessionSay::Finished { data } => put_one(
            alloc,
            SpduKind::DN,
            SpduFields::none(),
            data,
            out,
        ),
        SessionSay::Data { pass, data } => {
            put_two(alloc, *pass, SpduKind::DT, SpduFields::none(), data, out)
        }
        SessionSay::Check { serial } => put_number(alloc, SpduKind::MIP, *serial, out),
        SessionSay::Acknowledge { serial } => put_number(alloc, SpduKind::MIA, *serial, out),
        SessionSay::Resync {
            kind,
            serial,
            token,
            data,
        } => {
            let fields = resync_fields(own, *kind, *serial, *token);
            put_two(alloc, false, SpduKind::RS, fields, data, out)
        }
        SessionSay::Resynced {
            serial,
            token,
            data,
        } => {
            let fields = resynced_fields(own, *serial, *token);
            put_two(alloc, false, SpduKind::RA, fields, data, out)
        }
        SessionSay::Abort { data } => {
            let reason = if data.len() == 0 { 5 } else { 3 };
            put_one(alloc, SpduKind::AB, abort_fields(reason), data, out)
        }
        SessionSay::Token { .. } => put_gt(alloc, out),
    }
}

/// Appends one SPDU.
fn put_one(
    alloc: Global,
    kind: SpduKind,
    fields: SpduFields,
    user_data: &Octets,
    out: &mut Vec<Spdu>,
) -> Result<(), NoMemory>
    ensures ok { OnOk result (out.new.items ≡ out.old.items ++ record { kind = kind; fields = fields; octets = user_data.now } ∷ []) }
    ensures err { OnErr result (out.new.items ≡ out.old.items) }
{
    let octets = user_data.copy(alloc)?;
    out.push(Spdu {
        kind,
        fields,
        octets,
    })?;
    Ok(())
}

/// Appends a GT and another SPDU, or neither.
fn put_two(
    alloc: Global,
    pass: bool,
    kind: SpduKind,
    fields: SpduFields,
    user_data: &Octets,
    out: &mut Vec<Spdu>,
) -> Result<(), NoMemory>
    ensures ok { OnOk result (out.new.items ≡ out.old.items ++ gt_spdu pass ∷ record { kind = kind; fields = fields; octets = user_data.now } ∷ []) }
    ensures err { OnErr result (out.new.items ≡ out.old.items) }
{
    let gt = gt(alloc, pass)?;
    let octets = user_data.copy(alloc)?;
    out.reserve(2)?;
    out.push_reserved(gt);
    out.push_reserved(Spdu {
        kind,
        fields,
        octets,
    });
    Ok(())
}

/// Appends a GT and an SPDU with a serial number alone.
fn put_number(
    alloc: Global,
    kind: SpduKind,
    serial: u32,
    out: &mut Vec<Spdu>,
) -> Result<(), NoMemory>
    ensures ok { OnOk result (out.new.items ≡ out.old.items ++ gt_spdu false ∷ record { kind = kind; fields = with_serial serial; octets = [] } ∷ []) }
    ensures err { OnErr result (out.new.items ≡ out.old.items) }
{
    let none = Octets::of(alloc, &[])?;
    put_two(alloc, false, kind, serial_fields(serial), &none, out)?;
    Ok(())
}

/// Appends a GT that passes the token.
fn put_gt(alloc: Global, out: &mut Vec<Spdu>) -> Result<(), NoMemory>
    ensures ok { OnOk result (out.new.items ≡ out.old.items ++ gt_spdu true ∷ []) }
    ensures err { OnErr result (out.new.items ≡ out.old.items) }
{
    let gt = gt(alloc, true)?;
    out.push(gt)?;
    Ok(())
}

fn gt(alloc: Global, pass: bool) -> Result<Spdu, NoMemory>
    ensures { IfOk result (λ made. made ≡ gt_spdu pass) }
{
    let octets = Octets::of(alloc, &[])?;
    let given = if pass { Some(4) } else { None };
    Ok(Spdu {
        kind: SpduKind::GT,
        fields: SpduFields {
            given,
            ..SpduFields::none()
        },
        octets,
    })
}

/// The units that are proposed or agreed: duplex, and sync with its first number and a token setting.
fn units_fields(sync: bool, serial: u32) -> SpduFields
    ensures { result ≡ with_units sync serial }
{
    if sync {
        SpduFields {
            units: Some(0x2A),
            first: Some(serial),
            tokens: Some(0),
            ..SpduFields::none()
        }
    } else {
        SpduFields {
            units: Some(2),
            ..SpduFields::none()
        }
    }
}

fn serial_fields(serial: u32) -> SpduFields
    ensures { result ≡ with_serial serial }
{
    SpduFields {
        serial: Some(serial),
        ..SpduFields::none()
    }
}

fn reason_fields(reason: u8) -> SpduFields
    ensures { result ≡ with_reason reason }
{
    SpduFields {
        reason: Some(reason),
        ..SpduFields::none()
    }
}

fn abort_fields(abort: u8) -> SpduFields
    ensures { result ≡ with_abort abort }
{
    SpduFields {
        abort: Some(abort),
        ..SpduFields::none()
    }
}

fn resync_fields(
    own: TokenSide,
    kind: ResyncKind,
    serial: u32,
    token: Option<TokenSide>,
) -> SpduFields
    ensures { result ≡ record no_fields { tokens = option_map (item_of own) token; resync = Some (code_of_resync kind); serial = Some serial } }
{
    let resync = match kind {
        ResyncKind::Restart => 0,
        ResyncKind::Abandon => 1,
    };
    SpduFields {
        tokens: token_item(own, token),
        resync: Some(resync),
        serial: Some(serial),
        ..SpduFields::none()
    }
}

fn resynced_fields(own: TokenSide, serial: u32, token: Option<TokenSide>) -> SpduFields
    ensures { result ≡ record no_fields { tokens = option_map (item_of own) token; serial = Some serial } }
{
    SpduFields {
        tokens: token_item(own, token),
        serial: Some(serial),
        ..SpduFields::none()
    }
}

/// The token setting item that names an end: 0 for the sender, 4 for the other.
fn token_item(own: TokenSide, token: Option<TokenSide>) -> Option<u8>
    ensures { result ≡ option_map (item_of own) token }
{
    match token {
        None => None,
        Some(side) => { if is_side(own, side) { Some(0) } else { Some(4) } }
    }
}
