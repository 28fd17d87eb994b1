//! Worked SPDUs, as octets and as what they are.
use crate::octets::{octets_of, show_all};
use std::alloc::Global;
use std::process::Abort;
use std::test::Fail;
use vf_base::{Octets, SpduKind};
use vf_session::{Spdu, SpduError, SpduFields, fault_place, read, read_shared, write};

mod rows;

/// A field by the identifier of its parameter.
fn field(fields: &SpduFields, code: u8) -> Option<u32> {
    match code {
        16 => fields.given.map(u32::from),
        17 => fields.abort.map(u32::from),
        20 => fields.units.map(u32::from),
        23 => fields.first,
        26 => fields.tokens.map(u32::from),
        27 => fields.resync.map(u32::from),
        42 => fields.serial,
        50 => fields.reason.map(u32::from),
        _ => None,
    }
}

fn show_data(alloc: Global, data: &[u8], text: &mut String) -> Result<(), Fail> {
    if data.len() > 8 {
        text.push_str(format!(in alloc; " {} octets", data.len())?.as_str())?;
    } else if !data.is_empty() {
        text.push(' ')?;
        show_all(alloc, data, text)?;
    }
    Ok(())
}

fn show_spdu(alloc: Global, spdu: &Spdu, text: &mut String) -> Result<(), Fail> {
    text.push_str(format!(in alloc; "{:?}", spdu.kind)?.as_str())?;
    for code in [16, 17, 20, 23, 26, 27, 42, 50] {
        if let Some(value) = field(&spdu.fields, code) {
            text.push_str(format!(in alloc; " {code}={value}")?.as_str())?;
        }
    }
    show_data(alloc, spdu.octets.as_slice(), text)
}

fn show_spdus(alloc: Global, spdus: &[Spdu]) -> Result<String, Fail> {
    let mut text = String::new(alloc);
    for spdu in spdus {
        if !text.is_empty() {
            text.push_str(", ")?;
        }
        show_spdu(alloc, spdu, &mut text)?;
    }
    Ok(text)
}

fn show_fault(alloc: Global, tsdu: &[u8], fault: SpduError) -> Result<String, Fail> {
    let place = fault_place(tsdu, fault);
    Ok(match fault {
        SpduError::Code { at } => format!(in alloc; "Code {at}")?,
        SpduError::Length { at } => format!(in alloc; "Length {at}")?,
        SpduError::Missing { code } => format!(in alloc; "Missing {code} at {place}")?,
        SpduError::Value { code } => format!(in alloc; "Value {code} at {place}")?,
        SpduError::NoMemory => format!(in alloc; "NoMemory")?,
    })
}

fn answer(alloc: Global, tsdu: &[u8], read: Result<Vec<Spdu>, SpduError>) -> Result<String, Fail> {
    match read {
        Ok(spdus) => show_spdus(alloc, spdus.as_slice()),
        Err(fault) => show_fault(alloc, tsdu, fault),
    }
}

/// Octets are read as a row says, also where they are shared.
fn assert_read(rt: &impl Abort, alloc: Global, octets: &str, expected: &str) -> Result<(), Fail> {
    let tsdu = octets_of(alloc, octets)?;
    let kept = Octets::of(alloc, tsdu.as_slice())?;
    let found = answer(alloc, tsdu.as_slice(), read(alloc, tsdu.as_slice()))?;
    assert_eq!(rt; found.as_str(), expected, "{octets}");
    let found = answer(alloc, tsdu.as_slice(), read_shared(alloc, &kept))?;
    assert_eq!(rt; found.as_str(), expected, "{octets}");
    Ok(())
}

#[test]
fn octets_are_read(rt: HostRuntime) -> Result<(), Fail> {
    let mut count = 0_u32;
    for row in rows::ROWS.lines() {
        if let Some((octets, expected)) = row.split_once(" = ") {
            assert_read(&rt, rt.alloc(), octets, expected)?;
            count = count.saturating_add(1);
        }
    }
    assert_eq!(rt; count, 222);
    Ok(())
}

#[test]
fn an_aa_is_written(rt: HostRuntime) -> Result<(), Fail> {
    let aa = Spdu {
        kind: SpduKind::AA,
        fields: SpduFields::none(),
        octets: Octets::of(rt.alloc(), b"")?,
    };
    let mut octets = Vec::from_slice(rt.alloc(), b"\x01")?;
    write(rt.alloc(), &aa.copy(rt.alloc())?, &mut octets)?;
    assert_eq!(rt; octets.as_slice(), b"\x01\x1A\x00".as_slice());
    Ok(())
}
