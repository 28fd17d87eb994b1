//! SPDUs as octets.
ghost use Rattle.std.specs.Prelude.{◌≡◌, ◌++◌, ◌≤◌, ◌<◌, length, OnOk, OnErr, nat_eq, filter};
ghost use Rattle.std.specs.List.{flat_map};
ghost use Rattle.std.specs.Option.{option_map};
ghost use Rattle.vf_session_spdu.specs.declared.limits.TheConstants.{MOST_PARAMETER_OCTETS};
ghost use Rattle.vf_session_spdu.specs.Numbers.{length_octets, digits};
ghost use Rattle.vf_session_spdu.specs.Spelling.{IsWritten, heading, spelling, spelled, spelled_if, spelled_row, spelled_group, spelled_parameters, octet, two_octets, first_data, second_data, reasoned, octets_after as data_after};

use crate::Spdu;
use crate::kinds::{code_of, is_dt};
use crate::numbers::{leading_zeros, six_digits};
use crate::table::{Row, opens, rows};
use std::alloc::Global;
use vf_base::NoMemory;

/// Appends the spelling of an SPDU: its identifier, its length, the parameters that it has in the order of the table,
/// and the data of a DT. Without memory nothing is appended.
pub fn write(alloc: Global, spdu: &Spdu, out: &mut Vec<u8>) -> Result<(), NoMemory>
    requires { IsWritten spdu.now }
    ensures ok { OnOk result (out.new.items ≡ out.old.items ++ spelling spdu.now) }
    ensures err { OnErr result (out.new.items ≡ out.old.items) }
{
    let mut head = Vec::new(alloc);
    put_head(alloc, spdu, &mut head)?;
    append_both(head.as_slice(), data_of(spdu), out)?;
    Ok(())
}

/// Appends the spelling of an SPDU up to the data of a DT, which is copied from where it stands by a caller that sends it;
/// that of any other SPDU is whole. Without memory nothing is appended.
pub fn write_head(alloc: Global, spdu: &Spdu, out: &mut Vec<u8>) -> Result<(), NoMemory>
    requires { IsWritten spdu.now }
    ensures ok { OnOk result (out.new.items ≡ out.old.items ++ heading spdu.now) }
    ensures err { OnErr result (out.new.items ≡ out.old.items) }
{
    let mut head = Vec::new(alloc);
    put_head(alloc, spdu, &mut head)?;
    out.extend_from_slice(head.as_slice())?;
    Ok(())
}

/// Appends what stands before the data of a DT.
fn put_head(alloc: Global, spdu: &Spdu, out: &mut Vec<u8>) -> Result<(), NoMemory>
    requires { IsWritten spdu.now }
    ensures { OnOk result (out.new.items ≡ out.old.items ++ heading spdu.now) }
{
    let mut parameters = Vec::new(alloc);
    put_parameters(alloc, spdu, &mut parameters)?;
    put(code_of(spdu.kind), parameters.as_slice(), out)?;
    Ok(())
}

/// Appends two slices, or nothing.
fn append_both(head: &[u8], after: &[u8], out: &mut Vec<u8>) -> Result<(), NoMemory>
    ensures ok { OnOk result (out.new.items ≡ out.old.items ++ (head.now ++ after.now)) }
    ensures err { OnErr result (out.new.items ≡ out.old.items) }
{
    let before = out.len();
    out.extend_from_slice(head)?;
    if out.extend_from_slice(after).is_err() {
        out.truncate(before);
        return Err(NoMemory);
    }
    Ok(())
}

/// The data of a DT; none of any other SPDU, whose user data is a parameter.
fn data_of(spdu: &Spdu) -> &[u8]
    ensures { result.now ≡ data_after spdu.now spdu.now.kind }
{
    if is_dt(spdu.kind) {
        spdu.octets.as_slice()
    } else {
        &[]
    }
}

/// Appends the parameters of an SPDU.
fn put_parameters(alloc: Global, spdu: &Spdu, out: &mut Vec<u8>) -> Result<(), NoMemory>
    requires { length (spelled_parameters spdu.now) ≤ MOST_PARAMETER_OCTETS }
    ensures { OnOk result (out.new.items ≡ out.old.items ++ spelled_parameters spdu.now) }
{
    if opens(spdu.kind, 5) {
        let mut item = Vec::new(alloc);
        put_group(alloc, spdu, 5, &mut item)?;
        put(5, item.as_slice(), out)?;
    }
    put_group(alloc, spdu, 0, out)?;
    Ok(())
}

/// Appends the parameters of one group, or those in none.
fn put_group(alloc: Global, spdu: &Spdu, group: u8, out: &mut Vec<u8>) -> Result<(), NoMemory>
    requires { length (spelled_group spdu.now group) ≤ MOST_PARAMETER_OCTETS }
    ensures { OnOk result (out.new.items ≡ out.old.items ++ spelled_group spdu.now group) }
{
    put_rows(alloc, rows(spdu.kind), spdu, group, out)?;
    Ok(())
}

fn put_rows(
    alloc: Global,
    rows: &[Row],
    spdu: &Spdu,
    group: u8,
    out: &mut Vec<u8>,
) -> Result<(), NoMemory>
    requires { length (flat_map (spelled_row spdu.now) (filter (λ row. nat_eq row.group group) rows.now)) ≤ MOST_PARAMETER_OCTETS }
    ensures { OnOk result (out.new.items ≡ out.old.items ++ flat_map (spelled_row spdu.now) (filter (λ row. nat_eq row.group group) rows.now)) }
{
    for row in rows {
        if row.group == group {
            put_row(alloc, *row, spdu, out)?;
        }
    }
    Ok(())
}

/// Appends what is written in a row, if anything.
fn put_row(alloc: Global, row: Row, spdu: &Spdu, out: &mut Vec<u8>) -> Result<(), NoMemory>
    requires { length (spelled_row spdu.now row) ≤ MOST_PARAMETER_OCTETS }
    ensures { OnOk result (out.new.items ≡ out.old.items ++ spelled_row spdu.now row) }
{
    let fields = &spdu.fields;
    match row.code {
        16 => put_octet(row.code, fields.given, out),
        17 => put_octet(row.code, fields.abort, out),
        19 => put_octet(row.code, Some(0), out),
        20 => put_units(row.code, fields.units, out),
        22 => put_octet(row.code, Some(2), out),
        23 => put_serial(row.code, fields.first, out),
        26 => put_octet(row.code, fields.tokens, out),
        27 => put_octet(row.code, fields.resync, out),
        42 => put_serial(row.code, fields.serial, out),
        50 => put_reason(alloc, row.code, fields.reason, spdu.octets.as_slice(), out),
        193 => put_data(row, spdu.octets.as_slice(), out),
        194 => put_long_data(row.code, spdu.octets.as_slice(), out),
        _ => Ok(()),
    }
}

/// Appends a parameter: identifier, length, value. A value is at most 65,535 octets long.
fn put(code: u8, value: &[u8], out: &mut Vec<u8>) -> Result<(), NoMemory>
    requires { length value.now ≤ MOST_PARAMETER_OCTETS }
    ensures { OnOk result (out.new.items ≡ out.old.items ++ spelled code value.now) }
{
    let size = value.len();
    if size < 255 {
        out.extend_from_slice(&[code, size as u8])?;
    } else {
        out.extend_from_slice(&[code, 255, (size / 256) as u8, (size % 256) as u8])?;
    }
    out.extend_from_slice(value)?;
    Ok(())
}

fn put_octet(code: u8, field: Option<u8>, out: &mut Vec<u8>) -> Result<(), NoMemory>
    ensures { OnOk result (out.new.items ≡ out.old.items ++ spelled_if code (option_map octet field)) }
{
    if let Some(octet) = field {
        put(code, &[octet], out)?;
    }
    Ok(())
}

fn put_units(code: u8, field: Option<u16>, out: &mut Vec<u8>) -> Result<(), NoMemory>
    ensures { OnOk result (out.new.items ≡ out.old.items ++ spelled_if code (option_map two_octets field)) }
{
    if let Some(units) = field {
        put(code, &[(units / 256) as u8, (units % 256) as u8], out)?;
    }
    Ok(())
}

fn put_serial(code: u8, field: Option<u32>, out: &mut Vec<u8>) -> Result<(), NoMemory>
    ensures { OnOk result (out.new.items ≡ out.old.items ++ spelled_if code (option_map digits field)) }
{
    if let Some(serial) = field {
        let all = six_digits(serial);
        let (_, fewest) = all.split_at(leading_zeros(serial));
        put(code, fewest, out)?;
    }
    Ok(())
}

/// Appends a reason and the user data after it.
fn put_reason(
    alloc: Global,
    code: u8,
    field: Option<u8>,
    octets: &[u8],
    out: &mut Vec<u8>,
) -> Result<(), NoMemory>
    requires { length (spelled_if code (option_map (reasoned octets.now) field)) ≤ MOST_PARAMETER_OCTETS }
    ensures { OnOk result (out.new.items ≡ out.old.items ++ spelled_if code (option_map (reasoned octets.now) field)) }
{
    if let Some(reason) = field {
        let mut value = Vec::from_slice(alloc, &[reason])?;
        value.extend_from_slice(octets)?;
        put(code, value.as_slice(), out)?;
    }
    Ok(())
}

/// Appends user data, where there is some and this row has room for it.
fn put_data(row: Row, octets: &[u8], out: &mut Vec<u8>) -> Result<(), NoMemory>
    requires { length (spelled_if row.code (first_data row octets.now)) ≤ MOST_PARAMETER_OCTETS }
    ensures { OnOk result (out.new.items ≡ out.old.items ++ spelled_if row.code (first_data row octets.now)) }
{
    if !octets.is_empty() && row.form.fits(octets) {
        put(row.code, octets, out)?;
    }
    Ok(())
}

/// Appends user data of more than 512 octets.
fn put_long_data(code: u8, octets: &[u8], out: &mut Vec<u8>) -> Result<(), NoMemory>
    requires { length (spelled_if code (second_data octets.now)) ≤ MOST_PARAMETER_OCTETS }
    ensures { OnOk result (out.new.items ≡ out.old.items ++ spelled_if code (second_data octets.now)) }
{
    if octets.len() > 512 {
        put(code, octets, out)?;
    }
    Ok(())
}
