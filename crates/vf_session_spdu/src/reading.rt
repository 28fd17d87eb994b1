//! The SPDUs of a TSDU.
ghost use Rattle.std.specs.Prelude.{◌≡◌, ◌∷◌, ◌+◌, ◌<◌, ◌≤◌, ◌^◌, [], if◌then◌else◌, nat_eq, Err, IfOk, List, Ok, length};
ghost use Rattle.std.specs.List.{AllByRecursion};
ghost use Rattle.vf_session_spdu.specs.Faults.{Shows, tsdu_fault};
ghost use Rattle.vf_session_spdu.specs.Fields.{Gives, IsReadable};
ghost use Rattle.vf_session_spdu.specs.Grammar.{Holds};
ghost use Rattle.vf_session_spdu.specs.Reading.{assembled, nothing_after, one as one_read, reading, second as second_read, place_after_gt as place_read, fault_place as place_of_fault};
ghost use Rattle.vf_session_spdu.specs.Steps.{Stands, place_if_gt, viewed};
ghost use Rattle.vf_session_spdu.specs.declared.limits.TheConstants.{MOST_PARAMETER_OCTETS};
ghost use Rattle.vf_session_spdu.specs.declared.spdu.Spdu.{Spdu};

use crate::kinds::{first_kind, is_dt, is_gt, second_kind};
use crate::parts::{shared, take_parts, value_at};
use crate::table::missing;
use crate::{Spdu, SpduError, SpduFields};
use std::alloc::Global;
use vf_base::{NoMemory, Octets, SpduKind};

/// The SPDUs of a TSDU: one alone, or a GT and what follows it. Each has the fields and the user data that its
/// parameters give, with those that it must have, and serial numbers up to 999,999. Places in faults are offsets in
/// the TSDU (ISO 8327, 8). The TSDU is copied once, and user data are shared with the copy.
pub fn read(alloc: Global, tsdu: &[u8]) -> Result<Vec<Spdu>, SpduError>
    ensures exact { Gives (λ spdus. spdus.items) result (reading tsdu.now) }
    // By the terms of the standard, the SPDUs are those of which the octets are a spelling, and there is no fault where
    // there are such.
    ensures held { IfOk result (λ spdus. Holds tsdu.now spdus.items) }
    ensures told { (held : List Spdu) → Holds tsdu.now held → Gives (λ spdus. spdus.items) result (Ok held) }
    // The fault is the one that the parts show.
    ensures faulty { Shows result (tsdu_fault tsdu.now) }
    ensures readable { IfOk result (λ spdus. AllByRecursion IsReadable spdus.items) }
{
    match Octets::of(alloc, tsdu) {
        Ok(kept) => read_of(alloc, &kept, tsdu),
        Err(NoMemory) => Err(SpduError::NoMemory),
    }
}

/// The SPDUs of a TSDU, as `read` gives them; user data are not copied, but shared with the TSDU.
pub fn read_shared(alloc: Global, tsdu: &Octets) -> Result<Vec<Spdu>, SpduError>
    ensures exact { Gives (λ spdus. spdus.items) result (reading tsdu.now) }
    ensures held { IfOk result (λ spdus. Holds tsdu.now spdus.items) }
    ensures told { (held : List Spdu) → Holds tsdu.now held → Gives (λ spdus. spdus.items) result (Ok held) }
    ensures faulty { Shows result (tsdu_fault tsdu.now) }
    ensures readable { IfOk result (λ spdus. AllByRecursion IsReadable spdus.items) }
{
    read_of(alloc, tsdu, tsdu.as_slice())
}

/// The SPDUs of a TSDU that is kept.
fn read_of(alloc: Global, kept: &Octets, tsdu: &[u8]) -> Result<Vec<Spdu>, SpduError>
    requires { kept.now ≡ tsdu.now }
    ensures exact { Gives (λ spdus. spdus.items) result (reading tsdu.now) }
    ensures held { IfOk result (λ spdus. Holds tsdu.now spdus.items) }
    ensures told { (held : List Spdu) → Holds tsdu.now held → Gives (λ spdus. spdus.items) result (Ok held) }
    ensures faulty { Shows result (tsdu_fault tsdu.now) }
    ensures readable { IfOk result (λ spdus. AllByRecursion IsReadable spdus.items) }
{
    match spdus_of(alloc, kept, tsdu) {
        Ok(spdus) => Ok(spdus),
        Err(fault) => Err(fault),
    }
}

fn spdus_of(alloc: Global, kept: &Octets, tsdu: &[u8]) -> Result<Vec<Spdu>, SpduError>
    requires { kept.now ≡ tsdu.now }
    ensures { Gives (λ spdus. spdus.items) result (reading tsdu.now) }
{
    if tsdu.is_empty() {
        return Err(SpduError::Code { at: 0 });
    }
    let (identifier, octets) = tsdu.split_at(1);
    let Some(kind) = first_kind(identifier[0]) else {
        return Err(SpduError::Code { at: 0 });
    };
    let (spdu, place, more) = one(alloc, kept, kind, 0, octets)?;
    if is_gt(kind) {
        second(alloc, kept, spdu, place, more)
    } else {
        alone(alloc, spdu, place, more)
    }
}

fn alone(alloc: Global, spdu: Spdu, place: usize, more: &[u8]) -> Result<Vec<Spdu>, SpduError>
    requires { place < 2 ^ 31 }
    ensures { Gives (λ spdus. spdus.items) result (nothing_after place more.now (spdu ∷ [])) }
{
    if !more.is_empty() {
        return Err(SpduError::Length { at: place as u32 });
    }
    let mut spdus = Vec::new(alloc);
    spdus.push(spdu)?;
    Ok(spdus)
}

fn second(
    alloc: Global,
    kept: &Octets,
    gt: Spdu,
    place: usize,
    octets: &[u8],
) -> Result<Vec<Spdu>, SpduError>
    requires small { place < 2 ^ 30 }
    requires kept { Stands kept.now place octets.now }
    ensures { Gives (λ spdus. spdus.items) result (second_read gt place octets.now) }
{
    let mut spdus = Vec::new(alloc);
    spdus.push(gt)?;
    if octets.is_empty() {
        return Ok(spdus);
    }
    let at = place as u32;
    let (identifier, octets) = octets.split_at(1);
    let Some(kind) = second_kind(identifier[0]) else {
        return Err(SpduError::Code { at });
    };
    let (spdu, place, more) = one(alloc, kept, kind, place, octets)?;
    if !more.is_empty() {
        return Err(SpduError::Length { at: place as u32 });
    }
    spdus.push(spdu)?;
    Ok(spdus)
}

/// The SPDU whose identifier stands at this place, by the octets after it; with the place and the octets after it.
fn one<'a>(
    alloc: Global,
    kept: &Octets,
    kind: SpduKind,
    place: usize,
    octets: &'a [u8],
) -> Result<(Spdu, usize, &'a [u8]), SpduError>
    requires small { place < 2 ^ 30 }
    requires kept { Stands kept.now (place + 1) octets.now }
    ensures exact { Gives (λ x. viewed x.0 x.1 x.2.now) result (one_read kind place octets.now) }
    ensures bound { IfOk result (λ x. x.1 ≤ place + 4 + MOST_PARAMETER_OCTETS) }
    ensures kept { IfOk result (λ x. Stands kept.now x.1 x.2.now) }
{
    let (spelled, value, more) = value_at(place, octets)?;
    let at = place + 1 + spelled;
    let mut spdu = parameters_of(alloc, kept, kind, at, value)?;
    let place = at + value.len();
    if is_dt(kind) {
        spdu.octets = shared(kept, place, more)?;
        return Ok((spdu, place, &[]));
    }
    Ok((spdu, place, more))
}

/// The SPDU with these parameters, the first of which stands at this place.
fn parameters_of(
    alloc: Global,
    kept: &Octets,
    kind: SpduKind,
    place: usize,
    octets: &[u8],
) -> Result<Spdu, SpduError>
    requires small { place + length octets.now < 2 ^ 31 }
    requires kept { Stands kept.now place octets.now }
    ensures { Gives (λ spdu. spdu) result (assembled kind place octets.now) }
{
    let mut spdu = Spdu {
        kind,
        fields: SpduFields::none(),
        octets: Octets::of(alloc, &[])?,
    };
    take_parts(alloc, kept, place, octets, &mut spdu)?;
    if let Some(row) = missing(spdu.kind, &spdu.fields) {
        return Err(SpduError::Missing { code: row.code });
    }
    Ok(spdu)
}

/// Where the second SPDU of a TSDU that `read` takes begins: after the GT. The places of its faults of value and
/// state are this one, those of the first SPDU's 0.
pub fn place_after_gt(tsdu: &[u8]) -> u32
    ensures { result ≡ place_read tsdu.now }
{
    if tsdu.is_empty() {
        return 0;
    }
    let (_, octets) = tsdu.split_at(1);
    match value_at(0, octets) {
        Ok((spelled, value, _)) => 1 + spelled as u32 + value.len() as u32,
        Err(_) => 0,
    }
}

/// Where the fault that `read` found in a TSDU stands: at its own place, or at the first octet of the SPDU whose
/// parameter is missing or wrong.
pub fn fault_place(tsdu: &[u8], fault: SpduError) -> u32
    ensures { reading tsdu.now ≡ Err fault → result ≡ place_of_fault tsdu.now fault }
{
    match fault {
        SpduError::Code { at } | SpduError::Length { at } => at,
        SpduError::Missing { .. } => place_if_gt(tsdu),
        SpduError::Value { code } => place_of_value(tsdu, code),
        SpduError::NoMemory => 0,
    }
}

/// The parameter of a GT is one that no SPDU has which goes after it.
fn place_of_value(tsdu: &[u8], code: u8) -> u32
    ensures { result ≡ (if nat_eq code 16 then 0 else place_if_gt tsdu.now) }
{
    if code == 16 { 0 } else { place_if_gt(tsdu) }
}

/// Where the second SPDU begins if the first is a GT, else 0.
fn place_if_gt(tsdu: &[u8]) -> u32
    ensures { result ≡ place_if_gt tsdu.now }
{
    if !tsdu.is_empty() && tsdu[0] == 1 {
        place_after_gt(tsdu)
    } else {
        0
    }
}
