//! Reading the records of an area, in blocks.
ghost use Rattle.std.specs.Prelude.{◌≡◌, ◌+◌, ◌-◌, ◌<◌, ◌≤◌, ◌^◌, ℕ, List, [], ◌∷◌, ◌++◌, take, drop, length, length as size_of, false, IfOk, IfNone, IfSome, IsTrue, None, OnErr, OnOk, option_map, Some};
ghost use Rattle.vf_disk.specs.Disk.{greatest_length};
ghost use Rattle.vf_journal.specs.Answers.{ReadCauses, is_fault};
ghost use Rattle.vf_journal.specs.Looking.{IsLookedAt};
ghost use Rattle.vf_journal.specs.Reading.{BeginsWith, IsBeginning, IsWhole, StandsFrom, Takes};
ghost use Rattle.vf_journal.specs.Layout.{first_start, length_named, part};
ghost use Rattle.vf_journal.specs.Records.{first_record};
ghost use Rattle.vf_journal.specs.JournalState.{IsPlaced, area_of};

use crate::JournalError;
use crate::area::Area;
use crate::device::read_at;
use byteorder::{BigEndian, ByteOrder};
use std::alloc::Global;
use vf_base::{NoMemory, Octets};
use vf_disk::Disk;

/// The octets that are read at a time.
const BLOCK: u64 = 65_536;

/// What stands first in octets that begin with a gate.
pub(crate) enum Beginning {
    /// No record.
    End,
    /// The octets end before that can be told, or before the record and its gate do.
    Cut,
    /// A record of so many octets.
    Record(usize),
}

/// The length that four octets name.
#[tactic(auto, unfolding(crate::specs::Layout::length_named))]
fn named_length(octets: &[u8]) -> u32
    requires { 4 ≤ length octets.now }
    ensures { result ≡ length_named octets.now }
{
    BigEndian::read_u32(octets)
}

/// The length of the record after a gate, where it stands there whole with the next gate: by the first octets from
/// the gate on, of which there are `left`.
fn record_length(octets: &[u8], left: u64) -> Option<u32>
    requires octets { 5 ≤ length octets.now }
    requires left { length octets.now ≤ left }
    ensures some { (all : List ℕ) → BeginsWith octets.now left all → IfSome result (λ count. first_record all ≡ Some (take count (drop 5 all), drop (count + 5) all)) }
    ensures none { (all : List ℕ) → BeginsWith octets.now left all → IfNone result (first_record all ≡ None) }
    ensures whole { IfSome result (λ count. count + 6 ≤ left) }
{
    if octets[0] == 0 || left < 6 {
        return None;
    }
    let (_, rest) = octets.split_at(1);
    let count = named_length(rest);
    if left - 6 < u64::from(count) {
        return None;
    }
    Some(count)
}

/// What stands first in these octets, where `left` stand from the gate on.
pub(crate) fn beginning_of(octets: &[u8], left: u64) -> Beginning
    requires { length octets.now ≤ left }
    ensures beginning { (all : List ℕ) → BeginsWith octets.now left all → IsBeginning result octets.now all }
    ensures whole { IsWhole result (length octets.now) }
{
    if left < 6 {
        return Beginning::End;
    }
    if octets.len() < 5 {
        return Beginning::Cut;
    }
    let Some(count) = record_length(octets, left) else {
        return Beginning::End;
    };
    let count = count as usize;
    if octets.len() - 5 <= count {
        return Beginning::Cut;
    }
    Beginning::Record(count)
}

/// Takes the first whole records of a block, which begins with the closing gate of the area so far; `left`
/// octets stand from that gate on. Answers the area with them, and whether the block ended first.
pub(crate) fn take_records(
    alloc: Global,
    block: &[u8],
    left: u64,
    area: Area,
    records: &mut Vec<Octets>,
) -> Result<(Area, bool), NoMemory>
    requires block { length block.now ≤ left }
    requires some { 0 < length block.now }
    requires placed { IsPlaced area }
    requires bound { area.end + left ≤ greatest_length + 1 }
    ensures taken { IfOk result (λ found. Takes (BeginsWith block.now left) records.old.items records.new.items left area found.0 found.1) }
    ensures inside { IfOk result (λ found. found.0.end < area.end + length block.now) }
    ensures kept { OnErr result (take (length records.old.items) records.new.items ≡ records.old.items) }
{
    let mut rest = block;
    let mut left = left;
    let mut area = area;
    loop {
        match beginning_of(rest, left) {
            Beginning::End => return Ok((area, false)),
            Beginning::Cut => return Ok((area, true)),
            Beginning::Record(count) => {
                let (record, others) = rest.split_at(5 + count);
                let (_, octets) = record.split_at(5);
                let octets = Octets::of(alloc, octets)?;
                records.push(octets)?;
                area = area.with(count as u64);
                left -= 5 + count as u64;
                rest = others;
            }
        }
    }
}

/// Puts the next of `count` octets of a disk, from a place on, after those of them that are there: as many as the block
/// takes.
fn append_part<D: Disk>(
    disk: &mut D,
    block: &mut [u8],
    at: u64,
    count: u64,
    octets: &mut Vec<u8>,
) -> Result<(), JournalError>
    requires block { 0 < size_of block.old }
    requires place { at + count ≤ D.size disk.old }
    requires fits { at + count < 2 ^ 64 }
    requires more { size_of octets.old.items < count }
    ensures octets { (image : List ℕ) → D.shown disk.old ≡ Some image
        → OnOk result (octets.new.items ≡ octets.old.items ++ part image (at + size_of octets.old.items) (size_of octets.new.items - size_of octets.old.items)) }
    ensures grows { OnOk result (size_of octets.old.items < size_of octets.new.items) }
    ensures bound { OnOk result (size_of octets.new.items ≤ count) }
    ensures looks { IsLookedAt D.shown D.size D.may_leave D.moment D.left_since D.plan D.state D.lack_count (is_fault result) disk.old disk.new }
    ensures causes { ReadCauses (D.fault_count disk.old) (D.fault_count disk.new) result }
{
    let there = octets.len() as u64;
    let more = (count - there).min(block.len() as u64) as usize;
    read_at(disk, at + there, &mut block[..more])?;
    octets.extend_from_slice(&block[..more])?;
    Ok(())
}

/// So many octets of a disk, from a place on, of which the first are there: the others are read in blocks, and none is set
/// before it is read.
fn read_octets<D: Disk>(
    disk: &mut D,
    block: &mut [u8],
    at: u64,
    count: u64,
    begun: Vec<u8>,
) -> Result<Octets, JournalError>
    requires block { 0 < size_of block.old }
    requires place { at + count ≤ D.size disk.old }
    requires fits { at + count < 2 ^ 64 }
    requires count { count < 2 ^ 32 }
    requires begun { size_of begun.items ≤ count }
    requires first { (image : List ℕ) → D.shown disk.old ≡ Some image → begun.items ≡ part image at (size_of begun.items) }
    ensures octets { (image : List ℕ) → D.shown disk.old ≡ Some image → IfOk result (λ octets. octets ≡ part image at count) }
    ensures count { IfOk result (λ octets. size_of octets ≡ count) }
    ensures looks { IsLookedAt D.shown D.size D.may_leave D.moment D.left_since D.plan D.state D.lack_count (is_fault result) disk.old disk.new }
    ensures causes { ReadCauses (D.fault_count disk.old) (D.fault_count disk.new) result }
{
    let mut octets = begun;
    while (octets.len() as u64) < count {
        append_part(disk, block, at, count, &mut octets)?;
    }
    let octets = Octets::from_vec(octets)?;
    Ok(octets)
}

/// The record after the gate at a place of a disk of so many octets, read by itself.
fn read_record<D: Disk>(
    alloc: Global,
    disk: &mut D,
    block: &mut [u8],
    gate: u64,
    length: u64,
) -> Result<Option<Octets>, JournalError>
    requires block { 0 < size_of block.old }
    requires gate { gate < length }
    requires length { length ≡ D.size disk.old }
    ensures found { (image : List ℕ) → D.shown disk.old ≡ Some image → IfOk result (λ found. found ≡ option_map (λ item. item.0) (first_record (drop gate image))) }
    ensures bound { IfOk result (λ found. IfSome found (λ item. gate + size_of item + 6 ≤ length)) }
    ensures looks { IsLookedAt D.shown D.size D.may_leave D.moment D.left_since D.plan D.state D.lack_count (is_fault result) disk.old disk.new }
    ensures causes { ReadCauses (D.fault_count disk.old) (D.fault_count disk.new) result }
{
    let left = length - gate;
    if left < 6 {
        return Ok(None);
    }
    let mut head = [0; 5];
    read_at(disk, gate, &mut head)?;
    let Some(count) = record_length(&head, left) else {
        return Ok(None);
    };
    let room = Vec::with_capacity(alloc, count as usize)?;
    let record = read_octets(disk, block, gate + 5, u64::from(count), room)?;
    Ok(Some(record))
}

/// Room for a record of so many octets, with the first of them, which stand after its gate and its length.
fn begin_record(alloc: Global, octets: &[u8], count: usize) -> Result<Vec<u8>, NoMemory>
    requires { 5 ≤ length octets.now }
    ensures { IfOk result (λ begun. begun.items ≡ take count (drop 5 octets.now)) }
{
    let mut begun = Vec::with_capacity(alloc, count)?;
    let (_, there) = octets.split_at(5);
    let many = there.len().min(count);
    begun.extend_from_slice(&there[..many])?;
    Ok(begun)
}

/// The record after the gate at a place of a disk of so many octets, of which the first are those of a block from some
/// octet on: the rest of it is read.
fn read_begun<D: Disk>(
    alloc: Global,
    disk: &mut D,
    block: &mut [u8],
    from: usize,
    gate: u64,
    length: u64,
) -> Result<Option<Octets>, JournalError>
    requires from { from + 5 ≤ size_of block.old }
    requires within { gate + (size_of block.old - from) ≤ length }
    requires begins { (image : List ℕ) → D.shown disk.old ≡ Some image → drop from block.old ≡ part image gate (size_of block.old - from) }
    requires length { length ≡ D.size disk.old }
    ensures found { (image : List ℕ) → D.shown disk.old ≡ Some image → IfOk result (λ found. found ≡ option_map (λ item. item.0) (first_record (drop gate image))) }
    ensures bound { IfOk result (λ found. IfSome found (λ item. gate + size_of item + 6 ≤ length)) }
    ensures looks { IsLookedAt D.shown D.size D.may_leave D.moment D.left_since D.plan D.state D.lack_count (is_fault result) disk.old disk.new }
    ensures causes { ReadCauses (D.fault_count disk.old) (D.fault_count disk.new) result }
{
    let (_, there) = block.split_at(from);
    let Some(count) = record_length(there, length - gate) else {
        return Ok(None);
    };
    let begun = begin_record(alloc, there, count as usize)?;
    let record = read_octets(disk, block, gate + 5, u64::from(count), begun)?;
    Ok(Some(record))
}

/// The same, where the block may have fewer octets of it than tell its length.
fn read_next<D: Disk>(
    alloc: Global,
    disk: &mut D,
    block: &mut [u8],
    from: usize,
    gate: u64,
    length: u64,
) -> Result<Option<Octets>, JournalError>
    requires block { 0 < size_of block.old }
    requires from { from ≤ size_of block.old }
    requires gate { gate < length }
    requires within { gate + (size_of block.old - from) ≤ length }
    requires begins { (image : List ℕ) → D.shown disk.old ≡ Some image → drop from block.old ≡ part image gate (size_of block.old - from) }
    requires length { length ≡ D.size disk.old }
    ensures found { (image : List ℕ) → D.shown disk.old ≡ Some image → IfOk result (λ found. found ≡ option_map (λ item. item.0) (first_record (drop gate image))) }
    ensures bound { IfOk result (λ found. IfSome found (λ item. gate + size_of item + 6 ≤ length)) }
    ensures looks { IsLookedAt D.shown D.size D.may_leave D.moment D.left_since D.plan D.state D.lack_count (is_fault result) disk.old disk.new }
    ensures causes { ReadCauses (D.fault_count disk.old) (D.fault_count disk.new) result }
{
    if block.len() - from < 5 {
        read_record(alloc, disk, block, gate, length)
    } else {
        read_begun(alloc, disk, block, from, gate, length)
    }
}

/// Takes the next record of an area of a disk of so many octets, whose first octets are those of a block from some octet
/// on. Answers the area with it, and whether there was one.
fn take_cut<D: Disk>(
    alloc: Global,
    disk: &mut D,
    block: &mut [u8],
    from: usize,
    length: u64,
    area: Area,
    records: &mut Vec<Octets>,
) -> Result<(Area, bool), JournalError>
    requires block { 0 < size_of block.old }
    requires from { from ≤ size_of block.old }
    requires within { area.end - 1 + (size_of block.old - from) ≤ length }
    requires begins { (image : List ℕ) → D.shown disk.old ≡ Some image → drop from block.old ≡ part image (area.end - 1) (size_of block.old - from) }
    requires length { length ≡ D.size disk.old }
    requires bound { length ≤ greatest_length }
    requires end { area.end ≤ length }
    requires placed { IsPlaced area }
    ensures taken { IfOk result (λ found. Takes (StandsFrom (D.shown disk.old) (area.end - 1)) records.old.items records.new.items (length - (area.end - 1)) area found.0 found.1) }
    ensures goes_on { IfOk result (λ found. IsTrue found.1 → area.end < found.0.end) }
    ensures kept { OnErr result (take (size_of records.old.items) records.new.items ≡ records.old.items) }
    ensures looks { IsLookedAt D.shown D.size D.may_leave D.moment D.left_since D.plan D.state D.lack_count (is_fault result) disk.old disk.new }
    ensures causes { ReadCauses (D.fault_count disk.old) (D.fault_count disk.new) result }
{
    let Some(record) = read_next(alloc, disk, block, from, area.end - 1, length)? else {
        return Ok((area, false));
    };
    let count = record.len() as u64;
    records.push(record)?;
    Ok((area.with(count), true))
}

/// Takes the whole records of a block, which has the octets of a disk of so many from the closing gate of an area on, and
/// then the record that ends behind the block. Answers the area with them, and whether more may follow.
fn take_block<D: Disk>(
    alloc: Global,
    disk: &mut D,
    block: &mut [u8],
    length: u64,
    area: Area,
    records: &mut Vec<Octets>,
) -> Result<(Area, bool), JournalError>
    requires block { 0 < size_of block.old }
    requires within { area.end - 1 + size_of block.old ≤ length }
    requires begins { (image : List ℕ) → D.shown disk.old ≡ Some image → block.old ≡ part image (area.end - 1) (size_of block.old) }
    requires length { length ≡ D.size disk.old }
    requires bound { length ≤ greatest_length }
    requires end { area.end ≤ length }
    requires placed { IsPlaced area }
    ensures taken { IfOk result (λ found. Takes (StandsFrom (D.shown disk.old) (area.end - 1)) records.old.items records.new.items (length - (area.end - 1)) area found.0 found.1) }
    ensures goes_on { IfOk result (λ found. IsTrue found.1 → area.end < found.0.end) }
    ensures kept { OnErr result (take (size_of records.old.items) records.new.items ≡ records.old.items) }
    ensures looks { IsLookedAt D.shown D.size D.may_leave D.moment D.left_since D.plan D.state D.lack_count (is_fault result) disk.old disk.new }
    ensures causes { ReadCauses (D.fault_count disk.old) (D.fault_count disk.new) result }
{
    let left = length - (area.end - 1);
    let (found, more) = take_records(alloc, block, left, area, records)?;
    if !more {
        return Ok((found, false));
    }
    let from = (found.end - area.end) as usize;
    let (found, more) = take_cut(alloc, disk, block, from, length, found, records)?;
    Ok((found, more))
}

/// Reads the next block of an area of a disk of so many octets, from the closing gate of the area so far on, and takes its
/// records, of the last one also what stands behind the block: at most four octets of a block are read again. Answers the
/// area with them, and whether more may follow.
fn take_more<D: Disk>(
    alloc: Global,
    disk: &mut D,
    block: &mut [u8],
    length: u64,
    area: Area,
    records: &mut Vec<Octets>,
) -> Result<(Area, bool), JournalError>
    requires block { 0 < size_of block.old }
    requires length { length ≡ D.size disk.old }
    requires bound { length ≤ greatest_length }
    requires end { area.end ≤ length }
    requires placed { IsPlaced area }
    ensures taken { IfOk result (λ found. Takes (StandsFrom (D.shown disk.old) (area.end - 1)) records.old.items records.new.items (length - (area.end - 1)) area found.0 found.1) }
    ensures goes_on { IfOk result (λ found. IsTrue found.1 → area.end < found.0.end) }
    ensures kept { OnErr result (take (size_of records.old.items) records.new.items ≡ records.old.items) }
    ensures looks { IsLookedAt D.shown D.size D.may_leave D.moment D.left_since D.plan D.state D.lack_count (is_fault result) disk.old disk.new }
    ensures causes { ReadCauses (D.fault_count disk.old) (D.fault_count disk.new) result }
{
    let gate = area.end - 1;
    let count = (length - gate).min(block.len() as u64) as usize;
    read_at(disk, gate, &mut block[..count])?;
    let (found, more) = take_block(alloc, disk, &mut block[..count], length, area, records)?;
    Ok((found, more))
}

/// Reads the records of the area that starts at a place of a disk of so many octets, and puts them after others.
pub(crate) fn read_area<D: Disk>(
    alloc: Global,
    disk: &mut D,
    start: u64,
    length: u64,
    records: &mut Vec<Octets>,
) -> Result<Area, JournalError>
    requires start { first_start ≤ start }
    requires within { start < length }
    requires length { length ≡ D.size disk.old }
    requires bound { length ≤ greatest_length }
    ensures taken { IfOk result (λ area. Takes (StandsFrom (D.shown disk.old) start) records.old.items records.new.items (length - start) (area_of start []) area false) }
    ensures placed { IfOk result IsPlaced }
    ensures end { IfOk result (λ area. area.end ≤ length) }
    ensures kept { OnErr result (take (size_of records.old.items) records.new.items ≡ records.old.items) }
    ensures looks { IsLookedAt D.shown D.size D.may_leave D.moment D.left_since D.plan D.state D.lack_count (is_fault result) disk.old disk.new }
    ensures causes { ReadCauses (D.fault_count disk.old) (D.fault_count disk.new) result }
{
    let room = (length - start).min(BLOCK) as usize;
    let mut block = vec![in alloc; 0; room]?;
    let mut area = Area::empty(start);
    let mut more = true;
    while more {
        let (found, goes_on) = take_more(alloc, disk, &mut block, length, area, records)?;
        area = found;
        more = goes_on;
    }
    Ok(area)
}

/// The same, but after an error no record stands after the others.
pub(crate) fn read_records<D: Disk>(
    alloc: Global,
    disk: &mut D,
    start: u64,
    length: u64,
    records: &mut Vec<Octets>,
) -> Result<Area, JournalError>
    requires start { first_start ≤ start }
    requires within { start < length }
    requires length { length ≡ D.size disk.old }
    requires bound { length ≤ greatest_length }
    ensures taken { IfOk result (λ area. Takes (StandsFrom (D.shown disk.old) start) records.old.items records.new.items (length - start) (area_of start []) area false) }
    ensures placed { IfOk result IsPlaced }
    ensures end { IfOk result (λ area. area.end ≤ length) }
    ensures kept { OnErr result (records.new.items ≡ records.old.items) }
    ensures looks { IsLookedAt D.shown D.size D.may_leave D.moment D.left_since D.plan D.state D.lack_count (is_fault result) disk.old disk.new }
    ensures causes { ReadCauses (D.fault_count disk.old) (D.fault_count disk.new) result }
{
    let before = records.len();
    match read_area(alloc, disk, start, length, records) {
        Ok(area) => Ok(area),
        Err(error) => {
            records.truncate(before);
            Err(error)
        }
    }
}
