//! A small store on a disk in memory, and the calls that change it.
ghost use Rattle.std.specs.Prelude.{◌≡◌, ◌≤◌, IfOk, length};
ghost use Rattle.vf_journal.specs.JournalState.{IsWithin};

use std::alloc::Global;
use vf_base::{NoMemory, Octets};
use vf_disk::{Disk, MemoryDisk};
use vf_journal::{Journal, JournalError, built_area, built_entry};

/// The limit of the store.
pub const LIMIT: u64 = 50;

/// A call that changes a store.
#[derive(Clone, Copy)]
pub enum Call {
    /// A journal is made.
    Create,
    /// It is opened.
    Open,
    /// The record `B` is appended.
    Append,
    /// An area of the record `S` is prepared, and selected.
    Switch,
}

/// Makes a call, and stops it at a write or a sync, unless the number is 0. Opening the journal before makes one sync.
pub fn make(
    alloc: Global,
    disk: &mut MemoryDisk,
    call: Call,
    stop: u32,
) -> Result<(), JournalError> {
    let before = match call {
        Call::Create | Call::Open => 0,
        Call::Append | Call::Switch => 1,
    };
    if stop > 0 {
        disk.stop(stop.saturating_add(before));
    }
    match call {
        Call::Create => create(disk),
        Call::Open => open_alone(alloc, disk),
        Call::Append => open_and_append(alloc, disk),
        Call::Switch => open_and_switch(alloc, disk),
    }
}

fn create<D: Disk>(disk: &mut D) -> Result<(), JournalError> {
    if disk.len()? == 0 {
        Journal::create(disk)?;
    }
    Ok(())
}

fn open_alone<D: Disk>(alloc: Global, disk: &mut D) -> Result<(), JournalError> {
    open(alloc, disk, LIMIT)?;
    Ok(())
}

fn open_and_append<D: Disk>(alloc: Global, disk: &mut D) -> Result<(), JournalError> {
    let mut journal = open(alloc, disk, LIMIT)?;
    append(alloc, &mut journal, disk, b"B")
}

fn open_and_switch<D: Disk>(alloc: Global, disk: &mut D) -> Result<(), JournalError> {
    let mut journal = open(alloc, disk, LIMIT)?;
    switch(alloc, &mut journal, disk, b"S")
}

/// Opens a journal.
pub fn open<D: Disk>(alloc: Global, disk: &mut D, limit: u64) -> Result<Journal, JournalError>
    ensures { IfOk result (λ journal. IsWithin journal (D.size disk.new)) }
{
    let mut records = Vec::new(alloc);
    Journal::open(alloc, disk, limit, &mut records)
}

/// Appends a record.
pub fn append<D: Disk>(
    alloc: Global,
    journal: &mut Journal,
    disk: &mut D,
    item: &[u8],
) -> Result<(), JournalError>
    requires item { length item.now ≤ 1000 }
    requires within { IsWithin journal.old (D.size disk.old) }
    ensures { IsWithin journal.new (D.size disk.new) }
{
    let entry = built_entry(alloc, item)?;
    journal.append(disk, &entry)
}

/// Appends a record so many times.
pub fn append_all<D: Disk>(
    alloc: Global,
    journal: &mut Journal,
    disk: &mut D,
    item: &[u8],
    count: u32,
) -> Result<(), JournalError>
    requires item { length item.now ≤ 1000 }
    requires within { IsWithin journal.old (D.size disk.old) }
{
    for _done in 0..count {
        append(alloc, journal, disk, item)?;
    }
    Ok(())
}

/// Moves to an area of one record, where a switch to it is due and possible when ten octets are to be appended.
fn switch<D: Disk>(
    alloc: Global,
    journal: &mut Journal,
    disk: &mut D,
    item: &[u8],
) -> Result<(), JournalError>
    requires item { length item.now ≤ 1000 }
    requires within { IsWithin journal.old (D.size disk.old) }
{
    let area = built_area(alloc, item)?;
    let placing = journal.plan(10, item.len() as u64);
    let Some(_start) = placing.switch else {
        return Ok(());
    };
    journal.prepare(disk, &area)?;
    journal.switch(disk)
}

/// Whether opening these octets gives these records, or tells that they are no journal.
pub fn is_read_as(
    alloc: Global,
    octets: &[u8],
    wanted: Option<&[&[u8]]>,
) -> Result<bool, NoMemory> {
    let mut disk = MemoryDisk::of(alloc, octets, Vec::new(alloc))?;
    let mut records = Vec::new(alloc);
    let error = Journal::open(alloc, &mut disk, LIMIT, &mut records).err();
    if error == Some(JournalError::NoMemory) {
        return Err(NoMemory);
    }
    Ok(match wanted {
        Some(wanted) => error.is_none() && are_alike(&records, wanted),
        None => matches!(error, Some(JournalError::NotAStore { .. })),
    })
}

fn are_alike(records: &[Octets], wanted: &[&[u8]]) -> bool {
    let alike = records
        .iter()
        .zip(wanted)
        .all(|(record, octets)| record.as_slice() == *octets);
    records.len() == wanted.len() && alike
}
