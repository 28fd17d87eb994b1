//! Octets that stand in parts, written to a file: row after row, of which short ones are gathered for one write.
use crate::Parts;
use std::alloc::Global;
use std::os::fd::AsRawFd;
use std::os::unix::fs::FileExt;
use std::{fs, io};

/// The most octets that are gathered for one write.
const BLOCK: usize = 262_144;

/// So many octets of a file are a stretch: once one is written, the system is asked to begin with it on the disk.
const STRETCH: u64 = 1_048_576;

/// Room to gather octets; none without memory, and then each row is a write of its own.
pub(crate) fn block_of(alloc: Global) -> Vec<u8> {
    match Vec::with_capacity(alloc, BLOCK) {
        Ok(block) => block,
        Err(_) => Vec::new(alloc),
    }
}

/// Writes the octets at a place of the file; those of short rows are gathered in the block. No memory is taken.
pub(crate) fn write_rows(
    file: &fs::File,
    at: u64,
    octets: &Parts,
    block: &mut Vec<u8>,
) -> io::Result<()> {
    let strings = octets.strings.as_slice();
    let mut rest = octets.short.as_slice();
    if strings.is_empty() {
        return file.write_all_at(rest, at);
    }
    block.clear();
    let mut place = at;
    let mut begun = at;
    for part in strings {
        let (here, later) = rest.split_at(part.before);
        put(file, &mut place, here, block)?;
        put(file, &mut place, part.octets.as_slice(), block)?;
        hasten(file, &mut begun, place);
        rest = later;
    }
    put(file, &mut place, rest, block)?;
    flush(file, &mut place, block)
}

/// Puts a row after those in the block, which is written once it is full. Blocks end where the file has a multiple of their
/// length, since the system keeps a file in pages, so that a row may begin in one block and end in the next. A row that is longer
/// than any block is written by itself.
fn put(file: &fs::File, place: &mut u64, row: &[u8], block: &mut Vec<u8>) -> io::Result<()> {
    if row.len() > block.capacity() {
        flush(file, place, block)?;
        file.write_all_at(row, *place)?;
        *place = place.saturating_add(row.len() as u64);
        return Ok(());
    }
    let (front, later) = row.split_at(room_in(block, *place).min(row.len()));
    block.extend_from_slice(front)?;
    if !later.is_empty() {
        flush(file, place, block)?;
        block.extend_from_slice(later)?;
    }
    Ok(())
}

/// So many octets more a block takes that is to be written at a place.
fn room_in(block: &Vec<u8>, place: u64) -> usize {
    let begun = (place % BLOCK as u64) as usize;
    (BLOCK - begun).saturating_sub(block.len())
}

/// Writes what the block holds, which is empty then.
fn flush(file: &fs::File, place: &mut u64, block: &mut Vec<u8>) -> io::Result<()> {
    file.write_all_at(block.as_slice(), *place)?;
    *place = place.saturating_add(block.len() as u64);
    block.clear();
    Ok(())
}

/// Asks the system to begin to write to the disk what was written to the file since a place, once a stretch of the file ends
/// there: the sync that follows then waits for less. This is advice, and whatever the system says to it is passed over.
fn hasten(file: &fs::File, begun: &mut u64, place: u64) {
    if place / STRETCH == *begun / STRETCH {
        return;
    }
    let count = place.saturating_sub(*begun);
    let (Ok(from), Ok(octets)) = (i64::try_from(*begun), i64::try_from(count)) else {
        return;
    };
    let _ = libc::posix_fadvise(file.as_raw_fd(), from, octets, libc::POSIX_FADV_DONTNEED);
    *begun = place;
}
