//! Faults of the disk, the input and the output, through the top call. What a stop leaves is tried beside the functions of the
//! commands, and what these read and print by `checks/commands.check`.
use crate::call::{call_on, only};
use std::alloc::Global;
use vf_base::{NoMemory, SliceSource};
use vf_disk::MemoryDisk;

/// A store of empty tables.
pub(crate) const NEW: &[u8] = b"FTAMJNL1\0\0\0\x02\0\0\0\0\0\0\0\0\0\0\0\0!\0\0\0\0\0\0\0!\0";

/// Words, what the disk holds, and the number of the call that fails of the disk, of the input and of the output, from 1, or 0 where
/// none does; the status; and whether nothing is printed and the disk left as it was.
type Row = (&'static str, &'static [u8], [u64; 3], u8, bool);

const ROWS: [Row; 4] = [
    ("init --store s", b"", [1, 0, 0], 5, true),
    ("list --store s", NEW, [1, 0, 0], 5, true),
    ("init --store s", b"", [0, 1, 0], 3, true),
    ("init --store s", b"", [0, 0, 1], 4, false),
];

fn holds(alloc: Global, row: Row) -> Result<bool, NoMemory> {
    let (words, before, failing, status, untouched) = row;
    let of_output = only(alloc, failing[2])?;
    let mut input = SliceSource::new(b"ann\n", only(alloc, failing[1])?);
    let disk = MemoryDisk::of(alloc, before, only(alloc, failing[0])?)?;
    let (disk, found) = call_on(alloc, words, disk, &mut input, of_output)?;
    let is_untouched = found.octets().is_empty() && disk.octets() == before;
    Ok(found.status == status && is_untouched == untouched)
}

#[test]
fn a_fault_is_told_by_the_status(rt: HostRuntime) -> Result<(), NoMemory> {
    for row in ROWS {
        assert!(rt; holds(rt.alloc(), row)?, "{}", row.0);
    }
    Ok(())
}
