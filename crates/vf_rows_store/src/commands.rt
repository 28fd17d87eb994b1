//! The commands over a store, on a disk in memory, where calls of it, of the input or of the output fail. What else they print and
//! leave is tried by `checks/commands.check`.
use std::alloc::Global;
use std::test::Fail;
use vf_base::{SliceSource, VecSink};
use vf_disk::{CrashForm, MemoryDisk};
use vf_store_commands::{init, list};

/// A store with a record that puts the user `ann` with the password `pw`.
const OF_ANN: &[u8] =
    b"FTAMJNL1\0\0\0\x02\0\0\0\0\0\0\0\0\0\0\0\0!\0\0\0\0\0\0\0!\x01\0\0\0\x0F\0\0\0\x01\x01\0\x03ann\x01\0\x02pw\0";

/// A store of two files, `b` with the string `hi` and `a` without any, in this order.
const OF_FILES: &[u8] =
    b"FTAMJNL1\0\0\0\x02\0\0\0\0\0\0\0\0\0\0\0\0!\0\0\0\0\0\0\0!\x01\0\0\0b\0\0\0\x02\x02\0\x01b\xFF\x03\x1B\0\x01\0\0\0\0\0\0\0\0\0\0\08\xBB\x0C\0\0\x03ann\0\0\0\0\0\0\x02\0\0\0\x01\0\0\0\x01\0\0\0\x02hi\x02\0\x01a\xFF\x03\x1B\0\x01\0\0\0\0\0\0\0\0\0\0\0\0\0\0\0\0\x03ann\0\0\0\0\0\0\x01\0\0\0\x01\0\0\0\0\0";

/// What a call printed, its status, and its disk.
#[derive(Drop)]
struct Done {
    out: VecSink,
    status: u8,
    disk: MemoryDisk,
}

impl Done {
    /// Whether this is its status, and it printed that.
    fn ends(&self, status: u8, printed: &[u8]) -> bool {
        self.status == status && self.out.octets() == printed
    }

    /// Whether its disk holds these octets.
    fn leaves(&self, octets: &[u8]) -> bool {
        self.disk.octets() == octets
    }
}

/// `init` on a disk, for an input; the reads and writes of these numbers fail, from 1.
fn initialized(
    alloc: Global,
    disk: MemoryDisk,
    input: &str,
    reads: Vec<u64>,
    writes: Vec<u64>,
) -> Done {
    let mut input = SliceSource::new(input.as_bytes(), reads);
    let mut out = VecSink::new(alloc, writes);
    let (disk, status) = init(alloc, disk, &mut input, &mut out);
    Done { out, status, disk }
}

/// `list` on a disk; the writes of these numbers fail, from 1.
fn listed(alloc: Global, disk: MemoryDisk, writes: Vec<u64>) -> Done {
    let mut out = VecSink::new(alloc, writes);
    let (disk, status) = list(alloc, disk, &mut out);
    Done { out, status, disk }
}

fn on(alloc: Global, octets: &[u8]) -> Result<MemoryDisk, Fail> {
    let disk = MemoryDisk::of(alloc, octets, Vec::new(alloc))?;
    Ok(disk)
}

fn only(alloc: Global, number: u64) -> Result<Vec<u64>, Fail> {
    let numbers = [number].to_vec(alloc)?;
    Ok(numbers)
}

/// `init` of `ann` on an empty disk, where the reads and writes of these numbers fail.
fn failing(alloc: Global, reads: Vec<u64>, writes: Vec<u64>) -> Result<Done, Fail> {
    let disk = MemoryDisk::of(alloc, b"", Vec::new(alloc));
    match disk {
        Ok(disk) => Ok(initialized(alloc, disk, "ann\tpw\n", reads, writes)),
        Err(_) => Err(Fail::from("no memory")),
    }
}

/// The status of `init` where this read fails, from 1, and whether its disk then holds what it should.
fn with_a_read_that_fails(alloc: Global, read: u64, octets: &[u8]) -> Result<(u8, bool), Fail> {
    let reads = only(alloc, read)?;
    let done = failing(alloc, reads, Vec::new(alloc))?;
    Ok((done.status, done.leaves(octets)))
}

#[test]
fn an_input_that_fails(rt: HostRuntime) -> Result<(), Fail> {
    let rows: [(u64, u8, &[u8]); 3] = [(1, 3, b""), (2, 3, b""), (3, 0, OF_ANN)];
    for (read, status, octets) in rows {
        let found = with_a_read_that_fails(rt.alloc(), read, octets)?;
        assert!(rt; found == (status, true), "{read}");
    }
    Ok(())
}

/// Whether `init` whose first write fails has written half of its line, and made the store.
fn init_is_cut_short(alloc: Global) -> Result<bool, Fail> {
    let writes = only(alloc, 1)?;
    let done = failing(alloc, Vec::new(alloc), writes)?;
    Ok(done.ends(4, b"user") && done.leaves(OF_ANN))
}

/// The status of `list` whose first write fails.
fn list_that_fails(alloc: Global) -> Result<u8, Fail> {
    let writes = only(alloc, 1)?;
    let disk = on(alloc, OF_FILES)?;
    Ok(listed(alloc, disk, writes).status)
}

#[test]
fn an_output_that_fails(rt: HostRuntime) -> Result<(), Fail> {
    assert!(rt; init_is_cut_short(rt.alloc())?);
    assert!(rt; list_that_fails(rt.alloc())? == 4);
    Ok(())
}

/// `init` of `ann` on an empty disk, with a stop at this write or sync.
fn stopped(alloc: Global, call: u32) -> Result<Done, Fail> {
    let mut disk = on(alloc, b"")?;
    if call > 0 {
        disk.stop(call);
    }
    Ok(initialized(alloc, disk, "ann\tpw\n", Vec::new(alloc), Vec::new(alloc)))
}

/// The status of `list` on what a crash leaves of a disk.
fn listed_after(alloc: Global, disk: &MemoryDisk, form: CrashForm) -> Result<u8, Fail> {
    let copy = disk.copy(alloc)?;
    let left = copy.crash(form)?;
    Ok(listed(alloc, left, Vec::new(alloc)).status)
}

/// Whether `list` of what each form of a crash leaves finds a store, or none before the seventh call.
fn leaves_a_store(alloc: Global, done: &Done, call: u32) -> Result<bool, Fail> {
    for form in [CrashForm::Keep, CrashForm::Lose, CrashForm::Fill(255)] {
        let status = listed_after(alloc, &done.disk, form)?;
        if status != 0 && (status != 8 || call >= 7) {
            return Ok(false);
        }
    }
    Ok(true)
}

/// `init` with a stop at each of its writes and syncs: six make the store, one opens it, and four write the record.
#[test]
fn a_stop_leaves_no_store_or_none_of_the_users_or_all(rt: HostRuntime) -> Result<(), Fail> {
    let alloc = rt.alloc();
    for call in 1..13 {
        let done = stopped(alloc, call)?;
        let status = if call < 12 { 5 } else { 0 };
        assert!(rt; done.status == status, "{call}");
        assert!(rt; leaves_a_store(alloc, &done, call)?, "{call}");
    }
    Ok(())
}
