//! One call over objects in memory.
use std::alloc::Global;
use vf_base::{Dial, Links, NoMemory, ScriptDial, ScriptLinks, Sink, Source, VecSink};
use vf_cli::ftam;
use vf_disk::{Disk, MemoryDisk};

/// What a call printed, and its status.
#[derive(Drop)]
pub(crate) struct Printed {
    out: VecSink,
    pub(crate) status: u8,
}

impl Printed {
    /// What it printed.
    pub(crate) fn octets(&self) -> &[u8] {
        self.out.octets()
    }
}

/// Calls with these words, which spaces part, on a sink whose writes of these numbers fail, from 1. The disk is empty.
pub(crate) fn call<I: Source>(
    alloc: Global,
    words: &str,
    input: &mut I,
    failing: Vec<u64>,
) -> Result<Printed, NoMemory> {
    let disk = MemoryDisk::of(alloc, b"", Vec::new(alloc))?;
    let (_disk, found) = call_on(alloc, words, disk, input, failing)?;
    Ok(found)
}

/// The same on a disk, which is answered.
pub(crate) fn call_on<I: Source>(
    alloc: Global,
    words: &str,
    disk: MemoryDisk,
    input: &mut I,
    failing: Vec<u64>,
) -> Result<(MemoryDisk, Printed), NoMemory> {
    let given = words_of(alloc, words)?;
    let mut links = ScriptLinks::new(alloc, Vec::new(alloc), Vec::new(alloc), Vec::new(alloc))?;
    let mut dial = ScriptDial::new(alloc, Vec::new(alloc), Vec::new(alloc))?;
    let mut out = VecSink::new(alloc, failing);
    let (disk, status) = ended(alloc, &given, &mut links, disk, &mut dial, input, &mut out);
    Ok((disk, Printed { out, status }))
}

/// The call over any objects, since all that the top call promises of certain ones takes long to read.
fn ended<L: Links, D: Disk, C: Dial, I: Source, O: Sink>(
    alloc: Global,
    words: &Vec<String>,
    links: &mut L,
    disk: D,
    dial: &mut C,
    input: &mut I,
    out: &mut O,
) -> (D, u8) {
    ftam(alloc, words, links, disk, dial, input, out)
}

/// The words, which spaces part.
pub(crate) fn words_of(alloc: Global, words: &str) -> Result<Vec<String>, NoMemory> {
    let mut given = Vec::new(alloc);
    for word in words.split_ascii_whitespace() {
        given.push(String::from_str(alloc, word)?)?;
    }
    Ok(given)
}

/// One number.
pub(crate) fn only(alloc: Global, number: u64) -> Result<Vec<u64>, NoMemory> {
    let numbers = [number].to_vec(alloc)?;
    Ok(numbers)
}
