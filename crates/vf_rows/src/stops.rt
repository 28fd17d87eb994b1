//! `generate` over a disk that stops at each of its calls in turn.
use crate::call::call_on;
use crate::commands::NEW;
use std::alloc::Global;
use std::test::Fail;
use vf_base::{NoMemory, SliceSource};
use vf_disk::{CrashForm, MemoryDisk};

/// What `list` prints of the file that `generate` makes: before it is there, and once it was created and written.
const STAGES: [&[u8]; 3] = [
    b"",
    b"ftam-3\t0\t1\t19700101000000Z\tf0001\n",
    b"ftam-3\t74\t2\t19700101000000Z\tf0001\n",
];

/// The stage that `list` prints of this disk.
fn stage_on(alloc: Global, disk: MemoryDisk) -> Result<Option<usize>, NoMemory> {
    let mut nothing = SliceSource::new(b"", Vec::new(alloc));
    let (_disk, listed) = call_on(alloc, "list --store=s", disk, &mut nothing, Vec::new(alloc))?;
    Ok(stage_of(listed.octets()))
}

/// The stage that this is.
fn stage_of(printed: &[u8]) -> Option<usize> {
    STAGES.iter().position(|stage| *stage == printed)
}

/// `generate`, all of whose calls of the disk after so many fail: its status, and the disk that a crash leaves.
fn stopped_after(alloc: Global, calls: u32) -> Result<(MemoryDisk, u8), NoMemory> {
    let mut disk = MemoryDisk::of(alloc, NEW, Vec::new(alloc))?;
    disk.stop(calls.saturating_add(1));
    let mut nothing = SliceSource::new(b"", Vec::new(alloc));
    let words = "generate --store=s --number=0 --count=1";
    let (disk, made) = call_on(alloc, words, disk, &mut nothing, Vec::new(alloc))?;
    let left = disk.crash(CrashForm::Keep)?;
    Ok((left, made.status))
}

/// The status, and the stage that is left.
fn left_after(alloc: Global, calls: u32) -> Result<(u8, Option<usize>), NoMemory> {
    let (disk, status) = stopped_after(alloc, calls)?;
    let stage = stage_on(alloc, disk)?;
    Ok((status, stage))
}

#[test]
fn each_stop_of_generate_leaves_a_stage(rt: HostRuntime) -> Result<(), Fail> {
    let mut stage = 0_usize;
    for calls in 0..200_u32 {
        let (status, next) = left_after(rt.alloc(), calls)?;
        let later = stage.saturating_add(1);
        if calls > 0 && next == Some(later) {
            stage = later;
        }
        assert!(rt; next == Some(stage), "{calls}");
        if status == 0 {
            assert_eq!(rt; stage, 2);
            return Ok(());
        }
        assert_eq!(rt; status, 5);
    }
    Err(Fail::new("more calls than there are"))
}
