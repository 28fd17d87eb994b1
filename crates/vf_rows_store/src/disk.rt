ghost use Rattle.std.specs.Prelude.{◌<◌};

use std::alloc::Global;
use std::fs;
use std::test::Fail;
use vf_base::*;
use vf_disk::*;

mod allowed;
mod two_values;

use allowed::Allowed;
use two_values::choose;

#[test]
fn a_disk_in_memory_gives_what_was_written(rt: HostRuntime) -> Result<(), Fail> {
    let alloc = rt.alloc();
    let mut disk = MemoryDisk::of(alloc, b"abc", [6].to_vec(alloc)?)?;
    assert!(rt; works(&mut disk));
    let mut disk = disk.copy(alloc)?;
    assert!(rt; disk.octets() == b"aXY".as_slice() && !disk.lacked());
    assert!(rt; disk.len() == Ok(3) && disk.faults() == 1);
    Ok(())
}

#[test]
fn a_disk_over_a_file_gives_what_was_written(rt: HostRuntime) -> Result<(), Fail> {
    let path = "vf_disk_test_store";
    let _ = fs::remove_file(&rt, path);
    let mut disk = FileDisk::open(&rt, path);
    assert!(rt; disk.write_at(0, b"abc") == Ok(()));
    assert!(rt; works(&mut disk) && disk.faults() == 0);
    drop(disk);
    let mut disk = FileDisk::open(&rt, path);
    let mut octets = [0; 3];
    if disk.len() == Ok(3) {
        assert!(rt; disk.read(0, &mut octets) == Ok(()));
    }
    assert!(rt; octets == *b"aXY");
    fs::remove_file(&rt, path)?;
    Ok(())
}

/// Short octets, and between them strings that are shared: one that is longer than what is gathered for a write, and more of
/// others than that, so that one of these is cut by its end.
fn parts(alloc: Global) -> Result<Parts, NoMemory> {
    let string = Octets::from_vec(vec![in alloc; 7; 2_000]?)?;
    let long = Octets::from_vec(vec![in alloc; 8; 300_000]?)?;
    let mut octets = Parts::new(alloc);
    octets.extend_from_slice(b"ab")?;
    octets.end(0, b"A", b'c')?;
    octets.push_shared(&string)?;
    octets.push(b'd')?;
    octets.push_shared(&long)?;
    for _ in 0..140 {
        octets.push_shared(&string)?;
        octets.push(b'f')?;
    }
    octets.extend_from_slice(b"e")?;
    Ok(octets)
}

/// Whether octets in parts are written as they are in one row.
fn writes_parts<D: Disk>(alloc: Global, disk: &mut D) -> Result<bool, NoMemory> {
    let octets = parts(alloc)?;
    let wanted = octets.to_vec(alloc)?;
    if disk.write_parts(0, &octets).is_err() {
        return Ok(false);
    }
    let Ok(length) = disk.len() else {
        return Ok(false);
    };
    let mut found = vec![in alloc; 0; length as usize]?;
    let read = disk.read(0, &mut found).is_ok();
    Ok(read && found == wanted && found.starts_with(b"Abc\x07") && found.len() == 582_145)
}

#[test]
fn octets_in_parts_are_written_as_in_one_row(rt: HostRuntime) -> Result<(), Fail> {
    let path = "vf_disk_test_parts";
    let _ = fs::remove_file(&rt, path);
    let mut disk = FileDisk::open(&rt, path);
    assert!(rt; writes_parts(rt.alloc(), &mut disk)?);
    let mut disk = MemoryDisk::of(rt.alloc(), b"", Vec::new(rt.alloc()))?;
    assert!(rt; writes_parts(rt.alloc(), &mut disk)?);
    fs::remove_file(&rt, path)?;
    Ok(())
}

#[test]
fn a_file_that_is_not_there_is_made_by_the_first_write(rt: HostRuntime) -> Result<(), Fail> {
    let path = "vf_disk_test_missing";
    let _ = fs::remove_file(&rt, path);
    let mut disk = FileDisk::open(&rt, path);
    assert!(rt; disk.len() == Ok(0) && disk.sync() == Ok(()) && disk.cut(0) == Ok(()));
    assert!(rt; fs::File::open(&rt, path).is_err());
    assert!(rt; disk.write_at(0, b"a") == Ok(()) && disk.sync() == Ok(()));
    assert!(rt; fs::File::open(&rt, path).is_ok() && disk.faults() == 0);
    fs::remove_file(&rt, path)?;
    Ok(())
}

#[test]
fn a_disk_over_no_file_fails(rt: HostRuntime) -> Result<(), Fail> {
    assert!(rt; fails(FileDisk::open(&rt, ".")) && fails(FileDisk::none(&rt)));
    Ok(())
}

/// Whether calls fail, and are counted.
fn fails(disk: FileDisk<'_>) -> bool {
    let mut disk = disk;
    disk.len().is_err() && disk.sync().is_err() && disk.faults() == 2
}

/// Writes, reads, cuts and syncs.
fn works<D: Disk>(disk: &mut D) -> bool {
    writes(disk) && cuts(disk)
}

/// Writes past the end, and reads.
fn writes<D: Disk>(disk: &mut D) -> bool {
    let Ok(length) = disk.len() else { return false };
    if length != 3 || disk.write_at(1, b"XYZ").is_err() {
        return false;
    }
    let Ok(length) = disk.len() else { return false };
    let mut octets = [0; 2];
    length == 4 && disk.read(2, &mut octets).is_ok() && octets == *b"YZ"
}

/// Syncs twice, since the first may be planned to fail, and cuts between.
fn cuts<D: Disk>(disk: &mut D) -> bool {
    let Ok(length) = disk.len() else { return false };
    let _ = disk.sync();
    length == 4 && disk.cut(3).is_ok() && disk.sync().is_ok()
}

/// A call on a disk in memory.
#[derive(Clone, Copy)]
enum Call {
    Write(u64, &'static [u8]),
    Cut(u64),
    Sync,
}

/// Calls on a disk that holds `ab`, of which the numbers in `failing` fail, and what each form of a crash leaves.
#[derive(Clone, Copy)]
struct Case {
    failing: &'static [u64],
    calls: &'static [Call],
    keep: &'static [u8],
    lose: &'static [u8],
    fill: &'static [u8],
}

const PAST_THE_END: Case = Case {
    failing: &[],
    calls: &[Call::Write(1, b"ac")],
    keep: b"aac",
    lose: b"ab",
    fill: b"acc",
};

const OVERLAPPING: Case = Case {
    failing: &[],
    calls: &[Call::Write(0, b"bb"), Call::Write(1, b"ab")],
    keep: b"bab",
    lose: b"ab",
    fill: b"ccc",
};

const CUT_AND_WRITTEN: Case = Case {
    failing: &[],
    calls: &[Call::Cut(1), Call::Write(1, b"a")],
    keep: b"aa",
    lose: b"ab",
    fill: b"ac",
};

const FAILED_WRITE: Case = Case {
    failing: &[1],
    calls: &[Call::Write(2, b"ba"), Call::Write(0, b"b")],
    keep: b"bbba",
    lose: b"ab",
    fill: b"cbcc",
};

const FAILED_SYNC: Case = Case {
    failing: &[2],
    calls: &[Call::Write(0, b"b"), Call::Sync, Call::Cut(1)],
    keep: b"b",
    lose: b"ab",
    fill: b"c",
};

const FAILED_CUT: Case = Case {
    failing: &[1],
    calls: &[Call::Cut(0), Call::Write(2, b"a")],
    keep: b"\x00\x00a",
    lose: b"ab",
    fill: b"\x00\x00c",
};

const SYNCED: Case = Case {
    failing: &[],
    calls: &[
        Call::Write(0, b"b"),
        Call::Sync,
        Call::Write(2, b"a"),
        Call::Cut(1),
    ],
    keep: b"b",
    lose: b"bb",
    fill: b"b",
};

const CASES: [Case; 7] = [
    PAST_THE_END,
    OVERLAPPING,
    CUT_AND_WRITTEN,
    FAILED_WRITE,
    FAILED_SYNC,
    FAILED_CUT,
    SYNCED,
];

/// The octets of the images that are tried.
const ALPHABET: [u8; 3] = *b"abc";

#[test]
fn crashes_leave_what_the_rules_allow(rt: HostRuntime) -> Result<(), Fail> {
    for case in &CASES {
        assert!(rt; holds(rt.alloc(), case)?);
    }
    Ok(())
}

/// Whether the calls of the case go as planned, and a crash after them may leave what the rules allow.
fn holds(alloc: Global, case: &Case) -> Result<bool, NoMemory> {
    let failing = case.failing.to_vec(alloc)?;
    let mut disk = MemoryDisk::of(alloc, b"ab", failing)?;
    let mut allowed = Allowed::of(alloc, b"ab")?;
    if !run(alloc, &mut disk, &mut allowed, case)? {
        return Ok(false);
    }
    ends(alloc, &disk, &allowed, case)
}

/// Whether a crash may leave what the rules allow, and leaves what is told in each form.
fn ends(
    alloc: Global,
    disk: &MemoryDisk,
    allowed: &Allowed,
    case: &Case,
) -> Result<bool, NoMemory> {
    let judged = are_judged_alike(alloc, disk, allowed)?;
    let kept = leaves(alloc, disk, allowed, CrashForm::Keep, case.keep)?;
    let lost = leaves(alloc, disk, allowed, CrashForm::Lose, case.lose)?;
    let filled = leaves(alloc, disk, allowed, CrashForm::Fill(b'c'), case.fill)?;
    Ok(judged && kept && lost && filled)
}

/// Makes the calls, and says whether each fails where that is planned, and a read then gives what the rules say.
fn run(
    alloc: Global,
    disk: &mut MemoryDisk,
    allowed: &mut Allowed,
    case: &Case,
) -> Result<bool, NoMemory> {
    let mut as_planned = true;
    for (place, call) in case.calls.iter().enumerate() {
        let good = !case.failing.contains(&(place as u64 + 1));
        let made = make(disk, *call);
        note(alloc, allowed, *call, good)?;
        as_planned = as_planned && made == good && disk.octets() == allowed.shown();
    }
    Ok(as_planned)
}

/// Whether a crash of this form leaves these octets, and the rules and the disk admit them.
fn leaves(
    alloc: Global,
    disk: &MemoryDisk,
    allowed: &Allowed,
    form: CrashForm,
    octets: &[u8],
) -> Result<bool, NoMemory> {
    let copied = disk.copy(alloc)?;
    let left = copied.crash(form)?;
    let admitted = disk.admits(octets)?;
    Ok(left.octets() == octets && allowed.allows(octets) && admitted)
}

/// Whether the disk admits exactly what the rules allow, of all images of up to five octets of the alphabet.
fn are_judged_alike(alloc: Global, disk: &MemoryDisk, allowed: &Allowed) -> Result<bool, NoMemory> {
    for (count, many) in [1, 3, 9, 27, 81, 243].iter().enumerate() {
        for number in 0..*many {
            let image = image_of(alloc, count, number)?;
            if disk.admits(&image)? != allowed.allows(&image) {
                return Ok(false);
            }
        }
    }
    Ok(true)
}

/// The image of so many octets of the alphabet that has this number.
fn image_of(alloc: Global, count: usize, number: u32) -> Result<Vec<u8>, NoMemory> {
    let mut image = Vec::new(alloc);
    let mut rest = number;
    for _ in 0..count {
        image.push(ALPHABET[(rest % 3) as usize])?;
        rest /= 3;
    }
    Ok(image)
}

/// Makes the call, and says whether it succeeded.
fn make(disk: &mut MemoryDisk, call: Call) -> bool {
    let length = disk.octets().len() as u64;
    match call {
        Call::Write(at, octets) => disk.write_at(at.min(length), octets).is_ok(),
        Call::Cut(to) => disk.cut(to.min(length)).is_ok(),
        Call::Sync => disk.sync().is_ok(),
    }
}

fn note(alloc: Global, allowed: &mut Allowed, call: Call, good: bool) -> Result<(), NoMemory> {
    match call {
        Call::Write(at, octets) => allowed.write(at, octets, good),
        Call::Cut(to) => allowed.cut(to, good),
        Call::Sync => allowed.sync(alloc, good),
    }
}

/// The value that the octets stand for.
fn value_of(octets: &[u8]) -> Option<u8> {
    match octets {
        [0, old, ..] => Some(*old),
        [_, _, value, ..] => Some(*value),
        _ => None,
    }
}

/// Whether a stop leaves the old value or the new one, and the new one where all was done, which is so at the fifth call.
fn stops(alloc: Global, stop: u32, form: CrashForm) -> Result<bool, NoMemory>
    requires { 0 < stop }
{
    let mut disk = MemoryDisk::of(alloc, &[0, 7, 0], Vec::new(alloc))?;
    disk.stop(stop);
    disk.stop(stop.saturating_add(1));
    let done = choose(&mut disk, 7, 8).is_ok();
    let left = disk.crash(form)?;
    let value = value_of(left.octets());
    Ok(done == (stop == 5) && (value == Some(8) || (!done && value == Some(7))))
}

#[test]
fn a_stop_leaves_the_old_value_or_the_new(rt: HostRuntime) -> Result<(), Fail> {
    for stop in 1..6 {
        assert!(rt; stops(rt.alloc(), stop, CrashForm::Keep)?, "{stop}");
        assert!(rt; stops(rt.alloc(), stop, CrashForm::Lose)?, "{stop}");
        assert!(rt; stops(rt.alloc(), stop, CrashForm::Fill(9))?, "{stop}");
    }
    Ok(())
}
