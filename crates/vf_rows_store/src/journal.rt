use std::alloc::Global;
use std::test::Fail;
use vf_base::*;
use vf_disk::{CrashForm, MemoryDisk};
use vf_journal::*;

mod store;
mod torn;

use store::{Call, append, append_all, is_read_as, make, open};
use torn::{Images, Write, images_after, longest, put};

/// A journal without records.
const NEW: &[u8] = b"FTAMJNL1\0\0\0\x02\0\0\0\0\0\0\0\0\0\0\0\0!\0\0\0\0\0\0\0!\0";
/// A journal with the record AB.
const OF_AB: &[u8] =
    b"FTAMJNL1\0\0\0\x02\0\0\0\0\0\0\0\0\0\0\0\0!\0\0\0\0\0\0\0!\x01\0\0\0\x01\xAB\0";
/// A journal with the record `A`.
const OF_A: &[u8] = b"FTAMJNL1\0\0\0\x02\0\0\0\0\0\0\0\0\0\0\0\0!\0\0\0\0\0\0\0!\x01\0\0\0\x01A\0";
/// The same in an area that the second anchor names, after an old one.
const AFTER_AN_OLD_ONE: &[u8] =
    b"FTAMJNL1\0\0\0\x02\0\0\0\0\x01\0\0\0\0\0\0\0!\0\0\0\0\0\0\0(\x01\0\0\0\x01X\0\x01\0\0\0\x01A\0";

/// A record that is appended with a limit to a journal without records: what that answers, and what the disk holds.
#[derive(Clone, Copy)]
struct Appended {
    limit: u64,
    answer: Result<(), JournalError>,
    octets: &'static [u8],
    area: (u64, u64),
}

const APPENDS: [Appended; 2] = [
    Appended {
        limit: 39,
        answer: Err(JournalError::Full {
            length: 40,
            limit: 39,
        }),
        octets: NEW,
        area: (33, 34),
    },
    Appended {
        limit: 40,
        answer: Ok(()),
        octets: OF_AB,
        area: (33, 40),
    },
];

#[test]
fn a_journal_lies_as_laid_out(rt: HostRuntime) -> Result<(), Fail> {
    for row in &APPENDS {
        assert!(rt; lies(rt.alloc(), row)?);
    }
    Ok(())
}

/// Whether a journal that is made on an empty disk is a new one, and the append then goes as told.
fn lies(alloc: Global, row: &Appended) -> Result<bool, JournalError> {
    let mut disk = MemoryDisk::of(alloc, &[], Vec::new(alloc))?;
    Journal::create(&mut disk)?;
    let is_new = disk.octets() == NEW;
    let mut journal = open(alloc, &mut disk, row.limit)?;
    let answer = append(alloc, &mut journal, &mut disk, b"\xAB");
    let stands = journal.area() == row.area && journal.limit() == row.limit;
    Ok(is_new && answer == row.answer && disk.octets() == row.octets && stands)
}

/// What is planned for a record of ten octets, when one of all tables has 2,000, with a limit, and what appending it
/// without a switch answers.
#[derive(Clone, Copy)]
struct Planned {
    limit: u64,
    switch: Option<u64>,
    end: u64,
    append: Result<(), JournalError>,
}

const PLANNED: [Planned; 2] = [
    Planned {
        limit: 100_000,
        switch: Some(6064),
        end: 8085,
        append: Ok(()),
    },
    Planned {
        limit: 6070,
        switch: None,
        end: 6079,
        append: Err(JournalError::Full {
            length: 6079,
            limit: 6070,
        }),
    },
];

#[test]
fn a_switch_is_planned_by_the_limit(rt: HostRuntime) -> Result<(), Fail> {
    let alloc = rt.alloc();
    let disk = of_six_records(alloc)?;
    for row in &PLANNED {
        assert!(rt; plans(alloc, &disk, row)?);
    }
    Ok(())
}

/// A disk with a journal of six records of a thousand octets.
fn of_six_records(alloc: Global) -> Result<MemoryDisk, JournalError> {
    let mut disk = MemoryDisk::of(alloc, NEW, Vec::new(alloc))?;
    let mut journal = open(alloc, &mut disk, 100_000)?;
    append_all(alloc, &mut journal, &mut disk, &[7; 1000], 6)?;
    Ok(disk)
}

/// Whether the journal on the disk has six records of a thousand octets, a switch is due, and it is planned and a record
/// appended as told.
fn plans(alloc: Global, disk: &MemoryDisk, row: &Planned) -> Result<bool, JournalError> {
    let mut disk = disk.copy(alloc)?;
    let mut records = Vec::new(alloc);
    let mut journal = Journal::open(alloc, &mut disk, row.limit, &mut records)?;
    let placing = journal.plan(10, 2000);
    let placed = placing.switch == row.switch && placing.end == row.end && journal.is_due(10);
    let stands = records.len() == 6 && records.iter().all(|record| record.len() == 1000);
    let answer = append(alloc, &mut journal, &mut disk, &[7; 10]);
    Ok(placed && stands && answer == row.append)
}

/// Octets that are no journal: the place, what is found there, and what is expected.
#[derive(Clone, Copy)]
struct Refused {
    octets: &'static [u8],
    at: u64,
    found: Option<u8>,
    expected: u8,
}

const REFUSED: [Refused; 9] = [
    Refused {
        octets: b"",
        at: 0,
        found: None,
        expected: b'F',
    },
    Refused {
        octets: b"FTAMJNL1\0\0",
        at: 10,
        found: None,
        expected: 0,
    },
    Refused {
        octets: b"FTAMJNL1\0\0\0\x01\0\0\0\0\0",
        at: 11,
        found: Some(1),
        expected: 2,
    },
    Refused {
        octets: b"FTAMJNL1\0\0\0\x02\0\0\0\0",
        at: 16,
        found: None,
        expected: 0,
    },
    Refused {
        octets: b"FTAMJNL1\0\0\0\x02\0\0\0\0\0\0\0\0\0\0\0\0!\0\0\0\0\0\0\0!",
        at: 33,
        found: None,
        expected: 0,
    },
    Refused {
        octets: b"FTAMJNL1\0\0\0\x02\0\0\0\0\0\0\0\0\0\0\0\0 \0\0\0\0\0\0\0!\0",
        at: 17,
        found: None,
        expected: 0,
    },
    Refused {
        octets: b"FTAMJNL1\0\0\0\x02\0\0\0\0\0\0\0\0\0\0\0\0\x22\0\0\0\0\0\0\0!\0",
        at: 17,
        found: None,
        expected: 0,
    },
    Refused {
        octets: b"FTAMJNL1\0\0\0\x02\0\0\0\0\x01\0\0\0\0\0\0\0!\0\0\0\0\0\0\0 \0",
        at: 25,
        found: None,
        expected: 0,
    },
    Refused {
        octets: b"FTAMJNL1\0\0\0\x02\0\0\0\0\xFF\0\0\0\0\0\0\0!\x80\0\0\0\0\0\0!\0",
        at: 25,
        found: None,
        expected: 0,
    },
];

#[test]
fn what_is_no_journal_is_refused(rt: HostRuntime) -> Result<(), Fail> {
    for row in &REFUSED {
        let error = refusal(rt.alloc(), row.octets)?;
        let expected = JournalError::NotAStore {
            at: row.at,
            found: row.found,
            expected: row.expected,
        };
        assert!(rt; error == Some(expected));
    }
    Ok(())
}

fn refusal(alloc: Global, octets: &[u8]) -> Result<Option<JournalError>, NoMemory> {
    let mut disk = MemoryDisk::of(alloc, octets, Vec::new(alloc))?;
    let mut records = Vec::new(alloc);
    Ok(Journal::open(alloc, &mut disk, 50, &mut records).err())
}

#[test]
fn a_fault_while_opening_leaves_the_records_as_they_were(rt: HostRuntime) -> Result<(), Fail> {
    for call in 1..6 {
        let done = opens(rt.alloc(), call)?;
        assert!(rt; done == (call == 5));
    }
    Ok(())
}

/// Whether a journal is opened on a disk of which a call fails. If not, it is a fault, and no record was read.
fn opens(alloc: Global, call: u64) -> Result<bool, NoMemory> {
    let mut disk = MemoryDisk::of(alloc, OF_A, [call].to_vec(alloc)?)?;
    let mut records = Vec::new(alloc);
    let error = Journal::open(alloc, &mut disk, 50, &mut records).err();
    let is_fault = error == Some(JournalError::DiskFault);
    if is_fault != records.is_empty() {
        return Err(NoMemory);
    }
    Ok(error.is_none() && records.len() == 1)
}

/// A call on a disk that holds these octets: the writes that it makes, with a sync after each row of them, and what
/// opening gives before and after.
#[derive(Clone, Copy)]
struct Act {
    call: Call,
    first: &'static [u8],
    synced: &'static [&'static [Write]],
    before: Option<&'static [&'static [u8]]>,
    after: Option<&'static [&'static [u8]]>,
}

const CREATED: Act = Act {
    call: Call::Create,
    first: b"",
    synced: &[
        &[Write {
            at: 0,
            octets: b"\0",
        }],
        &[Write {
            at: 1,
            octets: b"TAMJNL1\0\0\0\x02\0\0\0\0\0\0\0\0\0\0\0\0!\0\0\0\0\0\0\0!\0",
        }],
        &[Write {
            at: 0,
            octets: b"F",
        }],
    ],
    before: None,
    after: Some(&[]),
};

const OPENED: Act = Act {
    call: Call::Open,
    first: AFTER_AN_OLD_ONE,
    synced: &[&[]],
    before: Some(&[b"A"]),
    after: Some(&[b"A"]),
};

const FIRST_APPENDED: Act = Act {
    call: Call::Append,
    first: NEW,
    synced: &[
        &[Write {
            at: 34,
            octets: b"\0\0\0\x01B\0",
        }],
        &[Write {
            at: 33,
            octets: b"\x01",
        }],
    ],
    before: Some(&[]),
    after: Some(&[b"B"]),
};

const APPENDED: Act = Act {
    call: Call::Append,
    first: OF_A,
    synced: &[
        &[Write {
            at: 40,
            octets: b"\0\0\0\x01B\0",
        }],
        &[Write {
            at: 39,
            octets: b"\x01",
        }],
    ],
    before: Some(&[b"A"]),
    after: Some(&[b"A", b"B"]),
};

const SWITCHED: Act = Act {
    call: Call::Switch,
    first: OF_A,
    synced: &[
        &[
            Write {
                at: 40,
                octets: b"\x01\0\0\0\x01S\0",
            },
            Write {
                at: 25,
                octets: b"\0\0\0\0\0\0\0(",
            },
        ],
        &[Write {
            at: 16,
            octets: b"\x01",
        }],
    ],
    before: Some(&[b"A"]),
    after: Some(&[b"S"]),
};

const SWITCHED_BACK: Act = Act {
    call: Call::Switch,
    first: AFTER_AN_OLD_ONE,
    synced: &[
        &[
            Write {
                at: 33,
                octets: b"\x01\0\0\0\x01S\0",
            },
            Write {
                at: 17,
                octets: b"\0\0\0\0\0\0\0!",
            },
        ],
        &[Write {
            at: 16,
            octets: b"\0",
        }],
    ],
    before: Some(&[b"A"]),
    after: Some(&[b"S"]),
};

const ACTS: [Act; 6] = [
    CREATED,
    OPENED,
    FIRST_APPENDED,
    APPENDED,
    SWITCHED,
    SWITCHED_BACK,
];

#[test]
fn a_stop_leaves_the_records_before_or_after(rt: HostRuntime) -> Result<(), Fail> {
    for act in &ACTS {
        assert!(rt; holds(rt.alloc(), act)?);
    }
    Ok(())
}

/// Whether each stop of the call leaves the records before or after, and without a stop the disk holds what all writes
/// make of it.
fn holds(alloc: Global, act: &Act) -> Result<bool, NoMemory> {
    let mut stood = act.first.to_vec(alloc)?;
    let mut stop: u32 = 0;
    for writes in act.synced {
        if !stops_hold(alloc, act, stop, &stood, writes)? {
            return Ok(false);
        }
        for write in *writes {
            put(&mut stood, *write)?;
            stop = stop.saturating_add(1);
        }
        stop = stop.saturating_add(1);
    }
    ends(alloc, act, &stood)
}

/// Whether the call that isn't stopped succeeds, and leaves these octets and the records after.
fn ends(alloc: Global, act: &Act, octets: &[u8]) -> Result<bool, NoMemory> {
    let mut disk = MemoryDisk::of(alloc, act.first, Vec::new(alloc))?;
    let done = make(alloc, &mut disk, act.call, 0).is_ok();
    let is_after = is_read_as(alloc, octets, act.after)?;
    Ok(done && disk.octets() == octets && is_after)
}

/// Whether it is so at each stop in a row of writes and at the sync after it, where so many writes and syncs went
/// before.
fn stops_hold(
    alloc: Global,
    act: &Act,
    before: u32,
    synced: &[u8],
    writes: &[Write],
) -> Result<bool, NoMemory> {
    let mut stop = before;
    for made in 0..writes.len() {
        stop = stop.saturating_add(1);
        if !stop_holds(alloc, act, stop, synced, &writes[..made + 1])? {
            return Ok(false);
        }
    }
    stop_holds(alloc, act, stop.saturating_add(1), synced, writes)
}

/// Whether it is so at one stop, after these writes to a disk that was synced with those octets.
fn stop_holds(
    alloc: Global,
    act: &Act,
    stop: u32,
    synced: &[u8],
    writes: &[Write],
) -> Result<bool, NoMemory> {
    let mut disk = MemoryDisk::of(alloc, act.first, Vec::new(alloc))?;
    if make(alloc, &mut disk, act.call, stop) != Err(JournalError::DiskFault) {
        return Ok(false);
    }
    for length in synced.len()..longest(synced.len(), writes).saturating_add(1) {
        if !images_hold(
            alloc,
            act,
            &disk,
            &images_after(alloc, synced, writes, length)?,
        )? {
            return Ok(false);
        }
    }
    forms_hold(alloc, act, &disk)
}

/// Whether the disk admits all of these images, and each is opened with the records before or after.
fn images_hold(
    alloc: Global,
    act: &Act,
    disk: &MemoryDisk,
    images: &Images,
) -> Result<bool, NoMemory> {
    for number in 0..images.count() {
        let image = images.image(alloc, number)?;
        if !disk.admits(&image)? || !is_either(alloc, act, &image)? {
            return Ok(false);
        }
    }
    Ok(true)
}

/// The forms of a crash that are tried.
const FORMS: [CrashForm; 5] = [
    CrashForm::Keep,
    CrashForm::Lose,
    CrashForm::Fill(0),
    CrashForm::Fill(1),
    CrashForm::Fill(255),
];

/// Whether a crash of each form leaves the records before or after.
fn forms_hold(alloc: Global, act: &Act, disk: &MemoryDisk) -> Result<bool, NoMemory> {
    for form in FORMS {
        if !form_holds(alloc, act, disk, form)? {
            return Ok(false);
        }
    }
    Ok(true)
}

fn form_holds(
    alloc: Global,
    act: &Act,
    disk: &MemoryDisk,
    form: CrashForm,
) -> Result<bool, NoMemory> {
    let disk = disk.copy(alloc)?;
    let left = disk.crash(form)?;
    is_either(alloc, act, left.octets())
}

fn is_either(alloc: Global, act: &Act, image: &[u8]) -> Result<bool, NoMemory> {
    let is_before = is_read_as(alloc, image, act.before)?;
    Ok(is_before || is_read_as(alloc, image, act.after)?)
}
