//! Commits of random changes beside the plain program, with a stop or a fault at the calls of the disk that they make.
use super::acts::act;
use super::drawn::Draw;
use super::model::{Model, Record};
use super::{NEW, opened, opened_on, whole_of};
use crate::records::changes_of;
use std::alloc::Global;
use std::test::Fail;
use vf_base::NoMemory;
use vf_disk::{CrashForm, Disk, MemoryDisk};
use vf_store::{Store, StoreError};
use vf_tables::Changes;

/// The limit of the store.
const LIMIT: u64 = 100_000;

/// The forms of a crash that are tried at each stop.
const FORMS: [CrashForm; 4] = [
    CrashForm::Keep,
    CrashForm::Lose,
    CrashForm::Fill(0),
    CrashForm::Fill(255),
];

#[test]
fn a_stop_leaves_the_tables_before_or_after(rt: HostRuntime) -> Result<(), Fail> {
    let mut run = Run::new(rt.alloc())?;
    for _ in 0..30 {
        run.go_on()?;
    }
    run.try_each_octet()?;
    // A switch came first in some commit, and each of the twelve kinds of changes was made.
    assert_eq!(rt; run.most_calls, 9);
    assert_eq!(rt; run.kinds, 0x1FFE);
    Ok(())
}

/// A store beside the plain program.
#[derive(Drop)]
struct Run {
    alloc: Global,
    /// Draws the changes.
    draw: Draw,
    /// Draws images.
    mixer: Draw,
    model: Model,
    /// What the disk holds.
    octets: Vec<u8>,
    /// Of each kind of change that was made, the bit of its number.
    kinds: u32,
    /// The most calls of a commit.
    most_calls: u32,
}

impl Run {
    fn new(alloc: Global) -> Result<Run, NoMemory> {
        let octets = NEW.to_vec(alloc)?;
        Ok(Run {
            alloc,
            draw: Draw::new(alloc),
            mixer: Draw::new(alloc),
            model: Model::new(alloc),
            octets,
            kinds: 0,
            most_calls: 0,
        })
    }

    /// Draws a commit, stops it at each of its calls, lets the third one fail, and makes it.
    fn go_on(&mut self) -> Result<(), Fail> {
        let commit = self.drawn()?;
        let calls = commit.stops(&mut self.mixer)?;
        self.most_calls = self.most_calls.max(calls);
        commit.third_call_fails()?;
        self.octets = commit.goes()?;
        Ok(())
    }

    /// Draws one more commit, and tries all that the place may hold of which its third call, the write of a gate, fails.
    fn try_each_octet(&mut self) -> Result<(), Fail> {
        let commit = self.drawn()?;
        let disk = commit.third_call_fails()?;
        for octet in 0..=255 {
            commit.form_holds(&disk, CrashForm::Fill(octet))?;
        }
        Ok(())
    }

    fn drawn(&mut self) -> Result<Commit, NoMemory> {
        let before = self.model.whole(self.alloc)?;
        let mut changes = Record::new(self.alloc);
        for _ in 0..3 {
            act(&mut self.draw, &mut self.model, &mut changes)?;
        }
        self.kinds |= changes.kinds();
        let octets = self.octets.as_slice().to_vec(self.alloc)?;
        let changes = changes.octets(self.alloc)?;
        let after = self.model.whole(self.alloc)?;
        Ok(Commit {
            alloc: self.alloc,
            octets,
            changes,
            before,
            after,
        })
    }
}

/// What is to be committed, as the plain program has it.
#[derive(Drop)]
struct Commit {
    alloc: Global,
    /// What the disk holds before it.
    octets: Vec<u8>,
    /// The record of its changes.
    changes: Vec<u8>,
    /// The records that make all tables before and after it.
    before: Vec<u8>,
    after: Vec<u8>,
}

/// What a commit left.
#[derive(Drop)]
struct Made {
    disk: MemoryDisk,
    answer: Result<(), StoreError>,
    /// The record that makes the tables then.
    tables: Result<Vec<u8>, NoMemory>,
}

impl Made {
    /// All was made, and this record makes the tables then.
    fn has(&self, record: &[u8]) -> Result<(), Fail> {
        self.answer?;
        match &self.tables {
            Ok(tables) => require(tables.as_slice() == record, "after a commit"),
            Err(_) => Err(Fail::from("no memory")),
        }
    }

    /// Its disk.
    fn into_disk(self) -> MemoryDisk {
        self.disk
    }
}

/// Makes the changes: the disk then, what is answered, and the record that makes the tables. Of any disk, since the proof of
/// a function in which a store on a certain one is changed is slow.
fn changed<D: Disk>(
    alloc: Global,
    store: Store<D>,
    changes: Changes,
) -> (D, Result<(), StoreError>, Result<Vec<u8>, NoMemory>) {
    let mut store = store;
    let answer = store.commit(alloc, changes);
    let (disk, tables) = closed(alloc, store);
    (disk, answer, tables)
}

/// Closes a store: its disk, and the record that makes the tables.
fn closed<D: Disk>(alloc: Global, store: Store<D>) -> (D, Result<Vec<u8>, NoMemory>) {
    let tables = whole_of(alloc, store.tables());
    (store.close(), tables)
}

fn require(holds: bool, otherwise: &'static str) -> Result<(), Fail> {
    if !holds {
        return Err(Fail::from(otherwise));
    }
    Ok(())
}

impl Commit {
    /// The disk before it, of which the calls of these numbers fail.
    fn disk(&self, failing: &[u64]) -> Result<MemoryDisk, NoMemory> {
        let failing = failing.to_vec(self.alloc)?;
        MemoryDisk::of(self.alloc, &self.octets, failing)
    }

    /// Makes it on a disk.
    fn made(&self, disk: MemoryDisk) -> Result<Made, Fail> {
        let changes = changes_of(self.alloc, &self.changes)?;
        let store = opened(self.alloc, disk, LIMIT)?;
        let (disk, answer, tables) = changed(self.alloc, store, changes);
        Ok(Made {
            disk,
            answer,
            tables,
        })
    }

    /// Makes it: the tables are those after it, then and when the store is opened again. Answers what the disk holds.
    fn goes(&self) -> Result<Vec<u8>, Fail> {
        let octets = self.octets_after()?;
        let found = self.tables_on(&octets)?;
        require(found.as_slice() == self.after.as_slice(), "opened again")?;
        Ok(octets)
    }

    /// Makes it: the tables are those after it. Answers what the disk holds then.
    fn octets_after(&self) -> Result<Vec<u8>, Fail> {
        let disk = self.disk(&[])?;
        let made = self.made(disk)?;
        made.has(&self.after)?;
        let octets = made.disk.octets().to_vec(self.alloc)?;
        Ok(octets)
    }

    /// Stops it at each of its calls, and answers how many it makes.
    fn stops(&self, draw: &mut Draw) -> Result<u32, Fail> {
        for call in 1..11_u32 {
            if self.is_made_before(draw, call)? {
                return Ok(call.saturating_sub(1));
            }
        }
        Ok(10)
    }

    /// Stops it at this call, and tells whether it was made before.
    fn is_made_before(&self, draw: &mut Draw, call: u32) -> Result<bool, Fail> {
        let mut disk = self.disk(&[])?;
        // Opening makes the first of the calls that are counted.
        disk.stop(call.saturating_add(1));
        let made = self.made(disk)?;
        if made.answer.is_ok() {
            return Ok(true);
        }
        self.leaves_either(&made.disk, made.answer)?;
        self.mixture_holds(draw, &made.disk)?;
        Ok(false)
    }

    /// Lets its third call fail, and no other one, and answers the disk then.
    fn third_call_fails(&self) -> Result<MemoryDisk, Fail> {
        // Opening makes four calls of all.
        let disk = self.disk(&[7])?;
        let made = self.made(disk)?;
        self.leaves_either(&made.disk, made.answer)?;
        Ok(made.into_disk())
    }

    /// It answered a fault of the disk, and each form of a crash leaves the tables before or after.
    fn leaves_either(&self, disk: &MemoryDisk, answer: Result<(), StoreError>) -> Result<(), Fail> {
        require(answer == Err(StoreError::DiskFault), "another answer")?;
        for form in FORMS {
            self.form_holds(disk, form)?;
        }
        Ok(())
    }

    /// The disk that a crash leaves.
    fn left(&self, disk: &MemoryDisk, form: CrashForm) -> Result<MemoryDisk, NoMemory> {
        let copy = disk.copy(self.alloc)?;
        copy.crash(form)
    }

    fn form_holds(&self, disk: &MemoryDisk, form: CrashForm) -> Result<(), Fail> {
        let left = self.left(disk, form)?;
        self.is_either(left.octets())
    }

    /// An image that mixes those of three forms may be left too.
    fn mixture_holds(&self, draw: &mut Draw, disk: &MemoryDisk) -> Result<(), Fail> {
        let image = self.mixed(draw, disk)?;
        self.is_admitted(disk, &image)?;
        self.is_either(&image)
    }

    /// An image that mixes those of three forms.
    fn mixed(&self, draw: &mut Draw, disk: &MemoryDisk) -> Result<Vec<u8>, NoMemory> {
        let fill = CrashForm::Fill(draw.below(256) as u8);
        let lost = self.left(disk, CrashForm::Lose)?;
        let kept = self.left(disk, CrashForm::Keep)?;
        let filled = self.left(disk, fill)?;
        self.mixture(draw, lost.octets(), kept.octets(), filled.octets())
    }

    /// A crash of the disk may leave the image.
    fn is_admitted(&self, disk: &MemoryDisk, image: &[u8]) -> Result<(), Fail> {
        let admitted = disk.admits(image)?;
        require(admitted, "an image of another disk")
    }

    /// An image with octets of three others, of which two have the same length and the first is the shortest.
    fn mixture(
        &self,
        draw: &mut Draw,
        lost: &[u8],
        kept: &[u8],
        filled: &[u8],
    ) -> Result<Vec<u8>, NoMemory> {
        let mut image = Vec::new(self.alloc);
        for (place, (keeps, fills)) in kept.iter().zip(filled).enumerate() {
            let octet = match draw.below(3) {
                0 => *keeps,
                1 => *fills,
                _ => lost.get(place).copied().unwrap_or(*fills),
            };
            image.push(octet)?;
        }
        let past = u32::try_from(kept.len().saturating_sub(lost.len())).unwrap_or(0);
        let past = draw.below(past.saturating_add(1));
        image.truncate(lost.len().saturating_add(past as usize));
        Ok(image)
    }

    /// The record that makes the tables of the store that has these octets.
    fn tables_on(&self, octets: &[u8]) -> Result<Vec<u8>, Fail> {
        let store = opened_on(self.alloc, octets, LIMIT)?;
        let (_disk, tables) = closed(self.alloc, store);
        let tables = tables?;
        Ok(tables)
    }

    /// An image has the tables before or after.
    fn is_either(&self, image: &[u8]) -> Result<(), Fail> {
        let found = self.tables_on(image)?;
        let found = found.as_slice();
        require(
            found == self.before.as_slice() || found == self.after.as_slice(),
            "neither before nor after",
        )
    }
}
