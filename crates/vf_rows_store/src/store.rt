//! Stores on a disk in memory.
ghost use Rattle.std.specs.Prelude.{IsTrue};
ghost use Rattle.vf_tables.specs.Snapshot.{HasFewPieces};

use std::alloc::Global;
use std::test::Fail;
use vf_base::{Name, NoMemory, Octets, Sequence};
use vf_disk::{Disk, MemoryDisk, Parts};
use vf_store::{Store, StoreError};
use vf_store_record::write;
use vf_tables::{Change, Changes, Tables, User};

mod acts;
mod drawn;
mod grammar;
mod model;
mod stops;

/// A store of empty tables.
const NEW: &[u8] = b"FTAMJNL1\0\0\0\x02\0\0\0\0\0\0\0\0\0\0\0\0!\0\0\0\0\0\0\0!\0";
/// The same with a record that puts the user `ann` with the password `pw`.
const OF_ANN: &[u8] =
    b"FTAMJNL1\0\0\0\x02\0\0\0\0\0\0\0\0\0\0\0\0!\0\0\0\0\0\0\0!\x01\0\0\0\x0F\0\0\0\x01\x01\0\x03ann\x01\0\x02pw\0";

/// Opens a store that is to be one.
pub fn opened(alloc: Global, disk: MemoryDisk, limit: u64) -> Result<Store<MemoryDisk>, Fail> {
    match Store::open(alloc, disk, limit) {
        Ok(store) => Ok(store),
        Err((_disk, error)) => Err(error)?,
    }
}

/// Whether a snapshot can number the pieces of each docket and each task.
fn has_few_pieces(tables: &Tables) -> bool
    ensures { IsTrue result → HasFewPieces tables.now }
{
    let dockets = tables.dockets.as_slice();
    let tasks = tables.tasks.as_slice();
    dockets
        .iter()
        .all(|docket| docket.staged.len() < 4_294_967_296)
        && tasks.iter().all(|task| task.staged.len() < 4_294_967_296)
}

/// The record that makes all of the tables.
pub fn whole_of(alloc: Global, tables: &Tables) -> Result<Vec<u8>, NoMemory> {
    if !has_few_pieces(tables) {
        return Err(NoMemory);
    }
    let changes = tables.snapshot(alloc)?;
    let mut octets = Parts::new(alloc);
    write(changes.as_slice(), &mut octets)?;
    octets.to_vec(alloc)
}

/// The change that puts the user `ann` with the password `pw`.
fn changes(alloc: Global) -> Result<Changes, Fail> {
    let identity = Name::of(alloc, b"ann")?;
    let password = Octets::of(alloc, b"pw")?;
    let mut changes = Sequence::new(alloc);
    changes.push(Change::PutUser {
        user: User {
            identity,
            password: Some(password),
        },
    })?;
    Ok(changes)
}

#[test]
fn a_new_store_lies_as_laid_out(rt: HostRuntime) -> Result<(), Fail> {
    let alloc = rt.alloc();
    let disk = created(alloc)?;
    assert!(rt; disk.octets() == NEW);
    assert!(rt; stays(alloc, disk)?);
    Ok(())
}

/// The disk of a store that is just made.
fn created(alloc: Global) -> Result<MemoryDisk, Fail> {
    let mut disk = MemoryDisk::of(alloc, &[], Vec::new(alloc))?;
    Store::create(&mut disk)?;
    Ok(disk)
}

/// Whether a store on the disk has no users, and its disk is a new one when it is closed.
fn stays(alloc: Global, disk: MemoryDisk) -> Result<bool, Fail> {
    let store = opened(alloc, disk, 1000)?;
    let (disk, users) = closed(store);
    Ok(users == 0 && disk.octets() == NEW)
}

/// A commit of `ann` to a new store with a limit: what it answers, and what the disk holds.
#[derive(Clone, Copy)]
struct Committed {
    limit: u64,
    answer: Result<(), StoreError>,
    octets: &'static [u8],
    users: usize,
}

/// Fifteen octets of the record would end at 54; after a switch, which is possible from 44 on, at 64.
const COMMITS: [Committed; 4] = [
    Committed {
        limit: 54,
        answer: Ok(()),
        octets: OF_ANN,
        users: 1,
    },
    Committed {
        limit: 53,
        answer: Err(StoreError::Full {
            length: 64,
            limit: 53,
        }),
        octets: NEW,
        users: 0,
    },
    Committed {
        limit: 44,
        answer: Err(StoreError::Full {
            length: 64,
            limit: 44,
        }),
        octets: NEW,
        users: 0,
    },
    Committed {
        limit: 43,
        answer: Err(StoreError::Full {
            length: 54,
            limit: 43,
        }),
        octets: NEW,
        users: 0,
    },
];

#[test]
fn a_commit_writes_one_record_or_none(rt: HostRuntime) -> Result<(), Fail> {
    for row in &COMMITS {
        assert!(rt; commits(rt.alloc(), row)?);
    }
    Ok(())
}

/// Makes the changes: the disk then, what is answered, and how many users there are. Of any disk, since the proof of a
/// function in which a store on a certain one is changed is slow.
fn changed<D: Disk>(
    alloc: Global,
    store: Store<D>,
    changes: Changes,
) -> (D, Result<(), StoreError>, usize) {
    let mut store = store;
    let answer = store.commit(alloc, changes);
    let (disk, users) = closed(store);
    (disk, answer, users)
}

/// Closes a store: its disk, and how many users it had.
fn closed<D: Disk>(store: Store<D>) -> (D, usize) {
    let users = store.tables().users.len();
    (store.close(), users)
}

/// How many users a store on a disk has.
fn users_on(alloc: Global, disk: MemoryDisk, limit: u64) -> Result<usize, Fail> {
    let store = opened(alloc, disk, limit)?;
    let (_disk, users) = closed(store);
    Ok(users)
}

/// A store on a disk with these octets.
fn opened_on(alloc: Global, octets: &[u8], limit: u64) -> Result<Store<MemoryDisk>, Fail> {
    let disk = MemoryDisk::of(alloc, octets, Vec::new(alloc))?;
    opened(alloc, disk, limit)
}

/// Whether the commit answers as told, the store has so many users then, and so it has when it is opened again.
fn commits(alloc: Global, row: &Committed) -> Result<bool, Fail> {
    let changes = changes(alloc)?;
    let store = opened_on(alloc, NEW, row.limit)?;
    let (disk, answer, users) = changed(alloc, store, changes);
    let stands = answer == row.answer && users == row.users && disk.octets() == row.octets;
    let users = users_on(alloc, disk, row.limit)?;
    Ok(stands && users == row.users)
}

/// Octets that are no store, and why.
#[derive(Clone, Copy)]
struct Refused {
    octets: &'static [u8],
    error: StoreError,
}

const REFUSED: [Refused; 2] = [
    Refused {
        octets: b"",
        error: StoreError::NotAStore {
            at: 0,
            found: None,
            expected: 0x46,
        },
    },
    Refused {
        octets: b"FTAMJNL1\0\0\0\x01\0\0\0\0\0",
        error: StoreError::NotAStore {
            at: 11,
            found: Some(1),
            expected: 2,
        },
    },
];

#[test]
fn what_is_no_store_is_refused(rt: HostRuntime) -> Result<(), Fail> {
    for row in &REFUSED {
        assert!(rt; is_refused(rt.alloc(), row)?);
    }
    Ok(())
}

/// Opens a store: the disk, and why it is none.
fn refusal<D: Disk>(alloc: Global, disk: D) -> (D, Option<StoreError>) {
    match Store::open(alloc, disk, 1000) {
        Ok(store) => (store.close(), None),
        Err((disk, error)) => (disk, Some(error)),
    }
}

/// Whether the octets are refused as told, and given back.
fn is_refused(alloc: Global, row: &Refused) -> Result<bool, Fail> {
    let disk = MemoryDisk::of(alloc, row.octets, Vec::new(alloc))?;
    let (disk, error) = refusal(alloc, disk);
    Ok(error == Some(row.error) && disk.octets() == row.octets)
}

/// Records of which the second isn't of the grammar: nothing after the first counts.
const FOREIGN: &[u8] =
    b"FTAMJNL1\0\0\0\x02\0\0\0\0\0\0\0\0\0\0\0\0!\0\0\0\0\0\0\0!\x01\0\0\0\x0F\0\0\0\x01\x01\0\x03ann\x01\0\x02pw\x01\0\0\0\x08\0\0\0\x01\x04\0\x01a\x01\0\0\0\x0B\0\0\0\x01\x01\0\x03bob\0\0";

#[test]
fn records_count_up_to_the_first_that_is_foreign(rt: HostRuntime) -> Result<(), Fail> {
    let disk = MemoryDisk::of(rt.alloc(), FOREIGN, Vec::new(rt.alloc()))?;
    assert!(rt; users_on(rt.alloc(), disk, 1000)? == 1);
    Ok(())
}
