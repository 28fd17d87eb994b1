//! Octets as records of changes.
use std::alloc::Global;
use std::test::Fail;
use vf_base::Octets;
use vf_disk::Parts;
use vf_store_record::{read, write};
use vf_tables::{Change, Changes};

/// Octets, and how many changes they are a record of; none where they are no record.
const TABLE: [(&[u8], Option<usize>); 12] = [
    (b"\0\0\0\0", Some(0)),
    (b"\0\0\0\x01\x01\0\x03ann\x01\0\x02pw", Some(1)),
    (b"\0\0\0\x01\x01\0\x03ann\0", Some(1)),
    (b"\0\0\0\x02\x04\0\x01a\x0b\0\0\0\x07\0\0\0\x02", Some(2)),
    (b"\0\0\0\x01\x0c\0\0\0\x07", Some(1)),
    (b"", None),
    (b"\0\0\0", None),
    (b"\0\0\0\x01", None),
    (b"\0\0\0\0\0", None),
    (b"\0\0\0\x01\x0d\0\0\0\x07", None),
    (b"\0\0\0\x01\x01\0\x03ann\x02\0\x02pw", None),
    (b"\0\0\0\x01\x04\0\x02a", None),
];

/// The changes of octets that are to be a record.
pub fn changes_of(alloc: Global, octets: &[u8]) -> Result<Changes, Fail> {
    let octets = Octets::of(alloc, octets)?;
    let found = read(alloc, &octets)?;
    match found {
        Some(changes) => Ok(changes),
        None => Err(Fail::from("no record")),
    }
}

fn count_of(found: &Option<Changes>) -> Option<usize> {
    match found {
        Some(changes) => Some(changes.len()),
        None => None,
    }
}

/// Whether octets are a record of so many changes, or none.
fn are_read(alloc: Global, octets: &[u8], wanted: Option<usize>) -> Result<bool, Fail> {
    let octets = Octets::of(alloc, octets)?;
    let found = read(alloc, &octets)?;
    Ok(count_of(&found) == wanted)
}

/// Whether the changes of these octets, which are a record, are written as the same octets.
fn are_written_again(alloc: Global, octets: &[u8]) -> Result<bool, Fail> {
    let changes = changes_of(alloc, octets)?;
    let mut out = Parts::new(alloc);
    write(changes.as_slice(), &mut out)?;
    let written = out.to_vec(alloc)?;
    Ok(written.as_slice() == octets)
}

#[test]
fn octets_are_read_as_changes_and_written_again(rt: HostRuntime) -> Result<(), Fail> {
    for (octets, wanted) in TABLE {
        assert!(rt; are_read(rt.alloc(), octets, wanted)?);
        if wanted.is_some() {
            assert!(rt; are_written_again(rt.alloc(), octets)?);
        }
    }
    Ok(())
}

/// The record that stages two strings of so many octets for a task: the first one is of `a`, the second of `b`.
fn staged(alloc: Global, count: u32) -> Result<Vec<u8>, Fail> {
    let mut octets = Vec::new(alloc);
    octets.extend_from_slice(b"\0\0\0\x01\x0a\0\0\0\x07\0\0\0\0\0\0\0\x02")?;
    for letter in *b"ab" {
        octets.push(4)?;
        octets.extend_from_slice(&count.to_be_bytes())?;
        for _ in 0..count {
            octets.push(letter)?;
        }
    }
    Ok(octets)
}

/// Strings are copied up to 4,095 octets, and shared with the record from 4,096 on.
#[test]
fn strings_of_any_length_are_written_again(rt: HostRuntime) -> Result<(), Fail> {
    for count in [0, 1, 22, 23, 4_095, 4_096, 4_097, 65_536] {
        let octets = staged(rt.alloc(), count)?;
        assert!(rt; are_written_again(rt.alloc(), octets.as_slice())?);
    }
    Ok(())
}

/// Whether it is the user `ann` with the password `pw`.
fn is_ann(change: &Change) -> bool {
    match change {
        Change::PutUser { user } => match &user.password {
            Some(password) => {
                user.identity.as_slice() == b"ann".as_slice()
                    && password.as_slice() == b"pw".as_slice()
            }
            None => false,
        },
        _ => false,
    }
}

#[test]
fn a_user_is_read_with_its_password(rt: HostRuntime) -> Result<(), Fail> {
    let changes = changes_of(rt.alloc(), b"\0\0\0\x01\x01\0\x03ann\x01\0\x02pw")?;
    assert!(rt; changes.get(0).is_some_and(|change| is_ann(change)));
    Ok(())
}
