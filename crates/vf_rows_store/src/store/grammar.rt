//! Records of which one octet is changed, and whether they are of the grammar then, as docs/STORE.md has it. Each begins with
//! the user `u`, by whom it is seen that a record counts.
use super::users_on;
use std::alloc::Global;
use std::test::Fail;
use vf_base::NoMemory;
use vf_disk::MemoryDisk;

/// What stands before the length of a store's first record.
const HEAD: &[u8] = b"FTAMJNL1\0\0\0\x02\0\0\0\0\0\0\0\0\0\0\0\0!\0\0\0\0\0\0\0!\x01";

/// A place in a record, the octet that is put there, and whether the record counts then.
type Row = (usize, u8, bool);

/// A write of a recoverable regime with its piece, beside an idle one on the same file, and a get with its piece.
const WRITE: &[u8] =
    b"\0\0\0\x07\x01\0\x01u\0\x02\0\x01b\xFF\x02\x19\0\0\0\0\0\0\0\0\0\0\0\0\0\0\0\0\x07\0\x03ann\0\0\0\0\0\0\x05\0\0\0\x02\0\0\0\x01\0\0\0\x02hi\0\0\0\x01\0\0\0\x02hi\x05\0\x01d\0\0\0\x01\0\x01b\xFF\x01\x01\x01\x01\x01\x01\x01\x01\x13\0\0\0\0\0\0\x0FBA\0\0\0\x03\x02\xFF\xFF\xFF\xFF\xFF\xFF\xFF\xFF\x01\0\0\0\0\0\x01\0\0\0\0\x05\x06\0\x01d\0\0\0\x01\0\0\0\0\0\0\0\x01\0\0\0\x01\x04\0\0\0\x02hi\x05\0\x01e\0\0\0\x01\0\x01b\0\0\0\0\0\0\0\0\0\0\0\0\0\0\0\0\0\0\x01\0\0\0\x03\0\0\0\0\0\0\0\0\0\0\0\0\0\0\0\0\0\0\0\0\0\x09\0\0\0\x01\x01\x03\0\0'\x10\0\x01b\0\x01d\0\x0FB@\0\0\0\x01\x01\0\0\x0A\0\0\0\x01\0\0\0\x01\0\0\0\x01\x04\0\0\0\x02hi";

const WRITE_CHANGED: &[Row] = &[
    // the docket's file
    (79, 120, false),
    // what was requested
    (80, 19, true),
    (80, 18, false),
    // the controls of actions that are opened, and of one that isn't
    (81, 2, true),
    (81, 0, false),
    (81, 3, false),
    (81, 4, false),
    (85, 0, false),
    (83, 0, true),
    (83, 3, true),
    // the control of an action on attributes, which was requested
    (86, 0, false),
    (86, 2, true),
    // the mode
    (89, 18, true),
    (89, 17, false),
    (89, 23, false),
    // the number of the transfer
    (98, 64, true),
    (98, 66, false),
    // the direction
    (103, 0, false),
    (103, 1, false),
    (103, 3, false),
    // the FADU
    (111, 254, false),
    (111, 249, false),
    // the operation
    (112, 2, false),
    (112, 0, false),
    (112, 4, false),
    // the transfer is refused
    (114, 19, true),
    // the point
    (118, 0, false),
    (118, 2, false),
    // the data have ended; the version
    (119, 1, true),
    (119, 2, false),
    (123, 9, true),
    // the points of its piece, and an element
    (135, 1, false),
    (139, 2, false),
    (144, 3, false),
    // the activity of another docket
    (155, 127, true),
    (155, 128, false),
    (158, 0, false),
    // its controls beside those of the first
    (163, 1, true),
    (163, 2, false),
    (163, 3, false),
    // the method of an idle docket, and its point
    (194, 1, false),
    (200, 1, true),
    // the number of its transfer
    (180, 0, false),
    // a task's activity, way and document type
    (210, 0, false),
    (211, 2, false),
    (211, 0, false),
    (212, 1, true),
    (212, 0, false),
    (212, 4, false),
    // the elements between checkpoints, and the number of the transfer
    (216, 17, false),
    (226, 65, false),
    // the point, and the phase
    (230, 0, false),
    (230, 2, false),
    (231, 0, true),
    (231, 2, false),
    (231, 4, false),
    // the outcome, and the point of the piece
    (233, 9, true),
    (242, 0, false),
    (242, 2, false),
];

/// A read of the first of two units.
const READ: &[u8] =
    b"\0\0\0\x03\x01\0\x01u\0\x02\0\x01b\xFF\x02\x19\0\0\0\0\0\0\0\0\0\0\0\0\0\0\0\0\x07\0\x03ann\0\0\0\0\0\0\x05\0\0\0\x02\0\0\0\x01\0\0\0\x02hi\0\0\0\x01\0\0\0\x02hi\x05\0\x01d\0\0\0\x01\0\x01b\xFF\x01\x01\x01\x01\x01\x01\x01\x01\x13\0\0\0\0\x01\0\0\0\x01\0\0\0\x03\x01\0\0\0\0\0\0\0\x01\x01\0\0\0\0\0\0\0\0\0\0\x05";

const READ_CHANGED: &[Row] = &[
    // the FADU and the position
    (111, 2, false),
    (111, 0, false),
    (94, 2, false),
    (94, 0, false),
    // the context
    (112, 0, true),
    (112, 2, true),
    (112, 3, false),
    (112, 4, false),
    // the version
    (123, 4, true),
    (123, 6, false),
    // the mode, and the point
    (89, 18, false),
    (118, 1, true),
    // the transfer is refused
    (113, 1, true),
];

/// A file of FTAM-1, whose strings have two octets of class 26.
const FILE: &[u8] =
    b"\0\0\0\x02\x01\0\x01u\0\x02\0\x01a\xFF\x01\x1A\0\0\0\x02\x01\0\0\0\0\0\0\0\0\0\0\0\x07\0\x03ann\0\0\0\0\0\0\x01\0\0\0\x01\0\0\0\x01\0\0\0\x02hi";

const FILE_CHANGED: &[Row] = &[
    // the document type
    (14, 2, true),
    (14, 3, true),
    (14, 0, false),
    (14, 4, false),
    // the class
    (15, 22, true),
    (15, 25, true),
    (15, 27, true),
    (15, 24, false),
    // the longest string
    (19, 3, false),
    (19, 1, false),
    (19, 0, false),
    (17, 1, false),
    // the significance
    (20, 0, true),
    (20, 2, true),
    (20, 3, false),
    // an octet of its string
    (57, 32, true),
    (57, 126, true),
    (57, 31, false),
    (57, 127, false),
];

/// A store with a record in which this octet stands at a place.
fn store_of(alloc: Global, record: &[u8], place: usize, octet: u8) -> Result<Vec<u8>, NoMemory> {
    let mut changed = record.to_vec(alloc)?;
    if let Some(old) = changed.get_mut(place) {
        *old = octet;
    }
    let length = u32::try_from(record.len()).unwrap_or(0).to_be_bytes();
    let octets = [HEAD, length.as_slice(), changed.as_slice(), [0].as_slice()].concat(alloc)?;
    Ok(octets)
}

/// Whether the record counts with this octet at a place.
fn counts(alloc: Global, record: &[u8], place: usize, octet: u8) -> Result<bool, Fail> {
    let octets = store_of(alloc, record, place, octet)?;
    let disk = MemoryDisk::of(alloc, &octets, Vec::new(alloc))?;
    let users = users_on(alloc, disk, 1000)?;
    Ok(users == 1)
}

#[test]
fn a_record_counts_where_its_changes_fit_and_leave_valid_tables(
    rt: HostRuntime,
) -> Result<(), Fail> {
    let alloc = rt.alloc();
    for (record, rows) in [
        (WRITE, WRITE_CHANGED),
        (READ, READ_CHANGED),
        (FILE, FILE_CHANGED),
    ] {
        // Each begins with an octet 0.
        assert!(rt; counts(alloc, record, 0, 0)?);
        for (place, octet, wanted) in rows {
            let found = counts(alloc, record, *place, *octet)?;
            assert!(rt; found == *wanted, "{octet} at {place}");
        }
    }
    Ok(())
}
