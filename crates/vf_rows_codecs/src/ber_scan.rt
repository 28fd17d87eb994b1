//! Where the octets of a value end, in whatever pieces they come, beside readings of all octets so far.

use crate::nested::{ended, nested};
use crate::octets::octets_of;
use std::alloc::Global;
use std::process::Abort;
use std::test::*;
use vf_base::NoMemory;
use vf_ber::{BerError, read};
use vf_ber_scan::{Scan, whole_in};

/// How many octets there are up to the first with which none are wanting, by readings of all octets so far.
fn plain(alloc: Global, octets: &[u8]) -> Option<usize> {
    for n in 1..octets.len() + 1 {
        let (prefix, _) = octets.split_at(n);
        if !matches!(read(alloc, prefix), Err(BerError::Short)) {
            return Some(n);
        }
    }
    None
}

/// How many octets the value takes that is read.
fn read_in(alloc: Global, octets: &[u8]) -> Option<usize> {
    match read(alloc, octets) {
        Ok((_value, n)) => Some(n),
        Err(_) => None,
    }
}

/// The next number of a sequence that looks random.
fn next(seed: u32) -> u32 {
    seed.wrapping_mul(1_664_525).wrapping_add(1_013_904_223)
}

/// The same by a scan of pieces of one octet up to `most`.
fn in_pieces(octets: &[u8], most: u32, first: u32) -> Option<usize> {
    let mut scan = Scan::new();
    let mut seed = first;
    let mut rest = octets;
    for _ in 0..octets.len() {
        seed = next(seed);
        let size = 1 + (seed >> 16) % most.max(1);
        let (piece, after) = rest.split_at((size as usize).min(rest.len()));
        if let Some(n) = scan.feed(piece) {
            return Some(octets.len().wrapping_sub(rest.len()).wrapping_add(n));
        }
        rest = after;
    }
    None
}

/// With primitive and constructed values, lengths of each form and in each other, and octets after them.
const VALUES: &str = "
0400
5fff7f82000301020304
308030800401070000000004
3008308004000000040004
300a30063004040200000500
308030043080000030000000
7f8100810e9f1f880000000000000001090200
a180a280a380a4059f81020107000000000000
";

const OCTETS: [u8; 9] = [0x00, 0x01, 0x02, 0x1f, 0x30, 0x80, 0x81, 0x88, 0xff];

/// Whether scans of whatever pieces end where readings do.
fn ends_alike(alloc: Global, octets: &[u8], first: u32) -> bool {
    let end = plain(alloc, octets);
    let single = in_pieces(octets, 1, first);
    let few = in_pieces(octets, 3, first);
    let many = in_pieces(octets, 40, first);
    whole_in(octets) == read_in(alloc, octets) && single == end && few == end && many == end
}

/// Whether it is so with each of these octets at a place.
fn changed_ends_alike(alloc: Global, value: &[u8], at: usize) -> Result<bool, NoMemory> {
    for octet in OCTETS {
        let mut changed = value.to_vec(alloc)?;
        if let Some(old) = changed.get_mut(at) {
            *old = octet;
        }
        if !ends_alike(alloc, changed.as_slice(), (at % 256) as u32) {
            return Ok(false);
        }
    }
    Ok(true)
}

/// How many places a value has: at each it is so.
fn places_of(rt: &impl Abort, alloc: Global, value: &[u8]) -> Result<usize, NoMemory> {
    for at in 0..value.len() {
        assert!(rt; changed_ends_alike(alloc, value, at)?, "{value:?} at {at}");
    }
    Ok(value.len())
}

#[test]
fn ends_where_a_reading_ends(rt: HostRuntime) -> Result<(), Fail> {
    let mut places = 0_usize;
    for row in VALUES.lines() {
        let value = octets_of(rt.alloc(), row)?;
        let count = places_of(&rt, rt.alloc(), value.as_slice())?;
        places = places.saturating_add(count);
    }
    assert_eq!(rt; places, 97);
    Ok(())
}

#[test]
fn ends_at_depth_32(rt: HostRuntime) -> Result<(), Fail> {
    for depth in [32u8, 33] {
        for definite in [true, false] {
            let octets = if definite {
                nested(rt.alloc(), depth, true)?
            } else {
                ended(rt.alloc(), depth)?
            };
            let end = in_pieces(octets.as_slice(), 5, 1);
            assert!(rt; end == plain(rt.alloc(), octets.as_slice()));
            assert!(rt; (end == Some(octets.len())) == (depth == 32));
        }
    }
    Ok(())
}

/// Pieces, and where a value ends in each: after the end of one in a piece, and after a fault.
const FED: [(&[u8], Option<usize>); 5] = [
    (&[0x04, 0x01, 0x07, 0x04], Some(3)),
    (&[0x04, 0x01], None),
    (&[0x07, 0x00], Some(1)),
    (&[0x00], Some(1)),
    (&[0x30, 0x80, 0x04], None),
];

/// Pieces after the octets were forgotten.
const FED_ANEW: [(&[u8], Option<usize>); 2] = [(&[], None), (&[0x04, 0x00], Some(2))];

/// Whether values end there in the pieces.
fn end_there(scan: &mut Scan, pieces: &[(&[u8], Option<usize>)]) -> bool {
    for (piece, end) in pieces {
        if scan.feed(piece) != *end {
            return false;
        }
    }
    true
}

#[test]
fn begins_anew(rt: HostRuntime) {
    let mut scan = Scan::new();
    assert!(rt; end_there(&mut scan, &FED));
    scan.clear();
    assert!(rt; end_there(&mut scan, &FED_ANEW));
}
