//! Values that share the octets that they are read of (ISO 8825, 8.1). Which octets are values, and where others have their
//! first fault, are lines of `bench_lines`.

use std::alloc::Global;
use std::test::*;
use vf_base::Octets;
use vf_ber::{BerError, Value, read_shared, write};

/// Whether this is the canonical spelling of the value.
fn spells(alloc: Global, value: &Value, canonical: &[u8]) -> bool {
    let mut out = Vec::new(alloc);
    write(alloc, value, &mut out).is_ok() && out.as_slice() == canonical
}

/// Whether the first octets that are kept, which are so many, are a value with this canonical spelling.
fn is_shared(alloc: Global, octets: &Octets, len: usize, canonical: &[u8]) -> bool {
    match read_shared(alloc, octets) {
        Ok((value, n)) => n == len && spells(alloc, &value, canonical),
        Err(_) => false,
    }
}

/// In a definite length and in an indefinite one, and between other octets.
const KEPT: [u8; 15] = [
    0xff, 0x30, 0x0b, 0x04, 0x02, 0x07, 0x08, 0x30, 0x80, 0x04, 0x01, 0x09, 0x00, 0x00, 0xff,
];

#[test]
fn shares_octets(rt: HostRuntime) -> Result<(), Fail> {
    let kept = Octets::of(rt.alloc(), &KEPT)?;
    let octets = kept.slice(1, 14)?;
    let canonical = [
        0x30, 0x09, 0x04, 0x02, 0x07, 0x08, 0x30, 0x03, 0x04, 0x01, 0x09,
    ];
    assert!(rt; is_shared(rt.alloc(), &octets, 13, &canonical));
    Ok(())
}

#[test]
fn waits_for_shared_octets(rt: HostRuntime) -> Result<(), Fail> {
    let kept = Octets::of(rt.alloc(), &KEPT)?;
    let octets = kept.slice(1, 12)?;
    assert!(rt; matches!(read_shared(rt.alloc(), &octets), Err(BerError::Short)));
    Ok(())
}
