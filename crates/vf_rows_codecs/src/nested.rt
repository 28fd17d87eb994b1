//! Sequences in each other.

use std::alloc::Global;
use vf_base::NoMemory;

/// So many sequences, one in the other: of definite lengths, or of indefinite ones with no end.
pub(crate) fn nested(alloc: Global, depth: u8, definite: bool) -> Result<Vec<u8>, NoMemory> {
    let mut octets = Vec::new(alloc);
    for inside in (0..depth).rev() {
        let len = if definite {
            inside.wrapping_mul(2)
        } else {
            0x80
        };
        octets.extend_from_slice(&[0x30, len])?;
    }
    Ok(octets)
}

/// The same of indefinite lengths, whole.
pub(crate) fn ended(alloc: Global, depth: u8) -> Result<Vec<u8>, NoMemory> {
    let mut octets = nested(alloc, depth, false)?;
    for _ in 0..depth {
        octets.extend_from_slice(&[0x00, 0x00])?;
    }
    Ok(octets)
}
