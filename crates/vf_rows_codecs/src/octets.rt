//! Octets in rows: hexadecimal digits.
use std::alloc::Global;
use std::test::Fail;

/// The octets of a word of digits.
pub(crate) fn octets_of(alloc: Global, digits: &str) -> Result<Vec<u8>, Fail> {
    match hex::decode(alloc, digits) {
        Ok(octets) => Ok(octets),
        Err(_) => Err(Fail::from("no digits")),
    }
}
