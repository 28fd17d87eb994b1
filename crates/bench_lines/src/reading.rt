//! The input of a program for measuring, and what its lines hold.
use crate::fault::Fault;
use std::alloc::Global;
use vf_base::{ReadSource, read_up_to};

/// The most octets of input.
const LIMIT: usize = 1 << 26;

/// All octets of standard input, at most 67,108,864.
pub fn input(rt: &HostRuntime) -> Result<Vec<u8>, Fault> {
    match read_up_to(rt.alloc(), &mut ReadSource::new(rt.stdin()), LIMIT) {
        Ok(octets) => Ok(octets),
        Err(_) => Err(Fault::Input),
    }
}

/// The word that a line begins with, and the line after it and a space, where it has one.
pub fn first_word(line: &[u8]) -> (&[u8], &[u8]) {
    match line.iter().position(|octet| *octet == b' ') {
        Some(end) => {
            let (word, after) = line.split_at(end);
            (word, &after[1..])
        }
        None => (line, &[]),
    }
}

/// A line as a text, which its octets must be.
pub fn text_of(line: &[u8]) -> Result<&str, Fault> {
    match std::str::from_utf8(line) {
        Ok(text) => Ok(text),
        Err(_) => Err(Fault::Line),
    }
}

/// The octets of hexadecimal digits.
pub fn octets_in(alloc: Global, digits: &[u8]) -> Result<Vec<u8>, Fault> {
    match hex::decode(alloc, digits) {
        Ok(octets) => Ok(octets),
        Err(_) => Err(Fault::Line),
    }
}
