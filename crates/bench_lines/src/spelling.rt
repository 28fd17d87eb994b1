//! Values in digits, as they are read and written.
use crate::fault::Fault;
use crate::reading::octets_in;
use crate::text::Text;
use std::alloc::Global;
use vf_ber::{BerError, Value, WriteError, read, write};

/// The value that the octets of digits begin with, where they begin with one.
pub fn value_in(alloc: Global, digits: &[u8]) -> Result<Option<Value>, Fault> {
    let octets = octets_in(alloc, digits)?;
    match read(alloc, octets.as_slice()) {
        Ok((value, _)) => Ok(Some(value)),
        Err(BerError::NoMemory) => Err(Fault::NoMemory),
        Err(_) => Ok(None),
    }
}

/// Appends the digits of a value's canonical spelling, `-` where it passes a limit.
pub fn put_spelling(alloc: Global, value: &Value, out: &mut Text) {
    let mut spelled = Vec::new(alloc);
    match write(alloc, value, &mut spelled) {
        Ok(()) => out.put_digits(spelled.as_slice()),
        Err(WriteError::TooLarge) => out.put("-"),
        Err(WriteError::NoMemory) => out.fail(Fault::NoMemory),
    }
}
