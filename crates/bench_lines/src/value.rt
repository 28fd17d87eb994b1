//! Values of the basic encoding rules: a line has octets in hexadecimal digits.
//!
//! Where they begin with a value the answer to `ber` is `value`, the canonical spelling of its copy, and the number of octets
//! that it took; else `short`, `bad AT`, `deep AT` or `long AT`.
//!
//! Three layers tell how many octets there are, for counting what each costs: `hold` of the line itself, `parse` of the value
//! that they begin with, which shares them, and `rewrite` of this value as it is written again.
use crate::fault::Fault;
use crate::reading::octets_in;
use crate::spelling::put_spelling;
use crate::text::Text;
use std::alloc::Global;
use vf_base::Octets;
use vf_ber::{BerError, Value, read, read_shared, write};

/// Appends what the octets of a line are.
pub fn put_line(alloc: Global, line: &[u8], out: &mut Text) -> Result<(), Fault> {
    let octets = octets_in(alloc, line)?;
    match read(alloc, octets.as_slice()) {
        Ok((value, taken)) => put_value(alloc, &value, taken, out),
        Err(error) => put_error(error, out),
    }
    Ok(())
}

fn put_value(alloc: Global, value: &Value, taken: usize, out: &mut Text) {
    match value.copy(alloc) {
        Ok(copied) => {
            out.put("value ");
            put_spelling(alloc, &copied, out);
            out.put_number(" ", taken as u64, "\n");
        }
        Err(_) => out.fail(Fault::NoMemory),
    }
}

fn put_error(error: BerError, out: &mut Text) {
    match error {
        BerError::Short => out.put("short\n"),
        BerError::Bad { at } => out.put_number("bad ", u64::from(at), "\n"),
        BerError::Deep { at } => out.put_number("deep ", u64::from(at), "\n"),
        BerError::Long { at } => out.put_number("long ", u64::from(at), "\n"),
        BerError::NoMemory => out.fail(Fault::NoMemory),
    }
}

/// Appends how many octets a line has.
pub fn put_held(alloc: Global, line: &[u8], out: &mut Text) -> Result<(), Fault> {
    let octets = octets_in(alloc, line)?;
    out.put_number("", octets.len() as u64, "\n");
    Ok(())
}

/// Appends how many octets the value takes that a line begins with, or how many it takes as it is written again.
pub fn put_shared(alloc: Global, line: &[u8], again: bool, out: &mut Text) -> Result<(), Fault> {
    let octets = Octets::from_vec(octets_in(alloc, line)?)?;
    match read_shared(alloc, &octets) {
        Ok((value, _)) if again => put_written(alloc, &value, out),
        Ok((_, taken)) => out.put_number("", taken as u64, "\n"),
        Err(_) => out.fail(Fault::Line),
    }
    Ok(())
}

fn put_written(alloc: Global, value: &Value, out: &mut Text) {
    let mut written = Vec::new(alloc);
    match write(alloc, value, &mut written) {
        Ok(()) => out.put_number("", written.len() as u64, "\n"),
        Err(_) => out.fail(Fault::Line),
    }
}
