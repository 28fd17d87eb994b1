//! PDUs: a line has the octets of a value in hexadecimal digits.
//!
//! The answer is `pdu` and the one spelling of a copy of the PDU that the value means, `unknown CLASS NUMBER` with its tag
//! where it means none, `field PLACE`, `range FIELD` or `missing FIELD` with its fault, or `none` where the octets don't
//! begin with a value.
use crate::fault::Fault;
use crate::spelling::{put_spelling, value_in};
use crate::text::Text;
use std::alloc::Global;
use vf_ber::Value;
use vf_pdu::{Pdu, PduError, is_in_range, of_value, to_value};

/// Appends what the octets of a line are.
pub fn put_line(alloc: Global, line: &[u8], out: &mut Text) -> Result<(), Fault> {
    match value_in(alloc, line)? {
        Some(value) => put_meaning(alloc, &value, out),
        None => out.put("none\n"),
    }
    Ok(())
}

/// Appends what a value is.
fn put_meaning(alloc: Global, value: &Value, out: &mut Text) {
    match of_value(alloc, value) {
        Ok(pdu) => put_copy(alloc, &pdu, out),
        Err(error) => put_error(error, out),
    }
}

fn put_copy(alloc: Global, pdu: &Pdu, out: &mut Text) {
    match pdu.copy(alloc) {
        Ok(copied) => {
            out.put("pdu ");
            put_pdu(alloc, &copied, out);
            out.put("\n");
        }
        Err(_) => out.fail(Fault::NoMemory),
    }
}

/// Appends the one spelling of a PDU, which must be in its ranges.
pub fn put_pdu(alloc: Global, pdu: &Pdu, out: &mut Text) {
    if !is_in_range(pdu) {
        out.fail(Fault::Received);
        return;
    }
    match to_value(alloc, pdu) {
        Ok(value) => put_spelling(alloc, &value, out),
        Err(_) => out.fail(Fault::NoMemory),
    }
}

/// Appends why a value means no PDU, or no data element.
pub fn put_error(error: PduError, out: &mut Text) {
    match error {
        PduError::Unknown { tag } => {
            out.put_number("unknown ", u64::from(tag.class), " ");
            out.put_number("", u64::from(tag.number), "\n");
        }
        PduError::Field { place } => out.put_number("field ", u64::from(place), "\n"),
        PduError::Range { field } => out.put_number("range ", u64::from(field), "\n"),
        PduError::Missing { field } => out.put_number("missing ", u64::from(field), "\n"),
        PduError::NoMemory => out.fail(Fault::NoMemory),
    }
}
