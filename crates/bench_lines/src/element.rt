//! Data elements: a line has the octets of a value in hexadecimal digits.
//!
//! The answer is `element`, the one spelling of the data element that the value means, and the number of octets that it
//! is told to take before it is spelled; the fault of the value, as of a PDU; or `none` where the octets don't begin with a
//! value.
ghost use Rattle.vf_elements.specs.ElementValue.{IsWritable};

use crate::fault::Fault;
use crate::pdu::put_error;
use crate::spelling::{put_spelling, value_in};
use crate::text::Text;
use std::alloc::Global;
use vf_base::Element;
use vf_ber::Value;
use vf_elements::{of_value, spelled_length, to_value};

/// Appends what the octets of a line are.
pub fn put_line(alloc: Global, line: &[u8], out: &mut Text) -> Result<(), Fault> {
    match value_in(alloc, line)? {
        Some(value) => put_meaning(alloc, &value, out),
        None => out.put("none\n"),
    }
    Ok(())
}

/// Appends what a value is.
fn put_meaning(alloc: Global, value: &Value, out: &mut Text) {
    match of_value(alloc, value) {
        Ok(element) => put_element(alloc, &element, out),
        Err(error) => put_error(error, out),
    }
}

fn put_element(alloc: Global, element: &Element, out: &mut Text)
    requires { IsWritable element.now }
{
    match to_value(alloc, element) {
        Ok(value) => {
            out.put("element ");
            put_spelling(alloc, &value, out);
            out.put_number(" ", spelled_length(element), "\n");
        }
        Err(_) => out.fail(Fault::NoMemory),
    }
}
