//! How long the canonical spelling of a value is.
ghost use Rattle.std.specs.Prelude.{◌≡◌, ◌≤◌, ◌+◌, length};
ghost use Rattle.vf_ber.specs.Limits.{measured, measured_in, within};
ghost use Rattle.vf_ber.specs.Spelling.{identifier, length_octets, header};
ghost use Rattle.vf_ber.specs.Views.{tag_of, tree_of, trees_in};

use crate::{Tag, Value};
use vf_base::MOST_VALUE_OCTETS;

/// The number of octets of the identifier and the length before `len` octets of contents.
fn header_len(constructed: bool, tag: Tag, len: u32) -> u32
    ensures size { result ≡ length (header constructed (tag_of tag) len) }
    ensures small { result ≤ 7 }
{
    identifier_len(constructed, tag) + length_len(len)
}

fn identifier_len(constructed: bool, tag: Tag) -> u32
    ensures size { result ≡ length (identifier constructed (tag_of tag)) }
    ensures small { result ≤ 3 }
{
    let _ = constructed;
    if tag.number < 31 {
        1
    } else if tag.number < 128 {
        2
    } else {
        3
    }
}

fn length_len(len: u32) -> u32
    ensures size { result ≡ length (length_octets len) }
    ensures small { result ≤ 4 }
{
    if len < 128 {
        1
    } else if len < 256 {
        2
    } else if len < 65536 {
        3
    } else {
        4
    }
}

/// The number of octets of the canonical spelling; `None` exactly where the value is deeper than `depth` or its spelling
/// longer than `room`. It takes no memory.
pub fn spelled_len(value: &Value, depth: u32, room: u32) -> Option<u32>
    requires { room ≤ MOST_VALUE_OCTETS }
    ensures { result ≡ measured depth room (tree_of value.now) }
{
    measure(value, depth, room)
}

/// The length of the canonical spelling, unless the value is deeper than `depth` or its spelling is longer
/// than `room`.
#[cycle(measure)]
pub fn measure(value: &Value, depth: u32, room: u32) -> Option<u32>
    requires { room ≤ MOST_VALUE_OCTETS }
    ensures { result ≡ measured depth room (tree_of value.now) }
{
    if depth == 0 {
        return None;
    }
    match value {
        Value::Plain { tag, octets } => {
            if octets.len() > room as usize {
                return None;
            }
            let len = octets.len() as u32;
            fitting(header_len(false, *tag, len) + len, room)
        }
        Value::Built { tag, parts } => {
            let len = measure_parts(parts.as_slice(), depth - 1, room)?;
            fitting(header_len(true, *tag, len) + len, room)
        }
    }
}

/// The same of the spellings of values, one after another.
#[cycle(measure)]
fn measure_parts(parts: &[Value], depth: u32, room: u32) -> Option<u32>
    requires { room ≤ MOST_VALUE_OCTETS }
    ensures { result ≡ measured_in depth room (trees_in parts.now) }
{
    let mut total = 0;
    for part in parts {
        total += measure(part, depth, room - total)?;
    }
    Some(total)
}

fn fitting(total: u32, room: u32) -> Option<u32>
    ensures { result ≡ within 0 room 0 total }
{
    if total <= room { Some(total) } else { None }
}
