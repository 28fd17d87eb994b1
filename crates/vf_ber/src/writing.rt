//! Writing the canonical spelling of a value, from its end to its start, so that each length is known when it is
//! written.
ghost use Rattle.std.specs.Prelude.{◌≡◌, ◌≤◌, ◌+◌, ◌++◌, ◌↔◌, length, take, IsErrOf, OnOk, OnErr};
ghost use Rattle.vf_ber.specs.Limits.{IsTooLarge};
ghost use Rattle.vf_ber.specs.Placed.{ending_at};
ghost use Rattle.vf_ber.specs.Spelling.{header, identifier, length_octets, spell, spells};
ghost use Rattle.vf_ber.specs.Views.{tag_of, tree_of, trees_in};

use crate::measure::measure;
use crate::{MOST_DEPTH, Tag, Value, WriteError};
use std::alloc::{AllocError, Global};
use vf_base::MOST_VALUE_OCTETS;

/// Appends the canonical spelling of the value, which has definite lengths in the fewest octets.
///
/// `TooLarge` exactly where the value is deeper than `MOST_DEPTH` or its spelling longer than `MOST_VALUE_OCTETS`.
pub fn write(_alloc: Global, value: &Value, out: &mut Vec<u8>) -> Result<(), WriteError>
    ensures written { OnOk result (out.new.items ≡ out.old.items ++ spell (tree_of value.now)) }
    ensures large { IsErrOf result WriteError.TooLarge ↔ IsTooLarge (tree_of value.now) }
    ensures err { OnErr result (out.new.items ≡ out.old.items) }
{
    let Some(len) = measure(value, MOST_DEPTH, MOST_VALUE_OCTETS) else {
        return Err(WriteError::TooLarge);
    };
    let end = out.len() + len as usize;
    if lengthen(out, len as usize).is_err() {
        return Err(WriteError::NoMemory);
    }
    let _start = put_value(value, end, out.as_mut_slice());
    Ok(())
}

/// What room is made of before it is written over, many octets at a time.
const ROOM: [u8; 256] = [0; 256];

/// Appends room for so many octets. After an error nothing is appended.
fn lengthen(out: &mut Vec<u8>, count: usize) -> Result<(), AllocError>
    ensures len { OnOk result (length out.new.items ≡ length out.old.items + count) }
    ensures kept { OnOk result (take (length out.old.items) out.new.items ≡ out.old.items) }
    ensures err { OnErr result (out.new.items ≡ out.old.items) }
{
    let len = out.len();
    out.reserve(count)?;
    let mut left = count;
    while left > 0 {
        let piece = left.min(ROOM.len());
        if out.extend_from_slice(&ROOM[..piece]).is_err() {
            out.truncate(len);
            return Err(AllocError);
        }
        left -= piece;
    }
    Ok(())
}

/// Writes the spelling of a value up to a place. Gives the place where it starts.
#[cycle(put)]
fn put_value(value: &Value, end: usize, out: &mut [u8]) -> usize
    requires short { length (spell (tree_of value.now)) ≤ MOST_VALUE_OCTETS }
    requires room { length (spell (tree_of value.now)) ≤ end }
    requires within { end ≤ length out.old }
    ensures start { result + length (spell (tree_of value.now)) ≡ end }
    ensures written { out.new ≡ ending_at end (spell (tree_of value.now)) out.old }
{
    match value {
        Value::Plain { tag, octets } => {
            let start = put(octets.as_slice(), end, out);
            put_header(false, *tag, end - start, start, out)
        }
        Value::Built { tag, parts } => {
            let start = put_values(parts.as_slice(), end, out);
            put_header(true, *tag, end - start, start, out)
        }
    }
}

/// The same of the spellings of values, one after another.
#[cycle(put)]
fn put_values(parts: &[Value], end: usize, out: &mut [u8]) -> usize
    requires short { length (spells (trees_in parts.now)) ≤ MOST_VALUE_OCTETS }
    requires room { length (spells (trees_in parts.now)) ≤ end }
    requires within { end ≤ length out.old }
    ensures start { result + length (spells (trees_in parts.now)) ≡ end }
    ensures written { out.new ≡ ending_at end (spells (trees_in parts.now)) out.old }
{
    let mut start = end;
    for i in (0..parts.len()).rev() {
        start = put_value(&parts[i], start, out);
    }
    start
}

fn put_header(constructed: bool, tag: Tag, len: usize, end: usize, out: &mut [u8]) -> usize
    requires small { len ≤ MOST_VALUE_OCTETS }
    requires room { length (header constructed (tag_of tag) len) ≤ end }
    requires within { end ≤ length out.old }
    ensures start { result + length (header constructed (tag_of tag) len) ≡ end }
    ensures written { out.new ≡ ending_at end (header constructed (tag_of tag) len) out.old }
{
    let start = put_length(len, end, out);
    put_identifier(constructed, tag, start, out)
}

fn put_identifier(constructed: bool, tag: Tag, end: usize, out: &mut [u8]) -> usize
    requires room { length (identifier constructed (tag_of tag)) ≤ end }
    requires within { end ≤ length out.old }
    ensures start { result + length (identifier constructed (tag_of tag)) ≡ end }
    ensures written { out.new ≡ ending_at end (identifier constructed (tag_of tag)) out.old }
{
    let first = 64 * tag.class + if constructed { 32 } else { 0 };
    if tag.number < 31 {
        return put(&[first + tag.number as u8], end, out);
    }
    let low = (tag.number % 128) as u8;
    if tag.number < 128 {
        return put(&[first + 31, low], end, out);
    }
    let high = (128 + tag.number / 128) as u8;
    put(&[first + 31, high, low], end, out)
}

fn put_length(len: usize, end: usize, out: &mut [u8]) -> usize
    requires small { len ≤ MOST_VALUE_OCTETS }
    requires room { length (length_octets len) ≤ end }
    requires within { end ≤ length out.old }
    ensures start { result + length (length_octets len) ≡ end }
    ensures written { out.new ≡ ending_at end (length_octets len) out.old }
{
    if len < 128 {
        return put(&[len as u8], end, out);
    }
    let low = (len % 256) as u8;
    if len < 256 {
        return put(&[129, low], end, out);
    }
    let middle = (len / 256 % 256) as u8;
    if len < 65536 {
        return put(&[130, middle, low], end, out);
    }
    let high = (len / 65536) as u8;
    put(&[131, high, middle, low], end, out)
}

/// Writes octets up to a place. Gives the place where they start.
#[inline]
fn put(octets: &[u8], end: usize, out: &mut [u8]) -> usize
    requires room { length octets.now ≤ end }
    requires within { end ≤ length out.old }
    ensures start { result + length octets.now ≡ end }
    ensures written { out.new ≡ ending_at end octets.now out.old }
{
    let start = end - octets.len();
    out[start..end].copy_from_slice(octets);
    start
}
