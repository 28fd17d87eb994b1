//! Octet strings in segments.
ghost use Rattle.std.specs.Prelude.{◌≡◌, IfOk, if◌then◌else◌};
ghost use Rattle.vf_ber.specs.Primitive.{in_prefix, is_octet_string as octet_string_test, octets_in, octets_of};
ghost use Rattle.vf_ber.specs.Tree.{more, none};
ghost use Rattle.vf_ber.specs.Views.{tag_of, tree_of, trees_in};

use crate::{Tag, Value};
use std::alloc::Global;
use vf_base::{NoMemory, Octets};

/// The octets of a primitive value, which are shared, or those of the segments of a constructed one, each copied
/// once (ISO 8825, 8.7). `None` exactly where some segment, at any depth, isn't an OCTET STRING. The value's own tag
/// is free.
pub fn octets(alloc: Global, value: &Value) -> Result<Option<Octets>, NoMemory>
    ensures { IfOk result (λ found. found ≡ octets_of (tree_of value.now)) }
{
    let parts = match value {
        Value::Plain { octets, .. } => {
            let shared = octets.copy(alloc)?;
            return Ok(Some(shared));
        }
        Value::Built { parts, .. } => parts.as_slice(),
    };
    let mut joined = Vec::with_capacity(alloc, total_len(parts))?;
    if !append_segments(parts, &mut joined)? {
        return Ok(None);
    }
    let joined = Octets::from_vec(joined)?;
    Ok(Some(joined))
}

fn is_octet_string(tag: Tag) -> bool
    ensures { result ≡ octet_string_test (tag_of tag) }
{
    tag.class == 0 && tag.number == 4
}

/// Appends the octets of a segment; false where it isn't one.
#[cycle(append)]
fn append_segment(segment: &Value, out: &mut Vec<u8>) -> Result<bool, NoMemory>
    ensures { IfOk result (λ all. (if all then Some out.new.items else None) ≡ in_prefix out.old.items (octets_in (more (tree_of segment.now) none))) }
{
    if !is_octet_string(segment.tag()) {
        return Ok(false);
    }
    match segment {
        Value::Plain { octets, .. } => {
            out.extend_from_slice(octets.as_slice())?;
            Ok(true)
        }
        Value::Built { parts, .. } => append_segments(parts.as_slice(), out),
    }
}

/// Appends the octets of segments, one after another; false where one isn't a segment.
#[cycle(append)]
fn append_segments(segments: &[Value], out: &mut Vec<u8>) -> Result<bool, NoMemory>
    ensures { IfOk result (λ all. (if all then Some out.new.items else None) ≡ in_prefix out.old.items (octets_in (trees_in segments.now))) }
{
    for segment in segments {
        if !append_segment(segment, out)? {
            return Ok(false);
        }
    }
    Ok(true)
}

/// How many octets the segments have.
#[cycle(len)]
fn total_len(segments: &[Value]) -> usize {
    let mut total: usize = 0;
    for segment in segments {
        total = total.saturating_add(segment_len(segment));
    }
    total
}

#[cycle(len)]
fn segment_len(segment: &Value) -> usize {
    match segment {
        Value::Plain { octets, .. } => octets.len(),
        Value::Built { parts, .. } => total_len(parts.as_slice()),
    }
}
