//! What the contents of primitive values mean.
ghost use Rattle.std.specs.Prelude.{◌≡◌, ◌≤◌, ◌<◌, ◌*◌, ◌∷◌, length, IfNone, IfOk, IfSome, if◌then◌else◌};
ghost use Rattle.std.specs.Option.{option_map};
ghost use Rattle.vf_ber.specs.Primitive.{arcs_at, boolean_at, boolean_of, extended, groups_of, in_prefix, integer_at, integer_of, is_integer as integer_test, is_padded as padded, oid_at, oid_of, root_arc as root_of, subidentifier_of, subidentifiers_at};
ghost use Rattle.vf_ber.specs.Views.{tree_of};

use crate::Value;
use crate::contents::is_redundant;
use std::alloc::Global;
use vf_base::{BaseError, NoMemory, Oid};

/// The integer of a primitive value; `None` exactly where its contents aren't one to eight octets in the shortest
/// two's complement (ISO 8825, 8.3), or where it is constructed.
pub fn integer(value: &Value) -> Option<i64>
    ensures { result ≡ integer_of (tree_of value.now) }
{
    match value {
        Value::Plain { octets, .. } => integer_from(octets.as_slice()),
        Value::Built { .. } => None,
    }
}

/// The integer of the contents of a primitive value; `None` exactly where they aren't one to eight octets in the
/// shortest two's complement (ISO 8825, 8.3).
pub fn integer_from(octets: &[u8]) -> Option<i64>
    ensures { result ≡ integer_at octets.now }
{
    if !is_integer(octets) {
        return None;
    }
    Some(i64::from_be_bytes(in_eight(octets)))
}

fn is_integer(octets: &[u8]) -> bool
    ensures { result ≡ integer_test octets.now }
{
    !octets.is_empty() && octets.len() <= 8 && !is_redundant(octets)
}

/// The same two's complement in eight octets.
fn in_eight(octets: &[u8]) -> [u8; 8]
    requires some { 0 < length octets.now }
    requires few { length octets.now ≤ 8 }
    ensures { result ≡ extended octets.now }
{
    let sign = if octets[0] < 128 { 0 } else { 255 };
    let mut eight = [sign; 8];
    eight[8 - octets.len()..].copy_from_slice(octets);
    eight
}

/// The truth of a primitive value (ISO 8825, 8.2), which is false at 0 alone; `None` exactly where its contents
/// aren't one octet, or where it is constructed.
pub fn boolean(value: &Value) -> Option<bool>
    ensures { result ≡ boolean_of (tree_of value.now) }
{
    match value {
        Value::Plain { octets, .. } => truth(octets.as_slice()),
        Value::Built { .. } => None,
    }
}

fn truth(octets: &[u8]) -> Option<bool>
    ensures { result ≡ boolean_at octets.now }
{
    match octets {
        [octet] => Some(*octet != 0),
        _ => None,
    }
}

/// The object identifier of a primitive value; `None` exactly where its contents spell no object identifier of 2 to
/// 16 arcs up to 268,435,455 with each subidentifier in the fewest octets (ISO 8825, 8.19), or where it is
/// constructed.
pub fn oid(alloc: Global, value: &Value) -> Result<Option<Oid>, NoMemory>
    ensures { IfOk result (λ found. found ≡ oid_of (tree_of value.now)) }
{
    match value {
        Value::Plain { octets, .. } => oid_from(alloc, octets.as_slice()),
        Value::Built { .. } => Ok(None),
    }
}

/// The object identifier of the contents of a primitive value; `None` exactly where they spell no object identifier of
/// 2 to 16 arcs up to 268,435,455 with each subidentifier in the fewest octets (ISO 8825, 8.19).
pub fn oid_from(alloc: Global, octets: &[u8]) -> Result<Option<Oid>, NoMemory>
    ensures { IfOk result (λ found. found ≡ oid_at octets.now) }
{
    let Some(arcs) = read_arcs(alloc, octets)? else {
        return Ok(None);
    };
    match Oid::of(alloc, arcs.as_slice()) {
        Ok(oid) => Ok(Some(oid)),
        Err(BaseError::BadOid) => Ok(None),
        Err(_) => Err(NoMemory),
    }
}

fn read_arcs(alloc: Global, octets: &[u8]) -> Result<Option<Vec<u32>>, NoMemory>
    ensures { IfOk result (λ found. option_map (λ arcs. arcs.items) found ≡ arcs_at octets.now) }
{
    let Some((first, rest)) = subidentifier(octets) else {
        return Ok(None);
    };
    let root = root_arc(first);
    let mut arcs = Vec::new(alloc);
    arcs.push(root)?;
    arcs.push(first - 40 * root)?;
    if !read_subidentifiers(rest, &mut arcs)? {
        return Ok(None);
    }
    Ok(Some(arcs))
}

fn root_arc(first: u32) -> u32
    ensures root { result ≡ root_of first }
    ensures within { 40 * result ≤ first }
{
    if first < 40 {
        0
    } else if first < 80 {
        1
    } else {
        2
    }
}

/// Appends the subidentifiers; false where they aren't subidentifiers to the end.
fn read_subidentifiers(octets: &[u8], out: &mut Vec<u32>) -> Result<bool, NoMemory>
    ensures { IfOk result (λ all. (if all then Some out.new.items else None) ≡ in_prefix out.old.items (subidentifiers_at octets.now)) }
{
    let mut rest = octets;
    while !rest.is_empty() {
        let Some((number, tail)) = subidentifier(rest) else {
            return Ok(false);
        };
        out.push(number)?;
        rest = tail;
    }
    Ok(true)
}

/// The first subidentifier and the octets after it.
fn subidentifier(octets: &[u8]) -> Option<(u32, &[u8])>
    ensures some { IfSome result (λ x. (subidentifiers_at octets.now ≡ option_map (λ rest. x.0 ∷ rest) (subidentifiers_at x.1.now)) × (length x.1.now < length octets.now)) }
    ensures none { IfNone result (0 < length octets.now → subidentifiers_at octets.now ≡ None) }
{
    let (group, rest) = first_group(octets)?;
    let number = number_of(group)?;
    Some((number, rest))
}

/// The octets up to the first one whose bit 8 is clear, and those after it.
fn first_group(octets: &[u8]) -> Option<(&[u8], &[u8])>
    ensures some { IfSome result (λ x. (groups_of octets.now ≡ option_map (λ groups. x.0.now ∷ groups) (groups_of x.1.now)) × (length x.1.now < length octets.now)) }
    ensures none { IfNone result (0 < length octets.now → groups_of octets.now ≡ None) }
{
    for (i, octet) in octets.iter().enumerate() {
        if *octet < 128 {
            let (group, rest) = octets.split_at(i + 1);
            return Some((group, rest));
        }
    }
    None
}

/// The number of a group in the fewest octets, up to 268,435,583.
fn number_of(group: &[u8]) -> Option<u32>
    ensures { result ≡ subidentifier_of group.now }
{
    if is_padded(group) {
        return None;
    }
    let mut n = 0;
    for octet in group {
        if n > 2_097_152 {
            return None;
        }
        n = 128 * n + u32::from(*octet % 128);
    }
    Some(n)
}

fn is_padded(group: &[u8]) -> bool
    ensures { result ≡ padded group.now }
{
    match group {
        [first, ..] => *first == 128,
        [] => false,
    }
}
