//! Primitive values of integers, octets and object identifiers.
ghost use Rattle.std.specs.Prelude.{◌≡◌, ◌≤◌, ◌++◌, IfOk, length, OnOk};
ghost use Rattle.vf_ber.specs.Contents.{arc_octets, boolean_octets, integer_octets, is_redundant as redundancy, oid_octets, shortened as shortest};
ghost use Rattle.std.specs.List.{flat_map};
ghost use Rattle.vf_ber.specs.Tree.{plain};
ghost use Rattle.vf_ber.specs.Views.{tag_of, tree_of};

use crate::{Tag, Value};
use std::alloc::Global;
use vf_base::{NoMemory, Octets, Oid};

impl Value {
    /// The integer in the shortest two's complement (ISO 8825, 8.3).
    pub fn of_integer(alloc: Global, tag: Tag, n: i64) -> Result<Value, NoMemory>
        ensures { IfOk result (λ value. tree_of value ≡ plain (tag_of tag) (integer_octets n)) }
    {
        let octets = Octets::of(alloc, shortened(&n.to_be_bytes()))?;
        Ok(Value::Plain { tag, octets })
    }

    /// The truth in one octet, 255 where it is true (ISO 8825, 8.2; 255 is profile).
    pub fn of_boolean(alloc: Global, tag: Tag, truth: bool) -> Result<Value, NoMemory>
        ensures { IfOk result (λ value. tree_of value ≡ plain (tag_of tag) (boolean_octets truth)) }
    {
        let octets = Octets::of(alloc, &[if truth { 255 } else { 0 }])?;
        Ok(Value::Plain { tag, octets })
    }

    /// These octets, copied once.
    pub fn of_octets(alloc: Global, tag: Tag, octets: &[u8]) -> Result<Value, NoMemory>
        ensures { IfOk result (λ value. tree_of value ≡ plain (tag_of tag) octets.now) }
    {
        let octets = Octets::of(alloc, octets)?;
        Ok(Value::Plain { tag, octets })
    }

    /// The object identifier (ISO 8825, 8.19).
    pub fn of_oid(alloc: Global, tag: Tag, oid: &Oid) -> Result<Value, NoMemory>
        ensures { IfOk result (λ value. tree_of value ≡ plain (tag_of tag) (oid_octets oid.now)) }
    {
        let octets = Octets::from_vec(spelled_arcs(alloc, oid)?)?;
        Ok(Value::Plain { tag, octets })
    }
}

/// The number of octets of an integer's contents.
pub fn integer_len(n: i64) -> u32
    ensures len { result ≡ length (integer_octets n) }
    ensures small { result ≤ 8 }
{
    shortened(&n.to_be_bytes()).len() as u32
}

/// Without the first octets that add nothing in two's complement.
fn shortened(octets: &[u8]) -> &[u8]
    ensures value { result.now ≡ shortest octets.now }
    ensures shorter { length result.now ≤ length octets.now }
{
    let mut rest = octets;
    while is_redundant(rest) {
        rest = &rest[1..];
    }
    rest
}

pub(crate) fn is_redundant(octets: &[u8]) -> bool
    ensures { result ≡ redundancy octets.now }
{
    match octets {
        [a, b, ..] => {
            if *a == 0 {
                *b < 128
            } else {
                *a == 255 && *b >= 128
            }
        }
        _ => false,
    }
}

fn spelled_arcs(alloc: Global, oid: &Oid) -> Result<Vec<u8>, NoMemory>
    ensures { IfOk result (λ octets. octets.items ≡ oid_octets oid.now) }
{
    let arcs = oid.arcs();
    let mut out = Vec::new(alloc);
    if let [first, second, arcs @ ..] = arcs {
        put_arc(40 * *first + *second, &mut out)?;
        put_arcs(arcs, &mut out)?;
    }
    Ok(out)
}

fn put_arcs(arcs: &[u32], out: &mut Vec<u8>) -> Result<(), NoMemory>
    ensures { OnOk result (out.new.items ≡ out.old.items ++ flat_map arc_octets arcs.now) }
{
    for arc in arcs {
        put_arc(*arc, out)?;
    }
    Ok(())
}

fn put_arc(arc: u32, out: &mut Vec<u8>) -> Result<(), NoMemory>
    ensures { OnOk result (out.new.items ≡ out.old.items ++ arc_octets arc) }
{
    let last = (arc % 128) as u8;
    if arc < 128 {
        out.push(last)?;
        return Ok(());
    }
    let third = (128 + arc / 128 % 128) as u8;
    if arc < 16384 {
        out.extend_from_slice(&[third, last])?;
        return Ok(());
    }
    let second = (128 + arc / 16384 % 128) as u8;
    if arc < 2_097_152 {
        out.extend_from_slice(&[second, third, last])?;
        return Ok(());
    }
    let first = (128 + arc / 2_097_152 % 128) as u8;
    if arc < 268_435_456 {
        out.extend_from_slice(&[first, second, third, last])?;
        return Ok(());
    }
    let prefix = (128 + arc / 268_435_456) as u8;
    out.extend_from_slice(&[prefix, first, second, third, last])?;
    Ok(())
}
