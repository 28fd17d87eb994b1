//! What the contents of values mean, which follows from ISO 8825 by hand.

use crate::octets::octets_of;
use std::alloc::Global;
use std::process::Abort;
use std::test::*;
use vf_base::{NoMemory, Octets, Oid};
use vf_ber::{Tag, Value, Values, boolean, integer, integer_from, octets, oid, oid_from, read};

const OTHER: Tag = Tag {
    class: 2,
    number: 1,
};

/// The contents of a primitive value.
fn contents(value: &Value) -> &[u8] {
    match value {
        Value::Plain { octets, .. } => octets.as_slice(),
        Value::Built { .. } => &[],
    }
}

/// Whether these contents are read as this integer, or as none.
fn is_integer(alloc: Global, octets: &[u8], number: Option<i64>) -> Result<bool, NoMemory> {
    let value = Value::of_octets(alloc, OTHER, octets)?;
    Ok(integer(&value) == number && integer_from(octets) == number)
}

/// Whether the integer is written as these contents.
fn spells_integer(alloc: Global, number: i64, octets: &[u8]) -> Result<bool, NoMemory> {
    let value = Value::of_integer(alloc, OTHER, number)?;
    Ok(contents(&value) == octets)
}

/// Contents, and the integer as which they are read; `-` where they are none.
const INTEGERS: &str = "
 = -
00 = 0
7f = 127
80 = -128
ff = -1
007f = -
0080 = 128
ff7f = -129
ff80 = -
7fffffffffffffff = 9223372036854775807
8000000000000000 = -9223372036854775808
0080000000000000 = 36028797018963968
008000000000000000 = -
010000000000000000 = -
";

/// Whether these contents are read as this integer, which is written as they are, or as none.
fn is_spelled(alloc: Global, octets: &[u8], number: Option<i64>) -> Result<bool, NoMemory> {
    if !is_integer(alloc, octets, number)? {
        return Ok(false);
    }
    match number {
        Some(number) => spells_integer(alloc, number, octets),
        None => Ok(true),
    }
}

#[test]
fn reads_integers(rt: HostRuntime) -> Result<(), Fail> {
    let mut count = 0_u32;
    for row in INTEGERS.lines() {
        if let Some((digits, number)) = row.split_once(" = ") {
            let octets = octets_of(rt.alloc(), digits)?;
            let number = number.parse::<i64>().ok();
            assert!(rt; is_spelled(rt.alloc(), octets.as_slice(), number)?, "{row}");
            count = count.saturating_add(1);
        }
    }
    assert_eq!(rt; count, 14);
    Ok(())
}

/// Whether these contents are read as this truth, or as none.
fn is_boolean(alloc: Global, octets: &[u8], truth: Option<bool>) -> Result<bool, NoMemory> {
    let value = Value::of_octets(alloc, OTHER, octets)?;
    Ok(boolean(&value) == truth)
}

#[test]
fn reads_booleans(rt: HostRuntime) -> Result<(), Fail> {
    let rows: [(&[u8], Option<bool>); 5] = [
        (&[], None),
        (&[0], Some(false)),
        (&[1], Some(true)),
        (&[255], Some(true)),
        (&[0, 0], None),
    ];
    for (octets, truth) in rows {
        assert!(rt; is_boolean(rt.alloc(), octets, truth)?, "{octets:?}");
    }
    let written = Value::of_boolean(rt.alloc(), OTHER, true)?;
    assert!(rt; contents(&written) == [255].as_slice());
    Ok(())
}

#[test]
fn reads_nothing_of_parts(rt: HostRuntime) -> Result<(), Fail> {
    let parts = Values::new(rt.alloc());
    let built = Value::Built { tag: OTHER, parts };
    assert!(rt; boolean(&built).is_none() && integer(&built).is_none());
    assert!(rt; oid(rt.alloc(), &built)?.is_none());
    Ok(())
}

/// Whether an object identifier has these arcs, or there is none where no arcs are named.
fn has_arcs(found: &Option<Oid>, arcs: &[u32]) -> bool {
    match found {
        Some(oid) => oid.arcs() == arcs,
        None => arcs.is_empty(),
    }
}

/// Whether a value of these contents is read as this object identifier, or as none.
fn is_oid(alloc: Global, octets: &[u8], arcs: &[u32]) -> Result<bool, NoMemory> {
    let value = Value::of_octets(alloc, OTHER, octets)?;
    let found = oid(alloc, &value)?;
    Ok(has_arcs(&found, arcs))
}

/// Whether these contents are read as this object identifier, or as none.
fn is_oid_from(alloc: Global, octets: &[u8], arcs: &[u32]) -> Result<bool, NoMemory> {
    let found = oid_from(alloc, octets)?;
    Ok(has_arcs(&found, arcs))
}

/// Whether the object identifier is written as these contents.
fn spells_oid(alloc: Global, arcs: &[u32], octets: &[u8]) -> Result<bool, NoMemory> {
    let Ok(oid) = Oid::of(alloc, arcs) else {
        return Ok(false);
    };
    let value = Value::of_oid(alloc, OTHER, &oid)?;
    Ok(contents(&value) == octets)
}

/// Contents, and the arcs of the object identifier as which they are read.
const OIDS: &str = "
27 = 0.39
28 = 1.0
4f = 1.39
50 = 2.0
78 = 2.40
818080804f = 2.268435455
28c27b0503 = 1.0.8571.5.3
2a00 = 1.2.0
2a7f = 1.2.127
2a8100 = 1.2.128
2aff7f = 1.2.16383
2a818000 = 1.2.16384
2affff7f = 1.2.2097151
2a81808000 = 1.2.2097152
2affffff7f = 1.2.268435455
010101010101010101010101010101 = 0.1.1.1.1.1.1.1.1.1.1.1.1.1.1.1
";

/// Contents that are read as none.
const NO_OIDS: &str = "
 = -
802801 = -
2a8001 = -
2a81 = -
8180808050 = -
2a8180808000 = -
2affffffff7f = -
01010101010101010101010101010101 = -
";

/// The arcs between points; none where a dash stands for them.
fn arcs_of(alloc: Global, text: &str) -> Result<Vec<u32>, Fail> {
    let mut arcs = Vec::new(alloc);
    if text == "-" {
        return Ok(arcs);
    }
    for arc in text.split('.') {
        arcs.push(arc.parse::<u32>()?)?;
    }
    Ok(arcs)
}

/// Whether these contents are read as the object identifier, which is written as they are, or as none.
fn is_read(alloc: Global, octets: &[u8], arcs: &[u32]) -> Result<bool, NoMemory> {
    if !is_oid(alloc, octets, arcs)? || !is_oid_from(alloc, octets, arcs)? {
        return Ok(false);
    }
    if arcs.is_empty() {
        return Ok(true);
    }
    spells_oid(alloc, arcs, octets)
}

/// How many rows hold: all of them.
fn count_held(rt: &impl Abort, alloc: Global, rows: &str) -> Result<u32, Fail> {
    let mut count = 0_u32;
    for row in rows.lines() {
        if let Some((digits, text)) = row.split_once(" = ") {
            let octets = octets_of(alloc, digits)?;
            let arcs = arcs_of(alloc, text)?;
            assert!(rt;
                is_read(alloc, octets.as_slice(), arcs.as_slice())?,
                "{row}"
            );
            count = count.saturating_add(1);
        }
    }
    Ok(count)
}

#[test]
fn reads_object_identifiers(rt: HostRuntime) -> Result<(), Fail> {
    assert_eq!(rt; count_held(&rt, rt.alloc(), OIDS)?, 16);
    assert_eq!(rt; count_held(&rt, rt.alloc(), NO_OIDS)?, 8);
    Ok(())
}

/// A value of segments, of which the second is one of segments itself.
const SEGMENTED: [u8; 16] = [
    0xa1, 0x0e, 0x04, 0x01, b'a', 0x24, 0x06, 0x04, 0x01, b'b', 0x04, 0x01, b'c', 0x04, 0x01, b'd',
];

/// Whether these are the octets, or there are none where none are wanted.
fn are_octets(found: &Option<Octets>, wanted: Option<&[u8]>) -> bool {
    match (found, wanted) {
        (Some(found), Some(wanted)) => found.as_slice() == wanted,
        (Some(_), None) => false,
        (None, Some(_)) => false,
        (None, None) => true,
    }
}

/// Whether the octets of the value that is spelled so are these, or none.
fn joins(alloc: Global, spelled: &[u8], wanted: Option<&[u8]>) -> Result<bool, NoMemory> {
    let Ok((value, _n)) = read(alloc, spelled) else {
        return Ok(false);
    };
    let found = octets(alloc, &value)?;
    Ok(are_octets(&found, wanted))
}

#[test]
fn joins_segments(rt: HostRuntime) -> Result<(), Fail> {
    let rows: [(&[u8], &[u8]); 3] = [
        (&[0x81, 0x03, b'a', b'b', b'c'], b"abc"),
        (&[0xa1, 0x00], b""),
        (&SEGMENTED, b"abcd"),
    ];
    for (spelled, wanted) in rows {
        assert!(rt; joins(rt.alloc(), spelled, Some(wanted))?, "{spelled:?}");
    }
    Ok(())
}

#[test]
fn joins_octet_strings_alone(rt: HostRuntime) -> Result<(), Fail> {
    // the innermost segment has each class, and the number of an octet string and those beside it
    for class in 0..4u8 {
        for number in 3..6u8 {
            let mut spelled = SEGMENTED;
            spelled[10] = 64 * class + number;
            let wanted = if spelled[10] == 4 {
                Some(b"abcd".as_slice())
            } else {
                None
            };
            assert!(rt; joins(rt.alloc(), &spelled, wanted)?, "{spelled:?}");
        }
    }
    Ok(())
}
