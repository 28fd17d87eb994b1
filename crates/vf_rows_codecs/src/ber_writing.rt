//! Values that are built, within the limits of their canonical spellings (ISO 8825). What is read and written again are lines
//! of `bench_lines`.

use std::alloc::Global;
use std::test::*;
use vf_base::{NoMemory, Octets};
use vf_ber::{Tag, Value, Values, WriteError, write};

const TAG: Tag = Tag {
    class: 2,
    number: 0,
};

/// The value in another one.
fn wrapped(alloc: Global, value: Value) -> Result<Value, NoMemory> {
    let mut parts = Values::new(alloc);
    parts.push(value)?;
    Ok(Value::Built { tag: TAG, parts })
}

fn is_too_large(alloc: Global, value: &Value) -> bool {
    let mut out = Vec::new(alloc);
    matches!(write(alloc, value, &mut out), Err(WriteError::TooLarge))
}

#[test]
fn writes_to_depth_32(rt: HostRuntime) -> Result<(), Fail> {
    let mut value = Value::of_octets(rt.alloc(), TAG, b"abc")?;
    for depth in 2..=33 {
        value = wrapped(rt.alloc(), value)?;
        assert!(rt; is_too_large(rt.alloc(), &value) == (depth == 33));
    }
    assert!(rt; value.tag() == TAG);
    Ok(())
}

#[test]
fn keeps_parts(rt: HostRuntime) -> Result<(), Fail> {
    let mut parts = Values::new(rt.alloc());
    assert!(rt; parts.is_empty());
    let octets = Octets::of(rt.alloc(), b"abc")?;
    parts.push(Value::Plain { tag: TAG, octets })?;
    assert!(rt; parts.len() == 1 && parts.get(0).is_some() && !parts.is_empty());
    Ok(())
}
