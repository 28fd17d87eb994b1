//! Presentation and ACSE: what is found in user data, object identifiers, lists, and a value that can't be written.
use std::alloc::Global;
use std::test::Fail;
use vf_base::{NoMemory, Octets, Oid, SpduKind};
use vf_ber::{Tag, Value};
use vf_upper::{
    CarriedValue, CarriedValues, ContextEntry, Contexts, Primitive, Results, is_writable,
    put_front, read_shared, write,
};
use vf_upper_grammar::{
    Mark, Marks, NameLabel, NumberLabel, Stop, find, is_acse, is_ber, is_ftam, is_ours, is_pci,
};

/// What one of the things that are found is: its label by a letter, and its number, 0 where it is none.
fn told(mark: &Mark) -> (u8, i64) {
    match mark {
        Mark::Number { label, n } => match label {
            NumberLabel::Fixed => (b'f', *n),
            NumberLabel::Proposal => (b'p', *n),
            NumberLabel::Outcome => (b'o', *n),
            NumberLabel::AcseContext => (b'a', *n),
            NumberLabel::PciContext => (b'c', *n),
            NumberLabel::AnyContext => (b'n', *n),
        },
        Mark::Name { label, .. } => match label {
            NameLabel::Stated => (b'S', 0),
            NameLabel::Abstract => (b'A', 0),
            NameLabel::Transfer => (b'T', 0),
            NameLabel::Application => (b'N', 0),
        },
        Mark::Value { .. } => (b'v', 0),
    }
}

/// Whether these things are found in user data, in this order.
fn finds(alloc: Global, carrier: SpduKind, octets: &[u8], things: &[(u8, i64)]) -> bool {
    let Ok(octets) = Octets::of(alloc, octets) else {
        return false;
    };
    let mut found = Marks::new(alloc);
    if find(alloc, carrier, &octets, &mut found).is_err() || found.items.len() != things.len() {
        return false;
    }
    for (mark, thing) in found.items.iter().zip(things) {
        if told(mark) != *thing {
            return false;
        }
    }
    true
}

/// User data of an SPDU, and what is found in them: a label and a number.
type Found = (SpduKind, &'static [u8], &'static [(u8, i64)]);

const FOUND: [Found; 2] = [
    (
        SpduKind::CN,
        &[
            0x31, 0x4e, 0xa0, 0x03, 0x80, 0x01, 0x01, 0xa2, 0x47, 0xa4, 0x23, 0x30, 0x0f, 0x02,
            0x01, 0x01, 0x06, 0x04, 0x52, 0x01, 0x00, 0x01, 0x30, 0x04, 0x06, 0x02, 0x51, 0x01,
            0x30, 0x10, 0x02, 0x01, 0x03, 0x06, 0x05, 0x28, 0xc2, 0x7b, 0x02, 0x01, 0x30, 0x04,
            0x06, 0x02, 0x51, 0x01, 0x61, 0x20, 0x30, 0x1e, 0x02, 0x01, 0x01, 0xa0, 0x19, 0x60,
            0x17, 0xa1, 0x07, 0x06, 0x05, 0x28, 0xc2, 0x7b, 0x01, 0x01, 0xbe, 0x0c, 0x28, 0x0a,
            0x02, 0x01, 0x03, 0xa0, 0x05, 0xa4, 0x03, 0x80, 0x01, 0x61,
        ],
        &[
            (b'f', 1),
            (b'p', 1),
            (b'A', 0),
            (b'T', 0),
            (b'p', 3),
            (b'A', 0),
            (b'T', 0),
            (b'a', 1),
            (b'N', 0),
            (b'c', 3),
            (b'v', 0),
        ],
    ),
    (
        SpduKind::DT,
        &[
            0x61, 0x0c, 0x30, 0x0a, 0x02, 0x01, 0x03, 0xa0, 0x05, 0xa4, 0x03, 0x80, 0x01, 0x61,
        ],
        &[(b'n', 3), (b'v', 0)],
    ),
];

#[test]
fn things_are_found_in_order(rt: HostRuntime) {
    for (carrier, octets, things) in FOUND {
        assert!(rt; finds(rt.alloc(), carrier, octets, things));
    }
}

/// User data with a fault, and its place.
const FAULTS: [(SpduKind, &[u8], u32); 5] = [
    (SpduKind::DT, &[], 0),
    (SpduKind::DT, &[0x61, 0x03, 0x30, 0x01, 0x00], 3),
    (
        SpduKind::DT,
        &[
            0x61, 0x0c, 0x30, 0x0a, 0x02, 0x01, 0x03, 0xa0, 0x05, 0xa4, 0x03, 0x80, 0x01,
        ],
        13,
    ),
    (
        SpduKind::FN,
        &[
            0x61, 0x17, 0x30, 0x15, 0x02, 0x01, 0x01, 0xa0, 0x10, 0x63, 0x0e, 0xbe, 0x0c, 0x28,
            0x0a, 0x02, 0x01, 0x03, 0xa0, 0x05, 0xa4, 0x03, 0x80, 0x01, 0x61,
        ],
        9,
    ),
    (SpduKind::GT, &[0x61, 0x00], 0),
];

/// Whether the user data have their fault at this place.
fn stops(alloc: Global, carrier: SpduKind, octets: &[u8], place: u32) -> bool {
    let Ok(octets) = Octets::of(alloc, octets) else {
        return false;
    };
    let mut found = Marks::new(alloc);
    matches!(find(alloc, carrier, &octets, &mut found), Err(Stop::At(at)) if at == place)
}

#[test]
fn faults_have_their_places(rt: HostRuntime) {
    for (carrier, octets, place) in FAULTS {
        assert!(rt; stops(rt.alloc(), carrier, octets, place), "{place}");
    }
}

/// Whether exactly the tests with a 1 hold of an object identifier: ACSE, PCI, FTAM, BER, ours.
fn has_tests(alloc: Global, arcs: &[u32], digits: &[u8]) -> bool {
    let Ok(oid) = Oid::of(alloc, arcs) else {
        return false;
    };
    let tests = [
        is_acse(&oid),
        is_pci(&oid),
        is_ftam(&oid),
        is_ber(&oid),
        is_ours(&oid),
    ];
    for (test, digit) in tests.iter().zip(digits) {
        if *test != (*digit == b'1') {
            return false;
        }
    }
    true
}

#[test]
fn object_identifiers_are_told_apart(rt: HostRuntime) {
    let rows: [(&[u32], &[u8]); 6] = [
        (&[2, 2, 1, 0, 1], b"10001"),
        (&[1, 0, 8571, 2, 1], b"01001"),
        (&[1, 0, 8571, 1, 1], b"00100"),
        (&[2, 1, 1], b"00010"),
        (&[1, 0, 8571, 2, 4], b"00001"),
        (&[1, 0, 8571, 2, 5], b"00000"),
    ];
    for (arcs, digits) in rows {
        assert!(rt; has_tests(rt.alloc(), arcs, digits));
    }
}

/// A context of this identifier and syntax.
fn put_context(alloc: Global, contexts: &mut Contexts, id: i64, arcs: &[u32]) {
    if let Ok(syntax) = Oid::of(alloc, arcs) {
        let _ = contexts.push(ContextEntry { id, syntax });
    }
}

/// ACSE in context 1 and the PDUs of FTAM in context 3.
fn contexts_of(alloc: Global) -> Contexts {
    let mut made = Contexts::new(alloc);
    put_context(alloc, &mut made, 1, &[2, 2, 1, 0, 1]);
    put_context(alloc, &mut made, 3, &[1, 0, 8571, 2, 1]);
    made
}

/// A list of one octet string, in this context.
fn values_of(alloc: Global, context: i64, string: &[u8]) -> Result<CarriedValues, NoMemory> {
    let tag = Tag {
        class: 0,
        number: 4,
    };
    let value = Value::of_octets(alloc, tag, string)?;
    let mut values = CarriedValues::new(alloc);
    values.push(CarriedValue { context, value })?;
    Ok(values)
}

#[test]
fn a_value_in_an_unaccepted_context_is_not_written(rt: HostRuntime) -> Result<(), Fail> {
    let values = values_of(rt.alloc(), 5, &[0x68])?;
    let contexts = contexts_of(rt.alloc());
    assert!(rt; !is_writable(&Primitive::Data { values }, &contexts));
    Ok(())
}

/// Appends the octets of a primitive, where it is one that may be written.
fn puts(alloc: Global, primitive: &Primitive, contexts: &Contexts, octets: &mut Vec<u8>) -> bool {
    is_writable(primitive, contexts) && write(alloc, primitive, contexts, octets).is_ok()
}

/// Whether a P-DATA has one value, an octet string of these octets.
fn has_string(alloc: Global, primitive: &Primitive, string: &[u8]) -> bool {
    let Primitive::Data { values } = primitive else {
        return false;
    };
    match values.get(0) {
        Some(carried) => {
            matches!(vf_ber::octets(alloc, &carried.value), Ok(Some(read)) if read.as_slice() == string)
        }
        None => false,
    }
}

/// Whether a P-DATA that has a string of so many octets alone is read so where its octets are shared.
fn is_carried(alloc: Global, len: usize) -> Result<bool, Fail> {
    let string = vec![in alloc; b'x'; len]?;
    let values = values_of(alloc, 3, string.as_slice())?;
    let contexts = contexts_of(alloc);
    let mut octets = Vec::new(alloc);
    if !puts(alloc, &Primitive::Data { values }, &contexts, &mut octets) {
        return Ok(false);
    }
    let octets = Octets::from_vec(octets)?;
    match read_shared(alloc, SpduKind::DT, &contexts, &octets) {
        Ok(primitive) => Ok(has_string(alloc, &primitive, string.as_slice())),
        Err(_) => Ok(false),
    }
}

/// Whether what stands before a string of so many octets is put at once, and how many octets it has.
fn front_of(alloc: Global, context: i64, len: usize) -> Result<(bool, usize), Fail> {
    let mut front = Vec::new(alloc);
    let done = put_front(context, 4, len, &mut front)?;
    Ok((done, front.len()))
}

#[test]
fn what_stands_before_a_string_is_put_at_once(rt: HostRuntime) -> Result<(), Fail> {
    let mut front = Vec::new(rt.alloc());
    assert!(rt; put_front(3, 4, 258, &mut front)?);
    let octets = [
        0x61, 130, 1, 17, 0x30, 130, 1, 13, 2, 1, 3, 0xA0, 130, 1, 6, 4, 130, 1, 2,
    ];
    assert!(rt; front.as_slice() == octets.as_slice());
    for (context, len) in [(3, 255), (3, 65_521), (128, 256), (-1, 256)] {
        assert!(rt;
            front_of(rt.alloc(), context, len)? == (false, 0),
            "{context} {len}"
        );
    }
    Ok(())
}

#[test]
fn strings_are_read_where_they_are_shared(rt: HostRuntime) -> Result<(), Fail> {
    for len in [
        0, 1, 21, 22, 23, 24, 127, 128, 255, 256, 300, 65_520, 65_521,
    ] {
        assert!(rt; is_carried(rt.alloc(), len)?, "{len}");
    }
    Ok(())
}

/// Whether a copy of a list of two results has them.
fn copies_results(alloc: Global) -> Result<bool, NoMemory> {
    let mut results = Results::new(alloc);
    results.push(true)?;
    results.push(false)?;
    let copy = results.copy(alloc)?;
    let both = copy.as_slice() == [true, false].as_slice() && copy.len() == 2;
    Ok(both && copy.get(1) == Some(&false) && copy.get(2).is_none())
}

/// Whether a list has one value, the integer 7 in context 3.
fn are_seven(values: &CarriedValues) -> bool {
    let Some(value) = values.get(0) else {
        return false;
    };
    let seven = value.context == 3 && vf_ber::integer(&value.value) == Some(7);
    seven && values.len() == 1 && values.as_slice().len() == 1 && values.get(1).is_none()
}

/// Whether a copy of a list of one value has it.
fn copies_values(alloc: Global) -> Result<bool, NoMemory> {
    let tag = Tag {
        class: 0,
        number: 2,
    };
    let value = Value::of_integer(alloc, tag, 7)?;
    let mut values = CarriedValues::new(alloc);
    values.push(CarriedValue { context: 3, value })?;
    let copy = values.copy(alloc)?;
    Ok(are_seven(&copy))
}

#[test]
fn lists_give_what_was_pushed(rt: HostRuntime) -> Result<(), Fail> {
    assert!(rt; copies_results(rt.alloc())?);
    assert!(rt; copies_values(rt.alloc())?);
    Ok(())
}
