//! Moments, names, object identifiers, octets and lists of them.
ghost use Rattle.std.specs.Prelude.{◌+◌, ◌≤◌, length};

use std::alloc::Global;
use std::test::Fail;
use vf_base::{
    Actions, BaseError, Contents, Element, Elements, Moment, Name, NoMemory, Octets, Oid, Piece,
    ScriptEvent, Sequence, Term,
};

/// Seconds, and the text of the moment.
const MOMENTS: [(u64, &[u8]); 4] = [
    (0, b"19700101000000Z"),
    (951_782_400, b"20000229000000Z"),
    (1_709_251_199, b"20240229235959Z"),
    (253_402_300_799, b"99991231235959Z"),
];

/// Whether the moment has these seconds and this text.
fn has_text(alloc: Global, seconds: u64, text: &[u8]) -> Result<bool, BaseError> {
    let moment = Moment::of(seconds)?;
    let found = moment.text(alloc)?;
    Ok(moment.seconds() == seconds && found.as_slice() == text)
}

#[test]
fn moments_have_their_texts(rt: HostRuntime) -> Result<(), Fail> {
    for (seconds, text) in MOMENTS {
        assert!(rt; has_text(rt.alloc(), seconds, text)?, "{seconds}");
    }
    assert!(rt; Moment::of(253_402_300_800) == Err(BaseError::BadMoment));
    Ok(())
}

/// Whether the octets are a name, which is copied then.
fn is_name(alloc: Global, octets: &[u8]) -> Result<bool, BaseError> {
    match Name::of(alloc, octets) {
        Ok(name) => {
            let copied = name.copy(alloc)?;
            Ok(copied.as_slice() == octets)
        }
        Err(BaseError::BadName) => Ok(false),
        Err(error) => Err(error),
    }
}

#[test]
fn names_end_at_their_limits(rt: HostRuntime) -> Result<(), Fail> {
    let alloc = rt.alloc();
    let letters = [0x41; 256];
    let cases = [
        (&letters[..0], false),
        (&letters[..1], true),
        (&letters[..255], true),
        (&letters[..256], false),
        ([0x1f].as_slice(), false),
        ([0x20].as_slice(), true),
        ([0x7e].as_slice(), true),
        ([0x7f].as_slice(), false),
    ];
    for (octets, good) in cases {
        assert!(rt; is_name(alloc, octets)? == good);
    }
    Ok(())
}

/// Whether the arcs are an object identifier, which is copied then.
fn is_oid(alloc: Global, arcs: &[u32]) -> Result<bool, BaseError> {
    match Oid::of(alloc, arcs) {
        Ok(oid) => {
            let copied = oid.copy(alloc)?;
            Ok(copied.arcs() == arcs)
        }
        Err(BaseError::BadOid) => Ok(false),
        Err(error) => Err(error),
    }
}

#[test]
fn arcs_end_at_their_limits(rt: HostRuntime) -> Result<(), Fail> {
    let alloc = rt.alloc();
    let many = [1; 17];
    let cases = [
        ([1].as_slice(), false),
        ([0, 39].as_slice(), true),
        ([0, 40].as_slice(), false),
        ([1, 40].as_slice(), false),
        ([2, 268_435_455].as_slice(), true),
        ([2, 268_435_456].as_slice(), false),
        ([3, 0].as_slice(), false),
        (&many[..16], true),
        (&many[..17], false),
    ];
    for (arcs, good) in cases {
        assert!(rt; is_oid(alloc, arcs)? == good);
    }
    Ok(())
}

/// An entry into children, and a string of two octets.
fn elements(alloc: Global) -> Result<Elements, NoMemory> {
    let octets = Octets::of(alloc, b"ab")?;
    let mut elements = Elements::new(alloc);
    elements.push(Element::Enter)?;
    elements.push(Element::Binary { octets })?;
    Ok(elements)
}

/// Whether these are the elements above.
fn are_the_elements(list: &Elements) -> bool {
    let shared = match list.get(1) {
        Some(Element::Binary { octets }) => octets.len() == 2 && !octets.is_empty(),
        _ => false,
    };
    shared && list.len() == 2 && list.get(2).is_none()
}

#[test]
fn lists_are_copied(rt: HostRuntime) -> Result<(), Fail> {
    let elements = elements(rt.alloc())?;
    let copied = elements.copy(rt.alloc())?;
    assert!(rt; are_the_elements(&copied));
    Ok(())
}

/// The contents of a file of one long string.
fn contents(alloc: Global) -> Result<Contents, BaseError> {
    let kind = Oid::of(alloc, &[1, 0, 8571, 5, 1])?;
    Ok(Contents {
        kind,
        class: 25,
        longest: 80,
        significance: 1,
    })
}

fn same_contents(a: &Contents, b: &Contents) -> bool {
    a.kind.arcs() == b.kind.arcs()
        && a.class == b.class
        && a.longest == b.longest
        && a.significance == b.significance
}

#[test]
fn contents_are_copied(rt: HostRuntime) -> Result<(), Fail> {
    let contents = contents(rt.alloc())?;
    let copied = contents.copy(rt.alloc())?;
    assert!(rt; same_contents(&contents, &copied));
    Ok(())
}

/// Whether the term is the one below.
fn is_of_bill(term: &Term) -> bool {
    let identity = match &term.identity {
        Some(name) => name.as_slice() == b"bill".as_slice(),
        None => false,
    };
    let password = match &term.password {
        Some(octets) => octets.as_slice() == b"pw".as_slice(),
        None => false,
    };
    identity && password && term.actions == Actions { value: 3 }
}

#[test]
fn terms_are_copied(rt: HostRuntime) -> Result<(), Fail> {
    let identity = Name::of(rt.alloc(), b"bill")?;
    let password = Octets::of(rt.alloc(), b"pw")?;
    let term = Term {
        identity: Some(identity),
        actions: Actions { value: 3 },
        password: Some(password),
    };
    let copied = term.copy(rt.alloc())?;
    assert!(rt; is_of_bill(&copied));
    Ok(())
}

/// Whether octets came over this link then.
fn is_event(event: &ScriptEvent, number: u32, seconds: Moment, came: &[u8]) -> bool {
    match event {
        ScriptEvent::Octets {
            link,
            moment,
            octets,
        } => *link == number && *moment == seconds && octets.as_slice() == came,
        _ => false,
    }
}

#[test]
fn events_are_copied(rt: HostRuntime) -> Result<(), Fail> {
    let moment = Moment::of(9)?;
    let octets = Octets::of(rt.alloc(), b"abc")?;
    let event = ScriptEvent::Octets {
        link: 7,
        moment,
        octets,
    };
    let copied = event.copy(rt.alloc())?;
    assert!(rt; is_event(&copied, 7, moment, b"abc"));
    Ok(())
}

#[test]
fn pieces_are_copied(rt: HostRuntime) -> Result<(), Fail> {
    let octets = Octets::of(rt.alloc(), b"de")?;
    let piece = Piece { link: 8, octets };
    let copied = piece.copy(rt.alloc())?;
    assert!(rt; copied.link == 8 && copied.octets.as_slice() == b"de".as_slice());
    Ok(())
}

/// Whether the part of the octets is this.
fn is_part(octets: &Octets, start: usize, len: usize, part: &[u8]) -> Result<bool, NoMemory>
    requires { start + len ≤ length octets.now }
{
    let found = octets.slice(start, len)?;
    Ok(found.as_slice() == part && found.len() == len && found.is_empty() == (len == 0))
}

#[test]
fn parts_share_octets(rt: HostRuntime) -> Result<(), Fail> {
    let octets = Octets::of(rt.alloc(), b"abcdef")?;
    let part = octets.slice(1, 4)?;
    let copied = part.copy(rt.alloc())?;
    assert!(rt; copied.as_slice() == b"bcde".as_slice() && copied == part);
    assert!(rt; is_part(&part, 2, 2, b"de")?);
    assert!(rt; is_part(&part, 4, 0, b"")?);
    Ok(())
}

#[test]
fn vectors_become_octets_and_lists_vectors(rt: HostRuntime) -> Result<(), Fail> {
    let alloc = rt.alloc();
    let octets = Octets::from_vec(b"abc".to_vec(alloc)?)?;
    assert!(rt; octets.as_slice() == b"abc".as_slice());
    let mut list = Sequence::new(alloc);
    list.push(3)?;
    list.push(5)?;
    assert!(rt; list.as_slice() == [3, 5].as_slice());
    assert!(rt; list.into_vec().as_slice() == [3, 5].as_slice());
    Ok(())
}
