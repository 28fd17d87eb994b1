//! Changes and copies of files.

use std::alloc::Global;
use std::test::Fail;
use vf_attr::{AttributeChange, File, Stamp, change};
use vf_base::{
    Actions, BaseError, Constraint, Contents, DataUnit, Element, FaduId, Moment, Name, NoMemory,
    Octets, Oid, Sequence, Term, Terms,
};
use vf_tree::Tree;

/// A change of each attribute or of none, and what the file has then: its name, what is permitted, how many terms, and
/// whether it has the stamp of the change.
struct Change {
    all: bool,
    others: u16,
    name: &'static [u8],
    permitted: u8,
    terms: usize,
    stamped: bool,
}

/// Without attributes the stamp alone is set, after a refusal nothing, else the attributes and the stamp.
const CHANGES: [Change; 3] = [
    Change {
        all: false,
        others: 0,
        name: b"a",
        permitted: 127,
        terms: 2,
        stamped: true,
    },
    Change {
        all: true,
        others: 1,
        name: b"a",
        permitted: 127,
        terms: 2,
        stamped: false,
    },
    Change {
        all: true,
        others: 0,
        name: b"b",
        permitted: 1,
        terms: 0,
        stamped: true,
    },
];

/// No attribute, or each of them; `others` is its own.
fn wanted(alloc: Global, all: bool, others: u16) -> Result<AttributeChange, BaseError> {
    if !all {
        return Ok(AttributeChange {
            name: None,
            permitted: None,
            terms: None,
            others,
        });
    }
    let name = Name::of(alloc, b"b")?;
    Ok(AttributeChange {
        name: Some(name),
        permitted: Some(Actions { value: 1 }),
        terms: Some(Sequence::new(alloc)),
        others,
    })
}

fn is_stamp(stamp: &Option<Stamp>, seconds: u64, identity: &[u8]) -> bool {
    match stamp {
        Some(stamp) => {
            stamp.moment.seconds() == seconds && stamp.identity.as_slice() == identity
        }
        None => false,
    }
}

/// Whether the file has what it is to have after bob's change at moment 7.
fn is_changed(file: &File, row: &Change) -> bool {
    file.name.as_slice() == row.name
        && file.permitted.value == row.permitted
        && file.terms.len() == row.terms
        && is_stamp(&file.changed, 7, b"bob") == row.stamped
}

/// Whether a copy of the change does to a file what its row says.
fn is_made(alloc: Global, row: &Change) -> Result<bool, BaseError> {
    let bob = Name::of(alloc, b"bob")?;
    let moment = Moment::of(7)?;
    let wanted = wanted(alloc, row.all, row.others)?;
    let copy = wanted.copy(alloc)?;
    let mut file = file(alloc)?;
    let made = change(alloc, &mut file, &bob, moment, &copy).is_ok();
    Ok(made == row.stamped && is_changed(&file, row))
}

#[test]
fn changes_set_their_attributes(rt: HostRuntime) -> Result<(), Fail> {
    for row in &CHANGES {
        assert!(rt; is_made(rt.alloc(), row)?, "{} {}", row.all, row.others);
    }
    Ok(())
}

/// Whether the two have the same name, terms, version and stamp.
fn are_alike(file: &File, other: &File) -> bool {
    file.name == other.name
        && file.terms.len() == other.terms.len()
        && file.version == other.version
        && file.created.moment == other.created.moment
        && file.created.identity == other.created.identity
}

/// One string of three octets.
fn three_octets(alloc: Global) -> Result<DataUnit, NoMemory> {
    let mut unit = Sequence::new(alloc);
    let octets = Octets::of(alloc, b"abc")?;
    unit.push(Element::Binary { octets })?;
    Ok(unit)
}

/// Whether three octets take the place of what an empty tree has.
fn is_filled(alloc: Global, tree: &mut Tree, unit: DataUnit) -> bool {
    if !tree.has_room_to_replace(FaduId::Begin, &unit) {
        return false;
    }
    matches!(tree.replace(alloc, FaduId::Begin, unit), Ok(0)) && tree.size() == 3
}

/// A copy is equal, and an action on its tree leaves the file as it was.
#[test]
fn copies_share_their_tree(rt: HostRuntime) -> Result<(), Fail> {
    let unit = three_octets(rt.alloc())?;
    let file = file(rt.alloc())?;
    let mut copy = file.copy(rt.alloc())?;
    assert!(rt; are_alike(&file, &copy) && copy.terms.len() == 2 && copy.version == 1);
    assert!(rt; copy.created.moment.seconds() == 5);
    assert!(rt; is_filled(rt.alloc(), &mut copy.tree, unit) && file.tree.size() == 0);
    Ok(())
}

/// An empty file `a` on which all but deletion is permitted, made by `ann` at moment 5.
fn file(alloc: Global) -> Result<File, BaseError> {
    let name = Name::of(alloc, b"a")?;
    let kind = Oid::of(alloc, &[1, 0, 8571, 5, 3])?;
    let terms = terms(alloc)?;
    let moment = Moment::of(5)?;
    let identity = Name::of(alloc, b"ann")?;
    let tree = Tree::empty(alloc, Constraint::Unstructured)?;
    Ok(File {
        name,
        permitted: Actions { value: 127 },
        contents: Contents {
            kind,
            class: 25,
            longest: 0,
            significance: 0,
        },
        terms,
        created: Stamp { moment, identity },
        modified: None,
        read: None,
        changed: None,
        version: 1,
        tree,
    })
}

/// A term for ann with her password, and one for everybody.
fn terms(alloc: Global) -> Result<Terms, BaseError> {
    let mut terms = Sequence::new(alloc);
    let identity = Name::of(alloc, b"ann")?;
    let password = Octets::of(alloc, b"pw")?;
    terms.push(Term {
        identity: Some(identity),
        actions: Actions { value: 1 },
        password: Some(password),
    })?;
    terms.push(Term {
        identity: None,
        actions: Actions { value: 2 },
        password: None,
    })?;
    Ok(terms)
}
