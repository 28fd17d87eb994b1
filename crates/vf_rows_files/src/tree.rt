//! The table of the actions, each entry tried; what is located and read is tried by `checks/rows/records.txt`. Units of a file are its
//! first three of: no string, `B`, `C` twice.

use std::alloc::Global;
use std::process::Abort;
use std::test::Fail;
use vf_base::{Constraint, Context, DataUnit, Element, FaduId, NoMemory, Octets, Sequence};
use vf_tree::{MOST_FILE_OCTETS, Tree, TreeError};

const IDENTITIES: [FaduId; 12] = [
    FaduId::Begin,
    FaduId::End,
    FaduId::First,
    FaduId::Last,
    FaduId::Current,
    FaduId::Next,
    FaduId::Previous,
    FaduId::Number(0),
    FaduId::Number(1),
    FaduId::Number(2),
    FaduId::Number(3),
    FaduId::Number(4),
];

/// The strings of a file, and what an insert at its end leaves and answers, where it is flat, or an extend of all of
/// it, where it is unstructured.
type Strings = (&'static str, &'static str);

/// Flat files of 0 to 3 units.
const FLAT: [Strings; 4] = [("", "Z2"), ("", "Z3"), ("B", "BZ4"), ("BCC", "BCCZ5")];

/// Unstructured files: new, or of each unit.
const UNSTRUCTURED: [Strings; 4] = [("", "Z0"), ("", "Z0"), ("B", "BZ0"), ("CC", "CCZ0")];

/// What insert, replace, extend and erase answer in a flat file: what they leave and the position, or the letter of
/// the refusal.
fn flat_answers(id: FaduId, inserted: &str) -> [&str; 4] {
    match id {
        FaduId::Begin => ["-", "o", "o", "0"],
        FaduId::End => [inserted, "o", "o", "-"],
        _ => ["-", "o", "o", "-"],
    }
}

/// The same in an unstructured file.
fn unstructured_answers(id: FaduId, extended: &str) -> [&str; 4] {
    match id {
        FaduId::Begin | FaduId::First => ["o", "Z0", extended, "0"],
        _ => ["o", "-", "-", "-"],
    }
}

/// Each action with each identity.
fn assert_actions(
    rt: &impl Abort,
    alloc: Global,
    tree: &Tree,
    strings: Strings,
) -> Result<(), NoMemory> {
    let (before, longer) = strings;
    for id in IDENTITIES {
        let answers = match tree.constraint() {
            Constraint::SequentialFlat => flat_answers(id, longer),
            Constraint::Unstructured => unstructured_answers(id, longer),
        };
        for action in 0..4 {
            assert!(rt;
                acts(alloc, tree, before, id, action, answers[action])?,
                "action {action}"
            );
        }
    }
    Ok(())
}

/// Each identity to each action, in files of 0 to 3 units of both constraint sets.
#[test]
fn all_actions_follow_the_table(rt: HostRuntime) -> Result<(), Fail> {
    for count in 0..4 {
        let tree = flat(rt.alloc(), count)?;
        assert_actions(&rt, rt.alloc(), &tree, FLAT[count])?;
    }
    for count in 0..4 {
        let tree = unstructured(rt.alloc(), count)?;
        assert_actions(&rt, rt.alloc(), &tree, UNSTRUCTURED[count])?;
    }
    Ok(())
}

/// Whether an action on a tree that shares the units of this one answers so, where a refusal leaves what there was; and
/// whether this tree stays as it was.
fn acts(
    alloc: Global,
    tree: &Tree,
    before: &str,
    id: FaduId,
    action: usize,
    answer: &str,
) -> Result<bool, NoMemory> {
    let Some((told, left)) = answer.as_bytes().split_last() else {
        return Ok(false);
    };
    let mut other = tree.share()?;
    let done = act(alloc, &mut other, action, id);
    let left = if done.is_ok() {
        left
    } else {
        before.as_bytes()
    };
    Ok(letter(done) == *told && has(alloc, &other, left) && has(alloc, tree, before.as_bytes()))
}

/// Insert, replace, extend or erase, of a string `Z`; no memory is answered where there is no room for it.
fn act(alloc: Global, tree: &mut Tree, action: usize, id: FaduId) -> Result<u32, TreeError> {
    let unit = string(alloc, b'Z')?;
    match action {
        0 => insert(alloc, tree, id, unit),
        1 => replace(alloc, tree, id, unit),
        2 => extend(alloc, tree, id, unit),
        _ => tree.erase(alloc, id),
    }
}

fn insert(alloc: Global, tree: &mut Tree, id: FaduId, unit: DataUnit) -> Result<u32, TreeError> {
    let mut units = Vec::new(alloc);
    if units.push(unit).is_err() || !tree.has_room_to_insert(id, &units) {
        return Err(TreeError::NoMemory);
    }
    tree.insert(alloc, id, units)
}

fn replace(alloc: Global, tree: &mut Tree, id: FaduId, unit: DataUnit) -> Result<u32, TreeError> {
    if !tree.has_room_to_replace(id, &unit) {
        return Err(TreeError::NoMemory);
    }
    tree.replace(alloc, id, unit)
}

fn extend(alloc: Global, tree: &mut Tree, id: FaduId, unit: DataUnit) -> Result<u32, TreeError> {
    if !tree.has_room_to_extend(id, &unit) {
        return Err(TreeError::NoMemory);
    }
    tree.extend(alloc, id, unit)
}

/// Whether the strings that are shown of all units are these.
fn has(alloc: Global, tree: &Tree, strings: &[u8]) -> bool {
    match tree.shown(alloc, 0, FaduId::Begin, Context::UA) {
        Ok((elements, 0)) => spell(elements.as_slice(), strings),
        _ => false,
    }
}

/// Whether these are strings, which are the octets one after the other.
fn spell(elements: &[Element], octets: &[u8]) -> bool {
    let mut rest = octets;
    for element in elements {
        let (Element::Text { octets, .. } | Element::Binary { octets }) = element else {
            return false;
        };
        match rest.strip_prefix(octets.as_slice()) {
            Some(after) => rest = after,
            None => return false,
        }
    }
    rest.is_empty()
}

fn letter(answer: Result<u32, TreeError>) -> u8 {
    match answer {
        Ok(position) => b'0' + (position % 10) as u8,
        Err(TreeError::Outside) => b'o',
        Err(TreeError::NotFound) => b'-',
        Err(TreeError::BadContext) => b'c',
        Err(TreeError::NoMemory) => b'm',
    }
}

/// A unit of so many strings of this letter.
fn strings(alloc: Global, letter: u8, count: u32) -> Result<DataUnit, NoMemory> {
    let mut unit = Sequence::new(alloc);
    for _ in 0..count {
        let octets = Octets::of(alloc, &[letter])?;
        unit.push(Element::Text { class: 25, octets })?;
    }
    Ok(unit)
}

fn string(alloc: Global, letter: u8) -> Result<DataUnit, NoMemory> {
    strings(alloc, letter, 1)
}

/// The unit of this number, from 0 on.
fn unit(alloc: Global, number: usize) -> Result<DataUnit, NoMemory> {
    match number {
        0 => strings(alloc, b'A', 0),
        1 => strings(alloc, b'B', 1),
        _ => strings(alloc, b'C', 2),
    }
}

/// A sequential flat file of so many units, each of which is put at its end.
fn flat(alloc: Global, count: usize) -> Result<Tree, TreeError> {
    let mut tree = Tree::empty(alloc, Constraint::SequentialFlat)?;
    for number in 0..count {
        let unit = unit(alloc, number)?;
        insert(alloc, &mut tree, FaduId::End, unit)?;
    }
    Ok(tree)
}

/// An unstructured file: new, or of the unit before this number.
fn unstructured(alloc: Global, count: usize) -> Result<Tree, TreeError> {
    let mut tree = Tree::empty(alloc, Constraint::Unstructured)?;
    if count > 0 {
        let unit = unit(alloc, count - 1)?;
        replace(alloc, &mut tree, FaduId::Begin, unit)?;
    }
    Ok(tree)
}

/// A unit of as many octets as a file may have.
fn longest(alloc: Global) -> Result<DataUnit, NoMemory> {
    let octets = Octets::from_vec(vec![in alloc; 0; 65_536]?)?;
    let mut unit = Sequence::new(alloc);
    for _ in 0..256 {
        let octets = octets.copy(alloc)?;
        unit.push(Element::Binary { octets })?;
    }
    Ok(unit)
}

/// The limits of a file, and that they are no refusals.
#[test]
fn files_end_at_their_limits(rt: HostRuntime) -> Result<(), Fail> {
    let more = string(rt.alloc(), b'Z')?;
    let longest = longest(rt.alloc())?;
    let mut tree = Tree::empty(rt.alloc(), Constraint::Unstructured)?;
    let replaced = replace(rt.alloc(), &mut tree, FaduId::Begin, longest);
    assert!(rt; matches!(replaced, Ok(0)) && tree.size() == MOST_FILE_OCTETS);
    assert!(rt; !tree.has_room_to_extend(FaduId::Begin, &more));
    assert!(rt; tree.has_room_to_extend(FaduId::Last, &more));
    assert!(rt; tree.has_room_to_replace(FaduId::First, &more));
    Ok(())
}
