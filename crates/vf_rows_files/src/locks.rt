//! Holders of a file and their controls.

use std::alloc::Global;
use std::test::Fail;
use vf_base::{Action, BaseError, Control, Controls, Name, NoMemory};
use vf_locks::{GrantError, Holder, Locks};

const NO: Control = Control::NotRequired;

const SHARED: Control = Control::Shared;

const EXCLUSIVE: Control = Control::Exclusive;

const NO_ACCESS: Control = Control::NoAccess;

/// Controls of two parties on one action, and whether both are granted.
const PAIRS: [(Control, Control, bool); 9] = [
    (SHARED, SHARED, true),
    (SHARED, EXCLUSIVE, false),
    (EXCLUSIVE, SHARED, false),
    (SHARED, NO_ACCESS, false),
    (NO_ACCESS, SHARED, false),
    (EXCLUSIVE, NO_ACCESS, false),
    (NO_ACCESS, NO_ACCESS, true),
    (NO, EXCLUSIVE, true),
    (NO_ACCESS, NO, true),
];

/// The control on reading and on deletion, and none on the other actions.
fn controls(read: Control, delete: Control) -> Controls {
    Controls {
        each: [read, NO, NO, NO, NO, NO, NO, delete],
    }
}

/// A party where the identity is 0, else a docket.
fn holder(alloc: Global, who: (u8, u32)) -> Result<Holder, BaseError> {
    let (letter, number) = who;
    if letter == 0 {
        return Ok(Holder::Party { link: number });
    }
    let identity = Name::of(alloc, &[letter])?;
    Ok(Holder::Docket {
        identity,
        activity: number,
    })
}

/// Whether controls are allowed and granted.
fn grants(
    locks: &mut Locks,
    alloc: Global,
    file: &Name,
    holder: &Holder,
    wanted: Controls,
) -> bool {
    let allowed = locks.allows(alloc, file, holder, &wanted).is_ok();
    let granted = locks.grant(alloc, file, holder, &wanted).is_ok();
    allowed && granted
}

/// Whether one party is granted the first control, another one the second exactly where that is good, and then the
/// first one deletion too.
fn are_granted(alloc: Global, file: &Name, first: Control, second: Control, good: bool) -> bool {
    let mut locks = Locks::new(alloc);
    let (one, other) = (Holder::Party { link: 1 }, Holder::Party { link: 2 });
    grants(&mut locks, alloc, file, &one, controls(first, NO))
        && grants(&mut locks, alloc, file, &other, controls(second, NO)) == good
        && grants(&mut locks, alloc, file, &one, controls(first, SHARED))
}

#[test]
fn controls_clash_by_the_standard(rt: HostRuntime) -> Result<(), Fail> {
    let file = Name::of(rt.alloc(), b"f")?;
    for (first, second, good) in PAIRS {
        assert!(rt; are_granted(rt.alloc(), &file, first, second, good));
    }
    Ok(())
}

/// Whether the error is a clash with this holder on deletion.
fn is_clash(error: &GrantError, first: &Holder) -> bool {
    match error {
        GrantError::Clash(conflict) => {
            conflict.action == Action::Delete && conflict.holder.is_same(first)
        }
        GrantError::NoMemory => false,
    }
}

/// Whether the party 5 may not read and delete alone, and it is this holder that stands against its deleting.
fn stands_first(
    locks: &Locks,
    alloc: Global,
    file: &Name,
    first: &Holder,
) -> Result<bool, NoMemory> {
    let asking = Holder::Party { link: 5 };
    let Err(error) = locks.allows(alloc, file, &asking, &controls(SHARED, EXCLUSIVE)) else {
        return Ok(false);
    };
    let error = error.copy(alloc)?;
    let others = match locks.first_other(file, &asking) {
        Some(other) => other.is_same(first),
        None => false,
    };
    Ok(others && is_clash(&error, first))
}

fn releases(locks: &mut Locks, file: &Name, holder: &Holder) -> bool {
    locks.release(file, holder);
    locks.controls(file, holder).is_none()
}

/// Whether the first holder stood on the file, and the second did not and now stands in its place.
fn takes_the_place(locks: &mut Locks, file: &Name, from: &Holder, to: Holder) -> bool {
    if locks.controls(file, from).is_none() || locks.controls(file, &to).is_some() {
        return false;
    }
    locks.pass(file, from, to);
    locks.controls(file, from).is_none()
}

fn passes(
    locks: &mut Locks,
    alloc: Global,
    file: &Name,
    from: (u8, u32),
    to: (u8, u32),
) -> Result<bool, BaseError> {
    let from = holder(alloc, from)?;
    let to = holder(alloc, to)?;
    Ok(takes_the_place(locks, file, &from, to))
}

/// Whether copies of what the locks lend of the file are what the others lend.
fn are_same(locks: &Locks, others: &Locks, alloc: Global, file: &Name) -> Result<bool, NoMemory> {
    let (held, other) = (locks.holders(file), others.holders(file));
    if held.len() != other.len() {
        return Ok(false);
    }
    for place in 0..held.len() {
        let copy = held[place].copy(alloc)?;
        if !copy.holder.is_same(&other[place].holder) || copy.controls != other[place].controls {
            return Ok(false);
        }
    }
    Ok(true)
}

/// The numbers of the controls on deletion.
fn numbers(locks: &Locks, file: &Name) -> Option<[u64; 4]> {
    match locks.counts(file) {
        Some(counts) => Some(counts.numbers[7]),
        None => None,
    }
}

/// Whether dockets and parties get their controls, and a party's go to a docket and from there to another party.
fn fills(locks: &mut Locks, alloc: Global, file: &Name) -> Result<bool, BaseError> {
    for who in [(b'b', 1), (b'a', 9), (0, 7), (b'a', 2), (0, 3)] {
        let holder = holder(alloc, who)?;
        if !grants(locks, alloc, file, &holder, controls(NO, SHARED)) {
            return Ok(false);
        }
    }
    Ok(
        passes(locks, alloc, file, (0, 7), (b'c', 1))?
            && passes(locks, alloc, file, (b'c', 1), (0, 8))?,
    )
}

/// Whether each is the first in its turn, until it is released.
fn empties(locks: &mut Locks, alloc: Global, file: &Name) -> Result<bool, BaseError> {
    for who in [(0, 3), (0, 8), (b'a', 2), (b'a', 9), (b'b', 1)] {
        let holder = holder(alloc, who)?;
        if !stands_first(locks, alloc, file, &holder)? || !releases(locks, file, &holder) {
            return Ok(false);
        }
    }
    Ok(numbers(locks, file).is_none())
}

#[test]
fn holders_stand_in_their_order(rt: HostRuntime) -> Result<(), Fail> {
    let file = Name::of(rt.alloc(), b"f")?;
    let mut locks = Locks::new(rt.alloc());
    assert!(rt; matches!(fills(&mut locks, rt.alloc(), &file), Ok(true)));
    let mut copy = locks.copy(rt.alloc())?;
    assert!(rt; matches!(are_same(&locks, &copy, rt.alloc(), &file), Ok(true)));
    assert!(rt; matches!(empties(&mut copy, rt.alloc(), &file), Ok(true)));
    Ok(())
}

#[test]
fn numbers_follow_each_call(rt: HostRuntime) -> Result<(), Fail> {
    let steps = [
        (1, SHARED, [0, 1, 0, 0]),
        (2, SHARED, [0, 2, 0, 0]),
        (1, NO, [1, 1, 0, 0]),
        (2, EXCLUSIVE, [1, 0, 1, 0]),
        (3, NO, [2, 0, 1, 0]),
    ];
    let file = Name::of(rt.alloc(), b"f")?;
    let mut locks = Locks::new(rt.alloc());
    for (link, control, counted) in steps {
        let holder = Holder::Party { link };
        assert!(rt;
            grants(
                &mut locks,
                rt.alloc(),
                &file,
                &holder,
                controls(NO, control)
            )
        );
        assert!(rt; numbers(&locks, &file) == Some(counted));
    }
    assert!(rt; releases(&mut locks, &file, &Holder::Party { link: 2 }));
    assert!(rt; numbers(&locks, &file) == Some([2, 0, 0, 0]));
    Ok(())
}
