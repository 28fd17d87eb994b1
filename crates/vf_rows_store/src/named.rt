//! Lists of users who are found by their names.
use std::alloc::Global;
use std::test::Fail;
use vf_base::{BaseError, Name};
use vf_tables::{User, Users};

/// What is done with users: nothing, they are copied, the second gets another name, or it goes.
#[derive(Clone, Copy)]
enum Act {
    Stay,
    Copy,
    Replace(u8),
    Remove,
}

/// Users of one letter each, put one after another, and whether no two of them are known to be equal; what is done with them,
/// and who they are then; and the place at which the first of a name is found.
type Row = (&'static [u8], bool, Act, &'static [u8], u8, Option<usize>);

const ROWS: [Row; 10] = [
    (b"acb", true, Act::Stay, b"acb", b'b', Some(2)),
    (b"ac", true, Act::Stay, b"ac", b'b', None),
    (b"abab", false, Act::Stay, b"abab", b'b', Some(1)),
    (b"aacb", false, Act::Stay, b"aacb", b'b', Some(3)),
    (b"abc", true, Act::Copy, b"abc", b'c', Some(2)),
    (b"aba", false, Act::Copy, b"aba", b'a', Some(0)),
    (b"abc", true, Act::Replace(b'd'), b"adc", b'd', Some(1)),
    // that name is another's already
    (b"abc", true, Act::Replace(b'c'), b"acc", b'c', Some(1)),
    // the others keep their order
    (b"abcd", true, Act::Remove, b"acd", b'c', Some(1)),
    (b"abcb", false, Act::Remove, b"acb", b'c', Some(1)),
];

/// The user of a letter.
fn user_of(alloc: Global, letter: u8) -> Result<User, BaseError> {
    let identity = Name::of(alloc, &[letter])?;
    Ok(User {
        identity,
        password: None,
    })
}

/// Users of these names, put one after another.
fn users_of(alloc: Global, letters: &[u8]) -> Result<Users, BaseError> {
    let mut users = Users::new(alloc);
    for letter in letters {
        users.push(user_of(alloc, *letter)?)?;
    }
    Ok(users)
}

/// Whether the users have these names, in this order.
fn are(users: &Users, letters: &[u8]) -> bool {
    for (user, letter) in users.as_slice().iter().zip(letters) {
        if user.identity.as_slice() != [*letter].as_slice() {
            return false;
        }
    }
    users.len() == letters.len()
}

/// Whether the first user of this name is found at this place, or none where there is none.
fn is_found(
    alloc: Global,
    users: &Users,
    letter: u8,
    place: Option<usize>,
) -> Result<bool, BaseError> {
    let name = Name::of(alloc, &[letter])?;
    Ok(users.place_of(&name) == place && users.with_name(&name).is_some() == place.is_some())
}

/// Gives the second user the name of a letter.
fn replace(alloc: Global, users: &mut Users, letter: u8) -> Result<(), BaseError> {
    let user = user_of(alloc, letter)?;
    if users.len() > 1 {
        users.replace(1, user)?;
    }
    Ok(())
}

/// Makes a copy, which stands in the place of the users.
fn copy(alloc: Global, users: &mut Users) -> Result<(), BaseError> {
    *users = users.copy(alloc)?;
    Ok(())
}

fn do_to(alloc: Global, users: &mut Users, act: Act) -> Result<(), BaseError> {
    match act {
        Act::Stay => Ok(()),
        Act::Copy => copy(alloc, users),
        Act::Replace(letter) => replace(alloc, users, letter),
        Act::Remove => {
            if users.len() > 1 {
                users.remove(1);
            }
            Ok(())
        }
    }
}

fn holds(alloc: Global, row: Row) -> Result<bool, BaseError> {
    let (before, distinct, act, after, letter, place) = row;
    let mut users = users_of(alloc, before)?;
    let is_distinct = users.are_distinct();
    do_to(alloc, &mut users, act)?;
    let is_found = is_found(alloc, &users, letter, place)?;
    Ok(is_distinct == distinct && is_found && are(&users, after))
}

#[test]
fn users_are_found_copied_replaced_and_removed(rt: HostRuntime) -> Result<(), Fail> {
    for (number, row) in ROWS.iter().enumerate() {
        assert!(rt; holds(rt.alloc(), *row)?, "{number}");
    }
    Ok(())
}
