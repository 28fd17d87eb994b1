//! What words want. Those outside the grammar stand in `checks/statuses.check`.
use crate::call::words_of;
use std::alloc::Global;
use vf_base::{NoMemory, Octets};
use vf_cli::{Wanted, WordsError, wanted};

/// Words of the grammar: the store, the host and the port that they want, where they want any, and the rounds until serving ends.
type Row = (&'static str, &'static str, &'static str, u16, u64);

const WITHIN: [Row; 15] = [
    ("dialogue", "", "", 0, 1_000_000),
    ("init --store s", "s", "", 0, 1_000_000),
    ("init --store=s", "s", "", 0, 1_000_000),
    ("list --store a/b", "a/b", "", 0, 1_000_000),
    ("list --store=a=b", "a=b", "", 0, 1_000_000),
    ("list --store a=b", "a=b", "", 0, 1_000_000),
    (
        "put --store=s --host=h --port=1 --name=a --user=u",
        "s",
        "h",
        1,
        1_000_000,
    ),
    (
        "get --store=s --host=h.i --port=65535 --name=a --user=u --password=p --kind=1 --tries=0",
        "s",
        "h.i",
        65_535,
        1_000_000,
    ),
    (
        "get --activity 2147483647 --every 10000 --user u --name a --port 9 --host h --store s",
        "s",
        "h",
        9,
        1_000_000,
    ),
    (
        "generate --store s --number 4294967295 --count 1000",
        "s",
        "",
        0,
        1_000_000,
    ),
    (
        "generate --store s --number 0 --count 1",
        "s",
        "",
        0,
        1_000_000,
    ),
    ("dockets --store s", "s", "", 0, 1_000_000),
    ("replay", "", "", 0, 1_000_000),
    (
        "drop --user u --activity 2147483647 --store s",
        "s",
        "",
        0,
        1_000_000,
    ),
    (
        "serve --store s --port 80 --idle 1000000000",
        "s",
        "",
        80,
        1_000_000_000,
    ),
];

/// Whether there is this text, or none where it is empty.
fn is_text(found: &Option<Octets>, text: &str) -> bool {
    match found {
        Some(found) => !text.is_empty() && found.as_slice() == text.as_bytes(),
        None => text.is_empty(),
    }
}

/// Whether words want what their row tells.
fn is_wanted(found: &Result<Wanted, WordsError>, row: Row) -> bool {
    let Ok(found) = found else { return false };
    let (_words, store, host, port, idle) = row;
    is_text(&found.store, store)
        && is_text(&found.host, host)
        && found.port.unwrap_or(0) == port
        && found.idle == idle
}

fn holds(alloc: Global, row: Row) -> Result<bool, NoMemory> {
    let given = words_of(alloc, row.0)?;
    let found = wanted(alloc, &given);
    Ok(is_wanted(&found, row))
}

#[test]
fn what_words_want(rt: HostRuntime) -> Result<(), NoMemory> {
    for row in WITHIN {
        assert!(rt; holds(rt.alloc(), row)?, "{}", row.0);
    }
    Ok(())
}

/// Words that are no part of a line of words: with a space, which is printable, and of 255 and 256 octets.
#[test]
fn paths_of_any_printable_octets(rt: HostRuntime) -> Result<(), NoMemory> {
    for (count, good) in [(1_usize, true), (255, true), (256, false)] {
        assert!(rt; is_path(rt.alloc(), count)? == good, "{count}");
    }
    Ok(())
}

/// Whether so many spaces are a path.
fn is_path(alloc: Global, count: usize) -> Result<bool, NoMemory> {
    let mut given = words_of(alloc, "list")?;
    given.push(path_of(alloc, count)?)?;
    let found = wanted(alloc, &given);
    Ok(found.is_ok())
}

/// The option with a path of so many spaces.
fn path_of(alloc: Global, count: usize) -> Result<String, NoMemory> {
    let mut word = String::from_str(alloc, "--store=")?;
    for _ in 0..count {
        word.push(' ')?;
    }
    Ok(word)
}
