//! Many runs of a line.
//!
//! `cut` before a line asks for the same with its octets one by one and at seven other cuts, which must tell the same; the
//! first that doesn't stands before what it tells. `fronts` breaks the first life after each number of its octets, and `each
//! send` lets each send fail in turn, so also `next`, `disk` and `stop`, until a run is as without; both answer how many runs
//! there were and a digest of what they tell.
use crate::digests::{NO_OCTETS, digest};
use crate::fault::Fault;
use crate::responder::run::{Change, octets_of_first, told_by};
use crate::text::Text;
use std::alloc::Global;

/// At most so many calls fail in turn.
const MOST_CALLS: u64 = 100_000;

/// What a run at a cut tells that isn't told by the whole octets; none where there is no such.
fn other(alloc: Global, line: &str, first: &[u8]) -> Result<Option<Vec<u8>>, Fault> {
    for seed in 1..9 {
        let again = told_by(alloc, line, seed, Change::Nothing)?;
        if again.as_slice() != first {
            let mut out = Text::new(alloc);
            out.put_number("seed ", seed, ": ");
            out.put_octets(again.as_slice());
            return Ok(Some(out.end()?));
        }
    }
    Ok(None)
}

fn cuts(alloc: Global, line: &str) -> Result<Vec<u8>, Fault> {
    let first = told_by(alloc, line, 0, Change::Nothing)?;
    let other = other(alloc, line, first.as_slice())?;
    Ok(other.unwrap_or(first))
}

/// How many runs there were, and a digest.
fn found(alloc: Global, count: u64, digest: u32) -> Result<Vec<u8>, Fault> {
    let mut out = Text::new(alloc);
    out.put_number("", count, " #");
    out.put_digest(digest);
    out.end()
}

fn fronts(alloc: Global, line: &str) -> Result<Vec<u8>, Fault> {
    let count = octets_of_first(alloc, line)?;
    let mut so_far = NO_OCTETS;
    for octets in 0..=count {
        let told = told_by(alloc, line, 0, Change::Breaks(octets))?;
        so_far = digest(so_far, told.as_slice());
    }
    found(alloc, count as u64, so_far)
}

/// How many runs there are in which a call of this name fails, and the digest of what they tell.
fn failing(alloc: Global, name: &str, line: &str, without: &[u8]) -> Result<(u64, u32), Fault> {
    let mut so_far = NO_OCTETS;
    for call in 1..MOST_CALLS {
        let told = told_by(alloc, line, 0, Change::Fails(name, call))?;
        if told.as_slice() == without {
            return Ok((call, so_far));
        }
        so_far = digest(so_far, told.as_slice());
    }
    Err(Fault::Line)
}

fn each(alloc: Global, words: &str) -> Result<Vec<u8>, Fault> {
    let (name, line) = words.split_once(' ').ok_or(Fault::Line)?;
    let without = told_by(alloc, line, 0, Change::Nothing)?;
    let (count, digest) = failing(alloc, name, line, without.as_slice())?;
    found(alloc, count, digest)
}

/// What a line tells.
pub fn answer(alloc: Global, line: &str) -> Result<Vec<u8>, Fault> {
    let (way, rest) = line.split_once(' ').unwrap_or((line, ""));
    match way {
        "cut" => cuts(alloc, rest),
        "fronts" => fronts(alloc, rest),
        "each" => each(alloc, rest),
        _ => told_by(alloc, line, 0, Change::Nothing),
    }
}
