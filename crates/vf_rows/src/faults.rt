//! A source and a sink that fail.
use crate::call::{Printed, call, only};
use crate::rows::{Row, lines_of, row_of};
use crate::sips::Sips;
use std::alloc::Global;
use std::process::Abort;
use std::test::Fail;
use vf_base::{NoMemory, SliceSource, Source};

const TEXT: &str = "A00380010F\nAA0C810161A207800528C27B0503\nA800\nA603800161\n";

const REPLIES: &str = "A10381010F\nAB00\nA900\nA700\n";

/// The reads of its 56 octets, sixteen at once, and of the end.
const READS: u64 = 5;

/// Whether the read of this number fails where there is such a one, and the replies before it are printed.
fn is_told(alloc: Global, failing: u64) -> Result<bool, NoMemory> {
    let octets = SliceSource::new(TEXT.as_bytes(), only(alloc, failing)?);
    let mut input = Sips { octets, most: 16 };
    let found = call(alloc, "dialogue", &mut input, Vec::new(alloc))?;
    let fails = failing <= READS;
    let begins = REPLIES.as_bytes().starts_with(found.octets());
    let status = if fails { 3 } else { 0 };
    Ok(begins && found.status == status && input.faults() == u64::from(fails))
}

#[test]
fn a_read_that_fails(rt: HostRuntime) -> Result<(), NoMemory> {
    for failing in 1..=READS + 1 {
        assert!(rt; is_told(rt.alloc(), failing)?, "{failing}");
    }
    Ok(())
}

/// Dialogues whose output fails.
const WRITES: &str = "
0 A00380010F/AA0C810161A207800528C27B0503/A800/A200/ = A10381010F/AB00/A900/A300/
7 A00380010F/B400/ = A10381010F/A503800166/
11 A00380010F/a2/ = A10381010F/bad line 2/
";

/// Whether a call whose write of this number fails printed the beginning of this: the whole with its status, and not all of
/// it with that of an output that fails. The first write never is all.
fn is_cut_off(found: &Printed, status: u8, printed: &[u8], failing: u64) -> bool {
    let octets = found.octets();
    let whole = octets == printed;
    let wanted = if whole { status } else { 4 };
    printed.starts_with(octets) && found.status == wanted && (failing > 1 || !whole)
}

/// Whether a call with these words is cut off so.
fn stops(
    alloc: Global,
    words: &str,
    row: Row<'_>,
    printed: &[u8],
    failing: u64,
) -> Result<bool, NoMemory> {
    let sent = lines_of(alloc, row.sent)?;
    let mut input = SliceSource::new(sent.as_slice(), Vec::new(alloc));
    let found = call(alloc, words, &mut input, only(alloc, failing)?)?;
    Ok(is_cut_off(&found, row.status, printed, failing))
}

/// The same of each write. No call writes more often than it prints octets.
fn assert_stops(rt: &impl Abort, alloc: Global, words: &str, row: Row<'_>) -> Result<(), Fail> {
    let printed = lines_of(alloc, row.printed)?;
    for failing in 1..=printed.len() as u64 + 1 {
        assert!(rt;
            stops(alloc, words, row, printed.as_slice(), failing)?,
            "{} {failing}",
            row.printed
        );
    }
    Ok(())
}

#[test]
fn a_write_that_fails(rt: HostRuntime) -> Result<(), Fail> {
    let mut count = 0_u32;
    for line in WRITES.lines() {
        if let Some(row) = row_of(line) {
            assert_stops(&rt, rt.alloc(), "dialogue", row)?;
            count = count.saturating_add(1);
        }
    }
    assert_eq!(rt; count, 3);
    Ok(())
}

#[test]
fn a_write_of_the_usage_that_fails(rt: HostRuntime) -> Result<(), Fail> {
    let usage = Row {
        sent: "",
        printed: "usage/",
        status: 2,
    };
    assert_stops(&rt, rt.alloc(), "", usage)
}
