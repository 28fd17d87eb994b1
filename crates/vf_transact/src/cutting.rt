//! The elements of a put by its input (profile): binary contents in strings of 4,096 octets, the last one shorter; text a string
//! a line, and records a record a line.
ghost use Rattle.std.specs.Prelude.{◌≡◌, ◌==◌, ◌<◌, ◌++◌, ℕ, List, IfOk, None, Some, length, map, if◌then◌else◌};
ghost use Rattle.std.specs.List.{flat_map, position};
ghost use Rattle.vf_initiator.specs.Cutting.{binary_of, elements_a_line as elements_a_line_meant, elements_by, fault_of as fault_meant, fault_of_lines as fault_of_lines_meant, is_too_long as is_too_long_meant, lines, record_of, strings_of as strings_meant, text_of};
ghost use Rattle.vf_transact.specs.Cutting.{IsLineAt, elements_of_line};

use crate::limits::{ELEMENT_TOO_LONG, FILE_FULL};
use std::alloc::Global;
use vf_base::{Element, Elements, MOST_STRING_OCTETS, NoMemory, Octets, Sequence};
use vf_tree::{MOST_FILE_OCTETS, MOST_FILE_PARTS};

/// A string of binary contents has so many octets.
const BINARY_STRING: usize = 4_096;

/// The universal class of text: GraphicString.
const GRAPHIC: u8 = 25;

const LINE_FEED: u8 = 10;

/// A line of an input: how many octets it has, and the place behind its line feed, or behind the input where it has none.
#[derive(Clone, Copy)]
struct Line {
    length: usize,
    next: usize,
}

/// Where the first line feed stands, if there is one.
fn place_of_feed(octets: &[u8]) -> Option<usize>
    ensures { result ≡ position (λ octet. octet == 10) octets.now }
{
    octets.iter().position(|octet| *octet == LINE_FEED)
}

/// The line that begins at a place.
fn line_at(input: &[u8], start: usize) -> Line
    requires { start < length input.now }
    ensures { IsLineAt input.now start result }
{
    let (_, rest) = input.split_at(start);
    match place_of_feed(rest) {
        Some(length) => Line {
            length,
            next: start + length + 1,
        },
        None => Line {
            length: rest.len(),
            next: input.len(),
        },
    }
}

/// The number of the diagnostic that refuses an input, where it passes a limit.
pub(crate) fn fault_of(kind: u8, input: &[u8]) -> Option<u16>
    ensures { result ≡ fault_meant kind input.now }
{
    if kind == 3 {
        return if_full(input.len() as u64 > MOST_FILE_OCTETS);
    }
    fault_of_lines(kind, input)
}

fn if_full(is_full: bool) -> Option<u16>
    ensures { result ≡ (if is_full then Some 23 else None) }
{
    if is_full { Some(FILE_FULL) } else { None }
}

/// The elements that a line gives: of records a descriptor and a string.
fn elements_a_line(kind: u8) -> u32
    ensures { result ≡ elements_a_line_meant kind }
{
    if kind == 2 { 2 } else { 1 }
}

/// The lines of the input pass a limit: the octet decides that passes one first.
fn fault_of_lines(kind: u8, input: &[u8]) -> Option<u16>
    ensures { result ≡ fault_of_lines_meant kind 0 0 (lines input.now) }
{
    let each = elements_a_line(kind);
    let mut start = 0;
    let mut octets: u64 = 0;
    let mut elements: u32 = 0;
    while start < input.len() {
        let line = line_at(input, start);
        if elements + each > MOST_FILE_PARTS {
            return Some(FILE_FULL);
        }
        if is_too_long(octets, line.length) {
            return Some(ELEMENT_TOO_LONG);
        }
        if line.length as u64 > MOST_FILE_OCTETS - octets {
            return Some(FILE_FULL);
        }
        octets += line.length as u64;
        elements += each;
        start = line.next;
    }
    None
}

/// Whether a line of so many octets, after so many of others, passes the limit of a string before that of a file.
fn is_too_long(octets: u64, count: usize) -> bool
    ensures { (line : List ℕ) → length line ≡ count → result ≡ is_too_long_meant octets line }
{
    count > MOST_STRING_OCTETS as usize
        && octets <= MOST_FILE_OCTETS - u64::from(MOST_STRING_OCTETS)
}

/// The elements of an input, whose octets they share.
pub(crate) fn elements_of(alloc: Global, kind: u8, input: &Octets) -> Result<Elements, NoMemory>
    ensures { IfOk result (λ made. made ≡ elements_by kind input.now) }
{
    if kind == 1 || kind == 2 {
        return lines_of(alloc, kind == 2, input);
    }
    strings_of(alloc, input)
}

/// A string a line, behind a descriptor where lines are records.
fn lines_of(alloc: Global, are_records: bool, input: &Octets) -> Result<Elements, NoMemory>
    ensures { IfOk result (λ made. made ≡ flat_map (elements_of_line are_records) (lines input.now)) }
{
    let mut elements = Sequence::new(alloc);
    let mut start = 0;
    while start < input.len() {
        let line = line_at(input.as_slice(), start);
        let octets = input.slice(start, line.length)?;
        push_line(are_records, octets, &mut elements)?;
        start = line.next;
    }
    Ok(elements)
}

fn push_line(is_record: bool, octets: Octets, elements: &mut Elements) -> Result<(), NoMemory>
    ensures { IfOk result (λ done. elements.new ≡ elements.old ++ elements_of_line is_record octets) }
{
    if is_record {
        elements.push(Element::Descriptor {
            name: None,
            filled: true,
        })?;
    }
    elements.push(Element::Text {
        class: GRAPHIC,
        octets,
    })
}

/// Strings of 4,096 octets, the last one shorter.
fn strings_of(alloc: Global, input: &Octets) -> Result<Elements, NoMemory>
    ensures { IfOk result (λ made. made ≡ map binary_of (strings_meant 4096 input.now)) }
{
    let mut elements = Sequence::new(alloc);
    let mut start = 0;
    while start < input.len() {
        let length = BINARY_STRING.min(input.len() - start);
        let octets = input.slice(start, length)?;
        elements.push(Element::Binary { octets })?;
        start += length;
    }
    Ok(elements)
}
