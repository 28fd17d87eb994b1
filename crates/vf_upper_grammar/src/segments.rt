//! Octets in segments (ISO 8825, 8.7.3) with their places.
ghost use Rattle.std.specs.Prelude.{◌≡◌, ◌+◌, ◌<◌, ◌≤◌, ◌^◌, [], ◌∷◌, false, ◌++◌, IfOk, IfSome, List, OnOk, drop, length, ℕ};
ghost use Rattle.vf_upper_grammar.specs.HeldViews.{AreGathered, Breaks, IsIn};
ghost use Rattle.vf_upper_grammar.specs.SegmentViews.{AreFirst, AreIn, IsConstructed, IsPiece, IsPrimitive, IsStep, no_segment, NoneHas, Shortens};
ghost use Rattle.vf_upper_grammar.specs.Texts.{cut_to as cut, place_of, segments};
ghost use Rattle.vf_upper_grammar.specs.Views.{text_of};

use crate::parts::{first_of, first_part, header_at};
use crate::text::Text;
use std::alloc::Global;
use vf_base::NoMemory;

/// What stands at a place among segments.
#[derive(Clone, Copy)]
pub(crate) enum Segment<'a> {
    /// Octets, and what is after them.
    Octets(Text<'a>, Text<'a>),
    /// Where segments begin or end: what is after it.
    Bound(Text<'a>),
    /// No segment.
    Nothing,
}

/// A text without its first octets.
fn cut_to<'a>(text: Text<'a>, rest: &'a [u8]) -> Text<'a>
    requires { length rest.now ≤ length text.octets.now }
    ensures { text_of result ≡ cut (text_of text.entry) rest.now }
{
    Text {
        octets: rest,
        at: text.at + (text.octets.len() - rest.len()) as u32,
        whole: text.whole,
    }
}

fn without_first(octets: &[u8]) -> &[u8]
    ensures { result.now ≡ drop 1 octets.now }
{
    match octets {
        [] => octets,
        [_, rest @ ..] => rest,
    }
}

fn next_segment(text: Text<'_>) -> Segment<'_>
    ensures step { IsStep (text_of text.entry) result }
    ensures shorter { Shortens (length text.entry.octets.now) result }
    ensures stands { (all : List ℕ) → IsIn all (text_of text.entry) → AreIn all result }
{
    let Some((first, after)) = first_of(text.octets) else {
        return Segment::Nothing;
    };
    if first == 0 {
        return Segment::Bound(cut_to(text, without_first(after)));
    }
    if first == 4 {
        return primitive(text);
    }
    if first == 36 {
        return constructed(text);
    }
    Segment::Nothing
}

fn primitive(text: Text<'_>) -> Segment<'_>
    requires { no_segment text.octets.now ≡ false }
    ensures step { IsPrimitive (text_of text.entry) result }
    ensures shorter { Shortens (length text.entry.octets.now) result }
    ensures stands { (all : List ℕ) → IsIn all (text_of text.entry) → AreIn all result }
{
    match first_part(text) {
        Some((part, rest)) => Segment::Octets(part.contents, rest),
        None => Segment::Nothing,
    }
}

fn constructed(text: Text<'_>) -> Segment<'_>
    requires { no_segment text.octets.now ≡ false }
    ensures step { IsConstructed (text_of text.entry) result }
    ensures shorter { Shortens (length text.entry.octets.now) result }
    ensures stands { (all : List ℕ) → IsIn all (text_of text.entry) → AreIn all result }
{
    match header_at(text.octets) {
        Some(header) => Segment::Bound(cut_to(text, header.rest)),
        None => Segment::Nothing,
    }
}

/// The next octets, none where segments begin or end, and what is after them; `None` where nothing or no segment
/// follows.
fn next_octets(text: Text<'_>) -> Option<(Text<'_>, Text<'_>)>
    ensures piece { IsPiece (text_of text.entry) result }
    ensures shorter { IfSome result (λ x. length x.0.octets.now + length x.1.octets.now < length text.entry.octets.now) }
    ensures stands { (all : List ℕ) → IsIn all (text_of text.entry) → IfSome result (λ x. IsIn all (text_of x.0) × IsIn all (text_of x.1)) }
{
    match next_segment(text) {
        Segment::Octets(contents, rest) => Some((contents, rest)),
        Segment::Bound(rest) => Some((empty(rest), rest)),
        Segment::Nothing => None,
    }
}

/// No octets before a text.
fn empty(text: Text<'_>) -> Text<'_>
    ensures { text_of result ≡ record { octets = []; at = text.entry.at; whole = text.entry.whole } }
{
    Text {
        octets: &[],
        at: text.at,
        whole: text.whole,
    }
}

/// No segment begins or ends here, and yet there is an octet.
fn is_wrong(text: Text<'_>) -> bool
    ensures { result ≡ no_segment text.entry.octets.now }
{
    match text.octets {
        [] => false,
        [first, ..] => *first != 0 && *first != 4 && *first != 36,
    }
}

fn append(out: &mut Vec<u8>, octets: &[u8]) -> Result<(), NoMemory>
    ensures { OnOk result (out.new.items ≡ out.old.items ++ octets.now) }
{
    out.extend_from_slice(octets)?;
    Ok(())
}

/// The octets of the first segment that has any, and what is after it; no octets where none has.
pub(crate) fn leading(text: Text<'_>) -> (Text<'_>, Text<'_>)
    ensures first { AreFirst (text_of text.entry) (text_of result.0) (text_of result.1) }
    ensures none { result.0.octets.now ≡ [] → NoneHas (text_of text.entry) }
    ensures stands { (all : List ℕ) → IsIn all (text_of text.entry) → IsIn all (text_of result.0) × IsIn all (text_of result.1) }
{
    let mut rest = text;
    while let Some((contents, after)) = next_octets(rest) {
        if !contents.octets.is_empty() {
            return (contents, after);
        }
        rest = after;
    }
    (empty(rest), rest)
}

/// The octets of the segments of a text, in turn.
pub(crate) fn gathered(alloc: Global, text: Text<'_>) -> Result<Vec<u8>, NoMemory>
    ensures all { IfOk result (λ octets. AreGathered (text_of text.entry) octets.items) }
    ensures within { IfOk result (λ octets. length octets.items ≤ length text.entry.octets.now) }
{
    let mut octets = Vec::new(alloc);
    let mut rest = text;
    while let Some((contents, after)) = next_octets(rest) {
        append(&mut octets, contents.octets)?;
        rest = after;
    }
    Ok(octets)
}

/// The place of a wrong segment of a text.
pub(crate) fn wrong_among(text: Text<'_>) -> Option<u32>
    ensures { Breaks (text_of text.entry) result }
{
    let mut rest = text;
    while let Some((_contents, after)) = next_octets(rest) {
        rest = after;
    }
    if is_wrong(rest) { Some(rest.at) } else { None }
}

/// The place of an octet of the segments of a text, by its offset; after the last the place where they end.
pub(crate) fn place_among(text: Text<'_>, end: u32, offset: usize) -> u32
    ensures { result ≡ place_of (segments end (text_of text.entry)) offset }
{
    let mut rest = text;
    let mut left = offset;
    while let Some((contents, after)) = next_octets(rest) {
        if left < contents.octets.len() {
            return contents.at + left as u32;
        }
        left -= contents.octets.len();
        rest = after;
    }
    if is_wrong(rest) { rest.at } else { end }
}
