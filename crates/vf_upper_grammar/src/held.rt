//! The octets that a part with tag \[0\] or \[1\] holds.
ghost use Rattle.std.specs.Prelude.{◌≡◌, ◌<◌, ◌≤◌, ◌^◌, IfOk, IfSome, List, length, ℕ};
ghost use Rattle.std.specs.Option.{option_map};
ghost use Rattle.vf_upper_grammar.specs.HeldViews.{AreGathered, BreaksHeld, IsIn, IsKept, IsLocated, octets_in, octets_of, PlacesHeld, Stands};
ghost use Rattle.vf_upper_grammar.specs.Parts.{number_of as number_in};
ghost use Rattle.vf_upper_grammar.specs.Texts.{explicit_in as explicit_octets, held as held_by, is_begun_end as begun_end};
ghost use Rattle.vf_upper_grammar.specs.Views.{part_of, text_of};

use crate::marks::Stop;
use crate::parts::is_constructed;
use crate::segments::{gathered, leading, place_among, wrong_among};
use crate::text::{Part, Text};
use std::alloc::Global;
use vf_base::{NoMemory, Octets};
use vf_ber_scan::whole_in;

/// What a part holds.
#[derive(Drop)]
pub(crate) enum Held<'a> {
    /// Octets of its contents, or of the only segment that has any, of which the first has this place among all that are
    /// read.
    Contents { at: u32, octets: &'a [u8] },
    /// Those that its segments gave, joined.
    Segments(Octets),
}

impl Held<'_> {
    pub fn octets(&self) -> &[u8]
        ensures { result.now ≡ octets_of self.now }
    {
        match self {
            Held::Contents { octets, .. } => octets,
            Held::Segments(octets) => octets.as_slice(),
        }
    }

    /// The same octets, shared.
    pub fn kept(&self, alloc: Global, all: &Octets) -> Result<Octets, NoMemory>
        requires { IsKept all.now self.now }
        ensures { IfOk result (λ made. made ≡ octets_of self.now) }
    {
        match self {
            Held::Contents { at, octets } => return shared(all, *at as usize, octets),
            Held::Segments(octets) => return octets.copy(alloc),
        }
    }
}

/// Octets that stand at this place among all, shared with these.
pub(crate) fn shared(all: &Octets, at: usize, octets: &[u8]) -> Result<Octets, NoMemory>
    requires { Stands all.now at octets.now }
    ensures { IfOk result (λ made. made ≡ octets.now) }
{
    all.slice(at, octets.len())
}

pub(crate) fn number_of(first: u8) -> u8
    ensures { result ≡ number_in first }
{
    first % 32
}

/// Contents of an explicit tag without a begun end of contents.
fn explicit_in<'a>(text: Text<'a>) -> &'a [u8]
    ensures octets { result.now ≡ explicit_octets (text_of text.entry) }
    ensures within { length result.now ≤ length text.entry.octets.now }
{
    if text.whole {
        return text.octets;
    }
    let Some(n) = whole_in(text.octets) else {
        return text.octets;
    };
    let (value, rest) = text.octets.split_at(n);
    if is_begun_end(rest) {
        value
    } else {
        text.octets
    }
}

/// A first octet of an end of contents alone.
fn is_begun_end(octets: &[u8]) -> bool
    ensures { result ≡ begun_end octets.now }
{
    match octets {
        [] => false,
        [first] => *first == 0,
        [_, _, ..] => false,
    }
}

/// What is held by a part with tag \[0\], which is explicit, or \[1\], octets; `None` where it has not the form.
pub(crate) fn octets_held<'a>(alloc: Global, part: &Part<'a>) -> Result<Option<Held<'a>>, NoMemory>
    ensures octets { IfOk result (λ found. option_map octets_of found ≡ octets_in (held_by (part_of part.now))) }
    ensures small { IfOk result (λ found. IfSome found (λ held. length (octets_of held) < 2 ^ 32)) }
    ensures kept { (all : List ℕ) → IsIn all (part_of part.now).contents → IfOk result (λ found. IfSome found (λ held. IsKept all held)) }
{
    let contents = part.contents;
    if number_of(part.first) == 0 {
        if !is_constructed(part.first) {
            return Ok(None);
        }
        return Ok(Some(Held::Contents {
            at: contents.at,
            octets: explicit_in(contents),
        }));
    }
    if !is_constructed(part.first) {
        return Ok(Some(Held::Contents {
            at: contents.at,
            octets: contents.octets,
        }));
    }
    let held = segments_held(alloc, contents)?;
    Ok(Some(held))
}

/// What segments hold: octets of the only one that has any are left where they stand, those of more are joined.
fn segments_held<'a>(alloc: Global, text: Text<'a>) -> Result<Held<'a>, NoMemory>
    ensures octets { IfOk result (λ held. AreGathered (text_of text.entry) (octets_of held)) }
    ensures small { IfOk result (λ held. length (octets_of held) < 2 ^ 32) }
    ensures kept { (all : List ℕ) → IsIn all (text_of text.entry) → IfOk result (λ held. IsKept all held) }
{
    let (first, others) = leading(text);
    let (second, _) = leading(others);
    if second.octets.is_empty() {
        return Ok(Held::Contents {
            at: first.at,
            octets: first.octets,
        });
    }
    let octets = Octets::from_vec(gathered(alloc, text)?)?;
    Ok(Held::Segments(octets))
}

/// The place of an octet of what a part holds, by its offset; after the last the place where they end.
fn place_in(part: &Part<'_>, len: usize, offset: u32) -> u32
    ensures { PlacesHeld (part_of part.now) len offset result }
{
    let contents = part.contents;
    if number_of(part.first) == 0 {
        return contents.at + (offset as usize).min(len).min(contents.octets.len()) as u32;
    }
    if is_constructed(part.first) {
        return place_among(contents, part.after, offset as usize);
    }
    if (offset as usize) < contents.octets.len() {
        contents.at + offset
    } else {
        part.after
    }
}

/// The place of a wrong segment.
fn broken_in(part: &Part<'_>) -> Option<u32>
    ensures { BreaksHeld (part_of part.now) result }
{
    if number_of(part.first) == 0 || !is_constructed(part.first) {
        return None;
    }
    wrong_among(part.contents)
}

/// What the reading of the octets that a part holds comes to: its places are offsets in them.
pub(crate) fn located(part: &Part<'_>, len: usize, read: Result<(), Stop>) -> Result<(), Stop>
    ensures { IsLocated (part_of part.now) len read result }
{
    match read {
        Ok(()) => match broken_in(part) {
            Some(place) => Err(Stop::At(place)),
            None => Ok(()),
        },
        Err(Stop::At(offset)) => Err(Stop::At(place_in(part, len, offset))),
        Err(Stop::NoMemory) => Err(Stop::NoMemory),
    }
}
