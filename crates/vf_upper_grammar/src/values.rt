//! Octets that are read as values. Places are offsets in them.
ghost use Rattle.std.specs.Prelude.{◌≡◌, ◌+◌, ◌<◌, ◌≤◌, ◌^◌, IfOk, drop, length};
ghost use Rattle.vf_ber.specs.Reader.{reading};
ghost use Rattle.vf_ber.specs.Results.{IsAnswer};
ghost use Rattle.vf_upper_grammar.specs.HeldViews.{IsKept, octets_of, Stands};
ghost use Rattle.vf_upper_grammar.specs.MarkViews.{Gives, marks_of};
ghost use Rattle.vf_upper_grammar.specs.ValueViews.{prefix_of, IsNext, IsValueIn};
ghost use Rattle.vf_upper_grammar.specs.Texts.{prefix as prefix_by, one as one_value, some as some_values};

use crate::held::{Held, shared};
use crate::marks::{Mark, Marks, Stop};
use std::alloc::Global;
use vf_base::{MOST_VALUE_OCTETS, NoMemory, Octets};
use vf_ber::{BerError, Value};
use vf_ber_scan::whole_in;

/// So many octets and fewer are copied where they would be shared: `Octets` have them in place.
const FEW: usize = 22;

/// The first octets that are seen, whether they are a whole value, and the place of the fault, if there is one.
#[derive(Clone, Copy)]
pub(crate) struct Prefix {
    pub len: usize,
    pub whole: bool,
    pub fault: Option<u32>,
}

/// What the reading of octets comes to: the value that they begin with, and how many of them it takes; or the place of
/// the fault.
fn stopped(octets: &[u8], read: Result<(Value, usize), BerError>) -> Result<(Value, usize), Stop>
    requires { IsAnswer read octets.now }
    ensures { IsValueIn octets.now result }
{
    match read {
        Ok((value, n)) => Ok((value, n)),
        Err(BerError::Short) => Err(Stop::At(octets.len() as u32)),
        Err(BerError::Bad { at }) => Err(Stop::At(at)),
        Err(BerError::Deep { at }) => Err(Stop::At(at)),
        Err(BerError::Long { at }) => Err(Stop::At(at)),
        Err(BerError::NoMemory) => Err(Stop::NoMemory),
    }
}

/// Reads the value that contents from this place on begin with; they stand among all at another place. One in the short
/// form with few contents has nothing to share.
fn contents_at(
    alloc: Global,
    all: &Octets,
    place: u32,
    octets: &[u8],
    at: usize,
) -> Result<(Value, usize), Stop>
    requires small { length octets.now < 2 ^ 32 }
    requires stands { Stands all.now place octets.now }
    requires within { at ≤ length octets.now }
    ensures { IsValueIn (drop at octets.now) result }
{
    let (_, rest) = octets.split_at(at);
    if rest.len() < 2 || usize::from(rest[1]) <= FEW {
        return stopped(rest, vf_ber::read(alloc, rest));
    }
    let kept = shared(all, place as usize + at, rest)?;
    stopped(kept.as_slice(), vf_ber::read_shared(alloc, &kept))
}

/// Reads the value that the octets of segments from this place on begin with.
fn segments_at(alloc: Global, octets: &Octets, at: usize) -> Result<(Value, usize), Stop>
    requires { at ≤ length octets.now }
    ensures { IsValueIn (drop at octets.now) result }
{
    let rest = octets.slice(at, octets.len() - at)?;
    stopped(rest.as_slice(), vf_ber::read_shared(alloc, &rest))
}

/// Reads the value that the octets from this place on begin with. Those of contents are shared with all, and those of
/// segments, which were copied when they were joined, with these.
fn value_at(alloc: Global, all: &Octets, held: &Held<'_>, at: usize) -> Result<(Value, usize), Stop>
    requires small { length (octets_of held.now) < 2 ^ 32 }
    requires kept { IsKept all.now held.now }
    requires within { at ≤ length (octets_of held.now) }
    ensures { IsValueIn (drop at (octets_of held.now)) result }
{
    match held {
        Held::Contents { at: place, octets } => return contents_at(alloc, all, *place, octets, at),
        Held::Segments(octets) => return segments_at(alloc, octets, at),
    }
}

/// What is seen of octets that are to be one value.
pub(crate) fn seen(alloc: Global, octets: &[u8]) -> Result<Prefix, NoMemory>
    ensures prefix { IfOk result (λ prefix. prefix_of octets.now prefix ≡ prefix_by octets.now (reading octets.now)) }
    ensures within { IfOk result (λ prefix. prefix.len ≤ length octets.now) }
    ensures small { IfOk result (λ prefix. prefix.len ≤ MOST_VALUE_OCTETS) }
{
    if let Some(n) = whole_in(octets) {
        return Ok(Prefix {
            len: n,
            whole: true,
            fault: if n == octets.len() {
                None
            } else {
                Some(n as u32)
            },
        });
    }
    match stopped(octets, vf_ber::read(alloc, octets)) {
        Ok(_) => unreachable!(),
        Err(Stop::At(at)) => Ok(Prefix {
            len: at as usize,
            whole: false,
            fault: Some(at),
        }),
        Err(Stop::NoMemory) => Err(NoMemory),
    }
}

/// One value, whatever it is.
pub(crate) fn one(
    alloc: Global,
    all: &Octets,
    held: &Held<'_>,
    found: &mut Marks,
) -> Result<(), Stop>
    requires small { length (octets_of held.now) < 2 ^ 32 }
    requires kept { IsKept all.now held.now }
    ensures { Gives result (marks_of found.new) (one_value (octets_of held.now) (marks_of found.old)) }
{
    let n = next_value(alloc, all, held, 0, found)?;
    if n < held.octets().len() {
        return Err(Stop::At(n as u32));
    }
    Ok(())
}

/// One value or more.
pub(crate) fn some(
    alloc: Global,
    all: &Octets,
    held: &Held<'_>,
    found: &mut Marks,
) -> Result<(), Stop>
    requires small { length (octets_of held.now) < 2 ^ 32 }
    requires kept { IsKept all.now held.now }
    ensures { Gives result (marks_of found.new) (some_values (octets_of held.now) (marks_of found.old)) }
{
    let mut at = 0;
    let mut more = true;
    while more {
        let n = next_value(alloc, all, held, at, found)?;
        at += n;
        more = at < held.octets().len();
    }
    Ok(())
}

/// Reads the value that the octets from this place on begin with, and says how many of them it takes.
fn next_value(
    alloc: Global,
    all: &Octets,
    held: &Held<'_>,
    at: usize,
    found: &mut Marks,
) -> Result<usize, Stop>
    requires small { length (octets_of held.now) < 2 ^ 32 }
    requires kept { IsKept all.now held.now }
    requires within { at ≤ length (octets_of held.now) }
    ensures next { IsNext at (drop at (octets_of held.now)) (marks_of found.old) result (marks_of found.new) }
    ensures within { IfOk result (λ n. at + n ≤ length (octets_of held.now)) }
    ensures some { IfOk result (λ n. 1 ≤ n) }
{
    match value_at(alloc, all, held, at) {
        Ok((value, n)) => {
            found.push(Mark::Value { value })?;
            Ok(n)
        }
        Err(Stop::At(place)) => Err(Stop::At(at as u32 + place)),
        Err(Stop::NoMemory) => Err(Stop::NoMemory),
    }
}
