//! Reading a value: octet by octet, each asked whether a value can still be completed after it.
ghost use Rattle.std.specs.Prelude.{◌≡◌, ◌≢◌, ◌+◌, ◌-◌, ◌*◌, ◌≤◌, ◌<◌, ◌^◌, ◌∷◌, IfErr, IfOk, IfSome, length, take, true, false, Some, None};
ghost use Rattle.vf_ber.specs.Results.{IsAnswer};
ghost use Rattle.vf_ber.specs.Steps.{Contents, Definite, Ended, Ends, Failed, fits, Got, has_depth, IsNoEnd, less as less_of, named, Parts, size_fits, Values as ValuesIn};
ghost use Rattle.vf_ber.specs.Reading.{bounded};
ghost use Rattle.vf_ber.specs.Views.{name_of as said, tag_of, tree_of};

use crate::fault::Fault;
use crate::fitting::{Around, less};
use crate::header::{first_of, name_of, size_of};
use crate::room::Room;
use crate::{BerError, MOST_DEPTH, Tag, Value, Values};
use std::alloc::Global;
use vf_base::{MOST_VALUE_OCTETS, NoMemory, Octets};

/// Reads the value that the octets begin with, and says how many octets it took.
///
/// A value's depth is at most `MOST_DEPTH`, the outermost having depth 1, and its octets at most `MOST_VALUE_OCTETS`.
/// `Short` exactly where the octets are a proper prefix of the spelling of such a value. Where neither comes, some octet is the
/// first after which there is no such spelling: the error names its place, and is `Bad` exactly where no spelling
/// at all begins with the octets up to and with it, else `Deep` where none of a value of that depth or less does,
/// else `Long` (ISO 8825, 8.1; limits of this profile).
pub fn read(alloc: Global, octets: &[u8]) -> Result<(Value, usize), BerError>
    ensures { IsAnswer result octets.now }
{
    read_of(alloc, None, octets)
}

/// Reads the value that the octets begin with, and says how many octets it took, as `read` does; its octets are not
/// copied, but shared with these.
pub fn read_shared(alloc: Global, octets: &Octets) -> Result<(Value, usize), BerError>
    ensures { IsAnswer result octets.now }
{
    read_of(alloc, Some(octets), octets.as_slice())
}

/// Reads a value out of octets, which end those that are kept, where some are: its octets are then shared with them.
fn read_of(alloc: Global, kept: Option<&Octets>, octets: &[u8]) -> Result<(Value, usize), BerError>
    requires { IfSome kept (λ all. Ends all.now octets.now) }
    ensures { IsAnswer result octets.now }
{
    let Some((first, tail)) = first_of(octets) else {
        return Err(BerError::Short);
    };
    let most = Room::Within(MOST_VALUE_OCTETS as u64);
    match value_of(alloc, kept, first, tail, MOST_DEPTH, most) {
        Ok((value, rest)) => Ok((value, octets.len() - rest.len())),
        Err(Fault::Short) => Err(BerError::Short),
        Err(Fault::Bad(left)) => Err(BerError::Bad {
            at: (octets.len() - left) as u32,
        }),
        Err(Fault::Deep(left)) => Err(BerError::Deep {
            at: (octets.len() - left) as u32,
        }),
        Err(Fault::Long(left)) => Err(BerError::Long {
            at: (octets.len() - left) as u32,
        }),
        Err(Fault::NoMemory) => Err(BerError::NoMemory),
    }
}

/// Reads a value, and gives what is after it.
#[cycle(read_value)]
fn value_of<'a>(
    alloc: Global,
    kept: Option<&Octets>,
    first: u8,
    tail: &'a [u8],
    depth: u32,
    room: Room,
) -> Result<(Value, &'a [u8]), Fault>
    requires kept { IfSome kept (λ all. Ends all.now (first ∷ tail.now)) }
    ensures got { IfOk result (λ x. Got (ValuesIn depth room) (first ∷ tail.now) (tree_of x.0) x.1.now) }
    ensures failed { IfErr result (λ e. Failed (ValuesIn depth room) (first ∷ tail.now) e) }
{
    let (name, rest) = name_of(first, tail, depth, room)?;
    let around = Around {
        depth,
        room,
        prefix: (tail.len() + 1 - rest.len()) as u64,
        constructed: name.constructed,
    };
    let (size, contents) = size_of(rest, around)?;
    let prefix = (tail.len() + 1 - contents.len()) as u64;
    contents_of(
        alloc,
        kept,
        contents,
        Around { prefix, ..around },
        name.tag,
        size,
    )
}

/// Reads the contents of a value after its identifier and its length.
#[cycle(read_value)]
fn contents_of<'a>(
    alloc: Global,
    kept: Option<&Octets>,
    octets: &'a [u8],
    around: Around,
    tag: Tag,
    size: Option<u64>,
) -> Result<(Value, &'a [u8]), Fault>
    requires kept { IfSome kept (λ all. Ends all.now octets.now) }
    requires deep { has_depth bounded around.depth ≡ true }
    requires fits { size_fits bounded around.depth around.room around.prefix around.constructed size ≡ true }
    ensures got { IfOk result (λ x. Got (Contents around.depth around.room around.prefix (named around.constructed (tag_of tag)) size) octets.now (tree_of x.0) x.1.now) }
    ensures failed { IfErr result (λ e. Failed (Contents around.depth around.room around.prefix (named around.constructed (tag_of tag)) size) octets.now e) }
{
    let Some(n) = size else {
        let (ended, rest) = ended_of(
            alloc,
            kept,
            octets,
            around.depth - 1,
            less(around.room, around.prefix),
        )?;
        return Ok((Value::Built { tag, parts: ended }, rest));
    };
    if around.constructed {
        let (parts, rest) = parts_of(alloc, kept, octets, around.depth - 1, n)?;
        return Ok((Value::Built { tag, parts }, rest));
    }
    plain_of(alloc, kept, octets, tag, n)
}

/// Takes the contents of a primitive value, which are `n` octets.
fn plain_of<'a>(
    alloc: Global,
    kept: Option<&Octets>,
    octets: &'a [u8],
    tag: Tag,
    n: u64,
) -> Result<(Value, &'a [u8]), Fault>
    requires kept { IfSome kept (λ all. Ends all.now octets.now) }
    ensures got { IfOk result (λ x. Got (Definite 0 n false (tag_of tag)) octets.now (tree_of x.0) x.1.now) }
    ensures failed { IfErr result (λ e. Failed (Definite 0 n false (tag_of tag)) octets.now e) }
{
    if (octets.len() as u64) < n {
        return Err(Fault::Short);
    }
    let content = content_of(alloc, kept, octets, n as usize)?;
    let (_, rest) = octets.split_at(n as usize);
    Ok((
        Value::Plain {
            tag,
            octets: content,
        },
        rest,
    ))
}

/// The first `n` octets, shared or copied.
fn content_of(
    alloc: Global,
    kept: Option<&Octets>,
    octets: &[u8],
    n: usize,
) -> Result<Octets, NoMemory>
    requires within { n ≤ length octets.now }
    requires kept { IfSome kept (λ all. Ends all.now octets.now) }
    ensures { IfOk result (λ made. made ≡ take n octets.now) }
{
    match kept {
        Some(all) => all.slice(all.len() - octets.len(), n),
        None => {
            let (content, _) = octets.split_at(n);
            Octets::of(alloc, content)
        }
    }
}

/// Reads values in turn that take `len` octets.
#[cycle(read_value)]
fn parts_of<'a>(
    alloc: Global,
    kept: Option<&Octets>,
    octets: &'a [u8],
    depth: u32,
    len: u64,
) -> Result<(Values, &'a [u8]), Fault>
    requires kept { IfSome kept (λ all. Ends all.now octets.now) }
    requires some { len ≢ 1 }
    requires deep { 0 < len → 0 < depth }
    ensures got { IfOk result (λ x. Got (Parts depth len) octets.now x.0 x.1.now) }
    ensures failed { IfErr result (λ e. Failed (Parts depth len) octets.now e) }
{
    let mut parts = Values::new(alloc);
    let mut rest = octets;
    let mut left = len;
    while left > 0 {
        let Some((first, tail)) = first_of(rest) else {
            return Err(Fault::Short);
        };
        let (part, after) = value_of(alloc, kept, first, tail, depth, Room::Exact(left))?;
        parts.push(part)?;
        left -= (rest.len() - after.len()) as u64;
        rest = after;
    }
    Ok((parts, rest))
}

/// Reads values in turn up to the end of contents.
#[cycle(read_value)]
fn ended_of<'a>(
    alloc: Global,
    kept: Option<&Octets>,
    octets: &'a [u8],
    depth: u32,
    room: Room,
) -> Result<(Values, &'a [u8]), Fault>
    requires kept { IfSome kept (λ all. Ends all.now octets.now) }
    requires roomy { fits bounded room 2 ≡ true }
    ensures got { IfOk result (λ x. Got (Ended depth room) octets.now x.0 x.1.now) }
    ensures failed { IfErr result (λ e. Failed (Ended depth room) octets.now e) }
{
    let mut parts = Values::new(alloc);
    let mut rest = octets;
    let mut room = room;
    while let Some((first, tail)) = first_of(rest) {
        if first == 0 {
            let after = end_of(tail)?;
            return Ok((parts, after));
        }
        let (part, after) = value_of(alloc, kept, first, tail, depth, less(room, 2))?;
        parts.push(part)?;
        room = less(room, (rest.len() - after.len()) as u64);
        rest = after;
    }
    Err(Fault::Short)
}

/// Reads the second octet of the end of contents, and gives what is after it.
fn end_of(octets: &[u8]) -> Result<&[u8], Fault>
    ensures ok { IfOk result (λ rest. octets.now ≡ 0 ∷ rest.now) }
    ensures err { IfErr result (λ e. IsNoEnd octets.now e) }
{
    let Some((second, rest)) = first_of(octets) else {
        return Err(Fault::Short);
    };
    if second != 0 {
        return Err(Fault::Bad(octets.len()));
    }
    Ok(rest)
}
