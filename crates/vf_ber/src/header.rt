//! Reading identifiers and lengths, octet by octet.
ghost use Rattle.std.specs.Prelude.{◌≡◌, ◌≢◌, ◌+◌, ◌-◌, ◌*◌, ◌≤◌, ◌<◌, ◌^◌, ◌∷◌, IfErr, IfOk, IfSome, length, MatchOption, [], true, false, Some, None};
ghost use Rattle.vf_ber.specs.Steps.{Digits, Failed, first_fits, Got, grown as grown_of, is_roomy, Names, reaches, Sizes};
ghost use Rattle.vf_ber.specs.Reading.{bounded};
ghost use Rattle.vf_ber.specs.Views.{name_of as said};

use crate::Tag;
use crate::fault::Fault;
use crate::fitting::{Around, check_digit, check_first, check_length, check_second};
use crate::room::Room;

/// What an identifier says.
#[derive(Clone, Copy)]
pub struct Name {
    pub constructed: bool,
    pub tag: Tag,
}

/// The first octet and those after it.
pub fn first_of(octets: &[u8]) -> Option<(u8, &[u8])>
    ensures parts { MatchOption result (octets.now ≡ []) (λ x. octets.now ≡ x.0 ∷ x.1.now) }
    ensures small { IfSome result (λ x. x.0 < 256) }
{
    match octets {
        [] => None,
        [first, tail @ ..] => Some((*first, tail)),
    }
}

/// Reads an identifier, and gives what is after it.
pub fn name_of(first: u8, tail: &[u8], depth: u32, room: Room) -> Result<(Name, &[u8]), Fault>
    ensures got { IfOk result (λ x. Got (Names depth room) (first ∷ tail.now) (said x.0) x.1.now) }
    ensures failed { IfErr result (λ e. Failed (Names depth room) (first ∷ tail.now) e) }
    ensures near { IfOk result (λ x. length tail.now ≤ length x.1.now + 2) }
{
    check_first(depth, room, first, tail.len() + 1)?;
    let constructed = first / 32 % 2 == 1;
    let class = first / 64;
    let low = first % 32;
    if low < 31 {
        let tag = Tag {
            class,
            number: low as u16,
        };
        return Ok((Name { constructed, tag }, tail));
    }
    let Some((second, tail)) = first_of(tail) else {
        return Err(Fault::Short);
    };
    check_second(room, second, tail.len() + 1)?;
    if second < 128 {
        let tag = Tag {
            class,
            number: second as u16,
        };
        return Ok((Name { constructed, tag }, tail));
    }
    let Some((third, rest)) = first_of(tail) else {
        return Err(Fault::Short);
    };
    if third >= 128 {
        return Err(Fault::Bad(tail.len()));
    }
    let number = 128 * (second as u16 - 128) + third as u16;
    let tag = Tag { class, number };
    Ok((Name { constructed, tag }, rest))
}

/// Reads a length after an identifier; an indefinite one is `None`.
pub fn size_of(octets: &[u8], around: Around) -> Result<(Option<u64>, &[u8]), Fault>
    requires prefix { around.prefix ≤ 3 }
    requires roomy { is_roomy bounded around.room (around.prefix + 1) ≡ true }
    ensures got { IfOk result (λ x. Got (Sizes around.depth around.room around.prefix around.constructed) octets.now x.0 x.1.now) }
    ensures failed { IfErr result (λ e. Failed (Sizes around.depth around.room around.prefix around.constructed) octets.now e) }
{
    let Some((first, tail)) = first_of(octets) else {
        return Err(Fault::Short);
    };
    check_length(around, first, octets.len())?;
    if first < 128 {
        return Ok((Some(first as u64), tail));
    }
    if first == 128 {
        return Ok((None, tail));
    }
    let more = first - 128;
    let prefix = around.prefix + 1 + more as u64;
    let (n, rest) = digits_of(tail, Around { prefix, ..around }, more as u32, 0)?;
    Ok((Some(n), rest))
}

/// Reads the octets of a length that are still to come after those of `high`.
fn digits_of(octets: &[u8], around: Around, more: u32, high: u64) -> Result<(u64, &[u8]), Fault>
    requires prefix { around.prefix ≤ 12 }
    requires small { grown_of more (high + 1) ≤ 2 ^ 64 }
    requires begun { reaches bounded around.depth around.room around.prefix around.constructed more high ≡ true }
    ensures got { IfOk result (λ x. Got (Digits around.depth around.room around.prefix around.constructed more high) octets.now x.0 x.1.now) }
    ensures failed { IfErr result (λ e. Failed (Digits around.depth around.room around.prefix around.constructed more high) octets.now e) }
{
    if more == 0 {
        return Ok((high, octets));
    }
    let Some((digit, tail)) = first_of(octets) else {
        return Err(Fault::Short);
    };
    let high = 256 * high + digit as u64;
    check_digit(around, more - 1, high, octets.len())?;
    digits_of(tail, around, more - 1, high)
}
