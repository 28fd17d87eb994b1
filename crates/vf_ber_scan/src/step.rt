//! What octets change at a place. It has ended with the last of them where no value goes on with it, or where it is the
//! last of the outermost value, which is whole then.
ghost use Rattle.std.specs.Prelude.{◌≡◌, ◌+◌, ◌^◌, ◌<◌, ◌≤◌, ◌≢◌, ◌∷◌, ◌++◌, ℕ, length, take};
ghost use Rattle.vf_ber.specs.Steps.{grown};
ghost use Rattle.vf_ber_scan.specs.Frames.{depth_in, room_in};
ghost use Rattle.vf_ber_scan.specs.Places.{IsGoing, IsOpen};
ghost use Rattle.vf_ber_scan.specs.Continuation.{after, contents_progress, Leads, value_progress, progress_at};
ghost use Rattle.vf_ber_scan.specs.Progress.{Wanting};

use crate::frames::{Frame, Frames};
use crate::place::{Next, Place};
use vf_ber::MOST_DEPTH;
use vf_ber::fitting::{Around, Asked, Room, is_first, is_length, is_reached, is_second, less};

/// Takes the first octet of the rest, or as many as there are of the contents at hand, and says how many these are.
pub fn advance(place: Place, frames: &mut Frames, rest: &[u8]) -> (usize, Next)
    requires is_open { IsOpen place frames.old }
    requires some { 0 < length rest.now }
    ensures some { 0 < result.0 }
    ensures within { result.0 ≤ length rest.now }
    ensures short { (m : ℕ) → m < result.0 → progress_at place frames.old (take m rest.now) ≡ Wanting }
    ensures leads { Leads (λ more. progress_at place frames.old (take result.0 rest.now ++ more)) result.1 frames.new }
{
    let Place::Contents { left } = place else {
        return (1, after_octet(place, frames, rest[0]));
    };
    if (rest.len() as u64) < left {
        let left = left - rest.len() as u64;
        return (rest.len(), Next::At(Place::Contents { left }));
    }
    (left as usize, after_value(frames))
}

fn after_octet(place: Place, frames: &mut Frames, octet: u8) -> Next
    requires is_open { IsOpen place frames.old }
    requires other { (left : ℕ) → place ≢ Place.Contents left }
    ensures { Leads (λ more. progress_at place frames.old (octet ∷ more)) result frames.new }
{
    match place {
        Place::Start => after_start(frames, octet),
        Place::Second { constructed } => after_second(frames, constructed, octet),
        Place::Third { constructed } => after_third(frames, constructed, octet),
        Place::Length {
            constructed,
            prefix,
        } => after_length(frames, constructed, prefix, octet),
        Place::Digits {
            constructed,
            prefix,
            more,
            high,
        } => after_digit(frames, constructed, prefix, more, high, octet),
        Place::Contents { .. } => unreachable!(),
        Place::End { room } => after_end(frames, room, octet),
    }
}

/// At the beginning of a value, or of the end of contents.
fn after_start(frames: &mut Frames, octet: u8) -> Next
    requires { IsGoing frames.old }
    ensures { Leads (λ more. progress_at Place.Start frames.old (octet ∷ more)) result frames.new }
{
    let Some(room) = frames.end_room() else {
        return after_first(frames, octet);
    };
    if octet != 0 {
        return after_first(frames, octet);
    }
    frames.pop();
    Next::At(Place::End { room })
}

fn after_first(frames: &Frames, first: u8) -> Next
    ensures { Leads (λ more. value_progress frames.now (first ∷ more)) result frames.now }
{
    if !is_first(Asked::Bounded, frames.depth(), frames.room(), first) {
        return Next::Ended { whole: false };
    }
    let constructed = first / 32 % 2 == 1;
    if first % 32 < 31 {
        Next::At(Place::Length {
            constructed,
            prefix: 1,
        })
    } else {
        Next::At(Place::Second { constructed })
    }
}

fn after_second(frames: &Frames, constructed: bool, second: u8) -> Next
    requires { IsOpen (Place.Second constructed) frames.now }
    ensures { Leads (λ more. progress_at (Place.Second constructed) frames.now (second ∷ more)) result frames.now }
{
    if !is_second(Asked::Bounded, frames.room(), second) {
        return Next::Ended { whole: false };
    }
    if second < 128 {
        Next::At(Place::Length {
            constructed,
            prefix: 2,
        })
    } else {
        Next::At(Place::Third { constructed })
    }
}

fn after_third(frames: &Frames, constructed: bool, third: u8) -> Next
    requires { IsOpen (Place.Third constructed) frames.now }
    ensures { Leads (λ more. progress_at (Place.Third constructed) frames.now (third ∷ more)) result frames.now }
{
    if third < 128 {
        Next::At(Place::Length {
            constructed,
            prefix: 3,
        })
    } else {
        Next::Ended { whole: false }
    }
}

fn around(frames: &Frames, constructed: bool, prefix: u64) -> Around
    ensures { result ≡ record { depth = depth_in frames.now; room = room_in frames.now; prefix = prefix; constructed = constructed } }
{
    Around {
        depth: frames.depth(),
        room: frames.room(),
        prefix,
        constructed,
    }
}

fn after_length(frames: &mut Frames, constructed: bool, prefix: u64, octet: u8) -> Next
    requires { IsOpen (Place.Length constructed prefix) frames.old }
    ensures { Leads (λ more. progress_at (Place.Length constructed prefix) frames.old (octet ∷ more)) result frames.new }
{
    if !is_length(Asked::Bounded, around(frames, constructed, prefix), octet) {
        return Next::Ended { whole: false };
    }
    if octet < 128 {
        return after_header(frames, constructed, prefix + 1, Some(octet as u64));
    }
    if octet == 128 {
        return after_header(frames, constructed, prefix + 1, None);
    }
    let more = octet - 128;
    Next::At(Place::Digits {
        constructed,
        prefix: prefix + 1 + more as u64,
        more: more as u32,
        high: 0,
    })
}

fn after_digit(
    frames: &mut Frames,
    constructed: bool,
    prefix: u64,
    more: u32,
    high: u64,
    digit: u8,
) -> Next
    requires { IsOpen (Place.Digits constructed prefix more high) frames.old }
    ensures { Leads (λ rest. progress_at (Place.Digits constructed prefix more high) frames.old (digit ∷ rest)) result frames.new }
{
    let high = 256 * high + digit as u64;
    let more = more - 1;
    if !is_reached(
        Asked::Bounded,
        around(frames, constructed, prefix),
        more,
        high,
    ) {
        return Next::Ended { whole: false };
    }
    if more == 0 {
        return after_header(frames, constructed, prefix, Some(high));
    }
    Next::At(Place::Digits {
        constructed,
        prefix,
        more,
        high,
    })
}

/// After the identifier and the length of a value.
fn after_header(frames: &mut Frames, constructed: bool, prefix: u64, size: Option<u64>) -> Next
    requires { length frames.old < MOST_DEPTH }
    ensures { Leads (λ more. contents_progress frames.old prefix constructed size more) result frames.new }
{
    let Some(n) = size else {
        let room = less(frames.room(), prefix);
        frames.push(Frame::Indefinite { room });
        return Next::At(Place::Start);
    };
    frames.take(prefix);
    frames.take(n);
    if constructed {
        frames.push(Frame::Definite { left: n });
        return after_value(frames);
    }
    if n == 0 {
        return after_value(frames);
    }
    Next::At(Place::Contents { left: n })
}

/// At the second octet of an end of contents.
fn after_end(frames: &mut Frames, room: Room, octet: u8) -> Next
    ensures { Leads (λ more. progress_at (Place.End room) frames.old (octet ∷ more)) result frames.new }
{
    if octet != 0 {
        return Next::Ended { whole: false };
    }
    frames.resume(room);
    after_value(frames)
}

/// After a value, with which some of those around it may end.
fn after_value(frames: &mut Frames) -> Next
    ensures { Leads (λ more. after frames.old more) result frames.new }
{
    while let Some(frame) = frames.top() {
        let Frame::Definite { left } = frame else {
            return Next::At(Place::Start);
        };
        if left > 0 {
            return Next::At(Place::Start);
        }
        frames.pop();
    }
    Next::Ended { whole: true }
}
