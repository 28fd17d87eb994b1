//! A scan of one value after another, in pieces.
ghost use Rattle.vf_ber_scan.specs.Places.{IsOpen, IsOpen-prop};

use crate::frames::Frames;
use crate::place::{Next, Place};
use crate::step::advance;

/// Where a value ends: so many octets of a piece are taken with it.
#[derive(Clone, Copy)]
pub(crate) struct End {
    pub len: usize,
    /// It is whole; else it is faulty.
    pub whole: bool,
}

/// The octets of a value so far, where more are wanting (ISO 8825; limits of this profile): not the octets, but
/// what all come to with any that follow. It is of a fixed size.
#[derive(Drop)]
pub struct Scan {
    place: Place,
    frames: Frames,
    ghost is_open: { IsOpen place frames } by { IsOpen-prop place frames },
}

#[tactic(auto, unfolding(crate::specs::Tells::tells))]
impl Scan {
    ghost use Rattle.std.specs.Prelude.{◌≡◌, ◌+◌, ◌<◌, ◌≤◌, ◌++◌, [], ℕ, List, IfSome, OnSome, length};
    ghost use Rattle.vf_ber_scan.specs.Ends.{IsEnded};
    ghost use Rattle.vf_ber_scan.specs.Scanned.{HasTaken, IsFed};

    /// No octets.
    pub fn new() -> Scan
        ensures { HasTaken result [] }
    {
        Scan {
            place: Place::Start,
            frames: Frames::new(),
        }
    }

    /// Takes the next piece of the octets. Answers how many octets of it, at least one, there are up to the first
    /// with which none are wanting, and then goes on as a new scan; the others of the piece aren't looked at. `None`
    /// where octets are still wanting after all of them.
    pub fn feed(&mut self, piece: &[u8]) -> Option<usize>
        ensures within { IfSome result (λ n. (0 < n) × (n ≤ length piece.now)) }
        ensures fed { (octets : List ℕ) → HasTaken self.old octets → IsFed octets piece.now result self.new }
        ensures anew { OnSome result (HasTaken self.new []) }
    {
        let Some(end) = self.end_in(piece) else {
            return None;
        };
        Some(end.len)
    }

    /// The same, and how the value ends there.
    pub(crate) fn end_in(&mut self, piece: &[u8]) -> Option<End>
        ensures within { IfSome result (λ end. (0 < end.len) × (end.len ≤ length piece.now)) }
        ensures ended { (octets : List ℕ) → HasTaken self.old octets → IsEnded octets piece.now result self.new }
        ensures anew { OnSome result (HasTaken self.new []) }
    {
        let mut taken = 0;
        while taken < piece.len() {
            let (_, rest) = piece.split_at(taken);
            let (n, next) = advance(self.place, &mut self.frames, rest);
            taken += n;
            match next {
                Next::At(place) => self.place = place,
                Next::Ended { whole } => {
                    self.place = Place::Start;
                    self.frames.clear();
                    return Some(End { len: taken, whole });
                }
            }
        }
        None
    }

    /// Forgets the octets.
    pub fn clear(&mut self)
        ensures { HasTaken self.new [] }
    {
        self.place = Place::Start;
        self.frames.clear();
    }
}
