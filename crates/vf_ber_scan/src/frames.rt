//! The values that are open around a place.
ghost use Rattle.std.specs.Prelude.{◌≡◌, ◌<◌, ◌≤◌, ◌∷◌, [], drop, length, slice_get};
ghost use Rattle.vf_ber_scan.specs.Frames.{depth_in, end_room_in, ended_in, less_in, octets_in, room_in};

use std::marker::Model;
use vf_base::MOST_VALUE_OCTETS;
use vf_ber::MOST_DEPTH;
use vf_ber::fitting::{Room, less};

/// A constructed value whose contents aren't whole.
#[derive(Clone, Copy)]
pub enum Frame {
    /// Of a definite length, with so many octets of its contents to come after the value that is open in it.
    Definite { left: u64 },
    /// Of an indefinite length, with so much room for its contents and their end, from the beginning on of the value
    /// that is open in it.
    Indefinite { room: Room },
}

/// How many values may be open.
const DEPTH: usize = MOST_DEPTH as usize;

/// The open values, each in the one before it.
#[derive(Drop)]
pub struct Frames {
    /// The outermost first; those from `count` on mean nothing.
    held: [Frame; DEPTH],
    count: usize,
}

impl Model for Frames {
    ghost use Rattle.std.specs.Prelude.{◌≤◌, List};
    ghost use Rattle.vf_ber.specs.declared.limits.TheConstants.{MOST_DEPTH};
    ghost use Rattle.vf_ber_scan.specs.declared.frames.Frame.{Frame};
    ghost use Rattle.vf_ber_scan.specs.Frames.{innermost_first};

    ghost Value = { List Frame };

    ghost view = { λ f. innermost_first f.count f.held };

    ghost invariant = { λ f. f.count ≤ MOST_DEPTH };
}

impl Frames {
    pub fn new() -> Frames
        ensures { result ≡ [] }
    {
        Frames {
            held: [Frame::Definite { left: 0 }; DEPTH],
            count: 0,
        }
    }

    /// Ends all values.
    pub fn clear(&mut self)
        ensures { self.new ≡ [] }
    {
        self.count = 0;
    }

    /// How deep a value may be here.
    pub fn depth(&self) -> u32
        ensures { result ≡ depth_in self.now }
    {
        (DEPTH - self.count) as u32
    }

    /// How many octets a value may take here.
    pub fn room(&self) -> Room
        ensures { result ≡ room_in self.now }
    {
        match self.top() {
            None => Room::Within(MOST_VALUE_OCTETS as u64),
            Some(Frame::Definite { left }) => Room::Exact(left),
            Some(Frame::Indefinite { room }) => less(room, 2),
        }
    }

    /// The innermost value.
    pub fn top(&self) -> Option<Frame>
        ensures { result ≡ slice_get self.now 0 }
    {
        if self.count == 0 {
            return None;
        }
        Some(self.held[self.count - 1])
    }

    /// The room of the innermost value, where its end of contents may come.
    pub fn end_room(&self) -> Option<Room>
        ensures { result ≡ end_room_in self.now }
    {
        match self.top() {
            None => None,
            Some(Frame::Definite { .. }) => None,
            Some(Frame::Indefinite { room }) => Some(room),
        }
    }

    /// Opens a value in the innermost one.
    pub fn push(&mut self, frame: Frame)
        requires { length self.old < MOST_DEPTH }
        ensures { self.new ≡ frame ∷ self.old }
    {
        self.held[self.count] = frame;
        self.count += 1;
    }

    /// Ends the innermost value.
    pub fn pop(&mut self)
        requires { 0 < length self.old }
        ensures { self.new ≡ drop 1 self.old }
    {
        self.count -= 1;
    }

    /// Takes octets of a value from what is left around it.
    pub fn take(&mut self, n: u64)
        ensures { self.new ≡ less_in self.old n }
    {
        if self.count == 0 {
            return;
        }
        let at = self.count - 1;
        self.held[at] = lessened(self.held[at], n);
    }

    /// Sets what is left around a value of an indefinite length, by the room that was left in it before its end of
    /// contents.
    pub fn resume(&mut self, room: Room)
        ensures { self.new ≡ ended_in self.old room }
    {
        if self.count == 0 {
            return;
        }
        let at = self.count - 1;
        self.held[at] = resumed(self.held[at], room);
    }
}

fn lessened(frame: Frame, n: u64) -> Frame
    ensures { (result ∷ []) ≡ less_in (frame ∷ []) n }
{
    match frame {
        Frame::Definite { left } => Frame::Definite {
            left: left.saturating_sub(n),
        },
        Frame::Indefinite { room } => Frame::Indefinite {
            room: less(room, n),
        },
    }
}

fn resumed(frame: Frame, room: Room) -> Frame
    ensures { (result ∷ []) ≡ ended_in (frame ∷ []) room }
{
    match frame {
        Frame::Definite { .. } => Frame::Definite {
            left: room_octets(room).saturating_sub(2),
        },
        Frame::Indefinite { .. } => Frame::Indefinite { room },
    }
}

fn room_octets(room: Room) -> u64
    ensures { result ≡ octets_in room }
{
    match room {
        Room::Exact(most) => most,
        Room::Within(most) => most,
    }
}
