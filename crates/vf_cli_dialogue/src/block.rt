//! A block of octets that a source fills again when it is empty.
ghost use Rattle.std.specs.Prelude.{◌≡◌, ◌<◌, ◌≤◌, length, slice_index, IfOk, None, OnErr, drop, []};
ghost use Rattle.vf_base.specs.Faults.{HasRisen, NeverFalls};
ghost use Rattle.vf_cli_dialogue.specs.Hex.{half_of};
ghost use Rattle.vf_cli_dialogue.specs.Lines.{IsInLine};
ghost use Rattle.vf_cli_dialogue.specs.Reader.{with_prefix, IsFilled, MovesDigits, Stops};

use crate::hex::Digits;
use std::alloc::Global;
use std::marker::Model;
use vf_base::{Failed, NoMemory, Source};

/// Octets that were read and not yet used, in room for a block.
#[derive(Drop)]
pub(crate) struct Block {
    octets: Vec<u8>,
    place: usize,
    end: usize,
}

/// What stands after the digits that octets begin with.
#[derive(Clone, Copy)]
pub(crate) enum Stop {
    /// A line feed.
    Feed,
    /// An octet that is neither a digit nor a line feed.
    Other,
    /// Nothing.
    End,
}

impl Model for Block {
    ghost use Rattle.std.specs.Prelude.{ℕ, List, ◌<◌, ◌≤◌, length, take, drop};

    ghost Value = { List ℕ };

    ghost view = { λ block. drop block.place (take block.end block.octets.items) };

    ghost invariant = { λ block. (block.place ≤ block.end) × (block.end ≤ length block.octets.items) × (0 < length block.octets.items) };
}

impl Block {
    /// An empty block with room for so many octets.
    pub(crate) fn new(alloc: Global, room: usize) -> Result<Block, NoMemory>
        requires { 0 < room }
        ensures { IfOk result (λ block. block ≡ []) }
    {
        let mut octets = Vec::new(alloc);
        octets.resize(room, 0)?;
        Ok(Block {
            octets,
            place: 0,
            end: 0,
        })
    }

    /// Reads octets into an empty block, and says whether there were any.
    pub(crate) fn fill<S: Source>(&mut self, input: &mut S) -> Result<bool, Failed>
        requires { self.old ≡ [] }
        ensures octets { with_prefix self.new (S.left input.new) ≡ S.left input.old }
        ensures filled { IfOk result (IsFilled self.new (S.left input.new)) }
        ensures err { OnErr result (self.new ≡ []) }
        ensures falls { NeverFalls (S.fault_count input.old) (S.fault_count input.new) }
        ensures failed { OnErr result (HasRisen (S.fault_count input.old) (S.fault_count input.new)) }
    {
        self.place = 0;
        self.end = 0;
        let count = input.read(self.octets.as_mut_slice())?;
        self.end = count;
        Ok(count > 0)
    }

    /// Moves the first digits to others, and says what stands after them.
    pub(crate) fn move_digits(&mut self, digits: &mut Digits) -> Result<Stop, NoMemory>
        ensures ok { IfOk result (λ stop. MovesDigits self.old self.new digits.old digits.new stop) }
        ensures line { IsInLine digits.new }
        ensures err { OnErr result ((self.new ≡ self.old) × (digits.new ≡ digits.old)) }
    {
        let octets = &self.octets[self.place..self.end];
        let count = digits.take(octets)?;
        let stop = stop_at(octets, count);
        self.place += count;
        Ok(stop)
    }

    /// Passes the next octet over.
    pub(crate) fn skip(&mut self)
        requires { 0 < length self.old }
        ensures { self.new ≡ drop 1 self.old }
    {
        self.place += 1;
    }
}

/// What stands at a place.
fn stop_at(octets: &[u8], place: usize) -> Stop
    requires within { place ≤ length octets.now }
    requires stopped { place < length octets.now → half_of (slice_index octets.now place) ≡ None }
    ensures { Stops result (drop place octets.now) }
{
    if place == octets.len() {
        return Stop::End;
    }
    if octets[place] == 10 {
        return Stop::Feed;
    }
    Stop::Other
}
