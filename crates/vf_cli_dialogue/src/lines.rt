//! A reader of lines, which spell pieces in hexadecimal, over a source that is read in blocks.
ghost use Rattle.std.specs.Prelude.{◌≡◌, ◌≤◌, ◌<◌, ◌++◌, [], IfOk, IsErrOf, OnErr};
ghost use Rattle.vf_base.specs.Faults.{HasRisen, NeverFalls};
ghost use Rattle.vf_cli_dialogue.specs.Lines.{IsInLine};
ghost use Rattle.vf_cli_dialogue.specs.Reader.{with_prefix, will_say, Answers, EndsAt, Finds, Progresses};

use crate::block::{Block, Stop};
use crate::hex::Digits;
use std::alloc::Global;
use std::marker::Model;
use vf_base::{Failed, NoMemory, Source};

/// The octets of input, line feeds among them, after which no line may end (profile).
const INPUT_LIMIT: usize = 67_108_864;

/// The octets that are read at once.
const BLOCK: usize = 65_536;

/// What comes next in an input.
#[derive(Clone, Copy)]
pub(crate) enum NextLine {
    /// The piece that a good line spells.
    Piece,
    /// A bad line, with its number from 1.
    Bad(usize),
    /// The end after a good line, or of an empty input.
    End,
}

/// Why no line could be read.
#[derive(Clone, Copy)]
pub(crate) enum LineError {
    /// The source failed.
    Failed,
    /// Memory is wanting.
    NoMemory,
}

impl From<Failed> for LineError {
    ghost use Rattle.std.specs.Prelude.{◌≡◌};
    ghost use Rattle.vf_cli_dialogue.specs.declared.lines.LineError.TheVariants as errors;

    ghost from_gives = { λ _ error. error ≡ errors.Failed };

    fn from(_error: Failed) -> LineError {
        LineError::Failed
    }
}

impl From<NoMemory> for LineError {
    ghost use Rattle.std.specs.Prelude.{◌≡◌};
    ghost use Rattle.vf_cli_dialogue.specs.declared.lines.LineError.TheVariants as errors;

    ghost from_gives = { λ _ error. error ≡ errors.NoMemory };

    fn from(_error: NoMemory) -> LineError {
        LineError::NoMemory
    }
}

/// Reads a source line by line, and no more of it than a block beyond the line that is asked for. What a line spells is
/// read block by block, so that its digits aren't kept.
#[derive(Drop)]
pub(crate) struct LineReader {
    block: Block,
    /// The digits before the block, which belong to one line.
    digits: Digits,
    /// The octets of the lines that were answered.
    count: usize,
    /// The number of the next line, from 1.
    number: usize,
}

impl Model for LineReader {
    ghost use Rattle.std.specs.Prelude.{◌+◌, ◌++◌, ◌≤◌};
    ghost use Rattle.vf_cli_dialogue.specs.Lines.{input_limit};
    ghost use Rattle.vf_cli_dialogue.specs.Lines.{IsInLine};
    ghost use Rattle.vf_cli_dialogue.specs.Reader.{Place};

    ghost Value = { Place };

    ghost view = { λ reader. record { count = reader.count; number = reader.number; ahead = reader.digits ++ reader.block } };

    ghost invariant = { λ reader. (reader.count ≤ input_limit) × (reader.number ≤ reader.count + 1) };
}

impl LineReader {
    /// A reader at the begin of an input.
    pub(crate) fn new(alloc: Global) -> Result<LineReader, NoMemory>
        ensures { IfOk result (λ reader. reader ≡ record { count = 0; number = 1; ahead = [] }) }
    {
        let block = Block::new(alloc, BLOCK)?;
        Ok(LineReader {
            block,
            digits: Digits::new(alloc),
            count: 0,
            number: 1,
        })
    }

    /// What comes next; a piece is put in place of what `piece` has, which else stays. Where no piece is answered, as
    /// where memory is wanting, the next call answers what this one did, or could have.
    pub(crate) fn next<S: Source>(
        &mut self,
        input: &mut S,
        piece: &mut Vec<u8>,
    ) -> Result<NextLine, LineError>
        ensures answers { Answers (will_say self.old (S.left input.old)) (will_say self.new (S.left input.new)) piece.new.items result }
        ensures err { OnErr result (piece.new.items ≡ piece.old.items) }
        ensures progresses { IfOk result (Progresses self.old.count self.new.count piece.new.items) }
        ensures falls { NeverFalls (S.fault_count input.old) (S.fault_count input.new) }
        ensures failed { IsErrOf result LineError.Failed → HasRisen (S.fault_count input.old) (S.fault_count input.new) }
    {
        let room = INPUT_LIMIT - self.count;
        match find_end(&mut self.block, &mut self.digits, room, input)? {
            Found::Feed => {}
            Found::Bad => return Ok(NextLine::Bad(self.number)),
            Found::Nothing => return Ok(NextLine::End),
        }
        let count = self.count + self.digits.len() + 1;
        if count > INPUT_LIMIT {
            return Ok(NextLine::Bad(self.number));
        }
        if !self.digits.finish(piece) {
            return Ok(NextLine::Bad(self.number));
        }
        self.block.skip();
        self.count = count;
        self.number += 1;
        Ok(NextLine::Piece)
    }
}

/// Where a search for the end of a line ended.
enum Found {
    /// At the line feed.
    Feed,
    /// Within a bad line: one that has another octet than digits, that ends after the limit, or that has no end.
    Bad,
    /// At the end of the input, where no line began.
    Nothing,
}

/// Moves the digits before the next line feed to those of a line that has room for so many, and reads on where more may
/// come.
fn find_end<S: Source>(
    block: &mut Block,
    digits: &mut Digits,
    room: usize,
    input: &mut S,
) -> Result<Found, LineError>
    ensures octets { with_prefix (digits.new ++ block.new) (S.left input.new) ≡ with_prefix (digits.old ++ block.old) (S.left input.old) }
    ensures line { IsInLine digits.new }
    ensures found { IfOk result (Finds room digits.new block.new (S.left input.new)) }
    ensures falls { NeverFalls (S.fault_count input.old) (S.fault_count input.new) }
    ensures failed { IsErrOf result LineError.Failed → HasRisen (S.fault_count input.old) (S.fault_count input.new) }
{
    loop {
        let stop = block.move_digits(digits)?;
        if digits.len() > room {
            return Ok(Found::Bad);
        }
        match stop {
            Stop::Feed => return Ok(Found::Feed),
            Stop::Other => return Ok(Found::Bad),
            Stop::End => {}
        }
        if !block.fill(input)? {
            return Ok(found_at_end(digits));
        }
    }
}

/// What an input that ends after these digits of a line has there.
fn found_at_end(digits: &Digits) -> Found
    ensures { EndsAt digits.now result }
{
    if digits.len() == 0 {
        Found::Nothing
    } else {
        Found::Bad
    }
}
