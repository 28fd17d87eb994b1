//! One party's messages over an empty filestore, from lines to lines.
ghost use Rattle.std.specs.Prelude.{◌≡◌, ◌<◌, [], ◌∷◌, true, false, IsErrOf, IfErr, OnErr, OnOk, IfOk, List, Option, Some, ℕ};
ghost use Rattle.vf_base.specs.Faults.{HasRisen, NeverFalls};
ghost use Rattle.vf_filestore.specs.State.{State};
ghost use Rattle.vf_cli_dialogue.specs.Conversation.{Goes, IsInterrupted, PrintsAll, PrintsPrefix, ReadsLine, Stands, Steps, is_ready, left_of, octets_in, size_of};
ghost use Rattle.vf_cli_dialogue.specs.Lines.{Input, bad_line};
ghost use Rattle.vf_cli_dialogue.specs.Dialogue.{EndsDialogue, MeetsDialogue, opened};
ghost use Rattle.vf_cli_printing.specs.Printed.{HasCauses, IsOneOf, Wrote, WrotePrefix};
ghost use Rattle.vf_cli_dialogue.specs.Reader.{Progresses, will_say};

use crate::conversation::Conversation;
use crate::lines::{LineError, LineReader, NextLine};
use crate::printed::Replies;
use std::alloc::Global;
use vf_base::{NoMemory, Sink, Source};
use vf_cli_printing::{BAD_LINE, INPUT_FAULT, NO_MEMORY, OUTPUT_FAULT, append_bad_line};

/// What kept a command from its end.
#[derive(Clone, Copy)]
pub(crate) enum Interruption {
    /// The input failed.
    Input,
    /// The output failed.
    Output,
    /// Memory is wanting.
    NoMemory,
}

impl From<NoMemory> for Interruption {
    ghost use Rattle.std.specs.Prelude.{◌≡◌};
    ghost use Rattle.vf_cli_dialogue.specs.declared.answering.Interruption.TheVariants as interruptions;

    ghost from_gives = { λ _ error. error ≡ interruptions.NoMemory };

    fn from(_error: NoMemory) -> Interruption {
        Interruption::NoMemory
    }
}

/// Room that is used again for each line.
#[derive(Drop)]
struct Buffers {
    /// The piece that a line spells.
    piece: Vec<u8>,
    replies: Replies,
}

/// The status of an abort that was said.
const ABORTED: u8 = 7;

/// Writes lines, if there are any.
fn write_lines<O: Sink>(out: &mut O, lines: &[u8]) -> Result<(), Interruption>
    ensures ok { OnOk result (Wrote lines.now (O.taken out.old) (O.taken out.new)) }
    ensures prefix { OnErr result (WrotePrefix lines.now (O.taken out.old) (O.taken out.new)) }
    ensures falls { NeverFalls (O.fault_count out.old) (O.fault_count out.new) }
    ensures failed { OnErr result (HasRisen (O.fault_count out.old) (O.fault_count out.new)) }
    ensures cause { IfErr result (λ interruption. interruption ≡ Interruption.Output) }
{
    if lines.is_empty() {
        return Ok(());
    }
    if out.write(lines).is_err() {
        return Err(Interruption::Output);
    }
    Ok(())
}

/// The dialogue over the input (profile): its replies are written line by line, before more of the input is read.
///
/// The statuses: 0 the input was read to its end; 3 the input failed; 4 the output failed; 7 an abort was said; 9 memory is
/// wanting; 11 a line of the input is bad.
pub fn dialogue<I: Source, O: Sink>(alloc: Global, input: &mut I, out: &mut O) -> u8
    ensures causes { HasCauses result (I.fault_count input.old) (I.fault_count input.new) (O.fault_count out.old) (O.fault_count out.new) }
    ensures prints { MeetsDialogue result (I.left input.old) (O.taken out.old) (O.taken out.new) }
    ensures ends { IsOneOf (0 ∷ 7 ∷ 11 ∷ 3 ∷ 4 ∷ 9 ∷ []) result }
{
    match converse(alloc, input, out) {
        Ok(status) => status,
        Err(Interruption::Input) => INPUT_FAULT,
        Err(Interruption::Output) => OUTPUT_FAULT,
        Err(Interruption::NoMemory) => NO_MEMORY,
    }
}

/// The dialogue over all lines of the input; answers its status.
fn converse<I: Source, O: Sink>(
    alloc: Global,
    input: &mut I,
    out: &mut O,
) -> Result<u8, Interruption>
    ensures ends { IfOk result (λ status. EndsDialogue status × PrintsAll (I.left input.old) status (O.taken out.old) (O.taken out.new)) }
    ensures interrupted { OnErr result (PrintsPrefix (I.left input.old) (O.taken out.old) (O.taken out.new)) }
    ensures input { IsErrOf result Interruption.Input → HasRisen (I.fault_count input.old) (I.fault_count input.new) }
    ensures output { IsErrOf result Interruption.Output → HasRisen (O.fault_count out.old) (O.fault_count out.new) }
{
    let mut reader = LineReader::new(alloc)?;
    let mut conversation = Conversation::new(alloc);
    let mut buffers = Buffers {
        piece: Vec::new(alloc),
        replies: Replies::new(alloc),
    };
    let answered = converse_with(
        alloc,
        &mut reader,
        &mut conversation,
        &mut buffers,
        input,
        out,
    );
    // By a call, since a drop at the end of this function would make its proof long.
    drop(conversation);
    answered
}

/// The same, by a reader and in a conversation that have just begun.
fn converse_with<I: Source, O: Sink>(
    alloc: Global,
    reader: &mut LineReader,
    conversation: &mut Conversation,
    buffers: &mut Buffers,
    input: &mut I,
    out: &mut O,
) -> Result<u8, Interruption>
    requires reader { reader.old ≡ record { count = 0; number = 1; ahead = [] } }
    requires stands { Stands conversation.old opened }
    requires none { octets_in conversation.old.stream ≡ [] }
    ensures ends { IfOk result (λ status. EndsDialogue status × PrintsAll (I.left input.old) status (O.taken out.old) (O.taken out.new)) }
    ensures interrupted { OnErr result (PrintsPrefix (I.left input.old) (O.taken out.old) (O.taken out.new)) }
    ensures input { IsErrOf result Interruption.Input → HasRisen (I.fault_count input.old) (I.fault_count input.new) }
    ensures output { IsErrOf result Interruption.Output → HasRisen (O.fault_count out.old) (O.fault_count out.new) }
{
    'steps: loop {
        let step = take_step(alloc, reader, conversation, buffers, input, out)?;
        if let Some(status) = step {
            return Ok(status);
        }
    }
}

/// Takes messages that are ready and writes what is said to them, or takes the next line; answers the status where the dialogue
/// ends with it.
fn take_step<I: Source, O: Sink>(
    alloc: Global,
    reader: &mut LineReader,
    conversation: &mut Conversation,
    buffers: &mut Buffers,
    input: &mut I,
    out: &mut O,
) -> Result<Option<u8>, Interruption>
    requires { (state : State) × Stands conversation.old state }
    ensures takes { IfOk result (λ step. (state : State) → Stands conversation.old state
        → Steps state (octets_in conversation.old.stream) (will_say reader.old (I.left input.old)) (will_say reader.new (I.left input.new))
        (O.taken out.old) (O.taken out.new) conversation.new step) }
    ensures interrupted { OnErr result ((state : State) → Stands conversation.old state
        → IsInterrupted state (octets_in conversation.old.stream) (will_say reader.old (I.left input.old)) (O.taken out.old) (O.taken out.new)) }
    ensures goes { IfOk result (Goes (left_of reader.old conversation.old) (left_of reader.new conversation.new)) }
    ensures input_falls { NeverFalls (I.fault_count input.old) (I.fault_count input.new) }
    ensures out_falls { NeverFalls (O.fault_count out.old) (O.fault_count out.new) }
    ensures input { IsErrOf result Interruption.Input → HasRisen (I.fault_count input.old) (I.fault_count input.new) }
    ensures output { IsErrOf result Interruption.Output → HasRisen (O.fault_count out.old) (O.fault_count out.new) }
{
    let step = if conversation.is_ready() {
        take_ready(alloc, conversation, &mut buffers.replies, out)?
    } else {
        take_line(alloc, reader, conversation, buffers, input, out)?
    };
    Ok(step)
}

/// Takes messages that are ready, and writes what is said to them; answers the status where an abort is among it.
fn take_ready<O: Sink>(
    alloc: Global,
    conversation: &mut Conversation,
    replies: &mut Replies,
    out: &mut O,
) -> Result<Option<u8>, Interruption>
    requires ready { is_ready conversation.old.stream ≡ true }
    requires stands { (state : State) × Stands conversation.old state }
    ensures takes { IfOk result (λ step. (state : State) → Stands conversation.old state → (input : Option Input)
        → Steps state (octets_in conversation.old.stream) input input (O.taken out.old) (O.taken out.new) conversation.new step) }
    ensures interrupted { OnErr result ((state : State) → Stands conversation.old state → (input : Option Input)
        → IsInterrupted state (octets_in conversation.old.stream) input (O.taken out.old) (O.taken out.new)) }
    ensures size { IfOk result (λ step. size_of conversation.new.stream < size_of conversation.old.stream) }
    ensures falls { NeverFalls (O.fault_count out.old) (O.fault_count out.new) }
    ensures output { IsErrOf result Interruption.Output → HasRisen (O.fault_count out.old) (O.fault_count out.new) }
    ensures cause { IsErrOf result Interruption.Input → ⊥ }
{
    replies.lines.clear();
    let aborted = conversation.take(alloc, replies)?;
    write_lines(out, replies.lines.as_slice())?;
    Ok(if aborted { Some(ABORTED) } else { None })
}

/// Takes the next line; answers the status where the dialogue ends with it.
fn take_line<I: Source, O: Sink>(
    alloc: Global,
    reader: &mut LineReader,
    conversation: &mut Conversation,
    buffers: &mut Buffers,
    input: &mut I,
    out: &mut O,
) -> Result<Option<u8>, Interruption>
    requires { is_ready conversation.old.stream ≡ false }
    ensures takes { IfOk result (λ step. (state : State) → Stands conversation.old state
        → Steps state (octets_in conversation.old.stream) (will_say reader.old (I.left input.old)) (will_say reader.new (I.left input.new))
        (O.taken out.old) (O.taken out.new) conversation.new step) }
    ensures interrupted { OnErr result ((state : State) → Stands conversation.old state
        → IsInterrupted state (octets_in conversation.old.stream) (will_say reader.old (I.left input.old)) (O.taken out.old) (O.taken out.new)) }
    ensures goes { IfOk result (Goes (left_of reader.old conversation.old) (left_of reader.new conversation.new)) }
    ensures input_falls { NeverFalls (I.fault_count input.old) (I.fault_count input.new) }
    ensures out_falls { NeverFalls (O.fault_count out.old) (O.fault_count out.new) }
    ensures input { IsErrOf result Interruption.Input → HasRisen (I.fault_count input.old) (I.fault_count input.new) }
    ensures output { IsErrOf result Interruption.Output → HasRisen (O.fault_count out.old) (O.fault_count out.new) }
{
    match next_line(reader, input, &mut buffers.piece)? {
        NextLine::Piece => {
            conversation.add(alloc, &mut buffers.piece)?;
            Ok(None)
        }
        NextLine::Bad(number) => {
            write_bad_line(alloc, number, &mut buffers.replies.lines, out)?;
            Ok(Some(BAD_LINE))
        }
        NextLine::End => Ok(Some(0)),
    }
}

/// Writes the line that names a bad line by its number.
fn write_bad_line<O: Sink>(
    alloc: Global,
    number: usize,
    lines: &mut Vec<u8>,
    out: &mut O,
) -> Result<(), Interruption>
    ensures ok { OnOk result (Wrote (bad_line number) (O.taken out.old) (O.taken out.new)) }
    ensures prefix { OnErr result (WrotePrefix (bad_line number) (O.taken out.old) (O.taken out.new)) }
    ensures falls { NeverFalls (O.fault_count out.old) (O.fault_count out.new) }
    ensures output { IsErrOf result Interruption.Output → HasRisen (O.fault_count out.old) (O.fault_count out.new) }
    ensures cause { IsErrOf result Interruption.Input → ⊥ }
{
    lines.clear();
    append_bad_line(alloc, number, lines)?;
    write_lines(out, lines.as_slice())?;
    Ok(())
}

fn next_line<I: Source>(
    reader: &mut LineReader,
    input: &mut I,
    piece: &mut Vec<u8>,
) -> Result<NextLine, Interruption>
    ensures answers { ReadsLine (will_say reader.old (I.left input.old)) (will_say reader.new (I.left input.new)) piece.new.items result }
    ensures progresses { IfOk result (Progresses reader.old.count reader.new.count piece.new.items) }
    ensures falls { NeverFalls (I.fault_count input.old) (I.fault_count input.new) }
    ensures failed { IsErrOf result Interruption.Input → HasRisen (I.fault_count input.old) (I.fault_count input.new) }
    ensures cause { IsErrOf result Interruption.Output → ⊥ }
{
    match reader.next(input, piece) {
        Ok(next) => Ok(next),
        Err(LineError::Failed) => Err(Interruption::Input),
        Err(LineError::NoMemory) => Err(Interruption::NoMemory),
    }
}
