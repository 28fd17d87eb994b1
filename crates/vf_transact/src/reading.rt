//! The input of a put.
ghost use Rattle.std.specs.Prelude.{◌≡◌, ◌++◌, ◌<◌, ◌≤◌, ℕ, List, Err, IfErr, IfOk, IsErrOf, OnOk, Some, length, true};
ghost use Rattle.vf_base.specs.Faults.{HasRisen, NeverFalls};
ghost use Rattle.vf_base.specs.Streams.{HasRead, IsAtEnd};
ghost use Rattle.vf_initiator.specs.Cutting.{cut};
ghost use Rattle.vf_initiator.specs.Keepable.{is_within_file};
ghost use Rattle.vf_tables.specs.Fitting.{is_within};
ghost use Rattle.vf_transact.specs.Starting.{Answers, IsAmong, ReadsByCause, elements_or, interrupts, of_input};

use crate::TransactError;
use crate::cutting::{elements_of, fault_of};
use crate::limits::{BLOCK, MOST_INPUT_OCTETS};
use std::alloc::Global;
use vf_base::{Elements, NoMemory, Octets, ReadFault, Source};

/// The room for any input that is within the limits, with the block that ends it.
const MOST_ROOM: usize = MOST_INPUT_OCTETS + BLOCK;

/// Room for the octets that are read at a time.
pub(crate) fn room_for_a_block(alloc: Global) -> Result<Vec<u8>, NoMemory>
    ensures { IfOk result (λ room. 65535 ≤ length room.items) }
{
    let mut room = Vec::new(alloc);
    room.resize(BLOCK, 0)?;
    Ok(room)
}

/// Appends what was read. Where it isn't all of the input, the room for the longest one is taken at once, so that what stands isn't
/// moved as it grows; the system gives memory for as much of it as is written.
fn append(block: &[u8], octets: &mut Vec<u8>) -> Result<(), NoMemory>
    ensures { OnOk result (octets.new.items ≡ octets.old.items ++ block.now) }
{
    if !octets.is_empty() {
        octets.reserve(MOST_ROOM.saturating_sub(octets.len()))?;
    }
    octets.extend_from_slice(block)?;
    Ok(())
}

/// Reads an input to its end, or until more than `limit` octets have come, in large blocks.
fn read_blocks<I: Source>(alloc: Global, input: &mut I, limit: usize) -> Result<Vec<u8>, ReadFault>
    ensures octets { IfOk result (λ octets. HasRead (I.left input.old) (I.left input.new) octets.items) }
    ensures end { IfOk result (λ octets. length octets.items ≤ limit → IsAtEnd (I.left input.new)) }
    ensures ok { OnOk result (I.fault_count input.new ≡ I.fault_count input.old) }
    ensures falls { NeverFalls (I.fault_count input.old) (I.fault_count input.new) }
    ensures failed { IsErrOf result ReadFault.Failed → HasRisen (I.fault_count input.old) (I.fault_count input.new) }
{
    let mut octets = Vec::new(alloc);
    let Ok(mut block) = room_for_a_block(alloc) else {
        return Err(ReadFault::NoMemory);
    };
    while octets.len() <= limit {
        let Ok(count) = input.read(block.as_mut_slice()) else {
            return Err(ReadFault::Failed);
        };
        if count == 0 {
            return Ok(octets);
        }
        let (read, _) = block.as_slice().split_at(count);
        if append(read, &mut octets).is_err() {
            return Err(ReadFault::NoMemory);
        }
    }
    Ok(octets)
}

/// Reads the whole input, or more of it than any has that is within the limits.
fn read_input<I: Source>(alloc: Global, input: &mut I) -> Result<Octets, TransactError>
    ensures octets { IfOk result (λ octets. HasRead (I.left input.old) (I.left input.new) octets) }
    ensures end { IfOk result (λ octets. length octets ≤ 17039360 → IsAtEnd (I.left input.new)) }
    ensures interrupted { IfErr result (λ error. interrupts error ≡ true) }
    ensures failed { IsAmong of_input result }
    ensures cause { ReadsByCause (I.fault_count input.old) (I.fault_count input.new) result }
{
    match read_blocks(alloc, input, MOST_INPUT_OCTETS) {
        Ok(octets) => {
            let octets = Octets::from_vec(octets)?;
            Ok(octets)
        }
        Err(ReadFault::Failed) => Err(TransactError::InputFault),
        Err(ReadFault::NoMemory) => Err(TransactError::NoMemory),
    }
}

/// The elements of a file of this kind that has the input as its contents; it is refused where it passes a limit.
pub(crate) fn read_elements<I: Source>(
    alloc: Global,
    kind: u8,
    input: &mut I,
) -> Result<Elements, TransactError>
    ensures cut { (octets : List ℕ) → I.left input.old ≡ Some octets → Answers (elements_or (cut kind octets)) result }
    ensures end { OnOk result (IsAtEnd (I.left input.new)) }
    ensures within { is_within 1 3 kind ≡ true → IfOk result (λ elements. is_within_file elements ≡ true) }
    ensures failed { IsAmong of_input result }
    ensures cause { ReadsByCause (I.fault_count input.old) (I.fault_count input.new) result }
{
    let octets = read_input(alloc, input)?;
    match fault_of(kind, octets.as_slice()) {
        Some(number) => Err(TransactError::refused(number)),
        None => {
            let elements = elements_of(alloc, kind, &octets)?;
            Ok(elements)
        }
    }
}
