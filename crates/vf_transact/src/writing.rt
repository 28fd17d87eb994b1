//! The output of a get (profile): the octets of its strings; of text a line a string, and of records a line a record.
ghost use Rattle.std.specs.Prelude.{◌≡◌, ◌||◌, ◌++◌, ◌∷◌, [], ℕ, List, Some, IfErr, IfOk, OnErr, OnOk, option_copied, if◌then◌else◌};
ghost use Rattle.std.specs.List.{flat_map};
ghost use Rattle.vf_base.specs.Faults.{HasRisen};
ghost use Rattle.vf_initiator.specs.Output.{is_string, record_lines, string_in as string_meant, string_line, strings_in, written};
ghost use Rattle.vf_transact.specs.Writing.{HasCause, Passes, PassesAll, PassesFront, begins, given_by, line_ended, string_given};
ghost use Rattle.vf_transact.specs.declared.error.TransactError.TheVariants as errors;

use crate::TransactError;
use crate::limits::OUTPUT_BLOCK;
use std::alloc::Global;
use vf_base::{Element, NoMemory, Sink};

const LINE_FEED: u8 = 10;

/// The octets of an element that is a string.
fn string_in(element: &Element) -> Option<&[u8]>
    ensures { option_copied result ≡ (if is_string element.now then Some (string_meant element.now) else None) }
{
    match element {
        Element::Text { octets, .. } => Some(octets.as_slice()),
        Element::Binary { octets } => Some(octets.as_slice()),
        _ => None,
    }
}

/// Appends what an element of text or of binary contents gives.
fn append_string(is_text: bool, element: &Element, block: &mut Vec<u8>) -> Result<(), NoMemory>
    ensures { OnOk result (block.new.items ≡ block.old.items ++ string_given is_text element.now) }
{
    let Some(octets) = string_in(element) else {
        return Ok(());
    };
    block.extend_from_slice(octets)?;
    if is_text {
        block.push(LINE_FEED)?;
    }
    Ok(())
}

/// Appends what an element of records gives, after a record that has begun or none; answers whether one has begun now. A
/// record begins with each descriptor, and with a string before the first one.
fn append_of_record(
    has_begun: bool,
    element: &Element,
    block: &mut Vec<u8>,
) -> Result<bool, NoMemory>
    ensures octets { OnOk result (block.new.items ≡ block.old.items ++ given_by has_begun element.now) }
    ensures begun { IfOk result (λ begun. begun ≡ (has_begun || begins element.now)) }
{
    if let Element::Descriptor { .. } = element {
        if has_begun {
            block.push(LINE_FEED)?;
        }
        return Ok(true);
    }
    let Some(octets) = string_in(element) else {
        return Ok(has_begun);
    };
    block.extend_from_slice(octets)?;
    Ok(true)
}

/// Ends the last record, where one has begun.
fn end_record(has_begun: bool, block: &mut Vec<u8>) -> Result<(), NoMemory>
    ensures { OnOk result (block.new.items ≡ block.old.items ++ line_ended has_begun) }
{
    if has_begun {
        block.push(LINE_FEED)?;
    }
    Ok(())
}

/// Writes the block, once it is large.
fn write_if_large<O: Sink>(block: &mut Vec<u8>, out: &mut O) -> Result<(), TransactError>
    ensures passes { OnOk result (Passes block.old.items block.new.items (O.taken out.old) (O.taken out.new)) }
    ensures front { OnErr result (PassesFront block.old.items (O.taken out.old) (O.taken out.new)) }
    ensures cause { HasCause result (O.fault_count out.old) (O.fault_count out.new) }
{
    if block.len() < OUTPUT_BLOCK {
        return Ok(());
    }
    write_block(block, out)
}

/// Writes the block, where it has any octets.
fn write_block<O: Sink>(block: &mut Vec<u8>, out: &mut O) -> Result<(), TransactError>
    ensures empty { OnOk result (block.new.items ≡ []) }
    ensures passes { OnOk result (PassesAll block.old.items (O.taken out.old) (O.taken out.new)) }
    ensures front { OnErr result (PassesFront block.old.items (O.taken out.old) (O.taken out.new)) }
    ensures cause { HasCause result (O.fault_count out.old) (O.fault_count out.new) }
{
    if block.is_empty() {
        return Ok(());
    }
    if out.write(block.as_slice()).is_err() {
        return Err(TransactError::OutputFault);
    }
    block.clear();
    Ok(())
}

/// Writes strings, of text with a line feed after each.
fn write_strings<O: Sink>(
    alloc: Global,
    is_text: bool,
    elements: &[Element],
    out: &mut O,
) -> Result<(), TransactError>
    ensures passes { OnOk result (PassesAll (flat_map (string_given is_text) elements.now) (O.taken out.old) (O.taken out.new)) }
    ensures front { OnErr result (PassesFront (flat_map (string_given is_text) elements.now) (O.taken out.old) (O.taken out.new)) }
    ensures cause { HasCause result (O.fault_count out.old) (O.fault_count out.new) }
{
    let mut block = Vec::new(alloc);
    for element in elements {
        append_string(is_text, element, &mut block)?;
        write_if_large(&mut block, out)?;
    }
    write_block(&mut block, out)
}

/// Writes records, with a line feed after each.
fn write_records<O: Sink>(
    alloc: Global,
    elements: &[Element],
    out: &mut O,
) -> Result<(), TransactError>
    ensures passes { OnOk result (PassesAll (record_lines elements.now) (O.taken out.old) (O.taken out.new)) }
    ensures front { OnErr result (PassesFront (record_lines elements.now) (O.taken out.old) (O.taken out.new)) }
    ensures cause { HasCause result (O.fault_count out.old) (O.fault_count out.new) }
{
    let mut block = Vec::new(alloc);
    let mut has_begun = false;
    for element in elements {
        has_begun = append_of_record(has_begun, element, &mut block)?;
        write_if_large(&mut block, out)?;
    }
    end_record(has_begun, &mut block)?;
    write_block(&mut block, out)
}

/// Writes the contents of a file of this kind that has these elements.
pub(crate) fn write_elements<O: Sink>(
    alloc: Global,
    kind: u8,
    elements: &[Element],
    out: &mut O,
) -> Result<(), TransactError>
    ensures passes { OnOk result (PassesAll (written kind elements.now) (O.taken out.old) (O.taken out.new)) }
    ensures front { OnErr result (PassesFront (written kind elements.now) (O.taken out.old) (O.taken out.new)) }
    ensures cause { HasCause result (O.fault_count out.old) (O.fault_count out.new) }
{
    if kind == 2 {
        return write_records(alloc, elements, out);
    }
    write_strings(alloc, kind == 1, elements, out)
}
