//! The lines of files.
ghost use Rattle.std.specs.Prelude.{◌≡◌, ◌++◌, List, IfOk, OnOk, map};
ghost use Rattle.std.specs.Cmp.Lexicographic.{slice_cmp};
ghost use Rattle.std.specs.Ordering.{nat_cmp};
ghost use Rattle.vf_attr.specs.declared.file.File.{File as FileMeant};
ghost use Rattle.vf_base.specs.Moment.{moment_text};
ghost use Rattle.vf_doctype.specs.DocumentTypes.{kind_of};
ghost use Rattle.vf_store_commands.specs.Listing.{IsInOrder, file_line, file_lines, numbers_between, type_word};

use std::alloc::Global;
use std::cmp::Ordering;
use vf_attr::File;
use vf_base::{Moment, NoMemory, Oid};

/// The lines of files, in the order of their names.
pub fn text_of_files(alloc: Global, files: &[File]) -> Result<Vec<u8>, NoMemory>
    ensures { IfOk result (λ text. (sorted : List FileMeant) × IsInOrder files.now sorted × (text.items ≡ file_lines sorted)) }
{
    let sorted = in_order(alloc, files)?;
    let mut text = Vec::new(alloc);
    for file in sorted.as_slice() {
        append_line(alloc, *file, &mut text)?;
    }
    Ok(text)
}

/// The files in the order of their names.
fn in_order<'a>(alloc: Global, files: &'a [File]) -> Result<Vec<&'a File>, NoMemory>
    ensures { IfOk result (λ sorted. IsInOrder files.now (map (λ file. file.now) sorted.items)) }
{
    let mut sorted = Vec::new(alloc);
    for file in files {
        sorted.push(file)?;
    }
    sorted.sort_unstable_by(|one, other| by_name(*one, *other));
    Ok(sorted)
}

fn by_name(one: &File, other: &File) -> Ordering
    ensures { result ≡ slice_cmp nat_cmp one.now.name other.now.name }
{
    one.name.as_slice().cmp(other.name.as_slice())
}

/// Appends the line of a file.
fn append_line(alloc: Global, file: &File, text: &mut Vec<u8>) -> Result<(), NoMemory>
    ensures { OnOk result (text.new.items ≡ text.old.items ++ file_line file.now) }
{
    text.extend_from_slice(word_of(&file.contents.kind))?;
    append_numbers(alloc, file.tree.size(), file.version, text)?;
    append_moment(alloc, &file.created.moment, text)?;
    text.push(b'\t')?;
    text.extend_from_slice(file.name.as_slice())?;
    text.push(b'\n')?;
    Ok(())
}

/// Appends the size in octets and the version, between tabs.
pub(crate) fn append_numbers(
    alloc: Global,
    size: u64,
    version: u32,
    text: &mut Vec<u8>,
) -> Result<(), NoMemory>
    ensures { OnOk result (text.new.items ≡ text.old.items ++ numbers_between size version) }
{
    let numbers = format!(in alloc; "\t{size}\t{version}\t")?;
    text.extend_from_slice(numbers.as_bytes())?;
    Ok(())
}

/// Appends a date and time.
fn append_moment(alloc: Global, moment: &Moment, text: &mut Vec<u8>) -> Result<(), NoMemory>
    ensures { OnOk result (text.new.items ≡ text.old.items ++ moment_text moment.now) }
{
    let date = moment.text(alloc)?;
    text.extend_from_slice(date.as_slice())?;
    Ok(())
}

/// The document type of a contents type.
fn word_of(kind: &Oid) -> &'static [u8]
    ensures { result.now ≡ type_word (kind_of kind.now) }
{
    let arcs = kind.arcs();
    if arcs == [1, 0, 8571, 5, 1].as_slice() {
        b"ftam-1"
    } else if arcs == [1, 0, 8571, 5, 2].as_slice() {
        b"ftam-2"
    } else if arcs == [1, 0, 8571, 5, 3].as_slice() {
        b"ftam-3"
    } else {
        b"unknown"
    }
}
