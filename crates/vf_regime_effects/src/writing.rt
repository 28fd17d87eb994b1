//! The end of a write (ISO 8571-3, F-TRANSFER-END and F-CANCEL; the rows, their order and the limits are profile).
ghost use Rattle.std.specs.Prelude.{◌≡◌, ◌<◌, IfOk, Ok, Some};
ghost use Rattle.vf_doctype.specs.DocumentTypes.{doc_type};
ghost use Rattle.vf_doctype.specs.Units.{units as units_meant};
ghost use Rattle.vf_filestore.specs.Ending.{after_act as after_meant, write_of, written_in};
ghost use Rattle.vf_filestore.specs.Files.{file_named};
ghost use Rattle.vf_filestore.specs.Opening.{act_of};
ghost use Rattle.vf_regime_effects.specs.Meanings.{ending_of};
ghost use Rattle.vf_regime_effects.specs.Steps.{ending_by, fitting, put as put_meant};
ghost use Rattle.vf_tree.specs.Acts.{does};

use crate::acts::{Acted, act};
use crate::room::has_room_for;
use crate::{Ending, Write, selected};
use std::alloc::Global;
use vf_attr::{File, Stamp};
use vf_base::{DataUnit, Element, Name, NoMemory};
use vf_doctype::{DocError, DocType};
use vf_filestore::diagnostics::{
    BAD_ELEMENT, CONTENTS_MISMATCH, ELEMENT_TOO_LONG, FILE_FULL, NAME_UNKNOWN, STORE_FULL, plain,
};
use vf_tables::Files;
use vf_tree::Tree;

/// The end of a write that wasn't refused at its request, of these values on the file of this name: those that stand at
/// F-TRANSFER-END, or at F-CANCEL those before the last check that was acknowledged, and then in silence.
///
/// Refused with 11 where there is no file of the name, 17 where its contents are no document type, 21 or 22 by the
/// first value that isn't of it, 18 and 19 as at the request, 23 where the file would pass its limits or its version is
/// spent, and 24 where the filestore would have more than `MOST_FILESTORE_OCTETS`. Else the file has the values, whose
/// octets are shared, a version more and the stamp.
pub fn write_ending(
    alloc: Global,
    files: &Files,
    stamp: Stamp,
    name: &Name,
    write: Write,
    values: &[Element],
) -> Result<Ending, NoMemory>
    ensures { IfOk result (λ ending. ending_of ending ≡ write_of files.now stamp (file_named name.now files.now) write.position write.operation write.fadu values.now) }
{
    let Some(file) = selected(files, name) else {
        return Ok(Ending::refused_by(plain(NAME_UNKNOWN)));
    };
    let ending = write_in(alloc, files, stamp, file, write, values)?;
    Ok(ending)
}

/// The end of a write on a file that is there.
fn write_in(
    alloc: Global,
    files: &Files,
    stamp: Stamp,
    file: &File,
    write: Write,
    values: &[Element],
) -> Result<Ending, NoMemory>
    requires { file_named file.now.name files.now ≡ Some file.now }
    ensures { IfOk result (λ ending. ending_of ending ≡ written_in files.now stamp file.now write.position write.operation write.fadu values.now (doc_type file.now.contents)) }
{
    let Some(doc) = DocType::of(&file.contents) else {
        return Ok(Ending::refused_by(plain(CONTENTS_MISMATCH)));
    };
    let ending = write_values(alloc, files, stamp, file, write, &doc, values)?;
    Ok(ending)
}

/// The end of a write on a file of this document type.
fn write_values(
    alloc: Global,
    files: &Files,
    stamp: Stamp,
    file: &File,
    write: Write,
    doc: &DocType,
    values: &[Element],
) -> Result<Ending, NoMemory>
    requires { file_named file.now.name files.now ≡ Some file.now }
    ensures { IfOk result (λ ending. ending_of ending ≡ ending_by files.now stamp file.now write.operation write.fadu (units_meant doc.now values.now)) }
{
    match doc.units(alloc, values) {
        Ok(units) => {
            let ending = write_units(alloc, files, stamp, file, write, units)?;
            Ok(ending)
        }
        Err(DocError::BadElement) => Ok(Ending::refused_by(plain(BAD_ELEMENT))),
        Err(DocError::TooLong) => Ok(Ending::refused_by(plain(ELEMENT_TOO_LONG))),
        Err(DocError::NoMemory) => Err(NoMemory),
    }
}

/// The end of a write of these units.
fn write_units(
    alloc: Global,
    files: &Files,
    stamp: Stamp,
    file: &File,
    write: Write,
    units: Vec<DataUnit>,
) -> Result<Ending, NoMemory>
    requires { file_named file.now.name files.now ≡ Some file.now }
    ensures { IfOk result (λ ending. ending_of ending ≡ put_meant files.now stamp file.now (fitting (does file.now.tree 0 (act_of write.operation write.fadu units.items)))) }
{
    match act(alloc, &file.tree, write.operation, write.fadu, units)? {
        Ok(acted) => {
            let ending = put(alloc, files, stamp, file, acted)?;
            Ok(ending)
        }
        Err(diagnostic) => Ok(Ending::refused_by(diagnostic)),
    }
}

/// The file with these contents, where its version and the filestore's octets allow it.
fn put(
    alloc: Global,
    files: &Files,
    stamp: Stamp,
    file: &File,
    acted: Acted,
) -> Result<Ending, NoMemory>
    requires { file_named file.now.name files.now ≡ Some file.now }
    ensures { IfOk result (λ ending. ending_of ending ≡ put_meant files.now stamp file.now (Ok acted)) }
{
    if file.version == u32::MAX {
        return Ok(Ending::refused_by(plain(FILE_FULL)));
    }
    let position = acted.position;
    let after = after_act(alloc, stamp, file, acted.tree)?;
    if !has_room_for(files, file, &after) {
        return Ok(Ending::refused_by(plain(STORE_FULL)));
    }
    Ok(Ending::placed(after, position))
}

/// An equal file but for its contents, with the stamp of the change and a version more.
pub(crate) fn after_act(
    alloc: Global,
    stamp: Stamp,
    file: &File,
    tree: Tree,
) -> Result<File, NoMemory>
    requires { file.now.version < 4294967295 }
    ensures { IfOk result (λ after. after ≡ after_meant stamp file.now tree) }
{
    let mut after = file.copy(alloc)?;
    after.modified = Some(stamp);
    after.version += 1;
    after.tree = tree;
    Ok(after)
}
