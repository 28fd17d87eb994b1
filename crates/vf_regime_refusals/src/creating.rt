ghost use Rattle.std.specs.Prelude.{◌≡◌, IfOk, []};
ghost use Rattle.vf_doctype.specs.DocumentTypes.{constraint_of};
ghost use Rattle.vf_filestore.specs.Diagnostics.{first_row};
ghost use Rattle.vf_filestore.specs.Files.{made as made_meant};
ghost use Rattle.vf_filestore.specs.Selecting.{selection_rows};
ghost use Rattle.vf_regime_refusals.specs.Asked.{found_in, stamp_by, wanted_of};
ghost use Rattle.vf_regime_refusals.specs.Creating.{creation_of, new_creation, there_creation, unless_refused};
ghost use Rattle.vf_regime_refusals.specs.declared.creating.Creation.TheVariants as creations;
ghost use Rattle.vf_tree.specs.FileTree.{new_file};

use crate::access::named;
use crate::numbers::{LIMITED_MANAGEMENT, unit_row};
use crate::selecting::refused_selection;
use crate::{Association, Selection};
use std::alloc::Global;
use vf_attr::{File, Stamp};
use vf_base::{Diagnostic, Moment, NoMemory};
use vf_doctype::DocType;
use vf_filestore::NewFile;
use vf_filestore::diagnostics::{CONTENTS_MISMATCH, NAME_EXISTS, STORE_FULL, plain};
use vf_locks::Locks;
use vf_tables::{MOST_FILES, Tables};
use vf_tree::Tree;

/// What a creation comes to.
#[derive(Drop)]
pub enum Creation {
    Refused(Diagnostic),
    /// The file that has the name is selected.
    Selected,
    /// This is the new file, which isn't in the tables yet.
    Made(File),
}

/// Makes a file, empty and of version 1, or selects the one that has the name where `over` isn't 0 (ISO 8571-3,
/// F-CREATE).
///
/// Refused with 33 without limited file management. Where a file has the name: 12 where `over` is 0, else as its
/// selection is. Where none has: 17 where the contents are no document type, 24 where there are `MOST_FILES` files,
/// else as the selection of the new file is.
pub fn create(
    alloc: Global,
    tables: &Tables,
    locks: &Locks,
    association: &Association,
    selection: &Selection,
    over: u8,
    moment: Moment,
    new: NewFile,
) -> Result<Creation, NoMemory>
    ensures { IfOk result (λ creation. creation ≡ creation_of (found_in tables.now.files locks.now) association.now.units (wanted_of association.now selection.now) over (stamp_by association.now moment) new) }
{
    if let Some(diagnostic) = unit_row(association.units, LIMITED_MANAGEMENT) {
        return Ok(Creation::Refused(diagnostic));
    }
    if let Some(file) = named(&tables.files, &new.name) {
        return select_instead(alloc, tables, locks, association, selection, over, file);
    }
    make(alloc, tables, locks, association, selection, moment, new)
}

/// Selects the file that has the name.
fn select_instead(
    alloc: Global,
    tables: &Tables,
    locks: &Locks,
    association: &Association,
    selection: &Selection,
    over: u8,
    file: &File,
) -> Result<Creation, NoMemory>
    ensures { IfOk result (λ creation. creation ≡ there_creation (found_in tables.now.files locks.now) (wanted_of association.now selection.now) over file.now) }
{
    if over == 0 {
        return Ok(Creation::Refused(plain(NAME_EXISTS)));
    }
    let row = refused_selection(alloc, locks, association, selection, file)?;
    match row {
        Some(diagnostic) => Ok(Creation::Refused(diagnostic)),
        None => Ok(Creation::Selected),
    }
}

/// Makes the file whose name is free.
fn make(
    alloc: Global,
    tables: &Tables,
    locks: &Locks,
    association: &Association,
    selection: &Selection,
    moment: Moment,
    new: NewFile,
) -> Result<Creation, NoMemory>
    ensures { IfOk result (λ creation. creation ≡ new_creation (found_in tables.now.files locks.now) (wanted_of association.now selection.now) (stamp_by association.now moment) new) }
{
    let Some(doc) = DocType::of(&new.contents) else {
        drop(new);
        return Ok(Creation::Refused(plain(CONTENTS_MISMATCH)));
    };
    if tables.files.len() >= MOST_FILES {
        drop(new);
        return Ok(Creation::Refused(plain(STORE_FULL)));
    }
    let file = made(alloc, doc, association, moment, new)?;
    let creation = unless_barred(alloc, locks, association, selection, file)?;
    Ok(creation)
}

/// What a new file comes to, which its selection may refuse.
fn unless_barred(
    alloc: Global,
    locks: &Locks,
    association: &Association,
    selection: &Selection,
    file: File,
) -> Result<Creation, NoMemory>
    ensures { IfOk result (λ creation. creation ≡ unless_refused (first_row (selection_rows (found_in [] locks.now) (wanted_of association.now selection.now) file)) (creations.Made file)) }
{
    match refused_selection(alloc, locks, association, selection, &file) {
        Ok(None) => Ok(Creation::Made(file)),
        Ok(Some(diagnostic)) => {
            drop(file);
            Ok(Creation::Refused(diagnostic))
        }
        Err(error) => {
            drop(file);
            Err(error)
        }
    }
}

/// The new file.
fn made(
    alloc: Global,
    doc: DocType,
    association: &Association,
    moment: Moment,
    new: NewFile,
) -> Result<File, NoMemory>
    ensures { IfOk result (λ file. file ≡ made_meant new (stamp_by association.now moment) doc) }
{
    match begun(alloc, doc, association, moment) {
        Ok((created, tree)) => Ok(File {
            name: new.name,
            permitted: new.permitted,
            contents: new.contents,
            terms: new.terms,
            created,
            modified: None,
            read: None,
            changed: None,
            version: 1,
            tree,
        }),
        Err(error) => {
            drop(new);
            Err(error)
        }
    }
}

/// The stamp of a new file, and its tree.
fn begun(
    alloc: Global,
    doc: DocType,
    association: &Association,
    moment: Moment,
) -> Result<(Stamp, Tree), NoMemory>
    ensures stamp { IfOk result (λ begun. begun.0 ≡ stamp_by association.now moment) }
    ensures tree { IfOk result (λ begun. begun.1 ≡ new_file (constraint_of doc.kind)) }
{
    let tree = Tree::empty(alloc, doc.constraint())?;
    let identity = association.identity.copy(alloc)?;
    Ok((Stamp { moment, identity }, tree))
}
