//! What is asked of a selected file as a whole.
ghost use Rattle.std.specs.Prelude.{◌≡◌, ◌∷◌, [], Some, option_copied};
ghost use Rattle.std.specs.Option.{option_or};
ghost use Rattle.vf_filestore.specs.Diagnostics.{first_row, name_exists, row as row_meant};
ghost use Rattle.vf_filestore.specs.Selecting.{change_attrib_rows, delete_rows, is_taken, read_attrib_rows, rename_row};
ghost use Rattle.vf_filestore.specs.Units.{enhanced_management, limited_management, unit_row as unit_row_meant};
ghost use Rattle.vf_locks.specs.Table.{held};
ghost use Rattle.vf_regime_refusals.specs.Asked.{found_in, selection_of};

use crate::access::{has, named};
use crate::holders::alone_row;
use crate::numbers::{ENHANCED_MANAGEMENT, LIMITED_MANAGEMENT, refused, unit_row};
use crate::{Association, Selection};
use vf_base::{Action, Diagnostic, Name};
use vf_filestore::diagnostics::{ATTRIBUTE_UNSUPPORTED, NAME_EXISTS, NOT_PERMITTED};
use vf_locks::Locks;
use vf_tables::Tables;

/// The sum of the numbers of all attributes.
const MOST_NAMES: u16 = 511;

/// What refuses F-READ-ATTRIB (ISO 8571-3): 33 without limited file management, 13 where reading attributes wasn't
/// requested at the selection, and 31 where an attribute is asked for that there isn't; they are numbered 1, 2, 4 to
/// 256.
pub fn refused_read_attrib(
    association: &Association,
    selection: &Selection,
    names: u16,
) -> Option<Diagnostic>
    ensures { result ≡ first_row (unit_row_meant association.now.units limited_management ∷ read_attrib_rows (Some (selection_of selection.now)) names) }
{
    if let Some(diagnostic) = unit_row(association.units, LIMITED_MANAGEMENT) {
        return Some(diagnostic);
    }
    if !has(selection.requested, Action::ReadAttribute) {
        return refused(NOT_PERMITTED);
    }
    if names > MOST_NAMES {
        return refused(ATTRIBUTE_UNSUPPORTED);
    }
    None
}

/// What refuses F-CHANGE-ATTRIB (ISO 8571-3): 33 without enhanced file management, 13 where changing attributes wasn't
/// requested at the selection, 31 where `others` isn't 0, 12 where the new name is another file's, and 16 where there is
/// a new name and another holder knows the file by its old one.
pub fn refused_change_attrib(
    tables: &Tables,
    locks: &Locks,
    association: &Association,
    selection: &Selection,
    name: Option<&Name>,
    others: u16,
) -> Option<Diagnostic>
    ensures { result ≡ first_row (unit_row_meant association.now.units enhanced_management ∷ change_attrib_rows (found_in tables.now.files locks.now) association.now.link (Some (selection_of selection.now)) (option_copied name.entry) others) }
{
    if let Some(diagnostic) = unit_row(association.units, ENHANCED_MANAGEMENT) {
        return Some(diagnostic);
    }
    if !has(selection.requested, Action::ChangeAttribute) {
        return refused(NOT_PERMITTED);
    }
    if others != 0 {
        return refused(ATTRIBUTE_UNSUPPORTED);
    }
    let name = name?;
    refused_rename(tables, locks, association.link, &selection.file, name)
}

/// What refuses another name for a file.
fn refused_rename(
    tables: &Tables,
    locks: &Locks,
    link: u32,
    old: &Name,
    name: &Name,
) -> Option<Diagnostic>
    ensures { result ≡ first_row (row_meant (is_taken tables.now.files old.now (Some name.now)) name_exists ∷ rename_row (held old.now locks.now) link old.now (Some name.now) ∷ []) }
{
    if name == old {
        return None;
    }
    if named(&tables.files, name).is_some() {
        return refused(NAME_EXISTS);
    }
    alone_row(locks, link, old, Action::ChangeAttribute)
}

/// What refuses F-DELETE (ISO 8571-3): 33 without limited file management, 13 where deletion wasn't requested at the
/// selection, and 16 where the file has another holder.
pub fn refused_delete(
    locks: &Locks,
    association: &Association,
    selection: &Selection,
) -> Option<Diagnostic>
    ensures { result ≡ first_row (unit_row_meant association.now.units limited_management ∷ delete_rows (found_in [] locks.now) association.now.link (Some (selection_of selection.now))) }
{
    if let Some(diagnostic) = unit_row(association.units, LIMITED_MANAGEMENT) {
        return Some(diagnostic);
    }
    if !has(selection.requested, Action::Delete) {
        return refused(NOT_PERMITTED);
    }
    alone_row(locks, association.link, &selection.file, Action::Delete)
}
