ghost use Rattle.std.specs.Prelude.{◌≡◌, ◌∷◌, IfOk, option_copied};
ghost use Rattle.vf_attr.specs.Attributes.{is_same_contents};
ghost use Rattle.vf_filestore.specs.Decision.{units_for as units_meant};
ghost use Rattle.vf_filestore.specs.Diagnostics.{first_row};
ghost use Rattle.vf_filestore.specs.Files.{file_named};
ghost use Rattle.vf_filestore.specs.Opening.{is_mismatch as mismatch_meant, open_rows};
ghost use Rattle.vf_filestore.specs.Selecting.{rows_on};
ghost use Rattle.vf_filestore.specs.Units.{unit_row as unit_row_meant};
ghost use Rattle.vf_tables.specs.Validity.{modes as modes_meant};
ghost use Rattle.vf_regime_refusals.specs.Asked.{activity_rows_in, found_in, opened_of};

use crate::access::named;
use crate::controls::{contents_usable, joined};
use crate::holders::clash_row;
use crate::numbers::{RECOVERY, includes, refused, unit_row};
use crate::{Association, Selection};
use std::alloc::Global;
use vf_attr::File;
use vf_base::{Actions, Constraint, Contents, Diagnostic, Name, NoMemory};
use vf_filestore::diagnostics::{
    ACTIVITY_IN_USE, CONTENTS_MISMATCH, NAME_UNKNOWN, NOT_PERMITTED, OUTSIDE_CONSTRAINT_SET,
    TOO_MANY_DOCKETS,
};
use vf_locks::Locks;
use vf_pdu_fields::ContentControls;
use vf_tables::{MOST_DOCKETS, Tables};

/// What is asked at an open (ISO 8571-3, F-OPEN).
#[derive(Drop)]
pub struct Opening {
    pub mode: Actions,
    /// The contents type that is expected, where it is told.
    pub contents: Option<Contents>,
    /// Those that came with the request, or those that stand for absent ones.
    pub controls: ContentControls,
    /// With one the open is recoverable.
    pub activity: Option<u32>,
}

/// What refuses an open (ISO 8571-3, F-OPEN): 33 where it has an activity without the unit of recovery, 11 where no file
/// has the name, 13 where the mode isn't within the requested actions or a control doesn't let its holder do what the
/// mode has, 17 where the file has another contents type than is told, 18 where its constraint set doesn't have the
/// mode, 16 where another holder's controls stand against it; of an activity 28 where the identity has a docket of it,
/// and 35 where there are `MOST_DOCKETS` dockets.
pub fn refused_open(
    alloc: Global,
    tables: &Tables,
    locks: &Locks,
    association: &Association,
    selection: &Selection,
    opening: &Opening,
) -> Result<Option<Diagnostic>, NoMemory>
    ensures { IfOk result (λ refused. refused ≡ first_row (unit_row_meant association.now.units (units_meant opening.now.activity) ∷ rows_on (file_named selection.now.file tables.now.files) (open_rows (found_in tables.now.files locks.now) (activity_rows_in tables.now association.now.identity opening.now.activity) (opened_of association.now selection.now opening.now)))) }
{
    if let Some(diagnostic) = unit_row(association.units, units_for(opening.activity)) {
        return Ok(Some(diagnostic));
    }
    let Some(file) = named(&tables.files, &selection.file) else {
        return Ok(refused(NAME_UNKNOWN));
    };
    let row = refused_open_of(alloc, tables, locks, association, selection, opening, file)?;
    Ok(row)
}

/// The functional units that an open needs.
fn units_for(activity: Option<u32>) -> u16
    ensures { result ≡ units_meant activity }
{
    match activity {
        None => 0,
        Some(_) => RECOVERY,
    }
}

/// What refuses the open of a file that is there.
fn refused_open_of(
    alloc: Global,
    tables: &Tables,
    locks: &Locks,
    association: &Association,
    selection: &Selection,
    opening: &Opening,
    file: &File,
) -> Result<Option<Diagnostic>, NoMemory>
    ensures { IfOk result (λ refused. refused ≡ first_row (open_rows (found_in tables.now.files locks.now) (activity_rows_in tables.now association.now.identity opening.now.activity) (opened_of association.now selection.now opening.now) file.now)) }
{
    if !includes(
        u16::from(selection.requested.value),
        u16::from(opening.mode.value),
    ) || !contents_usable(opening.mode, opening.controls)
    {
        return Ok(refused(NOT_PERMITTED));
    }
    if is_mismatch(opening.contents.as_ref(), &file.contents) {
        return Ok(refused(CONTENTS_MISMATCH));
    }
    if !includes(modes(file.tree.constraint()), u16::from(opening.mode.value)) {
        return Ok(refused(OUTSIDE_CONSTRAINT_SET));
    }
    let wanted = joined(opening.controls, selection.controls);
    let clash = clash_row(alloc, locks, association.link, &file.name, &wanted)?;
    if clash.is_some() {
        return Ok(clash);
    }
    Ok(refused_activity(tables, &association.identity, opening.activity))
}

/// Whether another contents type is told than the file's.
fn is_mismatch(asked: Option<&Contents>, contents: &Contents) -> bool
    ensures { result ≡ mismatch_meant (option_copied asked.entry) contents.now }
{
    let Some(asked) = asked else {
        return false;
    };
    !is_same(asked, contents)
}

/// Whether two contents types are equal.
fn is_same(one: &Contents, other: &Contents) -> bool
    ensures { result ≡ is_same_contents one.now other.now }
{
    one.kind.arcs() == other.kind.arcs()
        && one.class == other.class
        && one.longest == other.longest
        && one.significance == other.significance
}

/// The actions that a constraint set has in a mode, in sum.
fn modes(constraint: Constraint) -> u16
    ensures { result ≡ modes_meant constraint }
{
    match constraint {
        Constraint::Unstructured => 29,
        Constraint::SequentialFlat => 19,
    }
}

/// What refuses an activity.
fn refused_activity(tables: &Tables, identity: &Name, activity: Option<u32>) -> Option<Diagnostic>
    ensures { result ≡ first_row (activity_rows_in tables.now identity.now activity) }
{
    let activity = activity?;
    if tables.docket(identity, activity).is_some() {
        return refused(ACTIVITY_IN_USE);
    }
    if tables.dockets.len() >= MOST_DOCKETS {
        return refused(TOO_MANY_DOCKETS);
    }
    None
}
