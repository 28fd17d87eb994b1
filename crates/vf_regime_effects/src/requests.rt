ghost use Rattle.std.specs.Prelude.{◌≡◌, [], ◌∷◌, option_copied};
ghost use Rattle.vf_attr.specs.Access.{number_of};
ghost use Rattle.vf_filestore.specs.Diagnostics.{first_row};
ghost use Rattle.vf_filestore.specs.Opening.{act_of, act_row, action_of, write_given as write_meant, write_rows};
ghost use Rattle.vf_filestore.specs.Units.{unit_row, write_unit};
ghost use Rattle.vf_regime_effects.specs.Meanings.{given_of_writing};
ghost use Rattle.vf_tree.specs.Actions.{extended, inserted, replaced};
ghost use Rattle.vf_tree.specs.Acts.{does};

use crate::numbers::{has_action, includes, refused};
use vf_attr::File;
use vf_base::{Actions, Constraint, Diagnostic, FaduId};
use vf_filestore::diagnostics::{
    FADU_NOT_FOUND, NAME_UNKNOWN, NOT_PERMITTED, OUTSIDE_CONSTRAINT_SET, UNIT_NOT_AGREED,
};
use vf_pdu_fields::WriteOperation;
use vf_tree::Tree;

/// What a write does, and where (ISO 8571-3, F-WRITE).
#[derive(Clone, Copy, PartialEq, Eq)]
pub struct Write {
    pub operation: WriteOperation,
    pub fadu: FaduId,
    /// The position in the file at its request, in units; no operation of this profile looks at it.
    pub position: u32,
}

/// What a write is given.
#[derive(Clone, Copy, PartialEq, Eq)]
pub enum Writing {
    /// It goes on and performs nothing: the version of the file, 0 where there is none, and the number of the
    /// diagnostic.
    Refused { version: u32, number: u16 },
    Granted,
}

/// The unit of write.
const WRITE_UNIT: u16 = 2;

/// What the request of a write is given, of a file that is open in this mode under these functional units (ISO 8571-3,
/// F-WRITE).
///
/// Refused with 11 where there is no file, 33 without the unit of write, 13 where the mode hasn't the operation, 18
/// where the constraint set hasn't, and 19 where it doesn't take the identity. Which values come isn't looked at.
pub fn write_given(file: Option<&File>, units: u16, mode: Actions, write: Write) -> Writing
    ensures { given_of_writing result ≡ write_meant (option_copied file.entry) units mode write.position write.operation write.fadu }
{
    let Some(open) = file else {
        return Writing::Refused {
            version: 0,
            number: NAME_UNKNOWN,
        };
    };
    match refused_write(open, units, mode, write) {
        Some(diagnostic) => Writing::Refused {
            version: open.version,
            number: diagnostic.number,
        },
        None => Writing::Granted,
    }
}

fn refused_write(file: &File, units: u16, mode: Actions, write: Write) -> Option<Diagnostic>
    ensures { result ≡ first_row (unit_row units write_unit ∷ write_rows file.now mode write.position write.operation write.fadu) }
{
    if !includes(units, WRITE_UNIT) {
        return refused(UNIT_NOT_AGREED);
    }
    if !has_action(mode, action(write.operation)) {
        return refused(NOT_PERMITTED);
    }
    refused_act(&file.tree, write)
}

/// The number of an operation's action.
fn action(operation: WriteOperation) -> u32
    ensures { result ≡ number_of (action_of operation) }
{
    match operation {
        WriteOperation::Insert => 1,
        WriteOperation::Replace => 2,
        WriteOperation::Extend => 3,
    }
}

/// What the constraint set refuses of an operation, whatever units come.
fn refused_act(tree: &Tree, write: Write) -> Option<Diagnostic>
    ensures { result ≡ act_row (does tree.now write.position (act_of write.operation write.fadu [])) }
{
    match write.operation {
        WriteOperation::Insert => refused_insert(tree, write.fadu),
        WriteOperation::Replace => refused_whole(tree, write.fadu),
        WriteOperation::Extend => refused_whole(tree, write.fadu),
    }
}

fn refused_insert(tree: &Tree, fadu: FaduId) -> Option<Diagnostic>
    ensures { result ≡ act_row (inserted tree.now fadu []) }
{
    match (tree.constraint(), fadu) {
        (Constraint::Unstructured, _) => refused(OUTSIDE_CONSTRAINT_SET),
        (Constraint::SequentialFlat, FaduId::End) => None,
        (Constraint::SequentialFlat, _) => refused(FADU_NOT_FOUND),
    }
}

/// A replace and an extend are of the whole of an unstructured file.
fn refused_whole(tree: &Tree, fadu: FaduId) -> Option<Diagnostic>
    ensures replaces { result ≡ act_row (replaced tree.now fadu []) }
    ensures extends { result ≡ act_row (extended tree.now fadu []) }
{
    match (tree.constraint(), fadu) {
        (Constraint::SequentialFlat, _) => refused(OUTSIDE_CONSTRAINT_SET),
        (Constraint::Unstructured, FaduId::Begin | FaduId::First) => None,
        (Constraint::Unstructured, _) => refused(FADU_NOT_FOUND),
    }
}
