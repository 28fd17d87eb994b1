//! The acts of a write on the contents of a file (ISO 8571-2, actions on files).
ghost use Rattle.std.specs.Prelude.{◌≡◌, IfOk};
ghost use Rattle.vf_filestore.specs.Opening.{act_of, only_unit as unit_meant};
ghost use Rattle.vf_regime_effects.specs.Steps.{fitting};
ghost use Rattle.vf_tree.specs.Acts.{Extends, Inserts, Replaces, does};

use std::alloc::Global;
use vf_base::{DataUnit, Diagnostic, FaduId, NoMemory, Sequence};
use vf_filestore::diagnostics::{
    BAD_CONTEXT, FADU_NOT_FOUND, FILE_FULL, OUTSIDE_CONSTRAINT_SET, plain,
};
use vf_pdu_fields::WriteOperation;
use vf_tree::{Tree, TreeError};

/// The contents that an act leaves, and the position after it.
#[derive(Drop)]
pub(crate) struct Acted {
    pub(crate) tree: Tree,
    pub(crate) position: u32,
}

/// What an operation with these units makes of an equal tree, which shares the strings: refused as the constraint set
/// has it, and with 23 where the file would pass its limits.
pub(crate) fn act(
    alloc: Global,
    tree: &Tree,
    operation: WriteOperation,
    fadu: FaduId,
    units: Vec<DataUnit>,
) -> Result<Result<Acted, Diagnostic>, NoMemory>
    ensures { IfOk result (λ acted. acted ≡ fitting (does tree.now 0 (act_of operation fadu units.items))) }
{
    match operation {
        WriteOperation::Insert => return insert(alloc, tree, fadu, units),
        WriteOperation::Replace => return replace(alloc, tree, fadu, only_unit(alloc, units)),
        WriteOperation::Extend => return extend(alloc, tree, fadu, only_unit(alloc, units)),
    }
}

/// The first unit, or one without strings: an unstructured file is one unit.
fn only_unit(alloc: Global, units: Vec<DataUnit>) -> DataUnit
    ensures { result ≡ unit_meant units.items }
{
    if units.is_empty() {
        return Sequence::new(alloc);
    }
    let mut units = units;
    units.swap_remove(0)
}

fn insert(
    alloc: Global,
    tree: &Tree,
    fadu: FaduId,
    units: Vec<DataUnit>,
) -> Result<Result<Acted, Diagnostic>, NoMemory>
    ensures { IfOk result (λ acted. acted ≡ fitting (does tree.now 0 (Inserts fadu units.items))) }
{
    if !tree.has_room_to_insert(fadu, &units) {
        return Ok(Err(plain(FILE_FULL)));
    }
    let mut tree = tree.copy(alloc)?;
    match tree.insert(alloc, fadu, units) {
        Ok(position) => Ok(Ok(Acted { tree, position })),
        Err(TreeError::Outside) => Ok(Err(plain(OUTSIDE_CONSTRAINT_SET))),
        Err(TreeError::NotFound) => Ok(Err(plain(FADU_NOT_FOUND))),
        Err(TreeError::BadContext) => Ok(Err(plain(BAD_CONTEXT))),
        Err(TreeError::NoMemory) => Err(NoMemory),
    }
}

fn replace(
    alloc: Global,
    tree: &Tree,
    fadu: FaduId,
    unit: DataUnit,
) -> Result<Result<Acted, Diagnostic>, NoMemory>
    ensures { IfOk result (λ acted. acted ≡ fitting (does tree.now 0 (Replaces fadu unit))) }
{
    if !tree.has_room_to_replace(fadu, &unit) {
        return Ok(Err(plain(FILE_FULL)));
    }
    let mut tree = tree.copy(alloc)?;
    match tree.replace(alloc, fadu, unit) {
        Ok(position) => Ok(Ok(Acted { tree, position })),
        Err(TreeError::Outside) => Ok(Err(plain(OUTSIDE_CONSTRAINT_SET))),
        Err(TreeError::NotFound) => Ok(Err(plain(FADU_NOT_FOUND))),
        Err(TreeError::BadContext) => Ok(Err(plain(BAD_CONTEXT))),
        Err(TreeError::NoMemory) => Err(NoMemory),
    }
}

fn extend(
    alloc: Global,
    tree: &Tree,
    fadu: FaduId,
    unit: DataUnit,
) -> Result<Result<Acted, Diagnostic>, NoMemory>
    ensures { IfOk result (λ acted. acted ≡ fitting (does tree.now 0 (Extends fadu unit))) }
{
    if !tree.has_room_to_extend(fadu, &unit) {
        return Ok(Err(plain(FILE_FULL)));
    }
    let mut tree = tree.copy(alloc)?;
    match tree.extend(alloc, fadu, unit) {
        Ok(position) => Ok(Ok(Acted { tree, position })),
        Err(TreeError::Outside) => Ok(Err(plain(OUTSIDE_CONSTRAINT_SET))),
        Err(TreeError::NotFound) => Ok(Err(plain(FADU_NOT_FOUND))),
        Err(TreeError::BadContext) => Ok(Err(plain(BAD_CONTEXT))),
        Err(TreeError::NoMemory) => Err(NoMemory),
    }
}
