ghost use Rattle.std.specs.Prelude.{◌≡◌, IfOk, Some, option_copied};
ghost use Rattle.vf_filestore.specs.History.{Refused};
ghost use Rattle.vf_filestore.specs.Opening.{read_given as read_meant};
ghost use Rattle.vf_regime_effects.specs.Meanings.{given_of_reading};
ghost use Rattle.vf_regime_effects.specs.Steps.{shown_by};
ghost use Rattle.vf_tree.specs.Acts.{Reads, does, shown_of};

use crate::numbers::{has_action, includes};
use std::alloc::Global;
use vf_attr::File;
use vf_base::{Actions, Context, Element, FaduId, NoMemory};
use vf_filestore::diagnostics::{
    BAD_CONTEXT, FADU_NOT_FOUND, NAME_UNKNOWN, NOT_PERMITTED, OUTSIDE_CONSTRAINT_SET,
    UNIT_NOT_AGREED,
};
use vf_tree::TreeError;

/// What a read is given.
#[derive(Drop)]
pub enum Reading {
    /// It goes on and shows nothing: the version of the file, 0 where there is none, and the number of the diagnostic.
    Refused {
        version: u32,
        number: u16,
    },
    /// The version of the file, what is shown of it, whose octets are shared with it, and the position after it.
    Showed {
        version: u32,
        elements: Vec<Element>,
        position: u32,
    },
}

/// The unit of read.
const READ_UNIT: u16 = 1;

/// The number of the action of read.
const READ_ACTION: u32 = 0;

/// What the request of a read is given, of a file that is open in this mode under these functional units, from a
/// position that was kept (ISO 8571-3, F-READ).
///
/// Refused with 11 where there is no file, 33 without the unit of read, 13 where the mode has no read, 20 where the
/// constraint set has no such context, and 19 where the identity means no FADU.
pub fn read_given(
    alloc: Global,
    file: Option<&File>,
    units: u16,
    mode: Actions,
    position: u32,
    fadu: FaduId,
    context: Context,
) -> Result<Reading, NoMemory>
    ensures { IfOk result (λ reading. given_of_reading reading ≡ read_meant (option_copied file.entry) units mode position fadu context) }
{
    let Some(open) = file else {
        return Ok(Reading::Refused {
            version: 0,
            number: NAME_UNKNOWN,
        });
    };
    let reading = read_open(alloc, open, units, mode, position, fadu, context)?;
    Ok(reading)
}

/// What it is given of a file that is there.
fn read_open(
    alloc: Global,
    file: &File,
    units: u16,
    mode: Actions,
    position: u32,
    fadu: FaduId,
    context: Context,
) -> Result<Reading, NoMemory>
    ensures { IfOk result (λ reading. given_of_reading reading ≡ read_meant (Some file.now) units mode position fadu context) }
{
    if !includes(units, READ_UNIT) {
        return Ok(refused_by(file, UNIT_NOT_AGREED));
    }
    if !has_action(mode, READ_ACTION) {
        return Ok(refused_by(file, NOT_PERMITTED));
    }
    let reading = show(alloc, file, position, fadu, context)?;
    Ok(reading)
}

fn refused_by(file: &File, number: u16) -> Reading
    ensures { given_of_reading result ≡ Refused file.now.version number }
{
    Reading::Refused {
        version: file.version,
        number,
    }
}

/// What the contents show, or why they don't.
fn show(
    alloc: Global,
    file: &File,
    position: u32,
    fadu: FaduId,
    context: Context,
) -> Result<Reading, NoMemory>
    ensures { IfOk result (λ reading. given_of_reading reading ≡ shown_by file.now.version (shown_of (does file.now.tree position (Reads fadu context)))) }
{
    match file.tree.shown(alloc, position, fadu, context) {
        Ok((elements, position)) => Ok(Reading::Showed {
            version: file.version,
            elements,
            position,
        }),
        Err(TreeError::Outside) => Ok(refused_by(file, OUTSIDE_CONSTRAINT_SET)),
        Err(TreeError::NotFound) => Ok(refused_by(file, FADU_NOT_FOUND)),
        Err(TreeError::BadContext) => Ok(refused_by(file, BAD_CONTEXT)),
        Err(TreeError::NoMemory) => Err(NoMemory),
    }
}
