//! Rows that refuse a request with a diagnostic (ISO 8571-3), and the functional units that they ask for (the values of
//! these are profile).
ghost use Rattle.std.specs.Prelude.{◌≡◌, Some};
ghost use Rattle.vf_filestore.specs.Diagnostics.{plain as plain_meant, row as row_meant};
ghost use Rattle.vf_filestore.specs.Units.{unit_row as unit_row_meant};
ghost use Rattle.vf_tables.specs.Validity.{includes as includes_meant};

use vf_base::Diagnostic;
use vf_filestore::diagnostics::{UNIT_NOT_AGREED, plain};

/// The unit of limited file management.
pub(crate) const LIMITED_MANAGEMENT: u16 = 8;

/// The unit of enhanced file management.
pub(crate) const ENHANCED_MANAGEMENT: u16 = 16;

/// The unit of recovery.
pub(crate) const RECOVERY: u16 = 128;

/// A refusal by this number.
pub(crate) fn refused(number: u16) -> Option<Diagnostic>
    ensures { result ≡ Some (plain_meant number) }
{
    Some(plain(number))
}

/// A refusal by this number where its cause applies.
pub(crate) fn row(applies: bool, number: u16) -> Option<Diagnostic>
    ensures { result ≡ row_meant applies number }
{
    if applies { refused(number) } else { None }
}

/// Whether each bit of the part is one of the set.
pub(crate) fn includes(set: u16, part: u16) -> bool
    ensures { result ≡ includes_meant set part }
{
    part & set == part
}

/// The refusal of a request whose functional units aren't agreed.
pub(crate) fn unit_row(units: u16, needed: u16) -> Option<Diagnostic>
    ensures { result ≡ unit_row_meant units needed }
{
    if includes(units, needed) {
        return None;
    }
    refused(UNIT_NOT_AGREED)
}
