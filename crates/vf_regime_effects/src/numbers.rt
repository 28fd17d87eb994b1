//! Refusals by the number of a diagnostic, and sets of units, of actions and of attributes.
ghost use Rattle.std.specs.Prelude.{◌≡◌, ◌<◌, ◌==◌, Some, bit_and, nat_eq};
ghost use Rattle.std.specs.Int.{bit_at};
ghost use Rattle.vf_filestore.specs.Diagnostics.{plain as plain_meant};
ghost use Rattle.vf_tables.specs.Validity.{includes as includes_meant};

use vf_base::{Actions, Diagnostic};
use vf_filestore::diagnostics::plain;

/// A refusal with the diagnostic of this number.
pub(crate) fn refused(number: u16) -> Option<Diagnostic>
    ensures { result ≡ Some (plain_meant number) }
{
    Some(plain(number))
}

/// Whether each bit of the part is one of the set.
pub(crate) fn includes(set: u16, part: u16) -> bool
    ensures { result ≡ includes_meant set part }
{
    part & set == part
}

/// Whether the action of this number is in the set.
pub(crate) fn has_action(set: Actions, number: u32) -> bool
    requires { number < 8 }
    ensures { result ≡ nat_eq (bit_at set.value number) 1 }
{
    (set.value >> number) % 2 == 1
}

/// Whether the attribute of this number is asked for.
pub(crate) fn is_asked(names: u16, number: u16) -> bool
    ensures { result ≡ (bit_and names number == number) }
{
    names & number == number
}
