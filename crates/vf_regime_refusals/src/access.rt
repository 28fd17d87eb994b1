//! What may be done to a file, and by whom.
ghost use Rattle.std.specs.Prelude.{◌≡◌, ◌<◌, option_copied};
ghost use Rattle.vf_attr.specs.Access.{has as has_meant, is_met as met_meant, may as may_meant, number_of as number_meant};
ghost use Rattle.vf_filestore.specs.Files.{file_named};
ghost use Rattle.vf_filestore.specs.Selecting.{access_row as access_meant};

use crate::numbers::refused;
use vf_attr::{AccessError, File, may};
use vf_base::{Action, Actions, Diagnostic, Name, Octets};
use vf_filestore::diagnostics::{ACCESS_DENIED, BAD_PASSWORD, NOT_PERMITTED};
use vf_tables::Files;

/// The file of this name; `None` exactly where there is none.
pub(crate) fn named<'a>(files: &'a Files, name: &Name) -> Option<&'a File>
    ensures { option_copied result ≡ file_named name.now files.now }
{
    files.with_name(name)
}

/// The number of an action.
pub(crate) fn number_of(action: Action) -> u8
    ensures number { result ≡ number_meant action }
    ensures small { result < 8 }
{
    action as u8
}

/// Whether the action is in the set.
pub(crate) fn has(set: Actions, action: Action) -> bool
    ensures { result ≡ has_meant set action }
{
    (set.value >> number_of(action)) % 2 == 1
}

/// What access control refuses of these actions (ISO 8571-2, permitted actions and access control).
pub(crate) fn access_row(
    file: &File,
    who: &Name,
    password: Option<&Octets>,
    requested: Actions,
) -> Option<Diagnostic>
    ensures { result ≡ access_meant (may_meant file.now who.now (option_copied password.entry) requested) }
{
    match may(file, who, password, requested) {
        Ok(()) => None,
        Err(AccessError::NotPermitted) => refused(NOT_PERMITTED),
        Err(AccessError::Denied) => refused(ACCESS_DENIED),
        Err(AccessError::BadPassword) => refused(BAD_PASSWORD),
    }
}

/// Whether the password is met; an absent one needs none.
pub(crate) fn is_met(wanted: Option<&Octets>, given: Option<&Octets>) -> bool
    ensures { result ≡ met_meant (option_copied wanted.entry) (option_copied given.entry) }
{
    let Some(wanted) = wanted else {
        return true;
    };
    let Some(given) = given else {
        return false;
    };
    wanted == given
}
