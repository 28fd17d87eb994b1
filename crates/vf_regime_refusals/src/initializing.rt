ghost use Rattle.std.specs.Prelude.{◌≡◌, option_copied};
ghost use Rattle.vf_filestore.specs.Diagnostics.{first_row};
ghost use Rattle.vf_filestore.specs.Selecting.{initialize_rows, is_admitted as admitted_meant};

use crate::access::is_met;
use crate::numbers::refused;
use vf_base::{Diagnostic, Name, Octets};
use vf_filestore::diagnostics::NOT_A_USER;
use vf_tables::Users;

/// What refuses an association (ISO 8571-3, F-INITIALIZE): 36 where there are users and this identity isn't one of
/// them, or its password isn't met.
pub fn refused_initialize(
    users: &Users,
    identity: &Name,
    password: Option<&Octets>,
) -> Option<Diagnostic>
    ensures { result ≡ first_row (initialize_rows users.now identity.now (option_copied password.entry)) }
{
    if is_admitted(users, identity, password) {
        return None;
    }
    refused(NOT_A_USER)
}

/// Whether an identity with this password is taken; a filestore without users takes every one.
fn is_admitted(users: &Users, identity: &Name, password: Option<&Octets>) -> bool
    ensures { result ≡ admitted_meant users.now identity.now (option_copied password.entry) }
{
    let Some(user) = users.with_name(identity) else {
        return users.len() == 0;
    };
    is_met(user.password.as_ref(), password)
}
