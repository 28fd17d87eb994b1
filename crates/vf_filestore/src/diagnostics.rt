//! The diagnostics of the filestore (ISO 8571-3, diagnostic; the numbers are profile), as `specs/Diagnostics` has them.
ghost use Rattle.std.specs.Prelude.{◌≡◌};
ghost use Rattle.vf_filestore.specs.Diagnostics.{plain as plain_meant};

use vf_base::Diagnostic;

/// No file has the name.
pub const NAME_UNKNOWN: u16 = 11;

/// A file has the name.
pub const NAME_EXISTS: u16 = 12;

/// An action that isn't permitted.
pub const NOT_PERMITTED: u16 = 13;

/// The access control list denies an action.
pub const ACCESS_DENIED: u16 = 14;

/// The password of a term of the access control list isn't given.
pub const BAD_PASSWORD: u16 = 15;

/// The concurrency control of another holder of the file stands against it.
pub const CONCURRENCY_CONFLICT: u16 = 16;

/// No document type has this contents type, or it isn't the file's.
pub const CONTENTS_MISMATCH: u16 = 17;

/// An action that the constraint set hasn't.
pub const OUTSIDE_CONSTRAINT_SET: u16 = 18;

/// The identity means no FADU.
pub const FADU_NOT_FOUND: u16 = 19;

/// An access context that the constraint set hasn't.
pub const BAD_CONTEXT: u16 = 20;

/// A data element that the document type hasn't.
pub const BAD_ELEMENT: u16 = 21;

/// A data element whose string is too long.
pub const ELEMENT_TOO_LONG: u16 = 22;

/// A file that is too large, or has no version left.
pub const FILE_FULL: u16 = 23;

/// A filestore that is too large.
pub const STORE_FULL: u16 = 24;

/// No docket has the activity identifier.
pub const DOCKET_UNKNOWN: u16 = 27;

/// The activity identifier is in use.
pub const ACTIVITY_IN_USE: u16 = 28;

/// Another transfer number than the docket's.
pub const WRONG_TRANSFER: u16 = 29;

/// The group is below its threshold.
pub const BELOW_THRESHOLD: u16 = 30;

/// An attribute that isn't supported.
pub const ATTRIBUTE_UNSUPPORTED: u16 = 31;

/// The data transfer was cancelled.
pub const CANCELLED: u16 = 32;

/// A functional unit that isn't agreed.
pub const UNIT_NOT_AGREED: u16 = 33;

/// The file has changed since the transfer began.
pub const FILE_CHANGED: u16 = 34;

/// The filestore has no room for another docket.
pub const TOO_MANY_DOCKETS: u16 = 35;

/// The initiator identity is no user's, or the filestore password isn't this user's.
pub const NOT_A_USER: u16 = 36;

/// A request that the regime doesn't take in which its group has come.
pub const WRONG_REGIME: u16 = 37;

/// The diagnostic of this number.
pub fn plain(number: u16) -> Diagnostic
    ensures { result ≡ plain_meant number }
{
    Diagnostic {
        number,
        first: 0,
        second: 0,
    }
}
