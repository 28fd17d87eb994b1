//! Limits of what a filestore keeps (profile).

/// A filestore has at most so many users.
pub const MOST_USERS: usize = 256;

/// A filestore has at most so many files.
pub const MOST_FILES: usize = 1_024;

/// A filestore has at most so many octets of strings.
pub const MOST_FILESTORE_OCTETS: u64 = 268_435_456;

/// A filestore has at most so many dockets.
pub const MOST_DOCKETS: usize = 16;

/// A filestore has at most so many tasks.
pub const MOST_TASKS: usize = 16;

/// An access control list has at most so many terms.
pub const MOST_TERMS: usize = 256;

/// A password has at most so many octets.
pub const MOST_PASSWORD_OCTETS: usize = 255;

/// The largest number of an activity.
pub const MOST_ACTIVITY: u32 = 2_147_483_647;

/// The largest number of a checkpoint.
pub const MOST_POINT: u32 = 1_000_000;

/// An open regime has at most so many transfers, which are numbered from 1 on.
pub const MOST_TRANSFERS: u32 = 1_000_000;

/// The most elements between two checkpoints that an initiator sends.
pub const MOST_EVERY: u32 = 10_000;

/// What stands of a write under way has at most so many octets of strings.
pub const MOST_SURVIVING_OCTETS: u32 = 17_825_792;

/// What stands of a write under way has at most so many elements.
pub const MOST_SURVIVING_ELEMENTS: u32 = 262_145;
