//! Limits of a task over a store (profile).

/// The records of the store end within so many octets.
pub const STORE_LIMIT: u64 = 1_073_741_824;

/// No input within the limits is longer: all strings of a file, and a line feed for each of its elements.
pub(crate) const MOST_INPUT_OCTETS: usize = 17_039_360;

/// A connection gives at most so many octets.
pub(crate) const MOST_READS: u32 = 1_073_741_824;

/// So many octets of an input or of a connection are read at a time.
pub(crate) const BLOCK: usize = 65_536;

/// So many octets of an output and more are written at a time.
pub(crate) const OUTPUT_BLOCK: usize = 262_144;

/// Diagnostic: an element is too long.
pub(crate) const ELEMENT_TOO_LONG: u16 = 22;

/// Diagnostic: the file is full.
pub(crate) const FILE_FULL: u16 = 23;

/// Diagnostic: too many tasks are kept.
pub(crate) const TOO_MANY_TASKS: u16 = 35;
