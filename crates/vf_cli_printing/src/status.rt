//! The statuses of commands.

/// The words are outside the grammar.
pub const USAGE: u8 = 2;

/// Reading the input failed.
pub const INPUT_FAULT: u8 = 3;

/// Writing the output failed.
pub const OUTPUT_FAULT: u8 = 4;

/// A call of the disk failed.
pub const DISK_FAULT: u8 = 5;

/// The disk has no store; for `init`, it isn't empty.
pub const NOT_A_STORE: u8 = 8;

/// Memory is wanting.
pub const NO_MEMORY: u8 = 9;

/// The links failed.
pub const LINKS_FAULT: u8 = 10;

/// A line of the input is bad.
pub const BAD_LINE: u8 = 11;

/// The store is full.
pub const FULL: u8 = 12;
