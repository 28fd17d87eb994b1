/// The most octets of a disk.
pub const GREATEST_LENGTH: u64 = 9_223_372_036_854_775_807;

/// A string of so many octets and more is shared by octets that stand in parts.
pub const LEAST_SHARED: usize = 1024;
