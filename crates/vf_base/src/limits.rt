//! Limits of the profile that several layers speak of; one of a single layer stands there.

/// The most octets of a value of BER, and of a TSDU.
pub const MOST_VALUE_OCTETS: u32 = 1_048_576;

/// The most octets of a string of a file.
pub const MOST_STRING_OCTETS: u32 = 65_536;
