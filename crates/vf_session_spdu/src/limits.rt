//! The limits of SPDUs (ISO 8327).

/// The last serial number of a synchronization point, of six digits.
pub const LAST_SERIAL: u32 = 999_999;

/// The most octets of user data of a CN, as extended user data.
pub const MOST_CONNECT_OCTETS: usize = 10_240;

/// The most octets of an SPDU's parameters, and of the value of one of them.
pub const MOST_PARAMETER_OCTETS: usize = 65_535;
