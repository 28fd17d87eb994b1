//! Limits of fields (profile).

/// The most octets of a name, a password and any other string of a PDU.
pub const MOST_TEXT_OCTETS: usize = 255;

/// The most items of a list.
pub const MOST_ITEMS: usize = 256;

/// The largest number of a unit of a file.
pub const MOST_UNIT: u32 = 4_294_967_295;

/// The largest number of an activity.
pub const MOST_ACTIVITY: u32 = 2_147_483_647;

/// The largest number of a checkpoint.
pub const MOST_POINT: u32 = 1_000_000;

/// The largest place of a fault in what was received.
pub const MOST_PLACE: u64 = 9_007_199_254_740_992;
