/// The records of a store end within so many octets (profile).
pub const STORE_LIMIT: u64 = 1_073_741_824;
