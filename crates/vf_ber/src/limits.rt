//! The limit of this crate's own; that of a value's octets is `vf_base::MOST_VALUE_OCTETS`.

/// The most depth of a value, the outermost having depth 1 (profile).
pub const MOST_DEPTH: u32 = 32;
