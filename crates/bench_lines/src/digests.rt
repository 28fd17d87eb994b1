//! Digests, and numbers at random that are the same in each run.

/// The digest of no octets (FNV-1a of 32 bits).
pub const NO_OCTETS: u32 = 2_166_136_261;

/// The digest that goes on with these octets.
pub fn digest(start: u32, octets: &[u8]) -> u32 {
    let mut found = start;
    for octet in octets {
        found = (found ^ u32::from(*octet)).wrapping_mul(16_777_619);
    }
    found
}

/// The next number of a short generator (Marsaglia's xorshift).
pub fn next_random(seed: u64) -> u64 {
    let seed = seed ^ (seed << 13);
    let seed = seed ^ (seed >> 7);
    seed ^ (seed << 17)
}
