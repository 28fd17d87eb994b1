//! Which octets may still stand at a place, by what is around them.

/// Which limits are asked for: none, that of depth alone, or that of length too.
#[derive(Clone, Copy)]
pub enum Asked {
    /// None.
    Free,
    /// That of depth.
    Shallow,
    /// That of depth and that of length.
    Bounded,
}

/// How many octets a value may take.
#[derive(Clone, Copy)]
pub enum Room {
    /// Inside a definite length: what is left of it, or less by two at least, so that another value fits.
    Exact(u64),
    /// So many at most, where the limit of length is asked for.
    Within(u64),
}
