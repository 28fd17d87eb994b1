/// The constraint set of a file (ISO 8571-2, file model).
#[derive(Clone, Copy, PartialEq, Eq)]
pub enum Constraint {
    Unstructured,
    SequentialFlat,
}

/// Which FADU is meant (ISO 8571-2, FADU identity); numbers count the units of a file.
#[derive(Clone, Copy, Debug, PartialEq, Eq)]
pub enum FaduId {
    Begin,
    End,
    First,
    Last,
    Current,
    Next,
    Previous,
    Number(u32),
}

/// Which part of a FADU is transferred (ISO 8571-2, access contexts).
#[derive(Clone, Copy, Debug, PartialEq, Eq)]
pub enum Context {
    HA,
    FA,
    UA,
    US,
}
