/// Where a record is to stand.
#[derive(Clone, Copy, PartialEq, Eq)]
pub struct Placing {
    /// The start of the new area, where a switch is due and possible.
    pub switch: Option<u64>,
    /// The place after the record and its gate.
    pub end: u64,
}
