/// What a write does at the FADU that it names (ISO 8571-3, F-WRITE; the numbers are profile).
#[derive(Clone, Copy, PartialEq, Eq)]
pub enum WriteOperation {
    Insert = 1,
    Replace = 2,
    Extend = 3,
}
