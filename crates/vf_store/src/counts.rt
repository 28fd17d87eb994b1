/// How much a filestore keeps.
#[derive(Clone, Copy, PartialEq, Eq)]
pub struct Counts {
    pub files: u64,
    /// The octets of the strings of all files, or the type's end where they are more; valid tables have fewer.
    pub octets: u64,
    pub dockets: u64,
    pub tasks: u64,
    pub users: u64,
}
