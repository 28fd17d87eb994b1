//! The commands, and what they want of the outside.
use vf_base::Octets;

/// What the command line asks for.
#[derive(Clone, Copy, PartialEq, Eq)]
pub enum Command {
    /// `dialogue`: one party's messages over an empty filestore in memory.
    Dialogue,
    /// `init`: a store with the users whom the input tells, on an empty disk.
    InitStore,
    /// `list`: the files of a store.
    ListFiles,
    /// `dockets`: the dockets and the tasks of a store.
    ListDockets,
    /// `drop`: a docket or a task of a store is dropped.
    DropKept,
    /// `replay`: a script of incarnations of the responder, on a disk in memory.
    Replay,
    /// `serve`: the associations that come to a port, over a store.
    Serve,
    /// `put`: the input becomes the contents of a file of another filestore.
    Put,
    /// `get`: the contents of a file of another filestore are written to the output.
    Get,
    /// `generate`: files of drawn contents, over a store.
    Generate,
}

/// What the command wants of the outside: the values of its options, where it has them.
#[derive(Drop)]
pub struct Wanted {
    /// The path of the store, 1 to 255 octets, each a printable character of ASCII.
    pub store: Option<Octets>,
    /// The name or the address of the other end, in the same form.
    pub host: Option<Octets>,
    /// 1 to 65535.
    pub port: Option<u16>,
    /// The rounds without an event, a millisecond each, after which serving ends: 1 to 1,000,000,000.
    pub idle: u64,
}
