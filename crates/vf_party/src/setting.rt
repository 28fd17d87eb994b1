use vf_base::Moment;

/// When a message comes, and what the session says of that moment (ISO 8327).
#[derive(Clone, Copy, PartialEq, Eq)]
pub struct Setting {
    pub moment: Moment,
    /// The number that the next check has in the session.
    pub serial: u32,
    /// This end has the token of minor synchronization.
    pub token: bool,
    /// The session agreed to synchronize.
    pub sync: bool,
}
