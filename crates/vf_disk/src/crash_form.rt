/// What a crash leaves of a disk in memory.
#[derive(Clone, Copy, PartialEq, Eq)]
pub enum CrashForm {
    /// All calls up to and with the stopped one.
    Keep,
    /// What the last sync left.
    Lose,
    /// As `Keep`, with this octet in each range written since the last sync.
    Fill(u8),
}
