/// Where a session connection stands, as one end sees it.
#[derive(Clone, Copy, PartialEq, Eq)]
pub enum Phase {
    /// No CN was sent or received.
    Idle,
    /// A CN was sent or received, and isn't answered.
    Asked,
    Open,
    /// This end sent an FN, which isn't answered.
    Leaving,
    /// The other end sent an FN, which isn't answered.
    Left,
    /// This end sent an AB.
    Aborted,
    /// It is refused, released, or aborted by the other end.
    Over,
}
