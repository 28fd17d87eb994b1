/// Which end of the connection this is.
#[derive(Clone, Copy, PartialEq, Eq)]
pub enum Side {
    /// It sent the CR and waits for the CC.
    Calling,
    /// It waits for the CR.
    Called,
}

/// Where a connection stands.
#[derive(Clone, Copy, PartialEq, Eq)]
pub enum Phase {
    /// No TPDU was received.
    First,
    /// The connection stands; a DT that is sent has at most so many octets of data.
    Open { most: usize },
    /// It was ended by a DR or ER.
    Over,
}
