use crate::Doing;
use vf_base::Diagnostic;

/// What the initiator waits for (ISO 8571-4, by the regimes).
#[derive(Clone, Copy)]
pub(crate) enum Stage {
    /// The answer to F-INITIALIZE.
    Associating,
    /// The answer to F-RECOVER.
    Recovering,
    /// The answer to F-CREATE or F-SELECT.
    Selecting,
    /// The answer to F-OPEN.
    Opening,
    /// Acknowledgements, and at last the answer to F-TRANSFER-END.
    Sending(Sent),
    /// Values and checks, up to F-DATA-END.
    Receiving,
    /// The answer to F-TRANSFER-END, after an F-DATA-END with this diagnostic.
    Received { diagnostic: Option<Diagnostic> },
    /// The answer to F-CLOSE, to F-DESELECT, to F-TERMINATE; the transfer ended so.
    Closing { outcome: Option<Diagnostic> },
    Deselecting { outcome: Option<Diagnostic> },
    Terminating { outcome: Option<Diagnostic> },
    /// Nothing more.
    Over(Doing),
}

/// What a put has sent.
#[derive(Clone, Copy)]
pub(crate) struct Sent {
    /// The checkpoint from which it is sent, and the serial number of the one after it.
    pub(crate) start: u32,
    pub(crate) serial: u32,
    /// The last checkpoint that is sent.
    pub(crate) offered: u32,
    /// How many of its values are sent, those before `start` among them.
    pub(crate) values: usize,
    /// F-DATA-END and F-TRANSFER-END are sent.
    pub(crate) is_ended: bool,
}
