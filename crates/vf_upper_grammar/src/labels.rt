/// What an integer of the user data is.
#[derive(Clone, Copy, PartialEq, Eq)]
pub enum NumberLabel {
    /// A number that is fixed.
    Fixed,
    /// The identifier of a proposed context.
    Proposal,
    /// The result of a proposal: 0 where it was accepted.
    Outcome,
    /// The context of an ACSE value.
    AcseContext,
    /// The context of the PDU of an AARQ or AARE.
    PciContext,
    /// The context of any other value.
    AnyContext,
}

/// What an object identifier of the user data is.
#[derive(Clone, Copy, PartialEq, Eq)]
pub enum NameLabel {
    /// The transfer syntax of a PDV-list, which may be any, or of an accepted context, which is that of BER.
    Stated,
    /// The abstract syntax of a proposed context.
    Abstract,
    /// A transfer syntax of a proposed context.
    Transfer,
    /// The application context name.
    Application,
}
