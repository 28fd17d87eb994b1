//! The names of the types of presentation and ACSE.
use crate::labels::{NameLabel, NumberLabel};

/// A type with fields.
#[derive(Clone, Copy)]
pub(crate) enum TypeName {
    /// The mode selector of a CP or CPA.
    Mode,
    /// The normal-mode parameters of a CP.
    Parameters,
    /// A CPR, and the normal-mode parameters of a CPA.
    Response,
    /// An entry of a context definition list.
    Proposal,
    /// An ARU.
    UserAbort,
    /// An RS or RSA.
    Resynchronization,
    /// User data with one PDV-list that has an ACSE value.
    AcseData,
    AcseList,
    /// User data with one PDV-list that has one value.
    OneData,
    OneList,
    /// A PDV-list of a P-DATA.
    DataList,
    Aarq,
    Aare,
    /// An RLRQ or RLRE.
    Release,
    Abrt,
    /// The application context name.
    ContextName,
    /// The result of an AARE within its tag.
    AareResult,
    /// The source of the diagnostic of an AARE and, within it, its reason.
    Source,
    Reason,
    /// User information, one EXTERNAL.
    Information,
    External,
}

/// A SET of two fields.
#[derive(Clone, Copy)]
pub(crate) enum Pair {
    Cp,
    Cpa,
}

/// A SEQUENCE OF.
#[derive(Clone, Copy)]
pub(crate) enum Listing {
    /// The context definition list.
    Proposals,
    /// The transfer syntaxes of a proposal.
    Transfers,
    /// The result list.
    Outcomes,
    /// The user data of a P-DATA.
    Data,
}

/// What stands within the [0] or [1] of a PDV-list or an EXTERNAL.
#[derive(Clone, Copy)]
pub(crate) enum DataValues {
    /// One value.
    One,
    /// One value or more.
    Some,
    /// The ACSE value of the SPDU.
    Apdu,
}

/// How a part is read.
#[derive(Clone, Copy)]
pub(crate) enum Form {
    /// An integer, which is the number that is demanded, if one is.
    Number(Option<u8>, NumberLabel),
    /// The result of an AARE, which the SPDU decides.
    AareResult,
    /// The context of the PDU of an ACSE value.
    PduContext,
    Name(NameLabel),
    /// The object identifier of BER.
    Ber,
    /// A list of which nothing is used.
    Skipped,
    Fields(TypeName),
    Set(Pair),
    Each(Listing),
    /// An entry of the result list.
    Outcome,
    Carried(DataValues),
}

/// A field: its class, its number or its numbers, whether it is required, and how it is read.
#[derive(Clone, Copy)]
pub(crate) struct Field {
    pub class: u8,
    pub from: u8,
    pub to: u8,
    pub is_required: bool,
    pub form: Form,
}
