use crate::Boxed;
use vf_base::{Actions, Contents, Context, Diagnostic, FaduId, Name, Octets, Terms};
use vf_pdu_fields::{AttributeControls, ContentControls, WriteOperation};
use vf_pdu_parameters::Attributes;

/// An FTAM PDU (ISO 8571-4). The fields, their ranges and their defaults are this profile's.
#[derive(Drop)]
pub enum Pdu {
    /// Asks for an association with these functional units, a set of 16 bits.
    InitializeRequest {
        units: u16,
        identity: Option<Name>,
        /// At most 255 octets.
        password: Option<Octets>,
        /// The checkpoint window, 1 to 65535.
        window: u16,
    },
    InitializeResponse {
        diagnostic: Option<Diagnostic>,
        units: u16,
        /// 1 to 65535.
        window: u16,
    },
    TerminateRequest,
    TerminateResponse,
    UserAbort {
        number: u16,
    },
    /// The provider's abort, with the place of a fault in what was received, at most 2^53.
    ProviderAbort {
        number: u16,
        place: u64,
    },
    SelectRequest {
        name: Name,
        requested: Actions,
        controls: Option<AttributeControls>,
        /// At most 255 octets.
        password: Option<Octets>,
    },
    SelectResponse {
        diagnostic: Option<Diagnostic>,
    },
    DeselectRequest,
    DeselectResponse {
        diagnostic: Option<Diagnostic>,
    },
    CreateRequest {
        /// What is done where the file exists: 0 refused, 1 selected instead.
        over: u8,
        name: Name,
        contents: Contents,
        permitted: Actions,
        /// At most 256.
        terms: Terms,
        requested: Actions,
        controls: Option<AttributeControls>,
        /// At most 255 octets.
        password: Option<Octets>,
    },
    CreateResponse {
        diagnostic: Option<Diagnostic>,
    },
    DeleteRequest,
    DeleteResponse {
        diagnostic: Option<Diagnostic>,
    },
    /// Asks for the attributes of a set: name 1, permitted actions 2, contents type 4, access control 8, created 16,
    /// modified 32, read 64, changed 128, size 256.
    ReadAttribRequest {
        names: u16,
    },
    ReadAttribResponse {
        diagnostic: Option<Diagnostic>,
        attributes: Boxed<Option<Attributes>>,
    },
    ChangeAttribRequest {
        name: Option<Name>,
        permitted: Option<Actions>,
        /// At most 256.
        terms: Option<Terms>,
        /// Other attributes, as those of a read of attributes.
        others: u16,
    },
    ChangeAttribResponse {
        diagnostic: Option<Diagnostic>,
    },
    OpenRequest {
        /// A set of the actions read, insert, replace, extend and erase: 0 to 31.
        mode: u8,
        contents: Option<Contents>,
        controls: Option<ContentControls>,
        /// The activity of a recoverable open, 1 to 2147483647.
        activity: Option<u32>,
    },
    OpenResponse {
        diagnostic: Option<Diagnostic>,
        contents: Option<Contents>,
    },
    CloseRequest,
    CloseResponse {
        diagnostic: Option<Diagnostic>,
    },
    BeginGroupRequest {
        /// How many items have to succeed, 1 to 16.
        threshold: u8,
    },
    BeginGroupResponse,
    EndGroupRequest,
    EndGroupResponse,
    RecoverRequest {
        /// 1 to 2147483647.
        activity: u32,
        /// The transfer of the activity, 1 to 1000000.
        number: u32,
        /// The checkpoint, 0 to 1000000.
        point: u32,
    },
    RecoverResponse {
        diagnostic: Option<Diagnostic>,
        /// 1 to 1000001.
        number: Option<u32>,
        /// 0 to 1000000.
        point: u32,
        moving: bool,
        last: u16,
    },
    LocateRequest {
        fadu: FaduId,
    },
    LocateResponse {
        diagnostic: Option<Diagnostic>,
        position: u32,
    },
    EraseRequest {
        fadu: FaduId,
    },
    EraseResponse {
        diagnostic: Option<Diagnostic>,
    },
    ReadRequest {
        fadu: FaduId,
        context: Context,
    },
    WriteRequest {
        operation: WriteOperation,
        fadu: FaduId,
    },
    DataEnd {
        diagnostic: Option<Diagnostic>,
    },
    TransferEndRequest,
    TransferEndResponse {
        diagnostic: Option<Diagnostic>,
    },
    CancelRequest {
        diagnostic: Option<Diagnostic>,
    },
    CancelResponse,
    RestartRequest {
        /// The checkpoint, 0 to 1000000.
        point: u32,
    },
    RestartResponse {
        /// 0 to 1000000.
        point: u32,
    },
}
