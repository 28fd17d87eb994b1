ghost use Rattle.std.specs.Prelude.{◌≡◌};
ghost use Rattle.vf_pdu.specs.PduNumbers.{number_of};

use crate::Pdu;

impl Pdu {
    /// The number of its tag (ISO 8571-4), of 0 to 40.
    pub fn number(&self) -> u16
        ensures { result ≡ number_of self.now }
    {
        match self {
            Pdu::InitializeRequest { .. } => 0,
            Pdu::InitializeResponse { .. } => 1,
            Pdu::TerminateRequest => 2,
            Pdu::TerminateResponse => 3,
            Pdu::UserAbort { .. } => 4,
            Pdu::ProviderAbort { .. } => 5,
            Pdu::SelectRequest { .. } => 6,
            Pdu::SelectResponse { .. } => 7,
            Pdu::DeselectRequest => 8,
            Pdu::DeselectResponse { .. } => 9,
            Pdu::CreateRequest { .. } => 10,
            Pdu::CreateResponse { .. } => 11,
            Pdu::DeleteRequest => 12,
            Pdu::DeleteResponse { .. } => 13,
            Pdu::ReadAttribRequest { .. } => 14,
            Pdu::ReadAttribResponse { .. } => 15,
            Pdu::ChangeAttribRequest { .. } => 16,
            Pdu::ChangeAttribResponse { .. } => 17,
            Pdu::OpenRequest { .. } => 18,
            Pdu::OpenResponse { .. } => 19,
            Pdu::CloseRequest => 20,
            Pdu::CloseResponse { .. } => 21,
            Pdu::BeginGroupRequest { .. } => 22,
            Pdu::BeginGroupResponse => 23,
            Pdu::EndGroupRequest => 24,
            Pdu::EndGroupResponse => 25,
            Pdu::RecoverRequest { .. } => 26,
            Pdu::RecoverResponse { .. } => 27,
            Pdu::LocateRequest { .. } => 28,
            Pdu::LocateResponse { .. } => 29,
            Pdu::EraseRequest { .. } => 30,
            Pdu::EraseResponse { .. } => 31,
            Pdu::ReadRequest { .. } => 32,
            Pdu::WriteRequest { .. } => 33,
            Pdu::DataEnd { .. } => 34,
            Pdu::TransferEndRequest => 35,
            Pdu::TransferEndResponse { .. } => 36,
            Pdu::CancelRequest { .. } => 37,
            Pdu::CancelResponse => 38,
            Pdu::RestartRequest { .. } => 39,
            Pdu::RestartResponse { .. } => 40,
        }
    }
}
