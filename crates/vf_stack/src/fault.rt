//! Faults of the layers.
ghost use Rattle.std.specs.Prelude.{◌≡◌, ◌≢◌, Err, IfOk, OnErr};
ghost use Rattle.vf_pdu_fields.specs.Results.{Fails};
ghost use Rattle.vf_session_spdu.specs.Reading.{reading};
ghost use Rattle.vf_stack.specs.Faults.{form_name as name_of_form, indication_of, misplaced as misplaced_fault, of_form, of_state, of_transport, of_upper, state_name as name_of_state};
ghost use Rattle.vf_stack.specs.FaultNames.{NamesValue};

use crate::{FaultName, Indication, Layer};
use vf_base::NoMemory;
use vf_pdu::PduError;
use vf_session::{SessionError, SpduError, fault_place};
use vf_tpkt::TpktError;
use vf_upper::UpperError;

/// A fault of a layer, with its place.
#[derive(Clone, Copy)]
pub(crate) struct Fault {
    pub(crate) layer: Layer,
    pub(crate) name: FaultName,
    pub(crate) at: u64,
}

impl Fault {
    pub(crate) fn indication(&self) -> Indication
        ensures { result ≡ indication_of self.now }
    {
        Indication::Fault {
            layer: self.layer,
            name: self.name,
            at: self.at,
        }
    }
}

pub(crate) fn transport_fault(fault: TpktError) -> Fault
    ensures { result ≡ of_transport fault }
{
    let (name, at) = match fault {
        TpktError::Version { at } => (FaultName::Version, at),
        TpktError::Length { at } => (FaultName::Length, at),
        TpktError::Code { at, .. } => (FaultName::Code, at),
        TpktError::State { at, .. } => (FaultName::State, at),
        TpktError::Size { at } => (FaultName::Size, at),
        TpktError::NoMemory => (FaultName::Size, 0),
    };
    Fault {
        layer: Layer::Transport,
        name,
        at,
    }
}

fn form_name(fault: SpduError) -> FaultName
    ensures { result ≡ name_of_form fault }
{
    match fault {
        SpduError::Code { .. } => FaultName::Code,
        SpduError::Length { .. } => FaultName::Length,
        SpduError::Missing { .. } => FaultName::Missing,
        SpduError::Value { .. } => FaultName::Value,
        SpduError::NoMemory => FaultName::Length,
    }
}

/// The fault that `read` found in a TSDU, where memory wasn't wanting.
pub(crate) fn form_fault(tsdu: &[u8], fault: SpduError) -> Result<Fault, NoMemory>
    ensures ok { IfOk result (λ told. (fault ≢ SpduError.NoMemory) × (reading tsdu.now ≡ Err fault → told ≡ of_form tsdu.now fault)) }
    ensures err { OnErr result (fault ≡ SpduError.NoMemory) }
{
    if let SpduError::NoMemory = fault {
        return Err(NoMemory);
    }
    Ok(Fault {
        layer: Layer::Session,
        name: form_name(fault),
        at: u64::from(fault_place(tsdu, fault)),
    })
}

/// The fault of an SPDU whose first octet has this place in its TSDU, where memory wasn't wanting.
pub(crate) fn state_fault(place: u32, fault: SessionError) -> Result<Fault, NoMemory>
    ensures ok { IfOk result (λ told. (fault ≢ SessionError.NoMemory) × (told ≡ of_state place fault)) }
    ensures err { OnErr result (fault ≡ SessionError.NoMemory) }
{
    let name = match fault {
        SessionError::State { .. } => FaultName::State,
        SessionError::Serial { .. } => FaultName::Serial,
        SessionError::Token => FaultName::Token,
        SessionError::NoMemory => return Err(NoMemory),
    };
    Ok(Fault {
        layer: Layer::Session,
        name,
        at: u64::from(place),
    })
}

pub(crate) fn upper_fault(fault: UpperError) -> Fault
    ensures { result ≡ of_upper fault }
{
    let (name, at) = match fault {
        UpperError::Context { .. } => (FaultName::Context, 0),
        UpperError::Grammar { at } => (FaultName::Grammar, u64::from(at)),
        UpperError::Application => (FaultName::Application, 0),
        UpperError::NoMemory => (FaultName::Grammar, 0),
    };
    Fault {
        layer: Layer::Upper,
        name,
        at,
    }
}

/// The fault of a value; none where memory is wanting.
pub(crate) fn value_fault(fault: PduError) -> Option<Fault>
    ensures { NamesValue fault result }
{
    let (name, at) = match fault {
        PduError::Unknown { .. } => (FaultName::Unknown, 0),
        PduError::Field { place } => (FaultName::Field, u64::from(place)),
        PduError::Range { field } => (FaultName::Range, u64::from(field)),
        PduError::Missing { field } => (FaultName::Missing, u64::from(field)),
        PduError::NoMemory => return None,
    };
    Some(Fault {
        layer: Layer::Ftam,
        name,
        at,
    })
}

/// A PDU in another carriage than its own.
pub(crate) fn misplaced() -> Fault
    ensures { result ≡ misplaced_fault }
{
    Fault {
        layer: Layer::Ftam,
        name: FaultName::Unknown,
        at: 0,
    }
}
