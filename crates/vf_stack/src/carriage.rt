//! The user data of units of session, and the values in them.
ghost use Rattle.std.specs.Prelude.{◌≡◌, IfOk};
ghost use Rattle.vf_session.specs.Units.{user_data as data_of};
ghost use Rattle.vf_stack.specs.Carriage.{carrier as carrier_of, is_data as data_test, values_of as values_in};

use std::alloc::Global;
use vf_base::{NoMemory, Octets, SpduKind};
use vf_session::{SayParameters, SessionOut};
use vf_upper::{CarriedValues, Primitive};

/// The user data of a unit, shared; empty where it has none.
pub(crate) fn user_data(alloc: Global, unit: &SessionOut) -> Result<Octets, NoMemory>
    ensures { IfOk result (λ octets. octets ≡ data_of unit.now) }
{
    match unit {
        SessionOut::Connect { data, .. } => data.copy(alloc),
        SessionOut::Accept { data, .. } => data.copy(alloc),
        SessionOut::Refuse { data } => data.copy(alloc),
        SessionOut::Finish { data } => data.copy(alloc),
        SessionOut::Finished { data } => data.copy(alloc),
        SessionOut::Data { data, .. } => data.copy(alloc),
        SessionOut::Resync { data, .. } => data.copy(alloc),
        SessionOut::Resynced { data, .. } => data.copy(alloc),
        SessionOut::Abort { data } => data.copy(alloc),
        SessionOut::Check { .. } => Octets::of(alloc, &[]),
        SessionOut::Acknowledge { .. } => Octets::of(alloc, &[]),
        SessionOut::Token { .. } => Octets::of(alloc, &[]),
    }
}

/// The SPDU whose user data a unit has.
pub(crate) fn carrier(unit: SayParameters) -> Option<SpduKind>
    ensures { result ≡ carrier_of unit }
{
    match unit {
        SayParameters::Connect { .. } => Some(SpduKind::CN),
        SayParameters::Accept { .. } => Some(SpduKind::AC),
        SayParameters::Refuse => Some(SpduKind::RF),
        SayParameters::Finish => Some(SpduKind::FN),
        SayParameters::Finished => Some(SpduKind::DN),
        SayParameters::Data { .. } => Some(SpduKind::DT),
        SayParameters::Resync { .. } => Some(SpduKind::RS),
        SayParameters::Resynced { .. } => Some(SpduKind::RA),
        SayParameters::Abort => Some(SpduKind::AB),
        SayParameters::Check { .. } => None,
        SayParameters::Acknowledge { .. } => None,
        SayParameters::Token { .. } => None,
    }
}

/// Whether the unit is P-DATA.
pub(crate) fn is_data(unit: SayParameters) -> bool
    ensures { result ≡ data_test unit }
{
    matches!(unit, SayParameters::Data { .. })
}

/// The values of a primitive.
pub(crate) fn values_of(primitive: Primitive) -> CarriedValues
    ensures { result ≡ values_in primitive }
{
    match primitive {
        Primitive::Associate { values, .. } => values,
        Primitive::Accepted { values, .. } => values,
        Primitive::Refused { values, .. } => values,
        Primitive::Release { values } => values,
        Primitive::Released { values } => values,
        Primitive::Data { values } => values,
        Primitive::Abort { values } => values,
    }
}
