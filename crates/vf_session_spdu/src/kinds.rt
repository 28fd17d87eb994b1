//! The identifiers of SPDUs.
ghost use Rattle.std.specs.Prelude.{◌≡◌};
ghost use Rattle.vf_session_spdu.specs.Kinds.{code_of as code, first_kind as first, second_kind as second};
ghost use Rattle.vf_session_spdu.specs.Reading.{is_dt as dt, is_gt as gt};

use vf_base::SpduKind;

/// The identifier of an SPDU (ISO 8327, 8.3).
pub fn code_of(kind: SpduKind) -> u8
    ensures { result ≡ code kind }
{
    match kind {
        SpduKind::CN => 13,
        SpduKind::AC => 14,
        SpduKind::RF => 12,
        SpduKind::FN => 9,
        SpduKind::DN => 10,
        SpduKind::AB => 25,
        SpduKind::AA => 26,
        SpduKind::DT => 1,
        SpduKind::GT => 1,
        SpduKind::MIP => 49,
        SpduKind::MIA => 50,
        SpduKind::RS => 53,
        SpduKind::RA => 34,
    }
}

/// The SPDU with this identifier that begins a TSDU, if any.
pub(crate) fn first_kind(code: u8) -> Option<SpduKind>
    ensures { result ≡ first code }
{
    match code {
        13 => Some(SpduKind::CN),
        14 => Some(SpduKind::AC),
        12 => Some(SpduKind::RF),
        9 => Some(SpduKind::FN),
        10 => Some(SpduKind::DN),
        25 => Some(SpduKind::AB),
        26 => Some(SpduKind::AA),
        1 => Some(SpduKind::GT),
        _ => None,
    }
}

/// The SPDU with this identifier that follows a GT, if any.
pub(crate) fn second_kind(code: u8) -> Option<SpduKind>
    ensures { result ≡ second code }
{
    match code {
        1 => Some(SpduKind::DT),
        49 => Some(SpduKind::MIP),
        50 => Some(SpduKind::MIA),
        53 => Some(SpduKind::RS),
        34 => Some(SpduKind::RA),
        _ => None,
    }
}

/// The data of a DT follows its parameters.
pub(crate) fn is_dt(kind: SpduKind) -> bool
    ensures { result ≡ dt kind }
{
    matches!(kind, SpduKind::DT)
}

/// Another SPDU may follow a GT.
pub(crate) fn is_gt(kind: SpduKind) -> bool
    ensures { result ≡ gt kind }
{
    matches!(kind, SpduKind::GT)
}
