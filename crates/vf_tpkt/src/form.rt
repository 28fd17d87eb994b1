//! The form of one TPDU.
ghost use Rattle.std.specs.Prelude.{◌≡◌, ◌≤◌, ◌^◌, ◌<◌, length, drop, true, IsTrue, is_some};
ghost use Rattle.vf_tpkt.specs.Parameters.{sizes as sizes_of};
ghost use Rattle.vf_tpkt.specs.Tpdu.{may_come as may_come_now, is_counted as counted, has_lengths as lengths, has_reference as reference, has_fixed as fixed, proposes_no_small};

use crate::kind::Kind;
use crate::parameters::sizes;
use crate::phase::{Phase, Side};

/// The mark of the last DT of a TSDU.
pub(crate) const LAST: u8 = 0x80;

/// The mark of any other DT.
pub(crate) const MORE: u8 = 0x00;

/// Whether a TPDU of this kind may come now.
pub(crate) fn may_come(side: Side, phase: Phase, kind: Kind) -> bool
    ensures { result ≡ may_come_now side phase kind }
{
    match phase {
        Phase::First => match side {
            Side::Called => matches!(kind, Kind::Cr),
            Side::Calling => matches!(kind, Kind::Cc),
        },
        Phase::Open { .. } => matches!(kind, Kind::Dt | Kind::Dr | Kind::Er),
        Phase::Over => false,
    }
}

/// Whether the lengths in a TPDU are right.
pub(crate) fn has_lengths(kind: Kind, tpdu: &[u8]) -> bool
    requires { 3 ≤ length tpdu.now }
    ensures { result ≡ lengths kind tpdu.now }
{
    match kind {
        Kind::Cr | Kind::Cc => is_counted(tpdu),
        Kind::Dt => tpdu[0] == 2 && (tpdu.len() > 3 || tpdu[2] == LAST),
        Kind::Dr | Kind::Er => true,
    }
}

/// Whether a CR or CC counts its octets, and has whole parameters.
fn is_counted(tpdu: &[u8]) -> bool
    requires { 3 ≤ length tpdu.now }
    ensures { result ≡ counted tpdu.now }
{
    if tpdu[0] < 6 || usize::from(tpdu[0]) != tpdu.len() - 1 {
        return false;
    }
    sizes(&tpdu[7..]).is_some()
}

/// Whether the fixed octets of a TPDU with right lengths are right.
pub(crate) fn has_fixed(kind: Kind, tpdu: &[u8]) -> bool
    requires whole { 3 ≤ length tpdu.now }
    requires counted { IsTrue (lengths kind tpdu.now) }
    ensures { result ≡ fixed kind tpdu.now }
{
    match kind {
        Kind::Cr => has_reference(0, tpdu) && proposes_no_small_size(&tpdu[7..]),
        Kind::Cc => has_reference(1, tpdu),
        Kind::Dt => tpdu[2] == LAST || tpdu[2] == MORE,
        Kind::Dr | Kind::Er => true,
    }
}

/// Whether a CR or CC begins with this reference and is of class 0.
fn has_reference(low: u8, tpdu: &[u8]) -> bool
    requires { 7 ≤ length tpdu.now }
    ensures { result ≡ reference low tpdu.now }
{
    tpdu[2] == 0 && tpdu[3] == low && tpdu[6] == 0
}

fn proposes_no_small_size(octets: &[u8]) -> bool
    ensures { result ≡ proposes_no_small (sizes_of octets.now) }
{
    match sizes(octets) {
        None => true,
        Some(sizes) => !sizes.small,
    }
}
