//! Whole values that octets begin with.
ghost use Rattle.std.specs.Prelude.{◌≡◌, ◌≤◌, IfSome, length};
ghost use Rattle.vf_ber.specs.Reader.{reading};
ghost use Rattle.vf_ber_scan.specs.Scanned.{length_read};

use crate::scan::Scan;
use vf_base::MOST_VALUE_OCTETS;

/// How many octets the value takes that these begin with; `None` where they begin with none: some are wanting, or there
/// is a fault. Takes no memory.
pub fn whole_in(octets: &[u8]) -> Option<usize>
    ensures value { result ≡ length_read (reading octets.now) }
    ensures within { IfSome result (λ n. n ≤ length octets.now) }
    ensures small { IfSome result (λ n. n ≤ MOST_VALUE_OCTETS) }
{
    let mut scan = Scan::new();
    let Some(end) = scan.end_in(octets) else {
        return None;
    };
    if end.whole { Some(end.len) } else { None }
}
