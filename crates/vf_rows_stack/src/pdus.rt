//! PDUs that aren't in their ranges, which no octets are read as. What octets mean are lines of `bench_lines`.

use vf_base::FaduId;
use vf_pdu::{Pdu, is_in_range};

/// A PDU with one field out of range, by its number.
fn out_of_range(number: u8) -> Pdu {
    match number {
        0 => Pdu::BeginGroupRequest { threshold: 0 },
        1 => Pdu::BeginGroupRequest { threshold: 17 },
        2 => Pdu::RestartRequest { point: 1_000_001 },
        _ => Pdu::LocateRequest {
            fadu: FaduId::Number(0),
        },
    }
}

/// Whether it is known to be out of range.
fn is_refused(number: u8) -> bool {
    !is_in_range(&out_of_range(number))
}

#[test]
fn tells_what_is_out_of_range(rt: HostRuntime) {
    for number in 0..4 {
        assert!(rt; is_refused(number), "{number}");
    }
}
