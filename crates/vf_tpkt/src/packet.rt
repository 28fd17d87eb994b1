//! Packets of RFC 1006.
ghost use Rattle.std.specs.Prelude.{◌≡◌, ◌<◌, ◌≤◌, IfOk, length};
ghost use Rattle.vf_tpkt.specs.Receiving.{first_packet};
ghost use Rattle.vf_tpkt.specs.Steps.{FitsOne, Wants};
ghost use Rattle.vf_tpkt.specs.Wanting.{lacking};
ghost use Rattle.vf_tpkt.specs.declared.limits.TheConstants.{MOST_PACKET_OCTETS};

use crate::TpktError;

/// The octets of a packet's header: version, a reserved octet, and the length of the packet.
pub(crate) const HEADER: usize = 4;

/// How many octets the beginning of a packet wants before it is looked at again: those that its header lacks, or else
/// those that the packet lacks; none where it is whole. A wrong header is refused at the first octet that is wrong.
pub(crate) fn wanted(place: u64, packet: &[u8]) -> Result<usize, TpktError>
    requires { FitsOne packet.now }
    ensures wants { Wants place packet.now result }
    ensures exact { IfOk result (λ count. count ≡ lacking packet.now) }
    ensures bound { IfOk result (λ count. count ≤ MOST_PACKET_OCTETS) }
{
    if !packet.is_empty() && packet[0] != 3 {
        return Err(TpktError::Version { at: place });
    }
    if packet.len() > 1 && packet[1] != 0 {
        return Err(TpktError::Version {
            at: place.saturating_add(1),
        });
    }
    if packet.len() < HEADER {
        return Ok(HEADER - packet.len());
    }
    let size = usize::from(packet[2]) * 256 + usize::from(packet[3]);
    if size < 7 {
        return Err(TpktError::Length {
            at: place.saturating_add(3),
        });
    }
    Ok(size - packet.len())
}
