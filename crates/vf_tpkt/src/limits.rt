//! The limits of packets (RFC 1006).

/// The most octets of a packet, whose length takes two octets.
pub const MOST_PACKET_OCTETS: usize = 65_535;

/// The most octets of a TPDU, with the four octets of the packet's header before it.
pub const MOST_TPDU_OCTETS: usize = 65_531;
