//! Transport over TCP: RFC 1006 packets and the TPDUs of transport class 0 (ISO 8073), both ends.
#![tactic(auto)]

mod connection;
mod data;
mod error;
mod form;
mod kind;
mod laws;
mod limits;
mod packet;
mod parameters;
mod phase;
mod tpkt;
mod unit;

pub use error::TpktError;
pub use laws::{
    ends_connect, packets_tell_the_reading, pieces_tell_all, sent_is_received, stream_holds_tpdus,
};
pub use limits::{MOST_PACKET_OCTETS, MOST_TPDU_OCTETS};
pub use phase::Side;
pub use tpkt::Tpkt;
pub use unit::Unit;
