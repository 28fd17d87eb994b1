//! Real sockets as links and as a dial: the trusted edge of serving and of the initiator.
#![tactic(auto)]

mod ahead;
mod rounds;
mod socket_dial;
mod socket_links;
mod streams;
mod waking;

pub use socket_dial::SocketDial;
pub use socket_links::SocketLinks;
