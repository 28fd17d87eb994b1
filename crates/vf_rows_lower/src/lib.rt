//! Tests of public calls of session, presentation and ACSE that no line of `bench_lines` shows: SPDUs as what they are, what
//! is found in user data, and values that no octets are read as; and of sockets.
#![tactic(auto)]

#[cfg(test)]
mod octets;
#[cfg(test)]
mod session;
#[cfg(test)]
mod sockets;
#[cfg(test)]
mod spdus;
#[cfg(test)]
mod upper;
