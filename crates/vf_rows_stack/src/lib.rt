//! Tests of public calls of the stack: what octets tell and what answers them, what is sent, and what two ends tell each
//! other; of the calling end that a script keeps over it; and of the messages, which stages take them and which PDUs are out
//! of range.
#![tactic(auto)]

#[cfg(test)]
mod caller;
#[cfg(test)]
mod elements;
#[cfg(test)]
mod end;
#[cfg(test)]
mod exchanged;
#[cfg(test)]
mod octets;
#[cfg(test)]
mod pdus;
#[cfg(test)]
mod received;
#[cfg(test)]
mod requests;
#[cfg(test)]
mod rows;
#[cfg(test)]
mod shown;
