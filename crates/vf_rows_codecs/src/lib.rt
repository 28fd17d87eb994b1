//! Tests of public calls of `vf_ber` and `vf_ber_scan` that no line of `bench_lines` shows, and of plain values.
#![tactic(auto)]

#[cfg(test)]
mod ber_contents;
#[cfg(test)]
mod ber_fitting;
#[cfg(test)]
mod ber_reading;
#[cfg(test)]
mod ber_scan;
#[cfg(test)]
mod ber_writing;
#[cfg(test)]
mod nested;
#[cfg(test)]
mod octets;
#[cfg(test)]
mod outside;
#[cfg(test)]
mod plain_values;
