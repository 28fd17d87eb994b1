//! Tests of public calls of the file model: trees, attributes, transfers and locks.
#![tactic(auto)]

#[cfg(test)]
mod attr;
#[cfg(test)]
mod locks;
#[cfg(test)]
mod transfer;
#[cfg(test)]
mod tree;
