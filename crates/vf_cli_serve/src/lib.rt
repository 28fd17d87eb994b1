//! The command `serve`: the associations of links over the store on a disk.
#![tactic(auto)]

mod serving;

pub use serving::serve;
