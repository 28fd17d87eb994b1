//! Tests of public calls from the disk to the store's commands: disks and journals beside plain programs that tell what a crash
//! may leave, records that are read, lists in which entries are found by their names, tables that are copied and changed, and
//! stores that are stopped.
#![tactic(auto)]

#[cfg(test)]
mod commands;
#[cfg(test)]
mod disk;
#[cfg(test)]
mod journal;
#[cfg(test)]
mod named;
#[cfg(test)]
mod records;
#[cfg(test)]
mod store;
#[cfg(test)]
mod tables;
