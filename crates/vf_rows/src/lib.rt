//! The top call over objects in memory, from its words, its disk and its input to what it prints, its status and what the
//! disk then holds: worked dialogues, faults of the disk, the input and the output, and stops of the disk. Besides these what the
//! initiator sends to an end that answers by rows, and scripts as they are read.
#![tactic(auto)]

#[cfg(test)]
mod call;
#[cfg(test)]
mod commands;
#[cfg(test)]
mod dialogues;
#[cfg(test)]
mod faults;
#[cfg(test)]
mod initiator;
#[cfg(test)]
mod rows;
#[cfg(test)]
mod scripts;
#[cfg(test)]
mod sips;
#[cfg(test)]
mod stops;
#[cfg(test)]
mod words;
