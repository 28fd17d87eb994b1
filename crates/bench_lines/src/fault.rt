//! Why a program for measuring writes nothing.
use std::alloc::{AllocError, AllocFailed};
use vf_base::NoMemory;

/// Why a program for measuring writes nothing. Each has a status of its own.
#[derive(Clone, Copy, Debug, PartialEq, Eq)]
pub enum Fault {
    /// Its words ask for nothing that it does: 2.
    Words,
    /// Its input can't be read, or is too long: 3.
    Input,
    /// What it made can't be written: 4.
    Output,
    /// What one side sent is a fault to the other: 7.
    Received,
    /// A line of the input, or its octets, are none that it takes: 8.
    Line,
    /// Memory is wanting: 9.
    NoMemory,
}

impl Fault {
    /// The status with which the program ends.
    pub fn status(self) -> u8 {
        match self {
            Fault::Words => 2,
            Fault::Input => 3,
            Fault::Output => 4,
            Fault::Received => 7,
            Fault::Line => 8,
            Fault::NoMemory => 9,
        }
    }
}

impl From<NoMemory> for Fault {
    fn from(_error: NoMemory) -> Fault {
        Fault::NoMemory
    }
}

impl From<AllocError> for Fault {
    fn from(_error: AllocError) -> Fault {
        Fault::NoMemory
    }
}

impl<T: Drop> From<AllocFailed<T>> for Fault {
    fn from(_error: AllocFailed<T>) -> Fault {
        Fault::NoMemory
    }
}
