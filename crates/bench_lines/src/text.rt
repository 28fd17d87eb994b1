//! What a program for measuring writes, and how it ends.
use crate::fault::Fault;
use std::alloc::{AllocError, Global};
use std::process::ExitCode;
use vf_base::{Sink, WriteSink};

/// A text in the making. What appends to it needn't ask whether that went well, since the first fault is told at its end.
#[derive(Drop)]
pub struct Text {
    alloc: Global,
    octets: Vec<u8>,
    fault: Option<Fault>,
}

impl Text {
    /// An empty text.
    pub fn new(alloc: Global) -> Text {
        Text {
            alloc,
            octets: Vec::new(alloc),
            fault: None,
        }
    }

    /// There is a fault.
    pub fn fail(&mut self, fault: Fault) {
        if self.fault.is_none() {
            self.fault = Some(fault);
        }
    }

    /// Appends octets.
    pub fn put_octets(&mut self, octets: &[u8]) {
        if self.octets.extend_from_slice(octets).is_err() {
            self.fail(Fault::NoMemory);
        }
    }

    /// Appends another text in the making, with its fault.
    pub fn put_text(&mut self, other: &Text) {
        self.put_octets(other.as_slice());
        if let Some(fault) = other.fault {
            self.fail(fault);
        }
    }

    /// Appends a text.
    pub fn put(&mut self, text: &str) {
        self.put_octets(text.as_bytes());
    }

    /// Appends what was formatted.
    pub fn put_made(&mut self, made: Result<String, AllocError>) {
        match made {
            Ok(text) => self.put(text.as_str()),
            Err(_) => self.fail(Fault::NoMemory),
        }
    }

    /// Appends a number between two texts.
    pub fn put_number(&mut self, before: &str, number: u64, after: &str) {
        let made = format!(in self.alloc; "{before}{number}{after}");
        self.put_made(made);
    }

    /// Appends octets as hexadecimal digits.
    pub fn put_digits(&mut self, octets: &[u8]) {
        let made = hex::encode(self.alloc, octets);
        self.put_made(made);
    }

    /// The same with capital digits.
    pub fn put_capitals(&mut self, octets: &[u8]) {
        let made = hex::encode_upper(self.alloc, octets);
        self.put_made(made);
    }

    /// Appends octets as digits; of more than `most` only the first few, and how many there are.
    pub fn put_front(&mut self, octets: &[u8], most: usize, few: usize) {
        if octets.len() <= most {
            self.put_digits(octets);
            return;
        }
        self.put_digits(octets.get(..few).unwrap_or(&[]));
        self.put_number("..", octets.len() as u64, "");
    }

    /// Appends a digest.
    pub fn put_digest(&mut self, digest: u32) {
        let made = format!(in self.alloc; "{digest:08x}");
        self.put_made(made);
    }

    /// What was appended so far.
    pub fn as_slice(&self) -> &[u8] {
        self.octets.as_slice()
    }

    /// The octets of the text, or its first fault.
    pub fn end(self) -> Result<Vec<u8>, Fault> {
        match self.fault {
            None => Ok(self.octets),
            Some(fault) => Err(fault),
        }
    }
}

/// Writes what was made to standard output, and gives the status.
pub fn end(rt: &HostRuntime, made: Result<Vec<u8>, Fault>) -> ExitCode {
    let fault = match made {
        Ok(made) => match WriteSink::new(rt.stdout()).write(made.as_slice()) {
            Ok(()) => return ExitCode::from(0),
            Err(_) => Fault::Output,
        },
        Err(fault) => fault,
    };
    ExitCode::from(fault.status())
}
