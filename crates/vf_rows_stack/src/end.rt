//! One end in rows: the words of what it was told, and the octets that it has sent.
use crate::octets::octets_of;
use crate::requests::request_of;
use crate::shown::{put_comma, show_told};
use std::alloc::Global;
use std::test::Fail;
use vf_stack::{Request, Stack};

#[derive(Drop)]
pub(crate) struct End {
    pub(crate) stack: Stack,
    pub(crate) told: String,
    pub(crate) sent: Vec<u8>,
}

impl End {
    /// The called end, or a calling one that proposes sync (`sync`) or doesn't.
    pub(crate) fn new(alloc: Global, name: &str) -> Result<End, Fail> {
        let mut sent = Vec::new(alloc);
        let stack = match name {
            "called" => Stack::called(alloc)?,
            _ => Stack::calling(alloc, name == "sync", &mut sent)?,
        };
        Ok(End {
            stack,
            told: String::new(alloc),
            sent,
        })
    }

    /// Octets come, so many at a time.
    pub(crate) fn take(&mut self, alloc: Global, octets: &[u8], pieces: usize) -> Result<(), Fail> {
        let mut told = Vec::new(alloc);
        for piece in octets.chunks(pieces.max(1)) {
            self.stack.feed(piece, &mut told, &mut self.sent)?;
        }
        show_told(alloc, told.as_slice(), &mut self.told)
    }

    /// The same of octets by their digits.
    pub(crate) fn hear(&mut self, alloc: Global, digits: &str, pieces: usize) -> Result<(), Fail> {
        let octets = octets_of(alloc, digits)?;
        self.take(alloc, octets.as_slice(), pieces)
    }

    /// Sends a request; `no` is told where it may not be sent.
    fn send(&mut self, alloc: Global, request: &Request) -> Result<(), Fail> {
        if !self.stack.may(request) {
            put_comma(&mut self.told)?;
            self.told.push_str("no")?;
            return Ok(());
        }
        self.stack.send(alloc, request, &mut self.sent)?;
        Ok(())
    }

    /// Sends the request of a word.
    pub(crate) fn say(&mut self, alloc: Global, word: &str) -> Result<(), Fail> {
        let request = request_of(alloc, word)?;
        self.send(alloc, &request)
    }

    /// A request, and the digits of the octets that come after it.
    pub(crate) fn step(&mut self, alloc: Global, step: &str, pieces: usize) -> Result<(), Fail> {
        let (request, digits) = step.split_once(' ').unwrap_or((step, ""));
        self.say(alloc, request)?;
        self.hear(alloc, digits, pieces)
    }
}
