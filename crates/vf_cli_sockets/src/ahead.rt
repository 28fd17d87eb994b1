//! What a stream gave beyond what it was asked for.
ghost use Rattle.std.specs.Prelude.{◌≡◌, ◌≤◌, IfOk, length};

use std::alloc::Global;
use std::io::{self, Read};
use std::net::TcpStream;

/// So many octets are read from the system at once.
const MOST_OCTETS: usize = 65_536;

/// Octets of a stream that were read and aren't taken yet, so that a packet's head and its rest cost no call of the system each.
#[derive(Drop)]
pub(crate) struct Ahead {
    room: Vec<u8>,
    /// Where those that aren't taken begin and end.
    from: usize,
    to: usize,
    ghost order: { from ≤ to },
    ghost within: { to ≤ length room.items },
}

impl Ahead {
    /// Nothing, and no room for anything.
    pub(crate) fn new(alloc: Global) -> Ahead {
        Ahead {
            room: Vec::new(alloc),
            from: 0,
            to: 0,
        }
    }

    /// A stream begins: nothing was read of it. Where there is no memory for the room, there is none, and nothing is read ahead.
    pub(crate) fn begin(&mut self) {
        self.from = 0;
        self.to = 0;
        if self.room.resize(MOST_OCTETS, 0).is_err() {
            self.room.clear();
        }
    }

    /// Gives the next octets of the stream, at most as many as there is room for.
    pub(crate) fn read(&mut self, stream: &mut TcpStream, into: &mut [u8]) -> io::Result<usize>
        ensures { IfOk result (λ count. count ≤ length into.new) }
    {
        if self.from < self.to {
            return Ok(self.give(into));
        }
        if into.len() >= self.room.len() {
            return read_next(stream, into);
        }
        self.from = 0;
        self.to = 0;
        let count = read_next(stream, self.room.as_mut_slice())?;
        self.to = count;
        Ok(self.give(into))
    }

    /// Gives octets that were read.
    fn give(&mut self, into: &mut [u8]) -> usize
        ensures { result ≤ length into.new }
    {
        let (read, _) = self.room.as_slice().split_at(self.to);
        let (_, rest) = read.split_at(self.from);
        let count = into.len().min(rest.len());
        let (front, _) = rest.split_at(count);
        into[..count].copy_from_slice(front);
        self.from += count;
        count
    }
}

/// Reads what comes next; a call that a signal broke off is made once more.
fn read_next(stream: &mut TcpStream, into: &mut [u8]) -> io::Result<usize>
    ensures { IfOk result (λ count. count ≤ length into.new) }
{
    match stream.read(into) {
        Err(error) if error.kind() == io::ErrorKind::Interrupted => stream.read(into),
        read => read,
    }
}
