//! Adapters over std's readers and writers: the trusted edge, which tells nothing of content.
ghost use Rattle.std.specs.Prelude.{◌≡◌, ◌≤◌, None, length, is_err, IfOk, OnOk, OnErr};
ghost use Rattle.std.specs.Io.KnownBytes.{Appends, ReadConsumes};
ghost use Rattle.vf_base.specs.Faults.{HasRisen, NeverFalls};
ghost use Rattle.vf_base.specs.Plans.{FailsAsPlanned, FailsWherePlanned};
ghost use Rattle.vf_base.specs.Streams.{Reads, Writes};

use crate::{Failed, Sink, Source};
use std::io::{Read, Write};

/// A source over a reader.
#[derive(Drop)]
pub struct ReadSource<R> {
    reader: R,
    faults: u64,
}

impl<R: Read + Drop> ReadSource<R> {
    pub fn new(reader: R) -> ReadSource<R>
        ensures { (result.reader ≡ reader) × (result.faults ≡ 0) }
    {
        ReadSource { reader, faults: 0 }
    }
}

impl<R: Read + Drop> Source for ReadSource<R> {
    ghost left = { λ source. None };

    ghost fault_count = { λ source. source.faults };

    ghost plan = { λ source. None };

    /// Reads from the reader: what it gives, where its octets are known.
    fn read(&mut self, into: &mut [u8]) -> Result<usize, Failed>
        ensures reader { ReadConsumes (R.remaining self.old.reader) (R.remaining self.new.reader) result into.new }
        ensures within { IfOk result (λ count. count ≤ length into.new) }
        ensures octets { Reads None None into.new result }
        ensures plan { FailsAsPlanned None None (is_err result) }
        ensures ok { OnOk result (self.new.faults ≡ self.old.faults) }
        ensures falls { NeverFalls self.old.faults self.new.faults }
        ensures failed { OnErr result (HasRisen self.old.faults self.new.faults) }
    {
        match self.reader.read(into) {
            Ok(count) => Ok(count),
            Err(_) => {
                self.faults = self.faults.saturating_add(1);
                Err(Failed)
            }
        }
    }

    fn faults(&self) -> u64 {
        self.faults
    }
}

/// A sink over a writer.
#[derive(Drop)]
pub struct WriteSink<W> {
    writer: W,
    faults: u64,
}

impl<W: Write + Drop> WriteSink<W> {
    pub fn new(writer: W) -> WriteSink<W>
        ensures { (result.writer ≡ writer) × (result.faults ≡ 0) }
    {
        WriteSink { writer, faults: 0 }
    }
}

impl<W: Write + Drop> Sink for WriteSink<W> {
    ghost taken = { λ sink. None };

    ghost fault_count = { λ sink. sink.faults };

    ghost plan = { λ sink. None };

    /// Writes to the writer, which then holds the octets, where it is known what it holds.
    fn write(&mut self, octets: &[u8]) -> Result<(), Failed>
        ensures writer { OnOk result (Appends (W.contents self.old.writer) (W.contents self.new.writer) octets.now) }
        ensures octets { Writes None None octets.now result }
        ensures plan { FailsWherePlanned None None (is_err result) }
        ensures ok { OnOk result (self.new.faults ≡ self.old.faults) }
        ensures falls { NeverFalls self.old.faults self.new.faults }
        ensures failed { OnErr result (HasRisen self.old.faults self.new.faults) }
    {
        if self.writer.write_all(octets).is_err() || self.writer.flush().is_err() {
            self.faults = self.faults.saturating_add(1);
            return Err(Failed);
        }
        Ok(())
    }

    fn faults(&self) -> u64 {
        self.faults
    }
}
