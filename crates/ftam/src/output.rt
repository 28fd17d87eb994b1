//! Standard output as a sink.
ghost use Rattle.std.specs.Prelude.{None};

use std::io::Stdout;
use vf_base::{Failed, Sink, WriteSink};

/// So many octets are written before the system is asked to begin with them on the disk.
const STRETCH: u64 = 1_048_576;

/// Standard output. Where it is a file, the system begins to write to the disk what was written to it while more comes: a sync
/// that follows then waits for less.
#[derive(Drop)]
pub(crate) struct Output {
    sink: WriteSink<Stdout>,
    /// So many of the last octets the system wasn't asked for yet.
    waiting: u64,
}

impl Output {
    pub(crate) fn new(rt: &HostRuntime) -> Output {
        Output {
            sink: WriteSink::new(rt.stdout()),
            waiting: 0,
        }
    }
}

impl Sink for Output {
    ghost taken = { λ output. None };

    ghost fault_count = { λ output. output.sink.faults };

    ghost plan = { λ output. None };

    fn write(&mut self, octets: &[u8]) -> Result<(), Failed> {
        self.sink.write(octets)?;
        self.waiting = self.waiting.saturating_add(octets.len() as u64);
        if self.waiting >= STRETCH {
            hasten(self.waiting);
            self.waiting = 0;
        }
        Ok(())
    }

    fn faults(&self) -> u64 {
        self.sink.faults()
    }
}

/// Asks the system to begin to write the last so many octets to the disk. This is advice, and whatever the system says to it
/// is passed over; it says that it can't where standard output has no position, as a pipe has none.
fn hasten(count: u64) {
    let end = libc::lseek(libc::STDOUT_FILENO, 0, libc::SEEK_CUR);
    let Ok(octets) = i64::try_from(count) else {
        return;
    };
    if octets > end {
        return;
    }
    let _ = libc::posix_fadvise(
        libc::STDOUT_FILENO,
        end - octets,
        octets,
        libc::POSIX_FADV_DONTNEED,
    );
}
