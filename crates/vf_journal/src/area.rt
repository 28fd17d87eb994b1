ghost use Rattle.std.specs.Prelude.{◌≡◌, ◌+◌, ◌<◌, ◌≤◌};
ghost use Rattle.vf_disk.specs.Disk.{greatest_length};

/// An area of a disk. All numbers are octets.
#[derive(Clone, Copy, PartialEq, Eq)]
pub struct Area {
    /// The place of its first gate.
    pub start: u64,
    /// The place after its closed gate.
    pub end: u64,
    /// The length of its first record, 0 where it has none.
    pub first: u64,
    /// The octets of its later records, with a length and a gate for each.
    pub later: u64,
}

impl Area {
    ghost use Rattle.vf_journal.specs.JournalState.{area_of, with_record};
    ghost use Rattle.std.specs.Prelude.{[]};

    /// An area at a place, without a record.
    pub(crate) fn empty(start: u64) -> Area
        requires { start < greatest_length }
        ensures { result ≡ area_of start [] }
    {
        Area {
            start,
            end: start + 1,
            first: 0,
            later: 0,
        }
    }

    /// The same area with a record of so many octets more.
    pub(crate) fn with(self, count: u64) -> Area
        requires start { self.start < self.end }
        requires end { self.end + count + 5 ≤ greatest_length }
        requires later { self.later ≤ self.end }
        ensures { result ≡ with_record self count }
    {
        let is_empty = self.end == self.start + 1;
        Area {
            start: self.start,
            end: self.end + count + 5,
            first: if is_empty { count } else { self.first },
            later: if is_empty {
                self.later
            } else {
                self.later + count + 5
            },
        }
    }
}
