//! Where the parts of a journal stand on a disk.
ghost use Rattle.std.specs.Prelude.{◌≡◌};
ghost use Rattle.vf_journal.specs.Layout.{anchor_place as place_of, selector_of};

/// `FTAMJNL1`, the number 2, and four zeros.
pub(crate) const HEADER: [u8; 16] = *b"FTAMJNL1\x00\x00\x00\x02\x00\x00\x00\x00";
/// What stands after the first octet of a journal that is just made: the rest of the header, a selector, two anchors
/// and a closed gate.
pub(crate) const REST: [u8; 33] =
    *b"TAMJNL1\x00\x00\x00\x02\x00\x00\x00\x00\x00\x00\x00\x00\x00\x00\x00\x00!\x00\x00\x00\x00\x00\x00\x00!\x00";
/// The place of the selector.
pub(crate) const SELECTOR: u64 = 16;
/// The least place at which an area starts.
pub(crate) const FIRST_START: u64 = 33;
/// The most octets of a record.
pub const MOST_RECORD_OCTETS: u64 = 4_294_967_295;
/// The most octets of the later records of an area, with a length and a gate for each, before a switch may be due.
pub const MOST_LATER_OCTETS: u64 = 4_096;

/// Where an anchor stands.
pub(crate) fn anchor_place(second: bool) -> u64
    ensures { result ≡ place_of second }
{
    if second { 25 } else { 17 }
}

/// What is written at the selector's place to select an anchor.
pub(crate) fn selector(second: bool) -> u8
    ensures { result ≡ selector_of second }
{
    if second { 1 } else { 0 }
}
