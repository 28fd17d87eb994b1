ghost use Rattle.std.specs.Prelude.{◌≡◌, ◌+◌, ◌<◌, ◌≤◌, ◌↔◌, IsTrue, MatchOption, length};
ghost use Rattle.vf_tree.specs.FileTree.{octets_in, octets_of_unit, parts_in};

use crate::units::octets_of;
use vf_base::{DataUnit, Element};

/// A file has at most so many octets of strings (profile).
pub const MOST_FILE_OCTETS: u64 = 16_777_216;

/// A file has at most so many strings and units together (profile).
pub const MOST_FILE_PARTS: u32 = 262_144;

/// Whether so many octets and parts, and those of more units, are within a file.
pub(crate) fn is_within(octets: u64, parts: u32, more: &[DataUnit]) -> bool
    requires octets { octets ≤ MOST_FILE_OCTETS }
    requires parts { parts ≤ MOST_FILE_PARTS }
    ensures { IsTrue result ↔ ((octets + octets_in more.now ≤ MOST_FILE_OCTETS) × (parts + parts_in more.now ≤ MOST_FILE_PARTS)) }
{
    let mut octets_left = MOST_FILE_OCTETS - octets;
    let mut parts_left = u64::from(MOST_FILE_PARTS - parts);
    for unit in more {
        let Some(octets) = octets_within(unit.as_slice(), octets_left) else {
            return false;
        };
        octets_left -= octets;
        if unit.len() as u64 >= parts_left {
            return false;
        }
        parts_left -= unit.len() as u64 + 1;
    }
    true
}

/// The octets of a unit's strings; absent where they are more than so many.
fn octets_within(unit: &[Element], most: u64) -> Option<u64>
    requires { most ≤ MOST_FILE_OCTETS }
    ensures { MatchOption result (most < octets_of_unit unit.now) (λ octets. (octets ≡ octets_of_unit unit.now) × (octets ≤ most)) }
{
    let mut octets = 0;
    for element in unit {
        let more = octets_of(element);
        if more > most - octets {
            return None;
        }
        octets += more;
    }
    Some(octets)
}

/// Whether so many octets and parts, and the strings of one more unit, are within a file.
pub(crate) fn has_room(octets: u64, parts: u32, unit: &[Element]) -> bool
    requires octets { octets ≤ MOST_FILE_OCTETS }
    requires parts { parts ≤ MOST_FILE_PARTS }
    ensures { IsTrue result ↔ ((octets + octets_of_unit unit.now ≤ MOST_FILE_OCTETS) × (parts + length unit.now ≤ MOST_FILE_PARTS)) }
{
    if unit.len() as u64 > u64::from(MOST_FILE_PARTS - parts) {
        return false;
    }
    octets_within(unit, MOST_FILE_OCTETS - octets).is_some()
}
