//! Which octets may stand where: each function asks whether a value can still be completed after an octet, by what is
//! around it. For readers that take octets in pieces, as `vf_ber_scan`; who has the octets needs `read` alone.
ghost use Rattle.std.specs.Prelude.{◌≡◌, ◌≢◌, ◌+◌, ◌-◌, ◌*◌, ◌≤◌, ◌<◌, ◌^◌, IfErr, IfOk, true, false, Some, None};
ghost use Rattle.vf_ber.specs.Steps.{fault_of, fills, first_fits, fits as room_fits, grown as grown_of, has_depth as depth_of, is_roomy as roomy_of, Judged, length_fits, less as less_of, limits_of, reaches, second_fits, shifted as shifted_of, size_fits};

use crate::fault::Fault;
pub use crate::room::{Asked, Room};

/// What is left of the room when so many octets are taken, and nothing where it has fewer.
pub fn less(room: Room, n: u64) -> Room
    ensures { result ≡ less_of room n }
{
    match room {
        Room::Exact(most) => Room::Exact(most.saturating_sub(n)),
        Room::Within(most) => Room::Within(most.saturating_sub(n)),
    }
}

/// Whether so many octets and `len` others are allowed.
fn fits(asked: Asked, room: Room, prefix: u64, len: u64) -> bool
    requires { prefix ≤ 16 }
    ensures { result ≡ room_fits (limits_of asked) room (prefix + len) }
{
    match room {
        Room::Exact(most) => {
            if most < prefix {
                return false;
            }
            let left = most - prefix;
            len == left || (left >= 2 && len <= left - 2)
        }
        Room::Within(most) => match asked {
            Asked::Free | Asked::Shallow => true,
            Asked::Bounded => prefix <= most && len <= most - prefix,
        },
    }
}

fn is_roomy(asked: Asked, room: Room, n: u64) -> bool
    ensures { result ≡ roomy_of (limits_of asked) room n }
{
    match room {
        Room::Exact(most) => n <= most,
        Room::Within(most) => match asked {
            Asked::Free | Asked::Shallow => true,
            Asked::Bounded => n <= most,
        },
    }
}

fn has_depth(asked: Asked, depth: u32) -> bool
    ensures { result ≡ depth_of (limits_of asked) depth }
{
    match asked {
        Asked::Free => true,
        Asked::Shallow | Asked::Bounded => depth > 0,
    }
}

/// The fault at an octet, from what the limits allow there.
fn fault(free: bool, shallow: bool, left: usize) -> Fault
    ensures { result ≡ fault_of free shallow left }
{
    if !free {
        Fault::Bad(left)
    } else if !shallow {
        Fault::Deep(left)
    } else {
        Fault::Long(left)
    }
}

/// Whether a value may begin with this identifier octet, in a room, where values of so much depth are allowed
/// (ISO 8825, 8.1.2; limits of this profile).
pub fn is_first(asked: Asked, depth: u32, room: Room, octet: u8) -> bool
    ensures { result ≡ first_fits (limits_of asked) depth room octet }
{
    octet != 0
        && octet != 32
        && has_depth(asked, depth)
        && is_roomy(asked, room, if octet % 32 == 31 { 3 } else { 2 })
}

/// Whether a value may begin with this identifier octet.
pub(crate) fn check_first(depth: u32, room: Room, octet: u8, left: usize) -> Result<(), Fault>
    ensures ok { IfOk result (λ _. first_fits (limits_of Asked.Bounded) depth room octet ≡ true) }
    ensures err { IfErr result (λ e. Judged (λ limits. first_fits limits depth room octet) left e) }
{
    if is_first(Asked::Bounded, depth, room, octet) {
        return Ok(());
    }
    let free = is_first(Asked::Free, depth, room, octet);
    let shallow = is_first(Asked::Shallow, depth, room, octet);
    Err(fault(free, shallow, left))
}

/// Whether the long form of an identifier may go on with this octet after the first, in the value's room
/// (ISO 8825, 8.1.2.4; numbers up to 16,383 are profile).
pub fn is_second(asked: Asked, room: Room, octet: u8) -> bool
    ensures { result ≡ second_fits (limits_of asked) room octet }
{
    octet >= 31 && octet != 128 && is_roomy(asked, room, if octet < 128 { 3 } else { 4 })
}

/// Whether the long form of an identifier may go on with this octet.
pub(crate) fn check_second(room: Room, octet: u8, left: usize) -> Result<(), Fault>
    ensures ok { IfOk result (λ _. second_fits (limits_of Asked.Bounded) room octet ≡ true) }
    ensures err { IfErr result (λ e. Judged (λ limits. second_fits limits room octet) left e) }
{
    if is_second(Asked::Bounded, room, octet) {
        return Ok(());
    }
    let free = is_second(Asked::Free, room, octet);
    let shallow = is_second(Asked::Shallow, room, octet);
    Err(fault(free, shallow, left))
}

/// What is around the contents of a value: its depth and room, how many octets come before them, and whether
/// they are values.
#[derive(Clone, Copy)]
pub struct Around {
    /// How deep the value may be: `MOST_DEPTH` for an outermost one.
    pub depth: u32,
    /// How many octets the value may take.
    pub room: Room,
    /// The octets of the identifier, or of the identifier and the length.
    pub prefix: u64,
    /// Whether the contents are values.
    pub constructed: bool,
}

/// Whether contents of a definite length, or of an indefinite one, are allowed.
fn is_size(asked: Asked, around: Around, size: Option<u64>) -> bool
    requires { around.prefix ≤ 12 }
    ensures { result ≡ size_fits (limits_of asked) around.depth around.room around.prefix around.constructed size }
{
    match size {
        Some(n) => {
            fits(asked, around.room, around.prefix, n)
                && (!around.constructed
                    || (n != 1 && (n == 0 || has_depth(asked, around.depth.saturating_sub(1)))))
        }
        None => around.constructed && fits(asked, around.room, around.prefix, 2),
    }
}

fn grown(more: u32, n: u64) -> u64
    requires { grown_of more n < 2 ^ 64 }
    ensures { result ≡ grown_of more n }
{
    let mut all = n;
    let mut others = more;
    while others > 0 {
        others -= 1;
        all = 256 * all;
    }
    all
}

fn shifted(more: u32, n: u64) -> u64
    ensures { result ≡ shifted_of more n }
{
    let mut prefix = n;
    let mut done = 0;
    while done < more {
        done += 1;
        prefix /= 256;
    }
    prefix
}

/// Whether the length that fills the room begins with these octets, and is allowed.
fn is_filled(asked: Asked, around: Around, more: u32, high: u64) -> bool
    requires { around.prefix ≤ 12 }
    ensures { result ≡ fills (limits_of asked) around.depth around.room around.prefix around.constructed more high }
{
    match around.room {
        Room::Exact(most) => {
            if most < around.prefix {
                return false;
            }
            let n = most - around.prefix;
            shifted(more, n) == high && is_size(asked, around, Some(n))
        }
        Room::Within(_) => false,
    }
}

/// Whether some length with these octets before `more` others is allowed, where `around` counts all octets of
/// the identifier and the length in its prefix, 12 at most (ISO 8825, 8.1.3.5).
pub fn is_reached(asked: Asked, around: Around, more: u32, high: u64) -> bool
    requires prefix { around.prefix ≤ 12 }
    requires small { grown_of more high < 2 ^ 64 }
    ensures { result ≡ reaches (limits_of asked) around.depth around.room around.prefix around.constructed more high }
{
    is_size(asked, around, Some(grown(more, high))) || is_filled(asked, around, more, high)
}

/// Whether a length may go on with these octets, with `more` others after them.
pub(crate) fn check_digit(around: Around, more: u32, high: u64, left: usize) -> Result<(), Fault>
    requires prefix { around.prefix ≤ 12 }
    requires small { grown_of more high < 2 ^ 64 }
    ensures ok { IfOk result (λ _. reaches (limits_of Asked.Bounded) around.depth around.room around.prefix around.constructed more high ≡ true) }
    ensures err { IfErr result (λ e. Judged (λ limits. reaches limits around.depth around.room around.prefix around.constructed more high) left e) }
{
    if is_reached(Asked::Bounded, around, more, high) {
        return Ok(());
    }
    let free = is_reached(Asked::Free, around, more, high);
    let shallow = is_reached(Asked::Shallow, around, more, high);
    Err(fault(free, shallow, left))
}

/// Whether a length may begin with this octet, where `around` counts the octets of the identifier in its prefix,
/// 3 at most (ISO 8825, 8.1.3; eight octets at most after the first are profile).
pub fn is_length(asked: Asked, around: Around, octet: u8) -> bool
    requires { around.prefix ≤ 3 }
    ensures { result ≡ length_fits (limits_of asked) around.depth around.room around.prefix around.constructed octet }
{
    let prefix = around.prefix + 1;
    if octet < 128 {
        is_size(asked, Around { prefix, ..around }, Some(octet as u64))
    } else if octet == 128 {
        is_size(asked, Around { prefix, ..around }, None)
    } else {
        let more = octet - 128;
        if more > 8 {
            return false;
        }
        let prefix = prefix + more as u64;
        is_reached(asked, Around { prefix, ..around }, more as u32, 0)
    }
}

/// Whether a length may begin with this octet, after an identifier.
pub(crate) fn check_length(around: Around, octet: u8, left: usize) -> Result<(), Fault>
    requires { around.prefix ≤ 3 }
    ensures ok { IfOk result (λ _. length_fits (limits_of Asked.Bounded) around.depth around.room around.prefix around.constructed octet ≡ true) }
    ensures err { IfErr result (λ e. Judged (λ limits. length_fits limits around.depth around.room around.prefix around.constructed octet) left e) }
{
    if is_length(Asked::Bounded, around, octet) {
        return Ok(());
    }
    let free = is_length(Asked::Free, around, octet);
    let shallow = is_length(Asked::Shallow, around, octet);
    Err(fault(free, shallow, left))
}
