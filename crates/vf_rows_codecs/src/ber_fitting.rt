//! Which octets may stand where (ISO 8825, 8.1).

use vf_base::MOST_VALUE_OCTETS;
use vf_ber::MOST_DEPTH;
use vf_ber::fitting::{Around, Asked, Room, is_first, is_length, is_reached, is_second, less};

/// A room of the outermost value.
const WHOLE: Room = Room::Within(MOST_VALUE_OCTETS as u64);

#[test]
fn says_which_identifier_octets_fit(rt: HostRuntime) {
    // a primitive value, a constructed one, the long form, the end of contents, and its tag on a constructed value
    let rows = [
        (0x04, true),
        (0x30, true),
        (0x1f, true),
        (0x00, false),
        (0x20, false),
    ];
    for (octet, fits) in rows {
        assert_eq!(rt; is_first(Asked::Bounded, MOST_DEPTH, WHOLE, octet), fits);
    }
    // no depth is left, which only some limits ask for
    assert!(rt; !is_first(Asked::Shallow, 0, WHOLE, 0x04));
    assert!(rt; is_first(Asked::Free, 0, WHOLE, 0x04));
    // the long form begins with a number from 31 on, and with no zero
    let rows = [(0x1e, false), (0x1f, true), (0x80, false), (0x81, true)];
    for (octet, fits) in rows {
        assert_eq!(rt; is_second(Asked::Bounded, WHOLE, octet), fits);
    }
}

#[test]
fn says_which_length_octets_fit(rt: HostRuntime) {
    let around = Around {
        depth: MOST_DEPTH,
        room: less(Room::Exact(9), 2),
        prefix: 1,
        constructed: true,
    };
    // seven octets are left: five of contents fill them, four leave one that is no value, three leave two; an
    // indefinite length needs its end
    let rows = [
        (5, true),
        (4, false),
        (3, true),
        (1, false),
        (0x80, true),
        (0x81, true),
        (0x89, false),
    ];
    for (octet, fits) in rows {
        assert_eq!(rt; is_length(Asked::Bounded, around, octet), fits);
    }
    // of two octets of a length the first is 0, and the second fills the room or leaves enough of it
    let around = Around {
        prefix: 4,
        ..around
    };
    assert!(rt; is_reached(Asked::Bounded, around, 1, 0));
    assert!(rt; !is_reached(Asked::Bounded, around, 1, 1));
    assert!(rt; is_reached(Asked::Bounded, around, 0, 3));
    assert!(rt; !is_reached(Asked::Bounded, around, 0, 2));
}
