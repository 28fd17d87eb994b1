use vf_ber::fitting::Room;

/// Where the octets have come to in a value.
#[derive(Clone, Copy)]
pub enum Place {
    /// Where a value begins, or the end of the contents around.
    Start,
    /// After the first octet of an identifier in the long form.
    Second {
        constructed: bool,
    },
    /// After the second octet of one, with a third to come.
    Third {
        constructed: bool,
    },
    /// After an identifier of so many octets.
    Length {
        constructed: bool,
        prefix: u64,
    },
    /// In a length, with the number that its octets so far make and so many others to come. Identifier and length
    /// take `prefix` octets.
    Digits {
        constructed: bool,
        prefix: u64,
        more: u32,
        high: u64,
    },
    /// In the contents of a primitive value, of which so many octets are to come.
    Contents {
        left: u64,
    },
    /// After the first octet of the end of contents of a value, in which so much room was left before it.
    End {
        room: Room,
    },
}

/// Where an octet leads.
#[derive(Clone, Copy)]
pub enum Next {
    /// The value goes on at a place.
    At(Place),
    /// The octet is the last of a whole value, or no value goes on with it.
    Ended { whole: bool },
}
