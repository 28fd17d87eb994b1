//! Texts and parts of user data.
ghost use Rattle.std.specs.Prelude.{◌+◌, ◌<◌, ◌^◌, length};

/// Octets in turn, the place of the first, and whether they are all that their holder has.
#[derive(Clone, Copy)]
pub(crate) struct Text<'a> {
    pub octets: &'a [u8],
    pub at: u32,
    pub whole: bool,
    ghost within: { at + length octets.now < 2 ^ 32 },
}

/// A value: the place of its first octet, this octet, its contents, and the place after it.
#[derive(Clone, Copy)]
pub(crate) struct Part<'a> {
    pub at: u32,
    pub first: u8,
    pub contents: Text<'a>,
    pub after: u32,
}

/// A length, `None` where it is indefinite, and the octets after it.
#[derive(Clone, Copy)]
pub(crate) struct Header<'a> {
    pub count: Option<u64>,
    pub rest: &'a [u8],
}

/// The octets of contents, whether they are all, and the octets after their value.
#[derive(Clone, Copy)]
pub(crate) struct Piece<'a> {
    pub octets: &'a [u8],
    pub whole: bool,
    pub rest: &'a [u8],
}
