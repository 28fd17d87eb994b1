use crate::spoken::Spoken;
use vf_base::Moment;

/// What happens on a link.
#[derive(Clone, Copy)]
pub enum Event<'a> {
    /// A new link.
    Arrived {
        link: u32,
    },
    /// Octets came, any number of them.
    Octets {
        link: u32,
        moment: Moment,
        octets: &'a [u8],
    },
    /// The link has ended.
    Ended {
        link: u32,
    },
}

/// What is spoken on a link, and whether the link is shut after it. Where nothing is spoken it is shut.
#[derive(Drop)]
pub struct Reply {
    pub link: u32,
    pub octets: Spoken,
    pub shut: bool,
}
