ghost use Rattle.std.specs.Prelude.{◌≡◌, IfOk};

use crate::{Moment, NoMemory, Octets};
use std::alloc::Global;

/// What comes next on the links; the octets of an event stand beside it.
#[derive(Clone, Copy, PartialEq, Eq)]
pub enum LinkEvent {
    /// A new link; its number is above 0 and above those before it.
    Arrived { link: u32 },
    /// 1 to 65,536 octets came on a link.
    Octets { link: u32, moment: Moment },
    /// A link has ended.
    Ended { link: u32 },
    /// Nothing comes any more.
    Done,
}

/// Why `next` of the links has no event.
#[derive(Clone, Copy, Debug, PartialEq, Eq)]
pub enum LinkFault {
    /// The links failed, and their count rose in this call.
    Failed,
    /// Memory is wanting.
    NoMemory,
}

/// An event that was handed out, or that is to be, with its octets.
#[derive(Drop)]
pub enum ScriptEvent {
    Arrived {
        link: u32,
    },
    /// 1 to 65,536 octets.
    Octets {
        link: u32,
        moment: Moment,
        octets: Octets,
    },
    Ended {
        link: u32,
    },
}

impl ScriptEvent {
    /// The same event; its octets are shared.
    pub fn copy(&self, alloc: Global) -> Result<ScriptEvent, NoMemory>
        ensures { IfOk result (λ made. made ≡ self.now) }
    {
        match self {
            ScriptEvent::Arrived { link } => Ok(ScriptEvent::Arrived { link: *link }),
            ScriptEvent::Octets {
                link,
                moment,
                octets,
            } => {
                let octets = octets.copy(alloc)?;
                Ok(ScriptEvent::Octets {
                    link: *link,
                    moment: *moment,
                    octets,
                })
            }
            ScriptEvent::Ended { link } => Ok(ScriptEvent::Ended { link: *link }),
        }
    }
}

/// Octets that were taken on a link.
#[derive(Drop)]
pub struct Piece {
    pub link: u32,
    pub octets: Octets,
}

impl Piece {
    /// The same piece; its octets are shared.
    pub fn copy(&self, alloc: Global) -> Result<Piece, NoMemory>
        ensures { IfOk result (λ made. made ≡ self.now) }
    {
        let octets = self.octets.copy(alloc)?;
        Ok(Piece {
            link: self.link,
            octets,
        })
    }
}
