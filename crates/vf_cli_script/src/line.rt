//! What a line of a script says.
use vf_base::{Moment, Octets, Sequence};
use vf_disk::CrashForm;
use vf_elements::Message;
use vf_tables::User;

/// The end that a script keeps on a link: none, or a calling one that proposes sync or doesn't.
#[derive(Clone, Copy, PartialEq, Eq)]
pub enum LinkKind {
    Raw,
    Plain,
    Sync,
}

/// An incarnation stops at a write or sync of its disk, of this number from 1, which leaves the disk so.
#[derive(Clone, Copy, PartialEq, Eq)]
pub struct Stop {
    pub call: u32,
    pub form: CrashForm,
}

/// What happens on a link. The number of a checkpoint is 0 to 1,000,000.
#[derive(Drop)]
pub enum Act {
    /// The link arrives.
    Arrive(LinkKind),
    /// These octets come on a raw link, at least one.
    Octets {
        moment: Moment,
        octets: Octets,
    },
    /// The calling end says messages, one after another.
    Said {
        moment: Moment,
        messages: Sequence<Message>,
    },
    /// It offers the next check.
    Check {
        moment: Moment,
    },
    /// It acknowledges the checks up to this one.
    Acknowledge {
        moment: Moment,
        point: u32,
    },
    /// It wants the transfer to go on after this check.
    Restart {
        moment: Moment,
        point: u32,
    },
    /// It passes the token.
    Pass {
        moment: Moment,
    },
    /// The link has ended.
    End,
}

/// Something happens on a link, whose number is 1 to 4,294,967,295.
#[derive(Drop)]
pub struct LinkLine {
    pub link: u32,
    pub act: Act,
}

/// What a line says.
#[derive(Drop)]
pub enum Statement {
    /// The stores that are opened later end within so many octets.
    Limit(u64),
    /// A user of the filestore, with a password of 1 to 255 octets.
    User(User),
    /// The responder is opened.
    Life(Option<Stop>),
    /// Something happens on a link.
    Link(LinkLine),
}
