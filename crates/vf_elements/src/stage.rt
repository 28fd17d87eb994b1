ghost use Rattle.std.specs.Prelude.{◌≡◌};
ghost use Rattle.vf_elements.specs.Stages.{takes as takes_by_table};

use crate::Message;
use crate::kind::{Kind, is_listed};

/// The innermost regime in which a party is (ISO 8571-4), and how far a transfer in it has come (profile).
#[derive(Clone, Copy, PartialEq, Eq)]
pub enum Stage {
    /// No association.
    Idle,
    /// An association, and no selected file.
    Associated,
    /// A selected file that isn't open.
    Selected,
    /// An open file, and no transfer.
    Opened,
    /// A write whose values come.
    Writing,
    /// A write whose values have ended.
    Written,
    /// A read whose values aren't all sent.
    Reading,
    /// A read whose values have ended.
    Shown,
    /// A group that isn't ended.
    Grouping,
}

impl Stage {
    /// Whether the initiator may send this message in this stage. A break comes at each stage.
    pub fn takes(&self, message: &Message) -> bool
        ensures { result ≡ takes_by_table self.now message.now }
    {
        match message {
            Message::Pdu(pdu) => is_listed(*self, Kind::Pdu(pdu.number())),
            Message::Element(_) => is_listed(*self, Kind::Element),
            Message::Check => is_listed(*self, Kind::Check),
            Message::Acknowledge { .. } => is_listed(*self, Kind::Acknowledgement),
            Message::Restart { .. } => is_listed(*self, Kind::Pdu(39)),
            Message::Break => true,
        }
    }
}
