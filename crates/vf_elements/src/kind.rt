//! What a message is.
ghost use Rattle.std.specs.Prelude.{◌≡◌};
ghost use Rattle.vf_elements.specs.Stages.{lists};
ghost use Rattle.vf_elements.specs.Kinds.{kind_of};

use crate::Stage;

/// What a message is: a PDU by the number of its tag (ISO 8571-4), or what isn't a PDU.
#[derive(Clone, Copy)]
pub(crate) enum Kind {
    Pdu(u16),
    Element,
    Check,
    Acknowledgement,
}

/// Whether the stage takes what is of this kind.
pub(crate) fn is_listed(stage: Stage, kind: Kind) -> bool
    ensures { result ≡ lists stage (kind_of kind) }
{
    match kind {
        Kind::Pdu(number) => is_pdu_listed(stage, number),
        Kind::Element | Kind::Check => matches!(stage, Stage::Writing),
        Kind::Acknowledgement => matches!(stage, Stage::Reading | Stage::Shown),
    }
}

/// Whether the stage takes a PDU of this number.
fn is_pdu_listed(stage: Stage, number: u16) -> bool
    ensures { result ≡ lists stage (kind_of (Kind.Pdu number)) }
{
    match stage {
        Stage::Idle => number == 0,
        Stage::Associated => [6, 10, 26, 22, 2, 4, 5].contains(&number),
        Stage::Selected => [8, 12, 14, 16, 18, 22, 4, 5].contains(&number),
        Stage::Opened => [20, 28, 30, 32, 33, 22, 4, 5].contains(&number),
        Stage::Writing => [34, 37, 39, 4, 5].contains(&number),
        Stage::Written => [35, 37, 39, 4, 5].contains(&number),
        Stage::Reading => [37, 39, 4, 5].contains(&number),
        Stage::Shown => [37, 39, 35, 4, 5].contains(&number),
        Stage::Grouping => [6, 8, 10, 12, 14, 16, 18, 20, 24, 4, 5].contains(&number),
    }
}
