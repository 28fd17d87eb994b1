//! Whether PDUs can be written.
ghost use Rattle.std.specs.Prelude.{◌≡◌, ◌↔◌, IsTrue};
ghost use Rattle.vf_pdu_fields.specs.InRange.{slots_fit};
ghost use Rattle.vf_pdu.specs.PduMeaning.{IsInRange};
ghost use Rattle.vf_pdu.specs.PduNumbers.{number_of};
ghost use Rattle.vf_pdu.specs.PduRows.{row_of};
ghost use Rattle.vf_pdu.specs.PduSlots.{slots_of};

use crate::Pdu;
use crate::access::is_access_in_range;
use crate::association::is_association_in_range;
use crate::attribute::is_attribute_in_range;
use crate::group::is_group_in_range;
use crate::selection::is_selection_in_range;
use crate::transfer::is_transfer_in_range;

/// Whether each field of the PDU is in the range of its row, as `to_value` requires. It takes no memory.
pub fn is_in_range(pdu: &Pdu) -> bool
    ensures { IsTrue result ↔ IsInRange pdu.now }
{
    are_in_range(pdu)
}

/// The same, slot by slot.
fn are_in_range(pdu: &Pdu) -> bool
    ensures { result ≡ slots_fit (row_of (number_of pdu.now)) (slots_of pdu.now) }
{
    let number = pdu.number();
    if number <= 5 {
        is_association_in_range(pdu)
    } else if number <= 13 {
        is_selection_in_range(pdu)
    } else if number <= 21 {
        is_attribute_in_range(pdu)
    } else if number <= 27 {
        is_group_in_range(pdu)
    } else if number <= 33 {
        is_access_in_range(pdu)
    } else {
        is_transfer_in_range(pdu)
    }
}
