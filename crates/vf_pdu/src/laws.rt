//! Laws of meanings and faults, each the contract of a function that does nothing.
ghost use Rattle.vf_pdu.specs.Laws.{FormsHaveOneContent, MeaningHasNoFault, MeaningIsComputed, MeaningIsInRange, MeaningIsOne, WrittenIsReadAgain};
ghost use Rattle.vf_pdu.specs.PduSizes.{PduIsShort, PduIsWithin};
ghost use Rattle.vf_pdu.specs.PduValue.{ValueMeans};

/// A value that means a PDU has no fault.
pub fn meaning_has_no_fault()
    ensures { MeaningHasNoFault }
{}

/// A value means no two PDUs.
pub fn meaning_is_one()
    ensures { MeaningIsOne }
{}

/// A part has one content of the form of its field at most, which is the one that its fault is judged by.
pub fn forms_have_one_content()
    ensures { FormsHaveOneContent }
{}

/// What a value means is in range, so that what was read can be written.
pub fn meaning_is_in_range()
    ensures { MeaningIsInRange }
{}

/// Which PDU a value means can be computed.
pub fn meaning_is_computed()
    ensures { MeaningIsComputed }
{}

/// The value of a PDU means it.
pub fn value_means()
    ensures { ValueMeans }
{}

/// What was written is read again: the value of a PDU has no fault, and means no other PDU.
pub fn written_is_read_again()
    ensures { WrittenIsReadAgain }
{}

/// The value of a PDU is within the limits that `vf_ber::write` has: depth 32 and 1,048,576 octets.
pub fn value_is_within()
    ensures { PduIsWithin }
{}

/// The value of a PDU has at most the octets that the row of its number gives.
pub fn value_is_short()
    ensures { PduIsShort }
{}
