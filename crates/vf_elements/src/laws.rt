//! Laws of the meanings, faults and values of data elements, each the contract of a function that does nothing.
ghost use Rattle.vf_elements.specs.ElementLaws.{MeaningHasNoFault, MeaningIsFound, MeaningIsOne, MeaningIsWritable, WrittenIsReadAgain};
ghost use Rattle.vf_elements.specs.ElementValue.{ValueMeans};
ghost use Rattle.vf_elements.specs.Sizes.{ElementIsWithin};

/// A value that means an element has no fault.
pub fn meaning_has_no_fault()
    ensures { MeaningHasNoFault }
{}

/// A value means no two elements.
pub fn meaning_is_one()
    ensures { MeaningIsOne }
{}

/// What a value means can be written.
pub fn meaning_is_writable()
    ensures { MeaningIsWritable }
{}

/// Which element a value means can be computed.
pub fn meaning_is_found()
    ensures { MeaningIsFound }
{}

/// The value of an element means it.
pub fn value_means()
    ensures { ValueMeans }
{}

/// What was written is read again: the value of an element has no fault, and means no other element.
pub fn written_is_read_again()
    ensures { WrittenIsReadAgain }
{}

/// The value of an element whose string has at most `vf_base::MOST_STRING_OCTETS` octets is within the limits that
/// `vf_ber::write` has: depth 32 and 1,048,576 octets.
pub fn value_is_within()
    ensures { ElementIsWithin }
{}
