//! Laws of writing and reading, each the contract of a function that does nothing.
ghost use Rattle.vf_upper.specs.Laws.{EmptyHasRoom, HasRoom, IsAnswered, IsReadAgain, IsReadInResynchronizations, LeastIsAnswered};

/// User data are answered by what they mean: where they are one value of the type of their SPDU, in whatever spelling, by
/// the numbers, names and values that this value holds by the modules of presentation (ISO 8823) and ACSE (ISO 8650-1);
/// else by a fault of the form.
pub fn what_is_read_is_meant()
    ensures { IsAnswered }
{}

/// Where user data are answered by a fault of the form, its place is the least of all the places at which they have one
/// by the types of presentation (ISO 8823) and ACSE (ISO 8650-1); with every other answer they have none.
pub fn the_least_fault_is_answered()
    ensures { LeastIsAnswered }
{}

/// The user data that are written for a primitive within the limits are read as this primitive. An acceptance or a
/// refusal is read with the contexts that were proposed, other primitives but an association request with those that
/// they were written with.
pub fn written_is_read_again()
    ensures { IsReadAgain }
{}

/// Data of one value within the SEQUENCE of a resynchronization or of its response are read as these data.
pub fn resynchronizations_are_read_again()
    ensures { IsReadInResynchronizations }
{}

/// A primitive with one value in contexts that suit it can be written where the value is at most 23 deep and leaves 128
/// of the 1,048,576 octets, and as many for each context that the primitive proposes or answers: its user data have no more
/// octets than these and the value's. A refusal and an abort without values can be written too.
pub fn small_values_have_room()
    ensures room { HasRoom }
    ensures empty { EmptyHasRoom }
{}
