//! Laws of journals, each the contract of a function that does nothing.
ghost use Rattle.vf_journal.specs.Laws.{BuiltLengths, HeldIsRead, NewHoldsNone, PlannedFits, UnplannedEnd};

/// An image that holds records is no other's, and is read as a journal with these records.
pub fn held_is_read()
    ensures { HeldIsRead }
{}

/// A journal that is just made holds no record.
pub fn new_holds_none()
    ensures { NewHoldsNone }
{}

/// A record in its built form is five octets longer, and an area of one record six.
pub fn built_lengths()
    ensures { BuiltLengths }
{}

/// The area of a switch that is planned has a record that isn't too long and ends within the limit, so that it can be
/// prepared; and the record that is planned ends after it.
pub fn planned_fits()
    ensures { PlannedFits }
{}

/// Where no switch is planned a record ends in the selected area.
pub fn unplanned_end()
    ensures { UnplannedEnd }
{}
