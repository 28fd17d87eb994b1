//! Laws of dates, each the contract of a function that does nothing.
ghost use Rattle.vf_pdu_parameters.specs.Laws.{DatesAreMoments, MomentsAreDates};

/// A date of the years 1970 to 9999 is the text of a moment.
pub fn dates_are_moments()
    ensures { DatesAreMoments }
{}

/// The text of a moment is a date. So a text of the right form is out of range exactly where no moment has it.
pub fn moments_are_dates()
    ensures { MomentsAreDates }
{}
