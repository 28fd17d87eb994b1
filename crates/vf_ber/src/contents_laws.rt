//! Laws of the contents of values, each the contract of a function that does nothing.
ghost use Rattle.vf_ber.specs.ContentsLaws.{BooleansAreRead, IntegersAreRead, IntegersAreSpelled, OidsAreRead, OidsAreSpelled};

/// The contents of a boolean are read as it.
pub fn booleans_are_read()
    ensures { BooleansAreRead }
{}

/// The contents of an integer are read as it.
pub fn integers_are_read()
    ensures { IntegersAreRead }
{}

/// Contents that are read as an integer are its contents.
pub fn integers_are_spelled()
    ensures { IntegersAreSpelled }
{}

/// The contents of an object identifier are read as it.
pub fn oids_are_read()
    ensures { OidsAreRead }
{}

/// Contents that are read as an object identifier are its contents.
pub fn oids_are_spelled()
    ensures { OidsAreSpelled }
{}
