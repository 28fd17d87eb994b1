//! Laws of the grammar, each the contract of a function that does nothing.
ghost use Rattle.vf_upper_grammar.specs.FaultPlaces.{LeastIsTold, OthersHaveFaults};
ghost use Rattle.vf_upper_grammar.specs.Meant.{IsMeant};

/// Of user data exactly that is found which the value that they are means by the modules of presentation (ISO 8823)
/// and ACSE (ISO 8650-1), and a fault exactly where they are no value of their type, however values are spelled.
pub fn what_is_found_is_meant()
    ensures { IsMeant }
{}

/// User data have a fault at each of certain places, by the types of presentation (ISO 8823) and ACSE (ISO 8650-1) and
/// by where their parts stand. There is none exactly where user data are one value of their type; then what is found is
/// all, and else the least of the places is told.
pub fn the_least_fault_is_told()
    ensures least { LeastIsTold }
    ensures others { OthersHaveFaults }
{}
