//! Laws of reading and spelling, each the contract of a function that does nothing.
ghost use Rattle.vf_ber.specs.Laws.{HasAReading, HasOneReading, IsPrefixFree, IsReadAgain, SpellsOne};

/// No spelling of a value is a proper prefix of a spelling of any value.
pub fn no_spelling_goes_on()
    ensures { IsPrefixFree }
{}

/// Octets are the spelling of one value at most.
pub fn octets_spell_one_value()
    ensures { SpellsOne }
{}

/// Octets have a reading.
pub fn octets_have_a_reading()
    ensures { HasAReading }
{}

/// Octets have one reading at most.
pub fn octets_have_one_reading()
    ensures { HasOneReading }
{}

/// The canonical spelling of a value within the limits, whatever follows it, is read as this value.
pub fn written_is_read_again()
    ensures { IsReadAgain }
{}
