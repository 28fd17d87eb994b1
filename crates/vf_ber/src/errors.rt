use vf_base::NoMemory;

/// Why octets don't begin with a value. A place is the index of an octet, from 0 on.
#[derive(Clone, Copy, Debug, PartialEq, Eq)]
pub enum BerError {
    /// The octets are a proper prefix of a value's spelling.
    Short,
    /// No spelling of a value begins with the octets up to and with this one.
    Bad { at: u32 },
    /// No spelling of a value of depth `MOST_DEPTH` or less begins with the octets up to and with this one.
    Deep { at: u32 },
    /// No spelling of `MOST_VALUE_OCTETS` octets or less begins with the octets up to and with this one.
    Long { at: u32 },
    /// Memory is wanting.
    NoMemory,
}

impl From<NoMemory> for BerError {
    ghost use Rattle.std.specs.Prelude.{◌≡◌};
    ghost use Rattle.vf_ber.specs.declared.errors.BerError.TheVariants as errors;

    ghost from_gives = { λ _ error. error ≡ errors.NoMemory };

    fn from(_error: NoMemory) -> BerError {
        BerError::NoMemory
    }
}

/// Why a value was not written.
#[derive(Clone, Copy, Debug, PartialEq, Eq)]
pub enum WriteError {
    /// It is deeper than `MOST_DEPTH` or takes more than `MOST_VALUE_OCTETS` octets.
    TooLarge,
    /// Memory is wanting.
    NoMemory,
}
