use vf_base::NoMemory;

/// Why octets aren't the user data of a primitive with these contexts.
#[derive(Clone, Copy, Debug, PartialEq, Eq)]
pub enum UpperError {
    /// A value stands in this context, which isn't accepted or isn't one for such a value.
    Context { id: i64 },
    /// The octets aren't of the form: the first one that is a fault, as an offset in the user data.
    Grammar { at: u32 },
    /// The application context isn't that of FTAM.
    Application,
    /// Memory is wanting.
    NoMemory,
}

impl From<NoMemory> for UpperError {
    ghost use Rattle.std.specs.Prelude.{◌≡◌};
    ghost use Rattle.vf_upper.specs.declared.errors.UpperError.TheVariants as errors;

    ghost from_gives = { λ _ error. error ≡ errors.NoMemory };

    fn from(_error: NoMemory) -> UpperError {
        UpperError::NoMemory
    }
}
