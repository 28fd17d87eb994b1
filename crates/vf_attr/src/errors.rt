use vf_base::NoMemory;

/// Why actions are refused to an identity.
#[derive(Clone, Copy, Debug, PartialEq, Eq)]
pub enum AccessError {
    /// An action isn't permitted on the file (diagnostic 13).
    NotPermitted,
    /// An action is in no term that speaks of the identity (diagnostic 14).
    Denied,
    /// An action is in no such term whose password is given (diagnostic 15).
    BadPassword,
}

/// Why attributes aren't changed.
#[derive(Clone, Copy, Debug, PartialEq, Eq)]
pub enum ChangeError {
    /// An attribute that this profile doesn't have (diagnostic 31).
    Unsupported,
    /// Memory is wanting.
    NoMemory,
}

impl From<NoMemory> for ChangeError {
    ghost use Rattle.std.specs.Prelude.{◌≡◌};
    ghost use Rattle.vf_attr.specs.declared.errors.ChangeError.TheVariants as errors;

    ghost from_gives = { λ _ error. error ≡ errors.NoMemory };

    fn from(_error: NoMemory) -> ChangeError {
        ChangeError::NoMemory
    }
}
