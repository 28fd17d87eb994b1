use vf_base::NoMemory;

/// Why a check isn't offered.
#[derive(Clone, Copy, Debug, PartialEq, Eq)]
pub enum TransferError {
    /// As many checks as the window aren't acknowledged (diagnostic 26).
    Window,
    /// The next serial number would be 1,000,000 (abort 105).
    SerialsSpent,
    /// Memory is wanting.
    NoMemory,
}

/// There is no such check (diagnostic 25).
#[derive(Clone, Copy, PartialEq, Eq)]
pub struct Unknown;

impl From<NoMemory> for TransferError {
    ghost use Rattle.std.specs.Prelude.{◌≡◌};
    ghost use Rattle.vf_transfer.specs.declared.errors.TransferError.TheVariants as errors;

    ghost from_gives = { λ _ error. error ≡ errors.NoMemory };

    fn from(_error: NoMemory) -> TransferError {
        TransferError::NoMemory
    }
}
