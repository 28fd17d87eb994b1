use vf_base::NoMemory;

/// Why data elements are none of a document type.
#[derive(Clone, Copy, Debug, PartialEq, Eq)]
pub enum DocError {
    /// An element that the document type doesn't take (diagnostic 21).
    BadElement,
    /// A string that is too long, or of another length than the fixed one (diagnostic 22).
    TooLong,
    /// Memory is wanting.
    NoMemory,
}

impl From<NoMemory> for DocError {
    ghost use Rattle.std.specs.Prelude.{◌≡◌};
    ghost use Rattle.vf_doctype.specs.declared.errors.DocError.TheVariants as errors;

    ghost from_gives = { λ _ error. error ≡ errors.NoMemory };

    fn from(_error: NoMemory) -> DocError {
        DocError::NoMemory
    }
}
