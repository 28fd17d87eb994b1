use vf_base::NoMemory;

/// Why an action on a file is refused.
#[derive(Clone, Copy, Debug, PartialEq, Eq)]
pub enum TreeError {
    /// The constraint set has no such action (diagnostic 18).
    Outside,
    /// The identity means no FADU, or none that the action takes (diagnostic 19).
    NotFound,
    /// The constraint set has no such access context (diagnostic 20).
    BadContext,
    /// Memory is wanting.
    NoMemory,
}

impl From<NoMemory> for TreeError {
    ghost use Rattle.std.specs.Prelude.{◌≡◌};
    ghost use Rattle.vf_tree.specs.declared.errors.TreeError.TheVariants as errors;

    ghost from_gives = { λ _ error. error ≡ errors.NoMemory };

    fn from(_error: NoMemory) -> TreeError {
        TreeError::NoMemory
    }
}
