ghost use Rattle.std.specs.Prelude.{◌≡◌};
ghost use Rattle.vf_responder.specs.declared.error.ServeError.TheVariants as errors;

use vf_base::NoMemory;
use vf_store::StoreError;

/// Why serving ended before the links were through.
#[derive(Clone, Copy, Debug, PartialEq, Eq)]
pub enum ServeError {
    /// The responder couldn't be opened, or couldn't go on.
    Respond(StoreError),
    /// The links failed, and their count rose in this call.
    LinksFault,
    /// Memory is wanting.
    NoMemory,
}

impl From<StoreError> for ServeError {
    ghost from_gives = { λ given error. error ≡ errors.Respond given };

    fn from(error: StoreError) -> ServeError {
        ServeError::Respond(error)
    }
}

impl From<NoMemory> for ServeError {
    ghost from_gives = { λ _ error. error ≡ errors.NoMemory };

    fn from(_error: NoMemory) -> ServeError {
        ServeError::NoMemory
    }
}
