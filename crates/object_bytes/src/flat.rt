//! Why bytes are no object's flat form.

use std::alloc::AllocError;

/// Why bytes give no object.
#[derive(Clone, Copy, Debug, PartialEq, Eq)]
pub enum FlatError {
    /// No object within the limits has that flat form.
    Malformed,
    /// Memory was refused.
    NoMemory,
}

impl From<AllocError> for FlatError {
    ghost use Rattle.std.specs.Prelude.{◌≡◌};
    ghost use Rattle.object_bytes.specs.declared.flat.FlatError.TheVariants.{NoMemory};

    ghost from_gives = { λ _ e. e ≡ NoMemory };

    fn from(_error: AllocError) -> FlatError {
        FlatError::NoMemory
    }
}
