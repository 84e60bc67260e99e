//! Why bytes are no part.

use std::alloc::{AllocError, AllocFailed};

/// Why bytes give no part.
#[derive(Clone, Copy, Debug, PartialEq, Eq)]
pub enum PartError {
    /// No part has that spelling.
    NoPart,
    /// Memory was refused.
    NoMemory,
}

impl From<AllocError> for PartError {
    ghost use Rattle.std.specs.Prelude.{◌≡◌};
    ghost use Rattle.part_bytes.specs.declared.part_error.PartError.TheVariants.{NoMemory};

    ghost from_gives = { λ _ e. e ≡ NoMemory };

    fn from(_error: AllocError) -> PartError {
        PartError::NoMemory
    }
}

impl<T: Drop> From<AllocFailed<T>> for PartError {
    ghost use Rattle.std.specs.Prelude.{◌≡◌};
    ghost use Rattle.part_bytes.specs.declared.part_error.PartError.TheVariants.{NoMemory};

    ghost from_gives = { λ _ e. e ≡ NoMemory };

    fn from(_failed: AllocFailed<T>) -> PartError {
        PartError::NoMemory
    }
}
