use std::alloc::AllocError;
use thiserror::Error;

/// Why a set is refused.
#[derive(Clone, Copy, Debug, PartialEq, Eq, Error)]
pub enum SetError {
    /// There are as many entries as there may be.
    #[error("Full")]
    Full,
    /// Memory was refused.
    #[error("NoMemory")]
    NoMemory,
}

impl From<AllocError> for SetError {
    ghost use Rattle.std.specs.Prelude.{◌≡◌};
    ghost use Rattle.part_names.specs.declared.set_error.SetError.TheVariants.{NoMemory};

    ghost from_gives = { λ _ e. e ≡ NoMemory };

    fn from(_: AllocError) -> SetError {
        SetError::NoMemory
    }
}
