//! What can go wrong as a built-in class is loaded.

ghost use Rattle.std.specs.Prelude.{◌≡◌};
ghost use Rattle.builtin_classes.specs.declared.failure.BuiltInFailure.TheVariants.{NoMemory};

use bpf_asm::AsmError;
use std::alloc::{AllocError, AllocFailed};
use thiserror::Error;
use verifier::Refusal;

/// Why a built-in class can't be had. A text that is no class and a class that is not safe are
/// faults of this crate.
#[derive(Clone, Copy, Debug, PartialEq, Eq, Error)]
pub enum BuiltInFailure {
    /// Memory was refused.
    #[error("no memory")]
    NoMemory,
    /// A text is no class.
    #[error("{0}")]
    Text(AsmError),
    /// A method is not safe.
    #[error("{0}")]
    Verdict(Refusal),
}

impl From<AllocError> for BuiltInFailure {
    ghost from_gives = { λ _ e. e ≡ NoMemory };

    fn from(_error: AllocError) -> BuiltInFailure {
        BuiltInFailure::NoMemory
    }
}

impl<T: Drop> From<AllocFailed<T>> for BuiltInFailure {
    ghost from_gives = { λ _ e. e ≡ NoMemory };

    fn from(_error: AllocFailed<T>) -> BuiltInFailure {
        BuiltInFailure::NoMemory
    }
}
