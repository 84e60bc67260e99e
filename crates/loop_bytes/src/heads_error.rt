ghost use Rattle.std.specs.Prelude.{◌≡◌};
ghost use Rattle.loop_bytes.specs.declared.heads_error.HeadsError.TheVariants.{NoMemory};

use std::alloc::{AllocError, AllocFailed};

/// Why bytes are refused as loops: the first reason from left to right.
#[derive(Clone, Copy, Debug, PartialEq, Eq)]
pub enum HeadsError {
    /// Memory ran out.
    NoMemory,
    /// A field passes the end.
    Truncated,
    /// The number of heads isn't 0 to `HEAD_LIMIT`, or the budget isn't 1 to `BUDGET_LIMIT`.
    Limit,
    /// The head of that slot isn't above the one before it or at no instruction, or a place of it has a
    /// number or a kind that isn't one, a number that isn't above the one before it, or bounds that
    /// aren't in order.
    Head(u16),
}

impl From<AllocError> for HeadsError {
    ghost from_gives = { λ _ e. e ≡ NoMemory };

    fn from(_e: AllocError) -> HeadsError {
        HeadsError::NoMemory
    }
}

impl<T: Drop> From<AllocFailed<T>> for HeadsError {
    ghost from_gives = { λ _ e. e ≡ NoMemory };

    fn from(_e: AllocFailed<T>) -> HeadsError {
        HeadsError::NoMemory
    }
}
