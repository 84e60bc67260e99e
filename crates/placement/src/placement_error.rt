ghost use Rattle.std.specs.Prelude.{◌≡◌};
ghost use Rattle.placement.specs.declared.placement_error.PlacementError.TheVariants.{NoMemory};

use std::alloc::{AllocError, AllocFailed};
use thiserror::Error;

/// The refusal of an acting set. It prints as number and name, as `1 NoneUp`. If several apply, it
/// is the first by number.
#[derive(Clone, Copy, Debug, PartialEq, Eq, Drop, Error)]
pub enum PlacementError {
    /// No node is up.
    #[error("1 NoneUp")]
    NoneUp,
    /// The map's epoch, a node, the number of replicas or of groups is outside its range, a node is
    /// twice among those that are up, or the group isn't below the number of groups.
    #[error("2 Limit")]
    Limit,
    /// Memory was refused.
    #[error("3 NoMemory")]
    NoMemory,
}

impl From<AllocError> for PlacementError {
    ghost from_gives = { λ _ e. e ≡ NoMemory };

    fn from(_error: AllocError) -> PlacementError {
        PlacementError::NoMemory
    }
}

impl<T: Drop> From<AllocFailed<T>> for PlacementError {
    ghost from_gives = { λ _ e. e ≡ NoMemory };

    fn from(_error: AllocFailed<T>) -> PlacementError {
        PlacementError::NoMemory
    }
}
