ghost use Rattle.loop_tool.specs.WriteHeadsError.{IsMemory};

use crate::no_heads::NoHeads;
use program_files::{Failed, Failure};
use std::alloc::{AllocError, AllocFailed};

/// Why no image with heads was written.
#[derive(Drop)]
pub enum WriteHeadsError {
    /// The class could not be read, its image not be made or written, or memory ran out.
    Failed(Failed),
    /// For a method that jumps back no heads are found.
    NotFound(NoHeads),
}

impl From<AllocError> for WriteHeadsError {
    ghost from_gives = { λ _ error. IsMemory error };

    fn from(_error: AllocError) -> WriteHeadsError {
        WriteHeadsError::Failed(Failed::from(Failure::NoMemory))
    }
}

impl<T: Drop> From<AllocFailed<T>> for WriteHeadsError {
    ghost from_gives = { λ _ error. IsMemory error };

    fn from(_error: AllocFailed<T>) -> WriteHeadsError {
        WriteHeadsError::Failed(Failed::from(Failure::NoMemory))
    }
}
