use std::alloc::{AllocError, AllocFailed};
use std::fmt;
use thiserror::Error;

/// Why no heads are found for a method.
#[derive(Clone, Copy, Debug, PartialEq, Eq, Error)]
pub enum FindError {
    /// Memory was refused.
    NoMemory,
    /// The budget isn't 1 to `BUDGET_LIMIT`, the method has more than `SLOT_LIMIT` slots, or jumps go back
    /// to more than `HEAD_LIMIT`.
    Limit,
    /// A jump goes back, and the class's rule set isn't 3: methods of others have no loops.
    RuleSet,
    /// The jump at that slot goes back, and no head is found for it. If it is known, `place` is the first
    /// place whose kind grew till the end; else no flow comes to the target from lower slots, or it is none.
    NoHead { slot: usize, place: Option<u8> },
}

impl fmt::Display for FindError {
    fn fmt<W: fmt::Write>(&self, f: &mut fmt::Formatter<W>) -> fmt::Result {
        match *self {
            FindError::NoMemory => write!(f, "no memory"),
            FindError::Limit => write!(f, "a budget, slots or heads out of range"),
            FindError::RuleSet => write!(f, "loops are of rule set 3"),
            FindError::NoHead { slot, place: None } => write!(
                f,
                "no head for the jump at slot {slot}"
            ),
            FindError::NoHead {
                slot,
                place: Some(place),
            } => { write!(f, "no head for the jump at slot {slot}: place {place}") }
        }
    }
}

impl From<AllocError> for FindError {
    fn from(_error: AllocError) -> FindError {
        FindError::NoMemory
    }
}

impl<T: Drop> From<AllocFailed<T>> for FindError {
    fn from(_failed: AllocFailed<T>) -> FindError {
        FindError::NoMemory
    }
}
