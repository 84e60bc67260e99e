ghost use Rattle.std.specs.Prelude.{◌≡◌};
ghost use Rattle.map_book.specs.declared.map_error.MapError.TheVariants.{NoneUp, Limit, EpochsUsedUp, NoMemory};

use group_world::MonitorError;
use placement::PlacementError;
use std::alloc::{AllocError, AllocFailed};
use std::error::Error;
use std::fmt;

/// Why no maps are made; all monitors are then as before. It prints as number and name, as `1
/// NoneUp`. Of the first three the lowest that applies.
#[derive(Clone, Copy, Debug, PartialEq, Eq, Drop)]
pub enum MapError {
    /// No node is up.
    NoneUp,
    /// A number isn't that of a node, or a node stands twice among those that are up.
    Limit,
    /// The newest epoch is 2^32 - 1.
    EpochsUsedUp,
    /// Memory was refused.
    NoMemory,
}

impl fmt::Display for MapError {
    ghost use Rattle.std.specs.Prelude.{Some};
    ghost use Rattle.map_book.specs.Refusal.{map_error_text};

    ghost output = { λ e. Some (map_error_text e) };

    fn fmt<W: fmt::Write>(&self, f: &mut fmt::Formatter<W>) -> fmt::Result {
        match self {
            MapError::NoneUp => write!(f, "1 NoneUp"),
            MapError::Limit => write!(f, "2 Limit"),
            MapError::EpochsUsedUp => write!(f, "3 EpochsUsedUp"),
            MapError::NoMemory => write!(f, "4 NoMemory"),
        }
    }
}

impl Error for MapError {}

impl From<AllocError> for MapError {
    ghost from_gives = { λ _ e. e ≡ NoMemory };

    fn from(_error: AllocError) -> MapError {
        MapError::NoMemory
    }
}

impl<T: Drop> From<AllocFailed<T>> for MapError {
    ghost from_gives = { λ _ e. e ≡ NoMemory };

    fn from(_error: AllocFailed<T>) -> MapError {
        MapError::NoMemory
    }
}

impl From<PlacementError> for MapError {
    ghost use Rattle.map_book.specs.Errors.{of_placement};

    ghost from_gives = { λ p e. e ≡ of_placement p };

    fn from(error: PlacementError) -> MapError {
        match error {
            PlacementError::NoneUp => MapError::NoneUp,
            PlacementError::Limit => MapError::Limit,
            PlacementError::NoMemory => MapError::NoMemory,
        }
    }
}

impl From<MonitorError> for MapError {
    ghost use Rattle.map_book.specs.Errors.{of_monitor};

    ghost from_gives = { λ m e. e ≡ of_monitor m };

    fn from(error: MonitorError) -> MapError {
        match error {
            MonitorError::BadActing | MonitorError::NotNewest => MapError::Limit,
            MonitorError::EpochsUsedUp => MapError::EpochsUsedUp,
            MonitorError::NoMemory => MapError::NoMemory,
        }
    }
}
