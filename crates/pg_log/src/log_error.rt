ghost use Rattle.std.specs.Prelude.{◌≡◌};
ghost use Rattle.pg_log.specs.Refusals.{number_of, name_of};
ghost use Rattle.pg_log.specs.declared.log_error.LogError.TheVariants.{NoMemory};

use std::alloc::{AllocError, AllocFailed};
use thiserror::Error;
use txn::NoMemory as NoRoom;

/// The refusal of a request. It prints as number and name, as `2 StaleNumber`. If several apply, it
/// is the first in the order 1, 2, 4, 5, 6, 3.
#[derive(Clone, Copy, Debug, PartialEq, Eq, Error)]
pub enum LogError {
    /// The log has 65,536 entries.
    #[error("1 LogFull")]
    LogFull,
    /// A greater number of the client is logged.
    #[error("2 StaleNumber")]
    StaleNumber,
    /// Memory was refused.
    #[error("3 NoMemory")]
    NoMemory,
    /// No class of that id is loaded.
    #[error("4 NoClass")]
    NoClass,
    /// The class has no method of that name.
    #[error("5 NoMethod")]
    NoMethod,
    /// The input is longer than the method's in_cap.
    #[error("6 InputTooLong")]
    InputTooLong,
}

impl LogError {
    /// The table of refusals: number and name.
    fn row(self) -> (u8, &'static str)
        ensures number { result.0 ≡ number_of self }
        ensures name { result.1.now ≡ name_of self }
    {
        match self {
            LogError::LogFull => (1, "LogFull"),
            LogError::StaleNumber => (2, "StaleNumber"),
            LogError::NoMemory => (3, "NoMemory"),
            LogError::NoClass => (4, "NoClass"),
            LogError::NoMethod => (5, "NoMethod"),
            LogError::InputTooLong => (6, "InputTooLong"),
        }
    }

    /// Its number, 1 to 6.
    pub fn number(self) -> u8
        ensures { result ≡ number_of self }
    {
        self.row().0
    }

    /// Its name.
    pub fn name(self) -> &'static str
        ensures { result.now ≡ name_of self }
    {
        self.row().1
    }
}

impl From<AllocError> for LogError {
    ghost from_gives = { λ _ e. e ≡ NoMemory };

    fn from(_error: AllocError) -> LogError {
        LogError::NoMemory
    }
}

impl<T: Drop> From<AllocFailed<T>> for LogError {
    ghost from_gives = { λ _ e. e ≡ NoMemory };

    fn from(_error: AllocFailed<T>) -> LogError {
        LogError::NoMemory
    }
}

impl From<NoRoom> for LogError {
    ghost from_gives = { λ _ e. e ≡ NoMemory };

    fn from(_error: NoRoom) -> LogError {
        LogError::NoMemory
    }
}
