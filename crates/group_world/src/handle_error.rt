ghost use Rattle.std.specs.Prelude.{◌≡◌};
ghost use Rattle.group_world.specs.Refusal.{handle_error_number, handle_error_name, of_log};
ghost use Rattle.group_world.specs.declared.handle_error.HandleError.TheVariants.{NoMemory};

use pg_log::LogError;
use std::alloc::{AllocError, AllocFailed};
use std::error::Error;
use std::fmt;

/// A node's refusal of an event, which is then as one that never came. It prints as number and
/// name, as `2 Peering`. If several apply, it is the first by number. Only a request is refused for
/// another reason than memory.
#[derive(Clone, Copy, Debug, PartialEq, Eq, Drop)]
pub enum HandleError {
    /// The node isn't its interval's primary.
    NotPrimary,
    /// It is, and isn't active yet.
    Peering,
    /// The log has 65,536 entries.
    LogFull,
    /// A greater number of the client is logged.
    StaleNumber,
    /// No class of that id is loaded.
    NoClass,
    /// The class has no method of that name.
    NoMethod,
    /// The input is longer than the method's in_cap.
    InputTooLong,
    /// Memory was refused.
    NoMemory,
}

impl HandleError {
    /// The table of refusals: number and name.
    fn row(self) -> (u8, &'static str)
        ensures number { result.0 ≡ handle_error_number self }
        ensures name { result.1.now ≡ handle_error_name self }
    {
        match self {
            HandleError::NotPrimary => (1, "NotPrimary"),
            HandleError::Peering => (2, "Peering"),
            HandleError::LogFull => (3, "LogFull"),
            HandleError::StaleNumber => (4, "StaleNumber"),
            HandleError::NoClass => (5, "NoClass"),
            HandleError::NoMethod => (6, "NoMethod"),
            HandleError::InputTooLong => (7, "InputTooLong"),
            HandleError::NoMemory => (8, "NoMemory"),
        }
    }

    /// Its number, 1 to 8.
    pub fn number(self) -> u8
        ensures { result ≡ handle_error_number self }
    {
        self.row().0
    }

    /// Its name.
    pub fn name(self) -> &'static str
        ensures { result.now ≡ handle_error_name self }
    {
        self.row().1
    }
}

impl fmt::Display for HandleError {
    ghost use Rattle.std.specs.Prelude.{Some};
    ghost use Rattle.group_world.specs.Refusal.{handle_error_text};

    ghost output = { λ e. Some (handle_error_text e) };

    fn fmt<W: fmt::Write>(&self, f: &mut fmt::Formatter<W>) -> fmt::Result {
        let (number, name) = self.row();
        write!(f, "{number} {name}")
    }
}

impl Error for HandleError {}

impl From<AllocError> for HandleError {
    ghost from_gives = { λ _ e. e ≡ NoMemory };

    fn from(_error: AllocError) -> HandleError {
        HandleError::NoMemory
    }
}

impl<T: Drop> From<AllocFailed<T>> for HandleError {
    ghost from_gives = { λ _ e. e ≡ NoMemory };

    fn from(_error: AllocFailed<T>) -> HandleError {
        HandleError::NoMemory
    }
}

impl From<LogError> for HandleError {
    ghost from_gives = { λ e h. h ≡ of_log e };

    /// The log's refusal as a node gives it.
    fn from(error: LogError) -> HandleError {
        match error {
            LogError::LogFull => HandleError::LogFull,
            LogError::StaleNumber => HandleError::StaleNumber,
            LogError::NoMemory => HandleError::NoMemory,
            LogError::NoClass => HandleError::NoClass,
            LogError::NoMethod => HandleError::NoMethod,
            LogError::InputTooLong => HandleError::InputTooLong,
        }
    }
}
