ghost use Rattle.std.specs.Prelude.{◌≡◌};
ghost use Rattle.group_world.specs.Refusal.{monitor_error_number, monitor_error_name};
ghost use Rattle.group_world.specs.declared.monitor_error.MonitorError.TheVariants.{NoMemory};

use std::alloc::{AllocError, AllocFailed};
use std::error::Error;
use std::fmt;

/// The monitor's refusal of a map or of an activation; it is then as before. It prints as number
/// and name, as `2 NotNewest`. If several apply, it is the first by number.
#[derive(Clone, Copy, Debug, PartialEq, Eq, Drop)]
pub enum MonitorError {
    /// The acting list is empty, has more than three nodes or one twice, or a number above 15.
    BadActing,
    /// The interval isn't that of the newest map.
    NotNewest,
    /// The newest epoch is 2^32 - 1.
    EpochsUsedUp,
    /// Memory was refused.
    NoMemory,
}

impl MonitorError {
    /// The table of refusals: number and name.
    fn row(self) -> (u8, &'static str)
        ensures number { result.0 ≡ monitor_error_number self }
        ensures name { result.1.now ≡ monitor_error_name self }
    {
        match self {
            MonitorError::BadActing => (1, "BadActing"),
            MonitorError::NotNewest => (2, "NotNewest"),
            MonitorError::EpochsUsedUp => (3, "EpochsUsedUp"),
            MonitorError::NoMemory => (4, "NoMemory"),
        }
    }

    /// Its number, 1 to 4.
    pub fn number(self) -> u8
        ensures { result ≡ monitor_error_number self }
    {
        self.row().0
    }

    /// Its name.
    pub fn name(self) -> &'static str
        ensures { result.now ≡ monitor_error_name self }
    {
        self.row().1
    }
}

impl fmt::Display for MonitorError {
    ghost use Rattle.std.specs.Prelude.{Some};
    ghost use Rattle.group_world.specs.Refusal.{monitor_error_text};

    ghost output = { λ e. Some (monitor_error_text e) };

    fn fmt<W: fmt::Write>(&self, f: &mut fmt::Formatter<W>) -> fmt::Result {
        let (number, name) = self.row();
        write!(f, "{number} {name}")
    }
}

impl Error for MonitorError {}

impl From<AllocError> for MonitorError {
    ghost from_gives = { λ _ e. e ≡ NoMemory };

    fn from(_error: AllocError) -> MonitorError {
        MonitorError::NoMemory
    }
}

impl<T: Drop> From<AllocFailed<T>> for MonitorError {
    ghost from_gives = { λ _ e. e ≡ NoMemory };

    fn from(_error: AllocFailed<T>) -> MonitorError {
        MonitorError::NoMemory
    }
}
