ghost use Rattle.std.specs.Prelude.{◌≡◌};
ghost use Rattle.replication.specs.Packed.{number_of};

use thiserror::Error;

/// The refusal of unpacking. It prints as number and name, as `1 TooShort`.
#[derive(Clone, Copy, Debug, PartialEq, Eq, Error)]
pub enum UnpackError {
    /// The local list is shorter than the beginning that was left out.
    #[error("1 TooShort")]
    TooShort,
    /// Memory was refused.
    #[error("2 NoMemory")]
    NoMemory,
}

impl UnpackError {
    /// Its number, 1 or 2.
    pub fn number(self) -> u8
        ensures { result ≡ number_of self }
    {
        match self {
            UnpackError::TooShort => 1,
            UnpackError::NoMemory => 2,
        }
    }
}
