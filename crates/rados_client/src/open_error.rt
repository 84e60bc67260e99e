ghost use Rattle.std.specs.Prelude.{◌≡◌};
ghost use Rattle.rados_client.specs.Refusals.{open_error_number};

use thiserror::Error;

/// Why no session is opened. It prints as number and name, as `1 TooMany`.
#[derive(Clone, Copy, Debug, PartialEq, Eq, Drop, Error)]
pub enum OpenError {
    /// 64 sessions were opened before.
    #[error("1 TooMany")]
    TooMany,
    /// Memory was refused.
    #[error("2 NoMemory")]
    NoMemory,
}

impl OpenError {
    /// Its number, 1 or 2.
    pub fn number(self) -> u8
        ensures { result ≡ open_error_number self }
    {
        match self {
            OpenError::TooMany => 1,
            OpenError::NoMemory => 2,
        }
    }
}
