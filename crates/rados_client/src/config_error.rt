use std::error::Error;
use std::fmt;

/// Why a cluster isn't made. It prints as number and name, as `1 Limit`.
#[derive(Clone, Copy, Debug, PartialEq, Eq, Drop)]
pub enum ConfigError {
    /// A number is outside its limits.
    Limit,
    /// Memory was refused.
    NoMemory,
}

impl ConfigError {
    ghost use Rattle.std.specs.Prelude.{◌≡◌};
    ghost use Rattle.rados_client.specs.Refusals.{config_error_number};

    /// Its number, 1 or 2.
    pub fn number(self) -> u8
        ensures { result ≡ config_error_number self }
    {
        match self {
            ConfigError::Limit => 1,
            ConfigError::NoMemory => 2,
        }
    }
}

impl fmt::Display for ConfigError {
    ghost use Rattle.std.specs.Prelude.{Some};
    ghost use Rattle.rados_client.specs.Refusals.{config_error_text};

    ghost output = { λ e. Some (config_error_text e) };

    fn fmt<W: fmt::Write>(&self, f: &mut fmt::Formatter<W>) -> fmt::Result {
        match self {
            ConfigError::Limit => write!(f, "1 Limit"),
            ConfigError::NoMemory => write!(f, "2 NoMemory"),
        }
    }
}

impl Error for ConfigError {}
