ghost use Rattle.std.specs.Prelude.{◌≡◌};
ghost use Rattle.object_store.specs.Refusal.{store_error_number, store_error_name, store_error_of};

use crate::data_error::DataError;
use std::alloc::AllocError;
use std::error::Error;
use std::fmt;

/// Why a call on objects is refused.
#[derive(Clone, Copy, Debug, PartialEq, Eq)]
pub enum StoreError {
    /// There is no such object.
    Absent,
    /// There is one already.
    Exists,
    /// The object has no such xattr or key.
    NoAttr,
    /// Data would pass `DATA_LIMIT`, or a value passes `VALUE_LIMIT`.
    TooBig,
    /// A new xattr past `XATTR_LIMIT`, or a new key past `KEY_LIMIT`.
    TooMany,
    /// A name of no bytes, or of more than its limit.
    Range,
    /// Memory was refused.
    NoMemory,
}

impl StoreError {
    /// The row of the table of refusals: number and name.
    fn row(self) -> (u8, &'static str)
        ensures number { result.0 ≡ store_error_number self }
        ensures name { result.1.now ≡ store_error_name self }
    {
        match self {
            StoreError::Absent => (1, "Absent"),
            StoreError::Exists => (2, "Exists"),
            StoreError::NoAttr => (3, "NoAttr"),
            StoreError::TooBig => (4, "TooBig"),
            StoreError::TooMany => (5, "TooMany"),
            StoreError::Range => (6, "Range"),
            StoreError::NoMemory => (7, "NoMemory"),
        }
    }

    /// Its number, 1 to 7.
    pub fn number(self) -> u8
        ensures { result ≡ store_error_number self }
    {
        self.row().0
    }
}

impl fmt::Display for StoreError {
    ghost use Rattle.std.specs.Prelude.{Some};
    ghost use Rattle.object_store.specs.Refusal.{store_error_text};

    ghost output = { λ e. Some (store_error_text e) };

    /// Number and name, as `6 Range`.
    fn fmt<W: fmt::Write>(&self, f: &mut fmt::Formatter<W>) -> fmt::Result {
        let (number, name) = self.row();
        write!(f, "{number} {name}")
    }
}

impl Error for StoreError {}

impl From<AllocError> for StoreError {
    ghost use Rattle.std.specs.Prelude.{◌≡◌};
    ghost use Rattle.object_store.specs.declared.store_error.StoreError.TheVariants.{NoMemory};

    ghost from_gives = { λ _ e. e ≡ NoMemory };

    fn from(_: AllocError) -> StoreError {
        StoreError::NoMemory
    }
}

impl From<DataError> for StoreError {
    ghost use Rattle.std.specs.Prelude.{◌≡◌};
    ghost use Rattle.object_store.specs.Refusal.{store_error_of};

    ghost from_gives = { λ d e. e ≡ store_error_of d };

    fn from(error: DataError) -> StoreError {
        match error {
            DataError::TooBig => StoreError::TooBig,
            DataError::NoMemory => StoreError::NoMemory,
        }
    }
}
