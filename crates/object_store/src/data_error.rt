ghost use Rattle.std.specs.Prelude.{◌≡◌};
ghost use Rattle.object_store.specs.Refusal.{store_error_number, store_error_of};

use crate::store_error::StoreError;
use std::alloc::AllocError;
use thiserror::Error;

/// Why a change of data is refused. Numbers and names are those of `StoreError`.
#[derive(Clone, Copy, Debug, PartialEq, Eq, Error)]
pub enum DataError {
    /// The data would pass `DATA_LIMIT`.
    #[error("4 TooBig")]
    TooBig,
    /// Memory was refused.
    #[error("7 NoMemory")]
    NoMemory,
}

impl DataError {
    /// Its number, 4 or 7.
    pub fn number(self) -> u8
        ensures { result ≡ store_error_number (store_error_of self) }
    {
        StoreError::from(self).number()
    }
}

impl From<AllocError> for DataError {
    ghost use Rattle.std.specs.Prelude.{◌≡◌};
    ghost use Rattle.object_store.specs.declared.data_error.DataError.TheVariants.{NoMemory};

    ghost from_gives = { λ _ e. e ≡ NoMemory };

    fn from(_: AllocError) -> DataError {
        DataError::NoMemory
    }
}
