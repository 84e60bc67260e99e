ghost use Rattle.std.specs.Prelude.{◌≡◌, IfOk};

use std::alloc::{AllocError, Global};
use std::marker::Model;

/// The value of a name. Contracts see the bytes.
#[derive(Drop)]
pub(crate) struct StoredValue {
    content: Vec<u8>,
}

impl Model for StoredValue {
    ghost use Rattle.std.specs.Prelude.{ℕ, List};

    ghost Value = { List ℕ };

    ghost view = { λ v. v.content.items };
}

impl StoredValue {
    /// A copy of these bytes.
    pub(crate) fn new(alloc: Global, bytes: &[u8]) -> Result<StoredValue, AllocError>
        ensures { IfOk result (λ v. v ≡ bytes.now) }
    {
        Ok(StoredValue {
            content: Vec::from_slice(alloc, bytes)?,
        })
    }

    /// The bytes.
    pub(crate) fn bytes(&self) -> &[u8]
        ensures { result.now ≡ self.now }
    {
        &self.content
    }
}
