ghost use Rattle.std.specs.Prelude.{◌≡◌, IfOk};

use shared_map::Same;
use std::alloc::{AllocError, Global};
use std::marker::Model;

/// The value of a name. Contracts see the bytes.
#[derive(Drop)]
pub struct LargeValue {
    content: Vec<u8>,
}

impl Model for LargeValue {
    ghost use Rattle.std.specs.Prelude.{ℕ, List};

    ghost Value = { List ℕ };

    ghost view = { λ v. v.content.items };
}

impl LargeValue {
    /// A copy of these bytes.
    pub(crate) fn new(alloc: Global, bytes: &[u8]) -> Result<LargeValue, AllocError>
        ensures { IfOk result (λ v. v ≡ bytes.now) }
    {
        Ok(LargeValue {
            content: Vec::from_slice(alloc, bytes)?,
        })
    }

    /// The bytes.
    pub fn bytes(&self) -> &[u8]
        ensures { result.now ≡ self.now }
    {
        &self.content
    }
}

impl Same for LargeValue {
    fn is_same(&self, other: &LargeValue) -> bool {
        self.content.as_slice() == other.content.as_slice()
    }
}
