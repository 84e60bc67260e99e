ghost use Rattle.std.specs.Prelude.{◌≡◌, ◌≤◌, ◌↔◌, IsTrue, IfOk, length};
ghost use Rattle.object_store.specs.declared.extent.TheConstants.{EXTENT_LIMIT};

use std::alloc::{AllocError, Global};
use std::marker::Model;
use std::sync::Arc;

/// The most bytes of an extent.
pub(crate) const EXTENT_LIMIT: usize = 4096;

/// One to 4,096 bytes that never change once they are made, shared by all data that has them.
/// Contracts see the bytes.
#[derive(Drop)]
pub(crate) struct Extent {
    content: Arc<Vec<u8>>,
}

impl Model for Extent {
    ghost use Rattle.std.specs.Prelude.{ℕ, List, ◌≤◌, length};
    ghost use Rattle.std.specs.Arc.{arc_value};
    ghost use Rattle.object_store.specs.declared.extent.TheConstants.{EXTENT_LIMIT};

    ghost Value = { List ℕ };

    ghost view = { λ e. (arc_value e.content).items };

    ghost invariant = { λ e. (1 ≤ length (arc_value e.content).items) ×
        (length (arc_value e.content).items ≤ EXTENT_LIMIT) };
}

impl Extent {
    /// The extent of these bytes, which it takes.
    pub(crate) fn new(alloc: Global, content: Vec<u8>) -> Result<Extent, AllocError>
        requires { (1 ≤ length content.items) × (length content.items ≤ EXTENT_LIMIT) }
        ensures { IfOk result (λ e. e ≡ content.items) }
    {
        Ok(Extent {
            content: Arc::new(alloc, content)?,
        })
    }

    /// Its bytes.
    pub(crate) fn bytes(&self) -> &[u8]
        ensures value { result.now ≡ self.now }
        ensures within { (1 ≤ length self.now) × (length self.now ≤ EXTENT_LIMIT) }
    {
        self.content.as_slice()
    }

    /// True if two have the same bytes.
    pub(crate) fn is_same(&self, other: &Extent) -> bool
        ensures { IsTrue result ↔ (self.now ≡ other.now) }
    {
        self.content.as_slice() == other.content.as_slice()
    }

    /// The same extent, by one more pointer to it.
    pub(crate) fn share(&self) -> Result<Extent, AllocError>
        ensures { IfOk result (λ e. e ≡ self.now) }
    {
        Ok(Extent {
            content: Arc::try_clone(&self.content)?,
        })
    }

    /// True if it stands in another place too: in another list or, of zeros, in the same.
    pub(crate) fn is_shared(&self) -> bool {
        Arc::strong_count(&self.content) > 1
    }
}
