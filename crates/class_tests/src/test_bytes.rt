ghost use Rattle.std.specs.Prelude.{◌≡◌};
ghost use Rattle.std.specs.Str.{bytes_eq};

use std::marker::Model;

/// A list of bytes. Contracts see the list.
#[derive(Drop)]
pub struct TestBytes {
    items: Vec<u8>,
}

impl Model for TestBytes {
    ghost use Rattle.std.specs.Prelude.{List, ℕ};

    ghost Value = { List ℕ };

    ghost view = { λ b. b.items.items };
}

impl TestBytes {
    /// These bytes. It takes no memory.
    pub(crate) fn new(items: Vec<u8>) -> TestBytes
        ensures { result ≡ items.items }
    {
        TestBytes { items }
    }

    /// The bytes, the first one first.
    pub fn items(&self) -> &[u8]
        ensures { result.now ≡ self.now }
    {
        &self.items
    }

    /// True if two have the same bytes.
    pub(crate) fn are(&self, other: &TestBytes) -> bool
        ensures { result ≡ bytes_eq self.now other.now }
    {
        self.items == other.items
    }
}
