ghost use Rattle.std.specs.Prelude.{◌≡◌};

use std::marker::Model;

/// The id of a class, its place among the loaded ones: `lock` is 0, `obj` is 1, tenants' begin at
/// 2. Any number may be asked; one that no class has is refused by the node. Contracts see the
/// number.
#[derive(Clone, Copy, PartialEq, Eq, Drop)]
pub struct ClassId {
    id: usize,
}

impl Model for ClassId {
    ghost use Rattle.std.specs.Prelude.{ℕ};

    ghost Value = { ℕ };

    ghost view = { λ c. c.id };

    ghost inverse = { λ n. record { id = n } };
}

impl ClassId {
    /// The class of that id.
    pub fn new(id: usize) -> ClassId
        ensures { result ≡ id }
    {
        ClassId { id }
    }

    /// Its id.
    pub fn get(self) -> usize
        ensures { result ≡ self }
    {
        self.id
    }
}
