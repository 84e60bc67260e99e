ghost use Rattle.std.specs.Prelude.{◌≡◌};

use std::marker::Model;

/// A node's number. A cluster's nodes have numbers of 0 to 15; any other number names no node.
/// Contracts see the number.
#[derive(Clone, Copy, PartialEq, Eq, Drop)]
pub struct NodeId {
    number: u64,
}

impl Model for NodeId {
    ghost use Rattle.std.specs.Prelude.{ℕ};

    ghost Value = { ℕ };

    ghost view = { λ n. n.number };

    ghost inverse = { λ n. record { number = n } };
}

impl NodeId {
    /// The node of that number.
    pub fn new(number: u64) -> NodeId
        ensures { result ≡ number }
    {
        NodeId { number }
    }

    /// Its number.
    pub fn get(self) -> u64
        ensures { result ≡ self }
    {
        self.number
    }
}
