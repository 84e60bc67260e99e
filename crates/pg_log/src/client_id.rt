ghost use Rattle.std.specs.Prelude.{◌≡◌, ◌<◌, ◌≤◌, ◌^◌, ◌↔◌, IfSome, IsSome};

use std::marker::Model;

/// A client's number, 1 to 2^32 - 1. Contracts see the number.
#[derive(Clone, Copy, PartialEq, Eq, Drop)]
pub struct ClientId {
    value: u32,
}

impl Model for ClientId {
    ghost use Rattle.std.specs.Prelude.{ℕ, ◌<◌, ◌≤◌, ◌^◌};

    ghost Value = { ℕ };

    ghost view = { λ c. c.value };

    ghost invariant = { λ c. (1 ≤ c.value) × (c.value < 2 ^ 32) };

    ghost inverse = { λ n. record { value = n } };
}

impl ClientId {
    /// The client of that number, if it is one.
    pub fn new(value: u32) -> Option<ClientId>
        ensures value { IfSome result (λ c. c ≡ value) }
        ensures within { IsSome result ↔ (1 ≤ value) }
    {
        if value == 0 {
            return None;
        }
        Some(ClientId { value })
    }

    /// Its number.
    pub fn get(self) -> u32
        ensures value { result ≡ self }
        ensures least { 1 ≤ self }
    {
        self.value
    }
}
