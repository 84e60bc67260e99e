ghost use Rattle.std.specs.Prelude.{◌≡◌, ◌<◌, ◌≤◌, ◌^◌, ◌↔◌, IfSome, IsSome};

use std::marker::Model;

/// The number that a client gives a request, 1 to 2^32 - 1. Contracts see the number.
#[derive(Clone, Copy, PartialEq, Eq, Drop)]
pub struct RequestNumber {
    value: u32,
}

impl Model for RequestNumber {
    ghost use Rattle.std.specs.Prelude.{ℕ, ◌<◌, ◌≤◌, ◌^◌};

    ghost Value = { ℕ };

    ghost view = { λ c. c.value };

    ghost invariant = { λ c. (1 ≤ c.value) × (c.value < 2 ^ 32) };

    ghost inverse = { λ n. record { value = n } };
}

impl RequestNumber {
    /// The request number of that value, if it is one.
    pub fn new(value: u32) -> Option<RequestNumber>
        ensures value { IfSome result (λ c. c ≡ value) }
        ensures within { IsSome result ↔ (1 ≤ value) }
    {
        if value == 0 {
            return None;
        }
        Some(RequestNumber { value })
    }

    /// Its value.
    pub fn get(self) -> u32
        ensures value { result ≡ self }
        ensures least { 1 ≤ self }
    {
        self.value
    }
}
