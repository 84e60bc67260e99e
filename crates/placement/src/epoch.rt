ghost use Rattle.std.specs.Prelude.{◌≡◌, ◌<◌, ◌^◌};

use std::marker::Model;

/// An epoch's number: 1 to 2^32 - 1, or 0 if there is none yet. An interval is named by the epoch
/// in which it began. Contracts see the number.
#[derive(Clone, Copy, PartialEq, Eq, Drop)]
pub struct Epoch {
    number: u32,
}

impl Model for Epoch {
    ghost use Rattle.std.specs.Prelude.{ℕ, ◌<◌, ◌^◌};

    ghost Value = { ℕ };

    ghost view = { λ e. e.number };

    ghost invariant = { λ e. e.number < 2 ^ 32 };

    ghost inverse = { λ n. record { number = n } };
}

impl Epoch {
    /// The epoch of that number.
    pub fn new(number: u32) -> Epoch
        ensures { result ≡ number }
    {
        Epoch { number }
    }

    /// Its number.
    pub fn get(self) -> u32
        ensures value { result ≡ self }
        ensures within { self < 2 ^ 32 }
    {
        self.number
    }
}
