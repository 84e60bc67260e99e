ghost use Rattle.std.specs.Prelude.{◌≡◌, ◌≤◌, ◌↔◌, ℕ, IsSome, IfSome};

use std::marker::Model;

/// One of the registers r0 to r10 (RFC 9669 section 3.1). Contracts see its number.
#[derive(Clone, Copy, PartialEq, Eq)]
pub struct Register {
    number: u8,
}

impl Model for Register {
    ghost Value = { ℕ };

    ghost view = { λ r. r.number };

    ghost invariant = { λ r. r.number ≤ 10 };

    ghost inverse = { λ n. record { number = n } };
}

impl Register {
    /// The register of that number, if there is one: 0 to 10.
    pub fn new(number: u8) -> Option<Register>
        ensures found { IfSome result (λ r. r ≡ number) }
        ensures exists { IsSome result ↔ (number ≤ 10) }
    {
        if number <= 10 {
            Some(Register { number })
        } else {
            None
        }
    }

    /// Its number, 0 to 10.
    pub fn number(self) -> u8
        ensures value { result ≡ self }
        ensures within { self ≤ 10 }
    {
        self.number
    }
}
