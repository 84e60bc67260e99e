//! Numbers as digits spell them, for texts of every kind: `are_digits`, `is_decimal` (no leading
//! zero), and `value_within` a bound. The rules are `specs/Digits.antt`. No call takes memory.
#![tactic(auto)]

mod number;

pub use number::{are_digits, is_decimal, value_within};
