mod domain;
mod edges;
mod rows;

ghost use Rattle.std.specs.Prelude.{◌≡◌, ◌<◌, ◌^◌, bit_and};

/// The numbers that agree with `value` in each bit that `unknown` hasn't set. A bit is never set in
/// both.
#[derive(Clone, Copy, PartialEq, Eq)]
pub struct Bits {
    pub value: u64,
    pub unknown: u64,
    ghost apart: { bit_and value unknown ≡ 0 },
    ghost value_fits: { value < 2 ^ 64 },
    ghost unknown_fits: { unknown < 2 ^ 64 },
}
