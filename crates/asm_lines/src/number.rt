ghost use Rattle.std.specs.Prelude.{◌≡◌, ◌≤◌, ◌<◌, ◌^◌, Some};
ghost use Rattle.std.specs.Str.Parse.{digits_value};
ghost use Rattle.asm_lines.specs.Numbers.{decimal_number, hex_number, natural, natural_within, minus_within};
ghost use Rattle.asm_lines.specs.Numbers.{plus_within, plain_within, signed_within, value_of, is_within};

use crate::fault::AsmFault;
use text_digits::{are_digits, is_decimal, value_within};

/// A number with its sign: -0 isn't one.
#[derive(Clone, Copy)]
pub struct Number {
    pub negative: bool,
    pub magnitude: u64,
}

impl Number {
    ghost use Rattle.std.specs.Prelude.{◌≡◌, ◌≤◌, ◌<◌, ◌^◌, ◌-◌, IsTrue};
    ghost use Rattle.asm_lines.specs.Numbers.{value_of, is_within};

    /// The number as an `i64`. It is within its range.
    pub fn to_i64(self) -> i64
        requires { IsTrue (is_within (2 ^ 63) (2 ^ 63 - 1) self) }
        ensures { result ≡ value_of self }
    {
        let size = self.magnitude as i128;
        if self.negative {
            (-size) as i64
        } else {
            size as i64
        }
    }

    /// The number as an `i32`. It is within its range.
    pub(crate) fn to_i32(self) -> i32
        requires { IsTrue (is_within (2 ^ 31) (2 ^ 31 - 1) self) }
        ensures { result ≡ value_of self }
    {
        let size = self.magnitude as i64;
        if self.negative {
            (-size) as i32
        } else {
            size as i32
        }
    }

    /// The number as an `i16`. It is within its range.
    pub(crate) fn to_i16(self) -> i16
        requires { IsTrue (is_within (2 ^ 15) (2 ^ 15 - 1) self) }
        ensures { result ≡ value_of self }
    {
        let size = self.magnitude as i64;
        if self.negative {
            (-size) as i16
        } else {
            size as i16
        }
    }
}

/// The number that digits write, if it is at most `most`.
fn digits_within(text: &[u8], radix: u8, most: u64) -> Result<u64, AsmFault>
    requires low { 1 ≤ radix }
    requires high { radix ≤ 16 }
    ensures { result ≡ natural_within most (Some (digits_value radix text.now)) }
{
    value_within(text, radix, most).ok_or(AsmFault::Range)
}

/// Decimal digits without a leading zero, up to `most`.
// A number has one spelling: another is `Operand`, and `Range` is a right spelling of a number that
// doesn't fit.
#[tactic(auto, unfolding(crate::specs::Numbers::decimal_number))]
pub(crate) fn decimal_within(text: &[u8], most: u64) -> Result<u64, AsmFault>
    ensures { result ≡ natural_within most (decimal_number text.now) }
{
    if !is_decimal(text) {
        return Err(AsmFault::Operand);
    }
    digits_within(text, 10, most)
}

/// 1 to 16 digits to base 16, up to `most`.
#[tactic(auto, unfolding(crate::specs::Numbers::hex_number))]
fn hex_within(text: &[u8], most: u64) -> Result<u64, AsmFault>
    ensures { result ≡ natural_within most (hex_number text.now) }
{
    // 16 hex digits are 64 bits.
    if !are_digits(text, 16) || text.len() > 16 {
        return Err(AsmFault::Operand);
    }
    digits_within(text, 16, most)
}

/// A number without a sign, up to `most`.
#[tactic(auto, unfolding(crate::specs::Numbers::natural))]
fn within(text: &[u8], most: u64) -> Result<u64, AsmFault>
    ensures { result ≡ natural_within most (natural text.now) }
{
    match text {
        [b'0', b'x', digits @ ..] => hex_within(digits, most),
        _ => decimal_within(text, most),
    }
}

/// The number after a `-`, down to minus `below`.
#[tactic(auto, unfolding(crate::specs::Numbers::minus_within))]
fn minus(text: &[u8], below: u64) -> Result<Number, AsmFault>
    ensures { result ≡ minus_within below text.now }
{
    match within(text, below) {
        Ok(0) => Err(AsmFault::Operand),
        Ok(magnitude) => Ok(Number {
            negative: true,
            magnitude,
        }),
        Err(fault) => Err(fault),
    }
}

/// The number after a `+` or no sign, up to `above`.
#[tactic(auto, unfolding(crate::specs::Numbers::plus_within))]
fn plus(text: &[u8], above: u64) -> Result<Number, AsmFault>
    ensures { result ≡ plus_within above text.now }
{
    match within(text, above) {
        Ok(magnitude) => Ok(Number {
            negative: false,
            magnitude,
        }),
        Err(fault) => Err(fault),
    }
}

/// An integer from minus `below` to `above`, with `-` before a negative one alone. Faults: `Operand`
/// for a word that is none, `Range` for one that is out of its range.
#[tactic(auto, unfolding(crate::specs::Numbers::plain_within))]
pub fn integer(text: &[u8], below: u64, above: u64) -> Result<Number, AsmFault>
    ensures { result ≡ plain_within below above text.now }
{
    match text {
        [b'-', digits @ ..] => minus(digits, below),
        _ => plus(text, above),
    }
}

/// A number from minus `below` to `above`, with its sign.
#[tactic(auto, unfolding(crate::specs::Numbers::signed_within))]
pub(crate) fn signed(text: &[u8], below: u64, above: u64) -> Result<Number, AsmFault>
    ensures { result ≡ signed_within below above text.now }
{
    match text {
        [b'-', digits @ ..] => minus(digits, below),
        [b'+', digits @ ..] => plus(digits, above),
        _ => Err(AsmFault::Operand),
    }
}
