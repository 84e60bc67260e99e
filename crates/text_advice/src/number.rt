//! Numbers and registers as the grammar has them: what they are, or what is wrong with them.

ghost use Rattle.std.specs.Prelude.{◌≡◌, is_none};
ghost use Rattle.std.specs.Result.{is_ok, result_ok};
ghost use Rattle.asm_lines.specs.Numbers.{decimal_number, hex_number, minus_within, natural, natural_within};
ghost use Rattle.asm_lines.specs.Numbers.{plain_within, plus_within, signed_within};
ghost use Rattle.asm_lines.specs.Operands.{register_of};

use crate::trouble::Trouble;
use text_digits::{are_digits, is_decimal, value_within};

/// Decimal digits without a leading zero, up to `most`.
#[tactic(auto, unfolding(asm_lines::specs::Numbers::decimal_number))]
fn decimal(text: &[u8], most: u64) -> Result<u64, Trouble>
    ensures { result_ok result ≡ result_ok (natural_within most (decimal_number text.now)) }
{
    if is_decimal(text) {
        return value_within(text, 10, most).ok_or(Trouble::Range);
    }
    if are_digits(text, 10) {
        return Err(Trouble::LeadingZero);
    }
    Err(Trouble::NoNumber)
}

/// 1 to 16 digits to base 16, up to `most`.
#[tactic(auto, unfolding(asm_lines::specs::Numbers::hex_number))]
fn hex(text: &[u8], most: u64) -> Result<u64, Trouble>
    ensures { result_ok result ≡ result_ok (natural_within most (hex_number text.now)) }
{
    if !are_digits(text, 16) {
        return Err(Trouble::NoNumber);
    }
    if text.len() > 16 {
        return Err(Trouble::LongHex);
    }
    value_within(text, 16, most).ok_or(Trouble::Range)
}

/// A number without a sign, up to `most`.
#[tactic(auto, unfolding(asm_lines::specs::Numbers::natural))]
fn natural(text: &[u8], most: u64) -> Result<u64, Trouble>
    ensures { result_ok result ≡ result_ok (natural_within most (natural text.now)) }
{
    match text {
        [b'0', b'x', digits @ ..] => hex(digits, most),
        _ => decimal(text, most),
    }
}

/// What is wrong with the number after a `-`, down to minus `below`.
#[tactic(auto, unfolding(asm_lines::specs::Numbers::minus_within))]
fn minus(text: &[u8], below: u64) -> Option<Trouble>
    ensures { is_none result ≡ is_ok (minus_within below text.now) }
{
    match natural(text, below) {
        Ok(0) => Some(Trouble::MinusZero),
        Ok(_) => None,
        Err(trouble) => Some(trouble),
    }
}

/// What is wrong with a number without a sign, up to `above`.
#[tactic(auto, unfolding(asm_lines::specs::Numbers::plus_within))]
fn plus(text: &[u8], above: u64) -> Option<Trouble>
    ensures { is_none result ≡ is_ok (plus_within above text.now) }
{
    natural(text, above).err()
}

/// What is wrong with a number from minus `below` to `above`, with `-` before a negative one alone;
/// nothing exactly if the grammar reads it.
#[tactic(auto, unfolding(asm_lines::specs::Numbers::plain_within))]
pub(crate) fn plain(text: &[u8], below: u64, above: u64) -> Option<Trouble>
    ensures { is_none result ≡ is_ok (plain_within below above text.now) }
{
    match text {
        [b'-', digits @ ..] => minus(digits, below),
        _ => plus(text, above),
    }
}

/// The same of one with its sign.
#[tactic(auto, unfolding(asm_lines::specs::Numbers::signed_within))]
pub(crate) fn signed(text: &[u8], below: u64, above: u64) -> Option<Trouble>
    ensures { is_none result ≡ is_ok (signed_within below above text.now) }
{
    match text {
        [b'-', digits @ ..] => minus(digits, below),
        [b'+', digits @ ..] => plus(digits, above),
        _ => Some(Trouble::NoSign),
    }
}

/// What is wrong with a register; nothing exactly if the grammar reads it.
#[tactic(auto, unfolding(asm_lines::specs::Operands::register_of))]
pub(crate) fn register(text: &[u8]) -> Option<Trouble>
    ensures { is_none result ≡ is_ok (register_of text.now) }
{
    match text {
        [b'r', digits @ ..] => match decimal(digits, 10) {
            Ok(_) => None,
            Err(Trouble::NoNumber) => Some(Trouble::NoRegister),
            Err(Trouble::Range) => Some(Trouble::HighRegister),
            Err(trouble) => Some(trouble),
        },
        _ => Some(Trouble::NoRegister),
    }
}
