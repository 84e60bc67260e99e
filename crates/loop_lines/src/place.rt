//! A place of a head: its name, and what is declared of it.

ghost use Rattle.std.specs.Prelude.{◌≡◌, ◌≤◌, IfOk, IfSome};
ghost use Rattle.loop_heads.specs.declared.limits.TheConstants.{PLACE_LIMIT};
ghost use Rattle.loop_lines.specs.Reading.{at_end, decimal_within, place_named, number_from};
ghost use Rattle.loop_lines.specs.Reading.{bounded, kind_of, place_of};

use crate::number::{signed_pair, unsigned_pair};
use asm_lines::{AsmFault, after_word, first_word};
use loop_heads::{HeadPlace, PlaceKind};
use text_digits::{is_decimal, value_within};

/// Decimal digits without a leading zero, up to `most`.
fn decimal_within(digits: &[u8], most: u8) -> Option<u8>
    ensures read { result ≡ decimal_within most digits.now }
    ensures within { IfSome result (λ n. n ≤ most) }
{
    if !is_decimal(digits) {
        return None;
    }
    match value_within(digits, 10, most as u64) {
        Some(number) => Some(number as u8),
        None => None,
    }
}

/// The number of a place by its name: `r0` to `r9`, or `s0` to `s63`.
#[tactic(auto, unfolding(crate::specs::Reading::place_named))]
fn place_named(word: &[u8]) -> Option<u8>
    ensures read { result ≡ place_named word.now }
    ensures known { IfSome result (λ n. n ≤ PLACE_LIMIT) }
{
    match word {
        [b'r', digits @ ..] => decimal_within(digits, 9),
        [b's', digits @ ..] => match decimal_within(digits, 63) {
            Some(slot) => Some(slot + 11),
            None => None,
        },
        _ => None,
    }
}

/// The same, which is to be at least `least`.
fn number_from(least: u8, word: &[u8]) -> Result<u8, AsmFault>
    ensures read { result ≡ number_from least (place_named word.now) }
    ensures known { IfOk result (λ n. n ≤ PLACE_LIMIT) }
{
    match place_named(word) {
        Some(number) if least <= number => Ok(number),
        _ => Err(AsmFault::Operand),
    }
}

/// A kind after which nothing is left.
fn at_end(rest: &[u8], kind: PlaceKind) -> Result<PlaceKind, AsmFault>
    ensures { result ≡ at_end rest.now kind }
{
    if rest.is_empty() {
        Ok(kind)
    } else {
        Err(AsmFault::Operand)
    }
}

/// A kind whose bounds are all that the text has, and are in order.
fn bounded(kind: PlaceKind, text: &[u8]) -> Result<PlaceKind, AsmFault>
    ensures { result ≡ bounded kind text.now }
{
    if !kind.is_ordered() {
        return Err(AsmFault::Range);
    }
    at_end(after_word(after_word(text)), kind)
}

/// What is declared of a place.
#[rattlefmt::skip]
#[tactic(auto, unfolding(crate::specs::Reading::kind_of))]
fn kind_of(text: &[u8]) -> Result<PlaceKind, AsmFault>
    ensures { result ≡ kind_of text.now }
{
    let word = first_word(text);
    let rest = after_word(text);
    if word == b"unset".as_slice() {
        at_end(rest, PlaceKind::Unset)
    } else if word == b"any".as_slice() {
        at_end(rest, PlaceKind::Any)
    } else if word == b"signed".as_slice() {
        let (a, b) = signed_pair(rest)?;
        bounded(PlaceKind::Signed(a, b), rest)
    } else if word == b"in".as_slice() {
        let (a, b) = unsigned_pair(rest)?;
        bounded(PlaceKind::Input(a, b), rest)
    } else if word == b"out".as_slice() {
        let (a, b) = unsigned_pair(rest)?;
        bounded(PlaceKind::Output(a, b), rest)
    } else if word == b"stack".as_slice() {
        let (a, b) = unsigned_pair(rest)?;
        bounded(PlaceKind::Stack(a, b), rest)
    } else {
        let (a, b) = unsigned_pair(text)?;
        bounded(PlaceKind::Unsigned(a, b), text)
    }
}

/// A place, with a number that is at least `least`.
#[tactic(auto, unfolding(crate::specs::Reading::place_of))]
pub(crate) fn place_of(least: u8, text: &[u8]) -> Result<HeadPlace, AsmFault>
    ensures read { result ≡ place_of least text.now }
    ensures known { IfOk result (λ p. p.number ≤ PLACE_LIMIT) }
{
    let number = number_from(least, first_word(text))?;
    let kind = kind_of(after_word(text))?;
    Ok(HeadPlace { number, kind })
}
