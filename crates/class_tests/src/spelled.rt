//! What a word spells: bytes, a name, a code.
ghost use Rattle.std.specs.Prelude.{◌≡◌, ◌++◌, [], IfOk, OnOk, map};
ghost use Rattle.std.specs.List.{slice_split};
ghost use Rattle.class_tests.specs.Spelled.{below_zero, code_in, digits_in, digits_part, held_in, is_comma, is_plus};
ghost use Rattle.class_tests.specs.Spelled.{name_in, number_bytes, number_within, of_kind, part_in, value_in};
ghost use Rattle.class_tests.specs.Spelled.{width_named, with_numbers, with_parts};

use crate::test_bytes::TestBytes;
use byteorder::{ByteOrder, LittleEndian};
use hex::FromHexError;
use std::alloc::{AllocError, Global};
use text_digits::{is_decimal, value_within};

/// The width of numbers in bytes, and the greatest number of so many.
#[derive(Clone, Copy)]
pub(crate) struct NumberWidth {
    pub(crate) bytes: u8,
    pub(crate) most: u64,
}

/// The bytes of pairs of hexadecimal digits; `None` if there are other signs.
fn digits_in(alloc: Global, text: &[u8]) -> Result<Option<TestBytes>, AllocError>
    ensures { IfOk result (λ b. b ≡ digits_in text.now) }
{
    match hex::decode(alloc, text) {
        Ok(bytes) => Ok(Some(TestBytes::new(bytes))),
        Err(FromHexError::OutOfMemory) => Err(AllocError),
        Err(_) => Ok(None),
    }
}

/// The number that decimal digits without a leading zero spell, if it is at most `most`.
fn number_within(most: u64, digits: &[u8]) -> Option<u64>
    ensures { result ≡ number_within most digits.now }
{
    if is_decimal(digits) {
        value_within(digits, 10, most)
    } else {
        None
    }
}

/// The width that a word before a colon names.
fn width_named(kind: &str) -> Option<NumberWidth>
    ensures { result ≡ width_named kind.now }
{
    if kind == "u8" {
        return Some(NumberWidth {
            bytes: 1,
            most: 255,
        });
    }
    if kind == "u16" {
        return Some(NumberWidth {
            bytes: 2,
            most: 65_535,
        });
    }
    if kind == "u32" {
        return Some(NumberWidth {
            bytes: 4,
            most: 4_294_967_295,
        });
    }
    if kind == "u64" {
        return Some(NumberWidth {
            bytes: 8,
            most: 18_446_744_073_709_551_615,
        });
    }
    None
}

/// Adds a number's bytes, the lowest first.
fn push_number(out: &mut Vec<u8>, width: NumberWidth, number: u64) -> Result<(), AllocError>
    ensures { OnOk result (out.new.items ≡ out.old.items ++ number_bytes width number) }
{
    let mut bytes = [0; 8];
    LittleEndian::write_u64(&mut bytes, number);
    out.extend_from_slice(&bytes[..usize::from(width.bytes.min(8))])
}

/// The bytes of the numbers that words spell; `None` if one spells none of that width.
fn numbers_in(
    alloc: Global,
    width: NumberWidth,
    words: &[&str],
) -> Result<Option<TestBytes>, AllocError>
    ensures { IfOk result (λ bytes. bytes ≡ with_numbers width [] (map (λ w. w.now) words.now)) }
{
    let mut bytes = Vec::new(alloc);
    for word in words {
        let Some(number) = number_within(width.most, word.as_bytes()) else {
            return Ok(None);
        };
        push_number(&mut bytes, width, number)?;
    }
    Ok(Some(TestBytes::new(bytes)))
}

/// The texts between commas.
fn at_commas(alloc: Global, text: &str) -> Result<Vec<&str>, AllocError>
    ensures { IfOk result (λ v. map (λ l. l.now) v.items ≡ slice_split is_comma text.now) }
{
    text.split(',').collect(alloc)
}

/// The bytes after a kind and a colon: of a text itself, or of the numbers of a width; `None` if they
/// are none of that kind.
pub fn of_kind(alloc: Global, kind: &str, rest: &str) -> Result<Option<TestBytes>, AllocError>
    ensures { IfOk result (λ bytes. bytes ≡ of_kind kind.now rest.now) }
{
    if kind == "text" {
        return Ok(Some(TestBytes::new(Vec::from_slice(alloc, rest.as_bytes())?)));
    }
    let Some(width) = width_named(kind) else {
        return Ok(None);
    };
    let words = at_commas(alloc, rest)?;
    numbers_in(alloc, width, &words)
}

/// The bytes of a part of a value that is digits; `None` if it is empty or has other signs.
fn digits_part(alloc: Global, part: &str) -> Result<Option<TestBytes>, AllocError>
    ensures { IfOk result (λ bytes. bytes ≡ digits_part part.now) }
{
    if part.is_empty() {
        return Ok(None);
    }
    digits_in(alloc, part.as_bytes())
}

/// The bytes of a part of a value; `None` if it is none.
fn part_in(alloc: Global, part: &str) -> Result<Option<TestBytes>, AllocError>
    ensures { IfOk result (λ bytes. bytes ≡ part_in part.now) }
{
    match part.split_once(':') {
        Some((kind, rest)) => of_kind(alloc, kind, rest),
        None => digits_part(alloc, part),
    }
}

/// The bytes of parts, one after the other; `None` if one is none.
fn parts_in(alloc: Global, parts: &[&str]) -> Result<Option<TestBytes>, AllocError>
    ensures { IfOk result (λ bytes. bytes ≡ with_parts [] (map (λ p. p.now) parts.now)) }
{
    let mut bytes = Vec::new(alloc);
    for part in parts {
        let Some(more) = part_in(alloc, *part)? else {
            return Ok(None);
        };
        bytes.extend_from_slice(more.items())?;
    }
    Ok(Some(TestBytes::new(bytes)))
}

/// The texts between pluses.
fn at_pluses(alloc: Global, text: &str) -> Result<Vec<&str>, AllocError>
    ensures { IfOk result (λ v. map (λ l. l.now) v.items ≡ slice_split is_plus text.now) }
{
    text.split('+').collect(alloc)
}

/// The bytes of a value; `None` if it is none.
pub(crate) fn value_in(alloc: Global, word: &str) -> Result<Option<TestBytes>, AllocError>
    ensures { IfOk result (λ bytes. bytes ≡ value_in word.now) }
{
    if word == "-" {
        return Ok(Some(TestBytes::new(Vec::new(alloc))));
    }
    let parts = at_pluses(alloc, word)?;
    parts_in(alloc, &parts)
}

/// A value that may be missing: `none`, or its bytes.
pub(crate) fn held_in(alloc: Global, word: &str) -> Result<Option<Option<TestBytes>>, AllocError>
    ensures { IfOk result (λ held. held ≡ held_in word.now) }
{
    if word == "none" {
        return Ok(Some(None));
    }
    match value_in(alloc, word)? {
        Some(bytes) => Ok(Some(Some(bytes))),
        None => Ok(None),
    }
}

/// The bytes of a name: after `0x` those of its digits, else its own.
pub(crate) fn name_in(alloc: Global, word: &str) -> Result<Option<TestBytes>, AllocError>
    ensures { IfOk result (λ name. name ≡ name_in word.now) }
{
    match word.as_bytes() {
        [b'0', b'x', digits @ ..] => digits_in(alloc, digits),
        bytes => Ok(Some(TestBytes::new(Vec::from_slice(alloc, bytes)?))),
    }
}

/// The 64 bits of a number below zero.
fn below_zero(number: u64) -> Option<u64>
    ensures { result ≡ below_zero number }
{
    if number == 0 {
        None
    } else {
        Some(number.wrapping_neg())
    }
}

/// The 64 bits of a code; `None` if the word is none.
pub(crate) fn code_in(word: &str) -> Option<u64>
    ensures { result ≡ code_in word.now }
{
    match word.as_bytes() {
        [b'-', digits @ ..] => below_zero(number_within(1 << 63, digits)?),
        digits => number_within((1 << 63) - 1, digits),
    }
}
