//! What is wrong with an operand, by what it stands for.

use crate::calls::{error_of, helper_of};
use crate::forms::Part;
use crate::number::{plain, register, signed};
use crate::trouble::Trouble;

/// The first byte of a text; 0 of none.
pub(crate) fn first_byte(text: &str) -> u8 {
    match text.as_bytes() {
        [first, ..] => *first,
        [] => 0,
    }
}

/// True if a text has a blank.
fn has_blank(text: &str) -> bool {
    text.contains(' ') || text.contains('\t')
}

/// A number as others write it, which a sentence of its own explains.
fn as_elsewhere(text: &str) -> Option<Trouble> {
    let digits = text.strip_prefix("-").unwrap_or(text);
    if text.is_empty() {
        return Some(Trouble::Missing);
    }
    if has_blank(text) {
        return Some(Trouble::Blank);
    }
    if text.starts_with('\'') {
        return Some(Trouble::Letter);
    }
    if text.starts_with('#') || text.starts_with('$') || text.starts_with('%') {
        return Some(Trouble::Marked);
    }
    if digits.starts_with("0X") {
        return Some(Trouble::CapitalX);
    }
    if text.contains('.') && first_byte(digits).is_ascii_digit() {
        return Some(Trouble::Point);
    }
    error_of(text).map(Trouble::Error)
}

/// What is wrong with a number from minus `below` to `above`, without a `+`.
fn number_trouble(text: &str, below: u64, above: u64) -> Option<Trouble> {
    let trouble = plain(text.as_bytes(), below, above)?;
    if let Some(known) = as_elsewhere(text) {
        return Some(known);
    }
    if text.starts_with('+') {
        return Some(Trouble::Plus);
    }
    if below == 0 && text.starts_with('-') {
        return Some(Trouble::Minus);
    }
    Some(trouble)
}

/// What is wrong with a number with its sign.
fn signed_trouble(text: &str, below: u64, above: u64) -> Option<Trouble> {
    let trouble = signed(text.as_bytes(), below, above)?;
    as_elsewhere(text).or(Some(trouble))
}

/// What is wrong with a register.
fn register_trouble(text: &str) -> Option<Trouble> {
    let trouble = register(text.as_bytes())?;
    match text.strip_prefix("w") {
        _ if text.is_empty() => Some(Trouble::Missing),
        Some(number) if first_byte(number).is_ascii_digit() => Some(Trouble::LowRegister),
        Some(_) | None => Some(trouble),
    }
}

/// What is wrong with a register or a number.
fn source_trouble(text: &str) -> Option<Trouble> {
    if text.starts_with('r') || text.starts_with('w') {
        return register_trouble(text);
    }
    match number_trouble(text, 2147483648, 2147483647) {
        Some(Trouble::NoNumber) if text.starts_with('[') || text.starts_with('*') => {
            Some(Trouble::NoSource)
        }
        Some(Trouble::NoNumber) if first_byte(text).is_ascii_alphabetic() => {
            Some(Trouble::NoSource)
        }
        trouble => trouble,
    }
}

/// What is wrong with an offset, which may be none.
fn offset_trouble(text: &str) -> Option<Trouble> {
    if text.is_empty() {
        return None;
    }
    if text == "+" || text == "-" {
        return Some(Trouble::NoOffset);
    }
    if text.starts_with("+r") || text.starts_with("-r") {
        return Some(Trouble::OffsetRegister);
    }
    signed_trouble(text, 32768, 32767)
}

/// A place's register and its offset, by the first sign.
fn parts_of(inner: &str) -> (&str, &str) {
    let sign = inner.bytes().position(|byte| byte == b'+' || byte == b'-');
    match sign.and_then(|at| inner.split_at_checked(at)) {
        Some(parts) => parts,
        None => (inner, ""),
    }
}

/// What is wrong with what stands in brackets.
fn place_trouble(inner: &str) -> Option<Trouble> {
    if has_blank(inner) {
        return Some(Trouble::Blank);
    }
    let (base, offset) = parts_of(inner);
    if first_byte(base).is_ascii_digit() {
        return Some(Trouble::OffsetFirst);
    }
    match offset_trouble(offset) {
        Some(trouble) => register_trouble(base).or(Some(trouble)),
        None => register_trouble(base),
    }
}

/// What is wrong with a place in memory.
fn memory_trouble(text: &str) -> Option<Trouble> {
    if text.is_empty() {
        return Some(Trouble::Missing);
    }
    match text.strip_prefix("[") {
        Some(rest) => match rest.strip_suffix("]") {
            Some(inner) => place_trouble(inner),
            None => Some(Trouble::OneBracket),
        },
        None if text.contains('(') => Some(Trouble::Parentheses),
        None => Some(Trouble::NoBrackets),
    }
}

/// True if it may name a label.
pub(crate) fn is_label(text: &str) -> bool {
    first_byte(text).is_ascii_lowercase() && text.bytes().all(is_name_byte)
}

/// True if a byte may stand in a name.
pub(crate) fn is_name_byte(byte: u8) -> bool {
    byte.is_ascii_lowercase() || byte.is_ascii_digit() || byte == b'_'
}

/// What is wrong with where a jump goes.
fn target_trouble(text: &str, below: u64, above: u64) -> Option<Trouble> {
    if is_label(text) {
        return None;
    }
    match signed_trouble(text, below, above) {
        Some(Trouble::NoSign) if !text.bytes().all(|byte| byte.is_ascii_digit()) => {
            Some(Trouble::LabelName)
        }
        trouble => trouble,
    }
}

/// What is wrong with what is called.
fn call_trouble(text: &str) -> Option<Trouble> {
    if let Some(target) = text.strip_prefix("local ") {
        return target_trouble(target.trim(), 2147483648, 2147483647);
    }
    match helper_of(text) {
        Some(helper) => Some(Trouble::Helper(helper)),
        None => number_trouble(text, 0, 4294967295),
    }
}

/// True if it may name a method.
fn is_method_name(text: &str) -> bool {
    !text.is_empty() && text.len() <= 64 && text.bytes().all(is_name_byte)
}

/// What is wrong with an operand that stands for that; nothing if nothing is found.
#[rattlefmt::skip]
pub(crate) fn trouble_of(part: Part, text: &str) -> Option<Trouble> {
    match part {
        Part::Register => register_trouble(text),
        Part::Source => source_trouble(text),
        Part::Number => number_trouble(text, 2147483648, 2147483647),
        Part::Wide => number_trouble(text, 0, u64::MAX),
        Part::Memory => memory_trouble(text),
        Part::Near => target_trouble(text, 32768, 32767),
        Part::Far => target_trouble(text, 2147483648, 2147483647),
        Part::Call => call_trouble(text),
        Part::Name if !is_method_name(text) => Some(Trouble::MethodName),
        Part::Flags if text != "r" && text != "w" && text != "rw" => Some(Trouble::Flags),
        Part::Rules if text != "2" && text != "3" => Some(Trouble::Rules),
        Part::Capacity => number_trouble(text, 0, 65535),
        Part::Name | Part::Flags | Part::Rules => None,
    }
}

/// The range of the numbers of an operand.
#[rattlefmt::skip]
pub(crate) fn range_of(part: Part) -> &'static str {
    match part {
        Part::Register | Part::Name | Part::Flags | Part::Rules => "",
        Part::Capacity => ": IN and OUT are 0 to 4096, by rule set 3 to 65535",
        Part::Source => ": -2147483648 to 2147483647; `lddw r1, ..` takes 64 bits",
        Part::Number | Part::Far => ": -2147483648 to 2147483647",
        Part::Wide => ": 0 to 18446744073709551615",
        Part::Memory | Part::Near => ": -32768 to 32767",
        Part::Call => ": 0 to 4294967295",
    }
}
