//! The words of a line, and checks that a line names.
use std::process::Abort;
use std::str::SplitWhitespace;

/// Asserts that a line of a text is right, and names the line or the word if it is not.
pub(super) fn see<R: Abort>(rt: &R, is_right: bool, line: &str) {
    assert!(rt; is_right, "{line}");
}

/// The next word, or an empty one after the last.
pub(super) fn next<'a>(words: &mut SplitWhitespace<'a>) -> &'a str {
    words.next().unwrap_or("")
}

/// The number that a word says.
pub(super) fn number_of<R: Abort>(rt: &R, word: &str) -> u32 {
    word.parse::<u32>().expect(rt, "a number")
}

/// The number that the next word says.
pub(super) fn next_number<R: Abort>(rt: &R, words: &mut SplitWhitespace<'_>) -> u32 {
    number_of(rt, next(words))
}

/// The number of 64 bits that the next word says.
pub(super) fn next_long<R: Abort>(rt: &R, words: &mut SplitWhitespace<'_>) -> u64 {
    next(words).parse::<u64>().expect(rt, "a number")
}

/// True if a word is this number in decimal.
pub(super) fn is_number(word: &str, number: u64) -> bool {
    word.parse::<u64>().ok() == Some(number)
}

/// True if a word is this code in decimal.
pub(super) fn is_code(word: &str, code: i64) -> bool {
    word.parse::<i64>().ok() == Some(code)
}

/// Splits a text at the first mark, and trims both halves. Without a mark, the second half is
/// empty.
pub(super) fn halves(text: &str, mark: char) -> (&str, &str) {
    let (before, behind) = text.split_once(mark).unwrap_or((text, ""));
    (before.trim(), behind.trim())
}
