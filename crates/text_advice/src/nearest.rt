//! The word that is nearest to another one.

use crate::calls::call_of;
use crate::forms::FORMS;

/// True if two bytes differ, but for the case of letters.
fn differ(one: u8, other: u8) -> bool {
    one.to_ascii_lowercase() != other.to_ascii_lowercase()
}

/// The number of bytes with which both begin.
fn common_beginning(one: &[u8], other: &[u8]) -> usize {
    let shorter = one.len().min(other.len());
    one.iter()
        .zip(other.iter())
        .position(|(x, y)| differ(*x, *y))
        .unwrap_or(shorter)
}

/// The number of bytes with which both end.
fn common_end(one: &[u8], other: &[u8]) -> usize {
    let shorter = one.len().min(other.len());
    one.iter()
        .rev()
        .zip(other.iter().rev())
        .position(|(x, y)| differ(*x, *y))
        .unwrap_or(shorter)
}

/// What is left of bytes after that many.
fn after(bytes: &[u8], count: usize) -> &[u8] {
    &bytes[count.min(bytes.len())..]
}

/// True if bytes begin with two in one order and in the other.
fn are_swapped(one: &[u8], other: &[u8]) -> bool {
    match (one, other) {
        ([a, b, ..], [c, d, ..]) => !differ(*a, *d) && !differ(*b, *c),
        _ => false,
    }
}

/// How far a word is from a known one: the bytes of both between their common beginning and end.
/// 1 if these are two that are swapped; none if they are over two in one of them, or less than half
/// of the known word is common.
pub fn word_distance(word: &[u8], known: &[u8]) -> Option<usize> {
    let beginning = common_beginning(word, known);
    let (word_rest, known_rest) = (after(word, beginning), after(known, beginning));
    let end = common_end(word_rest, known_rest);
    let (more, less) = (
        word_rest.len().saturating_sub(end),
        known_rest.len().saturating_sub(end),
    );
    if more == 2 && less == 2 && are_swapped(word_rest, known_rest) {
        Some(1)
    } else if more <= 2 && less <= 2 && less <= known.len() / 2 {
        Some(more + less)
    } else {
        None
    }
}

/// The nearest of the known words so far, and how far it is.
pub(crate) type Near<'a> = Option<(&'a [u8], usize)>;

/// The nearer of a known word and those so far, of which the first wins.
pub(crate) fn nearer<'a>(found: Near<'a>, word: &[u8], known: &'a [u8]) -> Near<'a> {
    match (word_distance(word, known), found) {
        (Some(distance), Some((_, least))) if least <= distance => found,
        (Some(distance), _) => Some((known, distance)),
        (None, _) => found,
    }
}

/// The nearest of a list's words, which has blanks between them, and of those so far.
fn nearest_among<'a>(found: Near<'a>, word: &[u8], words: &'a str) -> Near<'a> {
    let mut found = found;
    for known in words.split(' ') {
        found = nearer(found, word, known.as_bytes());
    }
    found
}

/// The first word of a line that is nearest to that word, if one is near.
pub(crate) fn nearest_word(word: &[u8]) -> Option<&'static [u8]> {
    let mut found = None;
    for form in &FORMS {
        found = nearest_among(found, word, form.words);
    }
    found.map(|it| it.0)
}

/// The helper whose name is nearest to that word, if one is near.
pub(crate) fn nearest_helper(word: &[u8]) -> Option<u32> {
    let (mut found, mut least) = (None, usize::MAX);
    for id in 1_u32..19 {
        match helper_distance(word, id) {
            Some(distance) if distance < least => {
                found = Some(id);
                least = distance;
            }
            Some(_) | None => {}
        }
    }
    found
}

/// How far a word is from a helper's name.
fn helper_distance(word: &[u8], id: u32) -> Option<usize> {
    let (name, _) = call_of(id)?;
    word_distance(word, name.as_bytes())
}
