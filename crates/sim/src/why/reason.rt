use crate::why::forms::{LineForm, Part, form_of};
use file_words::{id_in, number_in};

/// Why a line is bad.
#[derive(Clone, Copy)]
pub(crate) enum Reason<'a> {
    /// It ends with CR LF.
    CarriageReturn,
    /// It begins with a byte order mark.
    ByteOrderMark,
    /// No line begins with that word.
    UnknownWord(&'a str),
    /// Words are missing.
    TooFewWords,
    /// That word is one too many.
    TooManyWords(&'a str),
    /// That word is no number.
    NoNumber(&'a str),
    /// That word is no client's or request's number.
    NoId(&'a str),
    /// An object's name has so many bytes.
    LongObject(usize),
    /// That word is no bytes in hexadecimal.
    NoBytes(&'a str),
    /// There is no node of that number.
    NoNode(u64),
    /// There is no map of that number; so many were made.
    NoMap(u64, usize),
    /// There is no message of that number; so many were sent.
    NoMessage(u64, usize),
}

/// How many maps were made and messages sent before a line.
#[derive(Clone, Copy)]
pub(crate) struct Known {
    pub(crate) maps: usize,
    pub(crate) messages: usize,
}

/// True if a number is one of so many, counted from 1.
fn is_among(number: u64, count: usize) -> bool {
    1 <= number && number <= count as u64
}

/// True if a word spells bytes.
fn are_bytes(word: &str) -> bool {
    word == "-" || (word.len() % 2 == 0 && word.bytes().all(|byte| byte.is_ascii_hexdigit()))
}

/// What is wrong with a word that has to be a number, by the number.
fn number_reason(part: Part, number: u64, known: Known) -> Option<Reason<'static>> {
    match part {
        // The nodes of a file are 0 to 15.
        Part::Node if 15 < number => Some(Reason::NoNode(number)),
        Part::Map if !is_among(number, known.maps) => Some(Reason::NoMap(number, known.maps)),
        Part::Message if !is_among(number, known.messages) => {
            Some(Reason::NoMessage(number, known.messages))
        }
        Part::Node | Part::AnyNode | Part::Map | Part::Message => None,
        Part::Id | Part::Object | Part::Any | Part::Bytes => None,
    }
}

/// What is wrong with a word, by what it has to stand for.
fn word_reason(part: Part, word: &str, known: Known) -> Option<Reason<'_>> {
    match part {
        Part::Node | Part::AnyNode | Part::Map | Part::Message => match number_in(word) {
            Some(number) => number_reason(part, number, known),
            None => Some(Reason::NoNumber(word)),
        },
        Part::Id if id_in(word).is_none() => Some(Reason::NoId(word)),
        Part::Object if 255 < word.len() => Some(Reason::LongObject(word.len())),
        Part::Bytes if !are_bytes(word) => Some(Reason::NoBytes(word)),
        Part::Id | Part::Object | Part::Any | Part::Bytes => None,
    }
}

/// The first wrong word of those whose parts may repeat.
fn repeated_reason<'a>(part: Part, words: &[&'a str], known: Known) -> Option<Reason<'a>> {
    for word in words {
        let reason = word_reason(part, word, known);
        if reason.is_some() {
            return reason;
        }
    }
    None
}

/// The first wrong word, of as many as the form has.
fn first_reason<'a>(form: LineForm, words: &[&'a str], known: Known) -> Option<Reason<'a>> {
    for (part, word) in form.parts.iter().zip(words.iter()) {
        let reason = word_reason(*part, word, known);
        if reason.is_some() {
            return reason;
        }
    }
    None
}

/// What is wrong with the words after the first, by the form of the line.
fn form_reason<'a>(form: LineForm, words: &[&'a str], known: Known) -> Option<Reason<'a>> {
    if form.repeats {
        return match form.parts {
            [part, ..] => repeated_reason(*part, words, known),
            [] => None,
        };
    }
    if words.len() < form.parts.len() {
        return Some(Reason::TooFewWords);
    }
    match words.get(form.parts.len()) {
        Some(word) => Some(Reason::TooManyWords(word)),
        None => first_reason(form, words, known),
    }
}

/// Why a line with these words is bad: the first of what can't be seen, the first word, the number
/// of words, and each word in its order. None if nothing is wrong with it.
pub(crate) fn reason_of<'a>(line: &str, words: &[&'a str], known: Known) -> Option<Reason<'a>> {
    if line.ends_with('\r') {
        return Some(Reason::CarriageReturn);
    }
    if line.starts_with('\u{feff}') {
        return Some(Reason::ByteOrderMark);
    }
    match words {
        [word, rest @ ..] => match form_of(word) {
            Some(form) => form_reason(form, rest, known),
            None => Some(Reason::UnknownWord(word)),
        },
        [] => None,
    }
}
