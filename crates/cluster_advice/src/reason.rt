use crate::above::Above;
use crate::forms::{LineForm, Part, Range, form_of};
use file_words::number_in;

/// The most clients of a file.
const CLIENT_LIMIT: u64 = 64;

/// Why a line is bad or refused.
#[derive(Clone, Copy)]
pub(crate) enum Reason<'a> {
    /// It ends with CR LF.
    CarriageReturn,
    /// It begins with a byte order mark.
    ByteOrderMark,
    /// No line at that place begins with that word.
    UnknownWord(&'a str),
    /// Words are missing.
    TooFewWords,
    /// That word is one too many.
    TooManyWords(&'a str),
    /// That word stands in place of that key.
    NoKey(&'a str, &'static str),
    /// That word is no number.
    NoNumber(&'a str),
    /// A number of that name is that word, and outside of that range.
    OutOfRange(&'static str, &'a str, Range),
    /// An object's name has so many bytes.
    LongObject(usize),
    /// That word is no bytes in hexadecimal.
    NoBytes(&'a str),
    /// A map has no node that is up.
    NoneUp,
    /// That node stands more than once in a map.
    NodeAgain(&'a str),
}

impl Range {
    /// True if the number is in the range.
    fn has(self, number: u64) -> bool {
        match self {
            Range::Between(least, most) => least <= number && number <= most,
            Range::Powers(most) => number.is_power_of_two() && number <= most,
            Range::Clients(most) => 1 <= number && number <= most,
        }
    }
}

/// True if a word spells bytes.
fn are_bytes(word: &str) -> bool {
    word == "-" || (word.len() % 2 == 0 && word.bytes().all(|byte| byte.is_ascii_hexdigit()))
}

/// What is wrong with a word that has to be a number of that range, and what that number is.
fn number_reason<'a>(name: &'static str, word: &'a str, range: Range) -> Option<Reason<'a>> {
    match number_in(word) {
        Some(number) if range.has(number) => None,
        Some(_) => Some(Reason::OutOfRange(name, word, range)),
        None => Some(Reason::NoNumber(word)),
    }
}

/// What makes the line of a word bad, by what the word has to stand for.
fn bad_word<'a>(part: Part, word: &'a str, above: Above) -> Option<Reason<'a>> {
    match part {
        Part::Key(key) if word != key => Some(Reason::NoKey(word, key)),
        Part::Number(_, _) | Part::Node if number_in(word).is_none() => {
            Some(Reason::NoNumber(word))
        }
        Part::Client => {
            let most = above.clients.saturating_add(1).min(CLIENT_LIMIT);
            number_reason("client", word, Range::Clients(most))
        }
        Part::Object if 255 < word.len() => Some(Reason::LongObject(word.len())),
        Part::Bytes if !are_bytes(word) => Some(Reason::NoBytes(word)),
        Part::Key(_) | Part::Number(_, _) | Part::Node => None,
        Part::Object | Part::Any | Part::Bytes => None,
    }
}

/// What has a line refused that isn't bad, of a word by what it stands for.
fn refused_word<'a>(part: Part, word: &'a str, above: Above) -> Option<Reason<'a>> {
    match part {
        Part::Number(name, range) => number_reason(name, word, range),
        Part::Node => {
            let last = above.nodes.saturating_sub(1);
            number_reason("node", word, Range::Between(0, last))
        }
        Part::Key(_) | Part::Client | Part::Object | Part::Any | Part::Bytes => None,
    }
}

/// What the word at a place stands for, by the form of the line.
fn part_at(form: LineForm, place: usize) -> Option<Part> {
    let last = form.parts.len().saturating_sub(1);
    let place = if form.repeats { place.min(last) } else { place };
    match form.parts.get(place) {
        Some(part) => Some(*part),
        None => None,
    }
}

/// What makes a line bad, by its form and the words after the first.
fn bad_line<'a>(form: LineForm, words: &[&'a str], above: Above) -> Option<Reason<'a>> {
    if !form.repeats && words.len() < form.parts.len() {
        return Some(Reason::TooFewWords);
    }
    for (place, word) in words.iter().enumerate() {
        let reason = match part_at(form, place) {
            Some(part) => bad_word(part, word, above),
            None => Some(Reason::TooManyWords(word)),
        };
        if reason.is_some() {
            return reason;
        }
    }
    None
}

/// What has a line refused that isn't bad, by its form and the words after the first.
fn refused_line<'a>(form: LineForm, words: &[&'a str], above: Above) -> Option<Reason<'a>> {
    if form.repeats && words.is_empty() {
        return Some(Reason::NoneUp);
    }
    for (place, word) in words.iter().enumerate() {
        let part = part_at(form, place)?;
        let reason = refused_word(part, word, above);
        if reason.is_some() {
            return reason;
        }
        if form.repeats && words[..place].contains(word) {
            return Some(Reason::NodeAgain(word));
        }
    }
    None
}

/// Why a line with these words is bad: the first of what can't be seen, the first word, the number
/// of words, and each word in its order. If it isn't bad, why it is refused, each word in its order.
/// None if nothing is wrong with it.
pub(crate) fn reason_of<'a>(line: &str, words: &[&'a str], above: Above) -> Option<Reason<'a>> {
    if line.ends_with('\r') {
        return Some(Reason::CarriageReturn);
    }
    if line.starts_with('\u{feff}') {
        return Some(Reason::ByteOrderMark);
    }
    let [word, rest @ ..] = words else {
        return Some(Reason::TooFewWords);
    };
    let Some(form) = form_of(above.is_first, word) else {
        return Some(Reason::UnknownWord(word));
    };
    match bad_line(form, rest, above) {
        Some(reason) => Some(reason),
        None => refused_line(form, rest, above),
    }
}
