//! The text of the note on a line, below the line itself.

use crate::forms::{Range, form_of, forms_of};
use crate::reason::Reason;
use escaped_text::push_escaped;
use std::alloc::AllocError;
use text_advice::word_distance;

/// Adds a word of the line, as a terminal may have it, and what is wrong with it.
fn push_word(out: &mut String, word: &str, what: &str) -> Result<(), AllocError> {
    out.push_str("`")?;
    push_escaped(out, word)?;
    out.push_str("`")?;
    out.push_str(what)
}

/// The word that lines at that place begin with and that is nearest to that word, if one is near.
fn nearest(is_first: bool, word: &str) -> Option<&'static str> {
    let (mut found, mut least) = (None, usize::MAX);
    for form in forms_of(is_first) {
        match word_distance(word.as_bytes(), form.word.as_bytes()) {
            Some(distance) if distance < least => {
                found = Some(form.word);
                least = distance;
            }
            Some(_) | None => {}
        }
    }
    found
}

/// Adds that no line at that place begins with a word, and which words lines there begin with.
fn push_unknown(out: &mut String, is_first: bool, word: &str) -> Result<(), AllocError> {
    push_word(out, word, " begins no line here")?;
    if let Some(nearest) = nearest(is_first, word) {
        write!(out, "; the nearest word that does is `{nearest}`")?;
    }
    out.push_str(if is_first {
        "\n  wanted: first `cluster`"
    } else {
        "\n  wanted: first `client` or `map`; `cluster` begins the first line alone"
    })
}

/// Adds the numbers of a range.
fn push_range(out: &mut String, range: Range) -> Result<(), AllocError> {
    match range {
        Range::Between(least, most) => write!(out, "{least} to {most}"),
        Range::Powers(most) => write!(out, "1, 2, 4, .. {most}"),
        Range::Clients(most) => write!(out, "1 to {most}, those above and the next, at most 64"),
    }
}

/// Adds what is wrong.
#[rattlefmt::skip]
fn push_what(out: &mut String, is_first: bool, reason: Reason<'_>) -> Result<(), AllocError> {
    match reason {
        Reason::CarriageReturn => out.push_str("the line ends with CR LF: end each line with LF alone"),
        Reason::ByteOrderMark => out.push_str("the text begins with a byte order mark: leave it out"),
        Reason::UnknownWord(word) => push_unknown(out, is_first, word),
        Reason::TooFewWords => out.push_str("words are missing"),
        Reason::TooManyWords(word) => push_word(out, word, " is one word too many"),
        Reason::NoKey(word, key) => {
            push_word(out, word, " stands in place of ")?;
            push_word(out, key, "")
        }
        Reason::NoNumber(word) => push_word(out, word, " is no number: decimal digits, no sign and no leading zero"),
        Reason::OutOfRange(name, word, range) => {
            write!(out, "{name} ")?;
            push_word(out, word, " is out of range: ")?;
            push_range(out, range)
        }
        Reason::LongObject(length) => write!(out, "the object's name has {length} bytes: at most 255"),
        Reason::NoBytes(word) => push_word(out, word, " isn't in hexadecimal: two digits a byte, or - for no byte"),
        Reason::NoneUp => out.push_str("no node is up: name one or more"),
        Reason::NodeAgain(word) => {
            out.push_str("node ")?;
            push_word(out, word, " stands twice")
        }
    }
}

/// Adds what is wrong, in a line of its own.
fn push_reason(out: &mut String, is_first: bool, reason: Reason<'_>) -> Result<(), AllocError> {
    out.push_str("  ")?;
    push_what(out, is_first, reason)?;
    out.push_str("\n")
}

/// Adds the form of a line that begins with that word, if there is one.
fn push_form(out: &mut String, is_first: bool, word: Option<&&str>) -> Result<(), AllocError> {
    match word.and_then(|word| form_of(is_first, word)) {
        Some(form) => {
            let form = form.form;
            write!(out, "  form: `{form}`\n")
        }
        None => Ok(()),
    }
}

/// Adds what is wrong with a line of these words, its form, and the page.
pub(crate) fn push_told(
    out: &mut String,
    is_first: bool,
    words: &[&str],
    reason: Option<Reason<'_>>,
) -> Result<(), AllocError> {
    if let Some(reason) = reason {
        push_reason(out, is_first, reason)?;
    }
    push_form(out, is_first, words.first())?;
    out.push_str("  see docs/PROGRAM.md, cluster\n")
}
