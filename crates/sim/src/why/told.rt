//! The text of the note on a bad line.

use crate::why::forms::form_of;
use crate::why::nearest::nearest;
use crate::why::reason::Reason;
use escaped_text::push_escaped;
use std::alloc::{AllocError, Global};

/// Adds a word of the line, as a terminal may have it.
fn push_quoted(out: &mut String, word: &str) -> Result<(), AllocError> {
    out.push_str("  `")?;
    push_escaped(out, word)?;
    out.push_str("`")
}

/// Adds a word of the line, and what is wrong with it.
fn push_word(out: &mut String, word: &str, what: &str) -> Result<(), AllocError> {
    push_quoted(out, word)?;
    out.push_str(what)
}

/// Adds that no line begins with a word, and which words lines begin with.
fn push_unknown(out: &mut String, word: &str) -> Result<(), AllocError> {
    push_word(out, word, " begins no line")?;
    if let Some(nearest) = nearest(word) {
        write!(out, "; the nearest word that does is `{nearest}`")?;
    }
    out.push_str(
        "\n  wanted: first `map`, `see`, `req`, `deliver`, `stop`, `go`, `resend` or `show`\n",
    )
}

/// Adds what is wrong.
#[rattlefmt::skip]
fn push_reason(out: &mut String, reason: Reason<'_>) -> Result<(), AllocError> {
    match reason {
        Reason::CarriageReturn => out.push_str("  the line ends with CR LF: end each line with LF alone\n"),
        Reason::ByteOrderMark => out.push_str("  the text begins with a byte order mark: leave it out\n"),
        Reason::UnknownWord(word) => push_unknown(out, word),
        Reason::TooFewWords => out.push_str("  words are missing\n"),
        Reason::TooManyWords(word) => push_word(out, word, " is one word too many\n"),
        Reason::NoNumber(word) => push_word(out, word, " is no number: decimal digits, no sign and no leading zero\n"),
        Reason::NoId(word) => push_word(out, word, " is no number from 1 to 4294967295\n"),
        Reason::LongObject(length) => write!(out, "  the object's name has {length} bytes: at most 255\n"),
        Reason::NoBytes(word) => push_word(out, word, " isn't in hexadecimal: two digits a byte, or - for no byte\n"),
        Reason::NoNode(number) => write!(out, "  there is no node {number}: they are 0 to 15\n"),
        Reason::NoMap(number, count) => write!(out, "  there is no map {number}: made so far are {count}\n"),
        Reason::NoMessage(number, count) => write!(out, "  there is no message {number}: sent so far are {count}\n"),
    }
}

/// Adds the form of a line that begins with that word, if there is one.
fn push_form(out: &mut String, word: Option<&&str>) -> Result<(), AllocError> {
    match word.and_then(|word| form_of(word)) {
        Some(form) => {
            let form = form.form;
            write!(out, "  form: `{form}`\n")
        }
        None => Ok(()),
    }
}

/// The note on a line: the line as a terminal may have it, what is wrong, the form, and the page.
pub(crate) fn told(
    alloc: Global,
    number: usize,
    line: &str,
    words: &[&str],
    reason: Option<Reason<'_>>,
) -> Result<String, AllocError> {
    let mut out = format!(in alloc; "  line {number}: ")?;
    push_escaped(&mut out, line)?;
    out.push_str("\n")?;
    if let Some(reason) = reason {
        push_reason(&mut out, reason)?;
    }
    push_form(&mut out, words.first())?;
    out.push_str("  see docs/PROGRAM.md, sim\n")?;
    Ok(out)
}
