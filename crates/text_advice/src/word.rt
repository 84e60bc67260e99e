//! What is wrong with a line's own words.

use crate::calls::call_of;
use crate::forms::{Part, WordForm, form_of};
use crate::instead::push_instead;
use crate::nearest::{nearest_helper, nearest_word};
use crate::operand::{is_label, range_of, trouble_of};
use crate::quoted::{push_about, push_name};
use crate::trouble::Trouble;
use std::alloc::{AllocError, Global};

/// The words of a text, with another text between them.
fn joined(alloc: Global, text: &str, between: &str) -> Result<String, AllocError> {
    let mut out = String::new(alloc);
    for word in text.split_ascii_whitespace() {
        if !out.is_empty() {
            out.push_str(between)?;
        }
        out.push_str(word)?;
    }
    Ok(out)
}

/// Adds what is written in place of an operand, if the trouble tells.
fn push_cure(out: &mut String, trouble: Trouble, text: &str) -> Result<(), AllocError> {
    match trouble {
        Trouble::Error(number) => write!(out, ": write `-{number}`"),
        Trouble::Helper(number) => write!(out, ": write `call {number}`"),
        Trouble::Letter => match text.as_bytes() {
            [b'\'', letter, b'\''] => write!(out, ": write `{letter}`"),
            _ => Ok(()),
        },
        Trouble::Blank => {
            out.push_str(": write `")?;
            for word in text.split_ascii_whitespace() {
                push_about(out, "", word, "")?;
            }
            out.push_str("`")
        }
        _ => Ok(()),
    }
}

/// Adds the helper that is nearest, if one is.
fn push_helper(out: &mut String, helper: Option<u32>) -> Result<(), AllocError> {
    let Some(id) = helper else {
        return Ok(());
    };
    match call_of(id) {
        Some((name, _)) => write!(out, "; the nearest helper is `{name}`: write `call {id}`"),
        None => Ok(()),
    }
}

/// Adds the range of an operand that is out of it, or the helper whose name is nearest to it.
fn push_hint(out: &mut String, part: Part, trouble: Trouble, text: &str) -> Result<(), AllocError> {
    match (part, trouble) {
        (_, Trouble::Range) => out.push_str(range_of(part)),
        (Part::Call, Trouble::NoNumber) => push_helper(out, nearest_helper(text.as_bytes())),
        _ => Ok(()),
    }
}

/// Adds what is wrong with the operand of a number, from 1.
fn push_operand(out: &mut String, number: usize, part: Part, text: &str) -> Result<(), AllocError> {
    let Some(trouble) = trouble_of(part, text) else {
        return Ok(());
    };
    write!(out, "  operand {number}, ")?;
    push_about(out, "`", text, "`: ")?;
    out.push_str(trouble.sentence())?;
    push_hint(out, part, trouble, text)?;
    push_cure(out, trouble, text)?;
    out.push_str("\n")
}

/// Adds what is wrong with the operands, of which there are as many as the word has.
fn push_each(out: &mut String, parts: &[Part], rest: &str) -> Result<(), AllocError> {
    for (index, (part, text)) in parts.iter().zip(rest.split(',')).enumerate() {
        push_operand(out, index.saturating_add(1), *part, text.trim())?;
    }
    Ok(())
}

/// How many operands stand after a word.
fn operand_count(rest: &str) -> usize {
    if rest.is_empty() {
        0
    } else {
        rest.split(',').count()
    }
}

/// True if a comma stands within brackets.
fn has_inner_comma(rest: &str) -> bool {
    match rest.split_once('[') {
        Some((_, inner)) => match inner.split_once(']') {
            Some((inner, _)) => inner.contains(','),
            None => false,
        },
        None => false,
    }
}

/// Adds the form of a word.
fn push_form(out: &mut String, form: WordForm, word: &str) -> Result<(), AllocError> {
    if form.one.is_empty() {
        return write!(out, "  form: `{word}` alone\n");
    }
    write!(out, "  form: `{word} {}`", form.one)?;
    if !form.other.is_empty() {
        write!(out, " or `{word} {}`", form.other)?;
    }
    out.push_str("\n")
}

/// Adds what is wrong with the operands of a word.
fn push_operands(
    out: &mut String,
    form: WordForm,
    word: &str,
    rest: &str,
) -> Result<(), AllocError> {
    let (count, wanted) = (operand_count(rest), form.parts.len());
    if count == wanted {
        push_each(out, form.parts, rest)?;
    } else if has_inner_comma(rest) {
        let sentence = Trouble::OneBracket.sentence();
        write!(out, "  {sentence}\n")?;
    } else if wanted > 0 {
        let between = if word.starts_with('.') {
            "blanks and no commas"
        } else {
            "commas"
        };
        write!(
            out,
            "  `{word}` wants {wanted} operands, with {between} between them; here it has {count}\n"
        )?;
    }
    push_form(out, form, word)
}

/// Adds what is wrong with a line that has a colon, and is no label.
fn push_colon(out: &mut String, name: &str, rest: &str) -> Result<(), AllocError> {
    let trimmed = name.trim();
    if !is_label(trimmed) {
        push_about(out, "  `", trimmed, "`: ")?;
        out.push_str(Trouble::LabelName.sentence())?;
        return out.push_str("\n");
    }
    if rest.trim().is_empty() {
        return push_about(
            out,
            "  no blank stands before the colon: write `",
            trimmed,
            ":`\n",
        );
    }
    push_about(
        out,
        "  a label stands alone on its line: write `",
        trimmed,
        ":` on the line above\n",
    )
}

/// Adds which word is meant by a first word that is none. `is_gone_to` says that an instruction
/// goes to a label of that name.
fn push_nearest(
    out: &mut String,
    word: &str,
    rest: &str,
    is_gone_to: bool,
) -> Result<(), AllocError> {
    if is_gone_to && rest.is_empty() {
        return push_about(out, "  a label ends with a colon: write `", word, ":`\n");
    }
    match nearest_word(word.as_bytes()) {
        Some(known) => push_name(out, "  the nearest word is `", known, "`\n"),
        None if rest.is_empty() && is_label(word) => {
            push_about(out, "  a label ends with a colon: write `", word, ":`\n")
        }
        None => Ok(()),
    }
}

/// Adds what is wrong with a line whose first word is none.
fn push_unknown(
    alloc: Global,
    out: &mut String,
    code: &str,
    is_gone_to: bool,
) -> Result<(), AllocError> {
    let (word, rest) = cut_word(code);
    let tight = joined(alloc, code, "")?;
    if push_instead(out, word, &tight)? {
        return Ok(());
    }
    match code.split_once(':') {
        Some((name, after)) => push_colon(out, name, after),
        None => push_nearest(out, word, rest, is_gone_to),
    }
}

/// The first word of a line, and what stands after it, without blanks at the ends.
pub(crate) fn cut_word(code: &str) -> (&str, &str) {
    let code = code.trim();
    let word = code.split_ascii_whitespace().next().unwrap_or("");
    (word, code.strip_prefix(word).unwrap_or("").trim())
}

/// Adds what is wrong with a line's own words.
pub(crate) fn push_words(
    alloc: Global,
    out: &mut String,
    code: &str,
    is_gone_to: bool,
) -> Result<(), AllocError> {
    let (word, rest) = cut_word(code);
    match form_of(word) {
        Some(form) if word.starts_with('.') => {
            let rest = joined(alloc, rest, ",")?;
            push_operands(out, form, word, &rest)
        }
        Some(form) => push_operands(out, form, word, rest),
        None => push_unknown(alloc, out, code, is_gone_to),
    }
}
