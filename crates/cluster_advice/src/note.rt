//! The note on a line of a file.

ghost use Rattle.std.specs.Prelude.{◌≡◌, ◌++◌, IfOk, string_bytes};
ghost use Rattle.cluster_advice.specs.Why.{IsWhy, why_head};
ghost use Rattle.escaped_text.specs.Escaped.{escaped};

use crate::above::above_of;
use crate::reason::reason_of;
use crate::told::push_told;
use escaped_text::push_escaped;
use file_words::{ended_lines, words};
use std::alloc::{AllocError, Global};

/// The line as a terminal may have it, and below it what is wrong with it, and its form. It is the
/// empty line if there is none of that number.
fn told(alloc: Global, text: &str, number: usize) -> Result<String, AllocError> {
    let lines = ended_lines(alloc, text)?;
    let at = number.saturating_sub(1).min(lines.len());
    let above = above_of(alloc, &lines[..at])?;
    let line: &str = match lines.get(at) {
        Some(line) => *line,
        None => "",
    };
    let words = words(alloc, line)?;
    let mut out = String::new(alloc);
    push_escaped(&mut out, line)?;
    out.push_str("\n")?;
    push_told(
        &mut out,
        above.is_first,
        &words,
        reason_of(line, &words, above),
    )?;
    Ok(out)
}

/// The file's name and the line's number.
fn head(alloc: Global, file: &str, number: usize) -> Result<String, AllocError>
    ensures { IfOk result (λ t. string_bytes t ≡ why_head file.now number) }
{
    let mut head = String::new(alloc);
    head.push_str("  ")?;
    push_escaped(&mut head, file)?;
    write!(head, " line {number}: ")?;
    Ok(head)
}

/// The note on the line of that number, from 1, of a file with that text: the file's name, the
/// number and the line, what is wrong with it, and its form. It fails only if memory is refused.
pub fn why(alloc: Global, file: &str, text: &str, number: usize) -> Result<String, AllocError>
    ensures { IfOk result (λ t. IsWhy file.now number (string_bytes t)) }
{
    let mut note = head(alloc, file, number)?;
    let rest = told(alloc, text, number)?;
    note.push_str(&rest)?;
    Ok(note)
}
