//! Lines that begin with a file's name.
ghost use Rattle.std.specs.Prelude.{◌≡◌, ◌++◌, IfOk, OnOk, string_bytes};
ghost use Rattle.class_reports.specs.Notes.{named_line, named_text, told_text};

use file_words::ended_lines;
use std::alloc::{AllocError, Global};

/// Adds a line after a name.
fn push_named(out: &mut String, name: &str, line: &str) -> Result<(), AllocError>
    ensures { OnOk result (string_bytes out.new ≡ string_bytes out.old ++ named_line name.now line.now) }
{
    out.push_str(name)?;
    out.push_str(": ")?;
    out.push_str(line)?;
    out.push_str("\n")
}

/// The lines of a text, each after a name.
fn named_text(alloc: Global, name: &str, text: &str) -> Result<String, AllocError>
    ensures { IfOk result (λ named. string_bytes named ≡ named_text name.now text.now) }
{
    let lines = ended_lines(alloc, text)?;
    let mut named = String::new(alloc);
    for line in &lines {
        push_named(&mut named, name, *line)?;
    }
    Ok(named)
}

/// A text, or if it is asked for, its lines, each after a file's name and ": ". It is refused for
/// want of memory alone.
pub fn told_text(
    alloc: Global,
    is_named: bool,
    name: &str,
    text: String,
) -> Result<String, AllocError>
    ensures { IfOk result (λ told. string_bytes told ≡ told_text is_named name.now (string_bytes text)) }
{
    if is_named {
        named_text(alloc, name, &text)
    } else {
        Ok(text)
    }
}
