ghost use Rattle.std.specs.Prelude.{◌≡◌, string_bytes};
ghost use Rattle.class_reports.specs.Notes.{is_noted, is_of_text};
ghost use Rattle.class_tool.specs.Note.{IsNote};

use class_tool::Explain;
use file_words::ended_lines;
use program_files::{Failed, Failure, Files};
use std::alloc::{AllocError, Global};

/// What stands below the line of a failure.
#[derive(Clone, Copy)]
pub struct Notes {
    /// True if it is explained.
    pub is_explained: bool,
    /// True if of a text that is no class's each wrong line is told, and not the first alone.
    pub is_each_line: bool,
}

/// True if the failure is a wrong line of a text.
fn is_of_text(failure: Failure) -> bool
    ensures { result ≡ is_of_text failure }
{
    if let Failure::Text(_) = failure {
        true
    } else {
        false
    }
}

/// The lines of a note that aren't indented: those that name a further wrong line, and its fault.
fn unindented(alloc: Global, note: &str) -> Result<String, AllocError> {
    let lines = ended_lines(alloc, note)?;
    let mut kept = String::new(alloc);
    for line in &lines {
        if !line.is_empty() && !line.starts_with(' ') {
            kept.push_str(line)?;
            kept.push_str("\n")?;
        }
    }
    Ok(kept)
}

/// What explains a failure, or else the further wrong lines of its text.
fn any_note<F: Files>(
    alloc: Global,
    files: &F,
    failed: &Failed,
    is_explained: bool,
) -> Result<String, AllocError> {
    if is_explained {
        return failed.note(alloc, files.fault(alloc));
    }
    let note = failed.note(alloc, None)?;
    unindented(alloc, &note)
}

/// The note of a failure, if one is asked for; none if memory for it is refused.
fn note_if<F: Files>(
    alloc: Global,
    files: &F,
    failed: &Failed,
    is_explained: bool,
    is_noted: bool,
) -> String
    ensures { IsNote is_noted (string_bytes result) }
{
    if !is_noted {
        return String::new(alloc);
    }
    match any_note(alloc, files, failed, is_explained) {
        Ok(note) => note,
        Err(_) => String::new(alloc),
    }
}

/// The note below a failure's line, if one is asked for: what explains it, or each further wrong
/// line of a text, one line each. It is empty if memory for it is refused. Only a failure that is
/// `of_each_line` has further lines.
pub fn note_below<F: Files>(alloc: Global, files: &F, failed: &Failed, notes: Notes) -> String
    ensures { IsNote (is_noted notes failed.now.failure) (string_bytes result) }
{
    let is_noted = notes.is_explained || (notes.is_each_line && is_of_text(failed.failure));
    note_if(alloc, files, failed, notes.is_explained, is_noted)
}
