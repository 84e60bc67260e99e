//! Prints why something was not done.
ghost use Rattle.std.specs.Prelude.{◌≡◌, ◌++◌, string_bytes};
ghost use Rattle.class_reports.specs.Notes.{is_noted};
ghost use Rattle.class_tool.specs.Note.{IsNote};
ghost use Rattle.radoscls_program.specs.Streams.{IsPrinted, IsTold, failure_line, stream};
ghost use Rattle.radoscls_program.specs.Shown.{IsToldAs, IsToldInJson};

use crate::status::ExitStatus;
use crate::task::Telling;
use class_reports::{Notes, error_line, note_below};
use class_tool::Explain;
use program_files::{Failed, Failure, Files, Output};
use std::alloc::Global;

/// Prints a failure's line.
pub(crate) fn refuse<O: Output>(failure: Failure, out: &mut O) -> ExitStatus
    ensures status { result ≡ ExitStatus.Refused }
    ensures printed { IsPrinted (stream O.printed O.failed out.old) (stream O.printed O.failed out.new)
        (failure_line failure) }
{
    let _ = out.print(format_args!("{failure}\n"));
    ExitStatus::Refused
}

/// The note below a failure's line, if it is asked for; none if memory for it is refused.
fn note_of<F: Files>(alloc: Global, files: &F, failed: &Failed, is_explained: bool) -> String
    ensures { IsNote is_explained (string_bytes result) }
{
    if !is_explained {
        return String::new(alloc);
    }
    match failed.note(alloc, files.fault(alloc)) {
        Ok(note) => note,
        Err(_) => String::new(alloc),
    }
}

/// A note, if it is asked for.
pub(crate) fn asked_note(alloc: Global, note: String, is_explained: bool) -> String
    ensures { IsNote is_explained (string_bytes result) }
{
    if is_explained {
        note
    } else {
        String::new(alloc)
    }
}

/// Prints a note below what was refused.
pub(crate) fn add<O: Output>(note: &str, out: &mut O) -> ExitStatus
    ensures status { result ≡ ExitStatus.Refused }
    ensures printed { IsPrinted (stream O.printed O.failed out.old) (stream O.printed O.failed out.new) note.now }
{
    let _ = out.print(note);
    ExitStatus::Refused
}

/// Prints a failure's line, and a note.
pub(crate) fn say<O: Output>(failure: Failure, note: &str, out: &mut O)
    ensures { IsPrinted (stream O.printed O.failed out.old) (stream O.printed O.failed out.new)
        (failure_line failure ++ note.now) }
{
    let _ = out.print(format_args!("{failure}\n{note}"));
}

/// Prints why something was not done, in JSON.
pub(crate) fn tell_json<O: Output>(alloc: Global, failure: Failure, out: &mut O) -> ExitStatus
    ensures status { result ≡ ExitStatus.Refused }
    ensures told { IsToldInJson (stream O.printed O.failed out.old) (stream O.printed O.failed out.new) failure }
{
    match error_line(alloc, failure) {
        Ok(line) => add(&line, out),
        Err(_) => refuse(Failure::NoMemory, out),
    }
}

/// Prints a failure's line, and the note below it that is asked for.
fn tell_lines<F: Files, O: Output>(
    alloc: Global,
    files: &F,
    failed: &Failed,
    notes: Notes,
    out: &mut O,
) -> ExitStatus
    ensures status { result ≡ ExitStatus.Refused }
    ensures told { IsTold (stream O.printed O.failed out.old) (stream O.printed O.failed out.new)
        failed.now.failure (is_noted notes failed.now.failure) }
{
    let note = note_below(alloc, files, failed, notes);
    say(failed.failure, &note, out);
    ExitStatus::Refused
}

/// Prints a failure's line, and the note below it that is asked for, or tells it in JSON.
pub(crate) fn tell_as<F: Files, O: Output>(
    alloc: Global,
    files: &F,
    failed: &Failed,
    telling: Telling,
    out: &mut O,
) -> ExitStatus
    ensures status { result ≡ ExitStatus.Refused }
    ensures told { IsToldAs (stream O.printed O.failed out.old)
        (stream O.printed O.failed out.new) failed.now.failure telling }
{
    if telling.is_json {
        tell_json(alloc, failed.failure, out)
    } else {
        tell_lines(alloc, files, failed, telling.notes, out)
    }
}

/// Prints a failure's line, and the note below it, if that is asked for.
pub(crate) fn tell<F: Files, O: Output>(
    alloc: Global,
    files: &F,
    failed: &Failed,
    is_explained: bool,
    out: &mut O,
) -> ExitStatus
    ensures status { result ≡ ExitStatus.Refused }
    ensures told { IsTold (stream O.printed O.failed out.old)
        (stream O.printed O.failed out.new) failed.now.failure is_explained }
{
    let note = note_of(alloc, files, failed, is_explained);
    say(failed.failure, &note, out);
    ExitStatus::Refused
}
