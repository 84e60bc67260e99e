//! `verify --loops`, `run --loops`, `heads`, and `pack --heads`.
ghost use Rattle.std.specs.Prelude.{◌≡◌, ◌++◌, codes};
ghost use Rattle.loop_tool.specs.NoHeads.{no_heads_text};
ghost use Rattle.program_files.specs.Files.{storage};
ghost use Rattle.radoscls_program.specs.Change.{changed};
ghost use Rattle.radoscls_program.specs.Looped.{HeadsEnd, LoopRunEnds, LoopsEnd, PackHeadsEnd, ShowsLoops};
ghost use Rattle.radoscls_program.specs.Looped.{headless_text};
ghost use Rattle.radoscls_program.specs.Shown.{IsToldAs};
ghost use Rattle.radoscls_program.specs.Streams.{IsPrinted, stream};

use crate::showing::show;
use crate::status::{ActionEnd, ExitStatus};
use crate::task::Telling;
use crate::telling::{refuse, say, tell_json};
use class_tool::ActionResult;
use loop_tool::{
    HeadedPacking, HeadsAsked, LoopReports, LoopsAsked, NoHeads, WriteHeadsError, note_of,
    pack_with_heads, run_by_loops, verify_files_by_loops, write_heads,
};
use object_texts::MethodCall;
use program_files::{Failed, Failure, Files, Output};
use std::alloc::Global;

/// Prints what is told of files.
fn show_loops<O: Output>(reports: &LoopReports, out: &mut O) -> ExitStatus
    ensures { ShowsLoops (stream O.printed O.failed out.old) (stream O.printed O.failed out.new) reports.now result }
{
    if out.print(reports).is_ok() && reports.are_accepted() {
        ExitStatus::Done
    } else {
        ExitStatus::Refused
    }
}

/// Prints the verdicts on the classes of files, by the heads that their methods declare.
pub(crate) fn judge_loops<F: Files, O: Output>(
    alloc: Global,
    files: &F,
    asked: &LoopsAsked<'_>,
    out: &mut O,
) -> ExitStatus
    ensures { LoopsEnd (F.disk files.now) (stream O.printed O.failed out.old)
        (stream O.printed O.failed out.new) asked.now result }
{
    match verify_files_by_loops(alloc, files, asked) {
        Ok(reports) => show_loops(&reports, out),
        Err(_) => refuse(Failure::NoMemory, out),
    }
}

/// Prints why a call by loops was not made, or its object not saved.
fn tell_unrun<F: Files, O: Output>(
    alloc: Global,
    files: &F,
    failed: &Failed,
    telling: Telling,
    out: &mut O,
) -> ExitStatus
    ensures status { result ≡ ExitStatus.Refused }
    ensures told { IsToldAs (stream O.printed O.failed out.old)
        (stream O.printed O.failed out.new) failed.now.failure telling }
{
    if telling.is_json {
        return tell_json(alloc, failed.failure, out);
    }
    let note = note_of(alloc, files, failed, telling.notes.is_explained);
    say(failed.failure, &note, out);
    ExitStatus::Refused
}

/// Makes a call of a method that may loop, and prints what it comes to.
pub(crate) fn run_looped<F: Files, O: Output>(
    alloc: Global,
    files: &mut F,
    call: &MethodCall<'_>,
    telling: Telling,
    out: &mut O,
) -> ActionEnd
    ensures { LoopRunEnds (changed (storage F.disk F.failed F.in_place) files.old files.new
        (stream O.printed O.failed) out.old out.new) call.now telling result.status }
{
    match run_by_loops(alloc, files, call) {
        Ok(report) => {
            let answer = ActionResult::Ran(report);
            let status = show(alloc, &answer, telling.is_json, out);
            ActionEnd {
                status,
                is_unprinted: status == ExitStatus::Refused,
            }
        }
        Err(failed) => ActionEnd {
            status: tell_unrun(alloc, files, &failed, telling, out),
            is_unprinted: false,
        },
    }
}

/// Prints the line on a method for which no heads are found.
fn say_none<O: Output>(no: &NoHeads, out: &mut O)
    ensures { IsPrinted (stream O.printed O.failed out.old) (stream O.printed O.failed out.new)
        (no_heads_text no.now ++ codes "\n") }
{
    let _ = out.print(format_args!("{no}\n"));
}

/// Prints why no image with heads was written.
fn tell_headless<O: Output>(error: &WriteHeadsError, out: &mut O) -> ExitStatus
    ensures status { result ≡ ExitStatus.Refused }
    ensures told { IsPrinted (stream O.printed O.failed out.old) (stream O.printed O.failed out.new)
        (headless_text error.now ++ codes "\n") }
{
    match error {
        WriteHeadsError::Failed(failed) => refuse(failed.failure, out),
        WriteHeadsError::NotFound(no) => {
            say_none(no, out);
            ExitStatus::Refused
        }
    }
}

/// Writes an image with heads, and prints why, if none is written.
pub(crate) fn find_heads<F: Files, O: Output>(
    alloc: Global,
    files: &mut F,
    asked: &HeadsAsked<'_>,
    out: &mut O,
) -> ExitStatus
    ensures { HeadsEnd (changed (storage F.disk F.failed F.in_place) files.old files.new
        (stream O.printed O.failed) out.old out.new) asked.now result }
{
    match write_heads(alloc, files, asked) {
        Ok(()) => ExitStatus::Done,
        Err(error) => tell_headless(&error, out),
    }
}

/// Writes an image of raw code with heads, and prints why, if none is written.
pub(crate) fn pack_heads<F: Files, O: Output>(
    alloc: Global,
    files: &mut F,
    asked: &HeadedPacking<'_>,
    out: &mut O,
) -> ExitStatus
    ensures { PackHeadsEnd (changed (storage F.disk F.failed F.in_place) files.old files.new
        (stream O.printed O.failed) out.old out.new) asked.now result }
{
    match pack_with_heads(alloc, files, asked) {
        Ok(()) => ExitStatus::Done,
        Err(error) => tell_headless(&error, out),
    }
}
