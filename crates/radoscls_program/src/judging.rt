//! `verify --all`, and the verdicts on files.
ghost use Rattle.radoscls_program.specs.Judged.{EachEnds, FilesEnd, Shows, ShowsReports};
ghost use Rattle.radoscls_program.specs.Streams.{stream};

use crate::status::ExitStatus;
use crate::task::Telling;
use crate::telling::{refuse, tell_as};
use class_reports::{FileReports, FilesAsked, Notes, verify_files};
use class_tool::{Verdicts, verify_each};
use program_files::{Failure, Files, Output};
use std::alloc::Global;

/// Prints verdicts.
fn show<O: Output>(verdicts: &Verdicts, out: &mut O) -> ExitStatus
    ensures { Shows (stream O.printed O.failed out.old) (stream O.printed O.failed out.new) verdicts.now result }
{
    if out.print(verdicts).is_ok() && verdicts.are_accepted() {
        ExitStatus::Done
    } else {
        ExitStatus::Refused
    }
}

/// Prints the verdict of each method of the class in a file, or why no class was read.
pub(crate) fn judge<F: Files, O: Output>(
    alloc: Global,
    files: &F,
    image: &str,
    is_explained: bool,
    out: &mut O,
) -> ExitStatus
    ensures { EachEnds (F.disk files.now) (stream O.printed O.failed out.old)
        (stream O.printed O.failed out.new) image.now is_explained result }
{
    match verify_each(alloc, files, image, is_explained) {
        Ok(verdicts) => show(&verdicts, out),
        Err(failed) => {
            let notes = Notes {
                is_explained,
                is_each_line: true,
            };
            let telling = Telling {
                notes,
                is_json: false,
            };
            tell_as(alloc, files, &failed, telling, out)
        }
    }
}

/// Prints what is told of files.
fn show_reports<O: Output>(reports: &FileReports, out: &mut O) -> ExitStatus
    ensures { ShowsReports (stream O.printed O.failed out.old) (stream O.printed O.failed out.new) reports.now result }
{
    if out.print(reports).is_ok() && reports.are_accepted() {
        ExitStatus::Done
    } else {
        ExitStatus::Refused
    }
}

/// Prints the verdicts on the classes of files.
pub(crate) fn judge_files<F: Files, O: Output>(
    alloc: Global,
    files: &F,
    asked: &FilesAsked<'_>,
    out: &mut O,
) -> ExitStatus
    ensures { FilesEnd (F.disk files.now) (stream O.printed O.failed out.old)
        (stream O.printed O.failed out.new) asked.now result }
{
    match verify_files(alloc, files, asked) {
        Ok(reports) => show_reports(&reports, out),
        Err(_) => refuse(Failure::NoMemory, out),
    }
}
