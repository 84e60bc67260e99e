//! Prints the result of an action.
ghost use Rattle.std.specs.Prelude.{false, true};
ghost use Rattle.radoscls_program.specs.Shown.{ShowsAnswer};
ghost use Rattle.radoscls_program.specs.Streams.{stream};

use crate::status::ExitStatus;
use crate::telling::refuse;
use class_reports::answer_line;
use class_tool::ActionResult;
use program_files::{Failure, Output};
use std::alloc::Global;

/// Prints the lines of a result.
fn show_lines<O: Output>(answer: &ActionResult, out: &mut O) -> ExitStatus
    ensures { ShowsAnswer false (stream O.printed O.failed out.old) (stream O.printed O.failed out.new)
        answer.now result }
{
    match out.print(answer) {
        Ok(()) => ExitStatus::Done,
        Err(_) => ExitStatus::Refused,
    }
}

/// Prints the object of a result.
fn show_json<O: Output>(alloc: Global, answer: &ActionResult, out: &mut O) -> ExitStatus
    ensures { ShowsAnswer true (stream O.printed O.failed out.old) (stream O.printed O.failed out.new)
        answer.now result }
{
    match answer_line(alloc, answer) {
        Ok(line) => match out.print(&line) {
            Ok(()) => ExitStatus::Done,
            Err(_) => ExitStatus::Refused,
        },
        Err(_) => refuse(Failure::NoMemory, out),
    }
}

/// Prints a result: its lines, or an object of JSON.
pub(crate) fn show<O: Output>(
    alloc: Global,
    answer: &ActionResult,
    is_json: bool,
    out: &mut O,
) -> ExitStatus
    ensures { ShowsAnswer is_json (stream O.printed O.failed out.old) (stream O.printed O.failed out.new)
        answer.now result }
{
    if is_json {
        show_json(alloc, answer, out)
    } else {
        show_lines(answer, out)
    }
}
