//! `test`.
ghost use Rattle.std.specs.Prelude.{◌≡◌, IfErr, IfOk, List, ℕ, false, string_bytes, true};
ghost use Rattle.std.specs.List.{AllByRecursion};
ghost use Rattle.bpf_machine.specs.Safe.{IsSafe};
ghost use Rattle.program_files.specs.Image.{class_of};
ghost use Rattle.radoscls_program.specs.Streams.{IsTold, stream};
ghost use Rattle.radoscls_program.specs.Tested.{AreEndLines, EndIsShown, IsTested, IsTraceBelow, TestEnds};
ghost use Rattle.radoscls_program.specs.Tested.{TestingFails};

use crate::status::ExitStatus;
use crate::task::Testing;
use crate::telling::{say, tell};
use class_tests::{TestEnd, call_at, end_text, run_loop_tests, run_tests};
use class_tool::{RunStart, traced_call};
use loop_tool::{load_by_loops, note_of};
use program_files::{
    ClassSource, Failed, Failure, Files, Output, ReadableFiles, load_with_source, read_text,
};
use std::alloc::{AllocError, Global};

/// The trace of the call at which the tests in a text ended, if it is asked for.
fn trace_below(
    alloc: Global,
    source: &ClassSource,
    text: &str,
    end: &TestEnd,
    is_traced: bool,
) -> Result<String, Failure>
    requires { AllByRecursion IsSafe (class_of source.now).methods }
    ensures ok { IfOk result (λ t. IsTraceBelow is_traced (class_of source.now).methods text.now end.now
        (string_bytes t)) }
    ensures err { IfErr result (λ e. e ≡ Failure.NoMemory) }
{
    if !is_traced {
        return Ok(String::new(alloc));
    }
    let TestEnd::DiffersAt(number, _, _, case) = end else {
        return Ok(String::new(alloc));
    };
    let Some((method, input)) = call_at(alloc, text, *number)? else {
        return Ok(String::new(alloc));
    };
    let start = RunStart {
        object: case.object.as_ref(),
        caller: case.caller,
        input: input.items(),
    };
    traced_call(alloc, source, method, &start)
}

/// The lines of an end, and below them the trace, if it is asked for.
fn end_lines(
    alloc: Global,
    source: &ClassSource,
    text: &str,
    end: &TestEnd,
    is_traced: bool,
) -> Result<String, Failure>
    requires { AllByRecursion IsSafe (class_of source.now).methods }
    ensures ok { IfOk result (λ t. AreEndLines is_traced (class_of source.now).methods text.now end.now
        (string_bytes t)) }
    ensures err { IfErr result (λ e. e ≡ Failure.NoMemory) }
{
    let mut lines = end_text(alloc, end)?;
    let below = trace_below(alloc, source, text, end, is_traced)?;
    lines.push_str(&below)?;
    Ok(lines)
}

/// Runs the tests in a file on the class in another, if that is safe: their end, and its lines.
fn tested_plainly<F: ReadableFiles>(
    alloc: Global,
    files: &F,
    asked: &Testing<'_>,
) -> Result<(TestEnd, String), Failed>
    requires { asked.now.is_looped ≡ false }
    ensures ok { IfOk result (λ r. IsTested (F.disk files.now) asked.now r.0 (string_bytes r.1)) }
    ensures err { IfErr result (λ e. TestingFails (F.disk files.now) asked.now e.failure) }
{
    let (class, source) = load_with_source(alloc, files, asked.class)?;
    let text = read_text(alloc, files, asked.file)?;
    let end = run_tests(alloc, &class, &text)?;
    let lines = end_lines(alloc, &source, &text, &end, asked.is_traced)?;
    Ok((end, lines))
}

/// The same on a class whose methods may loop, if that is safe.
fn tested_by_loops<F: ReadableFiles>(
    alloc: Global,
    files: &F,
    asked: &Testing<'_>,
) -> Result<(TestEnd, String), Failed>
    requires { asked.now.is_looped ≡ true }
    ensures ok { IfOk result (λ r. IsTested (F.disk files.now) asked.now r.0 (string_bytes r.1)) }
    ensures err { IfErr result (λ e. TestingFails (F.disk files.now) asked.now e.failure) }
{
    let class = load_by_loops(alloc, files, asked.class)?;
    let text = read_text(alloc, files, asked.file)?;
    let end = run_loop_tests(alloc, &class, &text)?;
    let lines = end_text(alloc, &end)?;
    Ok((end, lines))
}

/// The same on a class of the kind that is asked for.
fn tested<F: ReadableFiles>(
    alloc: Global,
    files: &F,
    asked: &Testing<'_>,
) -> Result<(TestEnd, String), Failed>
    ensures ok { IfOk result (λ r. IsTested (F.disk files.now) asked.now r.0 (string_bytes r.1)) }
    ensures err { IfErr result (λ e. TestingFails (F.disk files.now) asked.now e.failure) }
{
    if asked.is_looped {
        tested_by_loops(alloc, files, asked)
    } else {
        tested_plainly(alloc, files, asked)
    }
}

/// Prints the lines of an end.
fn show_end<O: Output>(end: &TestEnd, lines: &str, out: &mut O) -> ExitStatus
    ensures { EndIsShown (stream O.printed O.failed out.old)
        (stream O.printed O.failed out.new) end.now lines.now result }
{
    match out.print(lines) {
        Ok(()) => match end {
            TestEnd::AllHold(_) => ExitStatus::Done,
            TestEnd::DiffersAt(_, _, _, _) | TestEnd::BadAt(_) => ExitStatus::Refused,
        },
        Err(_) => ExitStatus::Refused,
    }
}

/// Prints why tests of a class whose methods may loop came to no end, and the note below, if it is
/// asked for.
fn tell_by_loops<F: Files, O: Output>(
    alloc: Global,
    files: &F,
    failed: &Failed,
    is_explained: bool,
    out: &mut O,
) -> ExitStatus
    ensures status { result ≡ ExitStatus.Refused }
    ensures told { IsTold (stream O.printed O.failed out.old)
        (stream O.printed O.failed out.new) failed.now.failure is_explained }
{
    let note = note_of(alloc, files, failed, is_explained);
    say(failed.failure, &note, out);
    ExitStatus::Refused
}

/// Runs the tests of a class, and prints that all hold, or the first that doesn't.
pub(crate) fn test<F: Files, O: Output>(
    alloc: Global,
    files: &F,
    asked: &Testing<'_>,
    is_explained: bool,
    out: &mut O,
) -> ExitStatus
    ensures { TestEnds (F.disk files.now) (stream O.printed O.failed out.old)
        (stream O.printed O.failed out.new) asked.now is_explained result }
{
    match tested(alloc, files, asked) {
        Ok((end, lines)) => show_end(&end, &lines, out),
        Err(failed) => {
            if asked.is_looped {
                return tell_by_loops(alloc, files, &failed, is_explained, out);
            }
            tell(alloc, files, &failed, is_explained, out)
        }
    }
}
