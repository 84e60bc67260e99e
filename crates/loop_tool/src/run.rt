//! The command `run --loops`: a call of one method of a class whose methods may loop.

ghost use Rattle.std.specs.Prelude.{IfErr, IfOk};
ghost use Rattle.std.specs.Option.{option_copied};
ghost use Rattle.loop_objects.specs.Calls.{AnswersLoops};
ghost use Rattle.program_files.specs.Files.{storage};
ghost use Rattle.loop_tool.specs.LoopRun.{IsLoopCallRefusal, IsRunReport, LoopCalls, LoopFails, LoopRunFails, LoopRuns};
ghost use Rattle.loop_tool.specs.Safe.{IsLoopSafeIn};

use crate::load::load_by_loops;
use class_tool::{RunReport, begun, decode_input, keep, report_beside};
use interp::{CallError, Outcome};
use loop_classes::LoopClass;
use loop_objects::call_loops;
use object_store::Object;
use object_texts::MethodCall;
use program_files::{Failed, Failure, Files, ReadableFiles};
use std::alloc::{AllocError, Global};

/// Makes the call.
fn call(
    alloc: Global,
    class: &LoopClass,
    asked: &MethodCall<'_>,
    object: Option<&Object>,
    input: &[u8],
) -> Result<Outcome, CallError>
    ensures ok { IfOk result (AnswersLoops class.now asked.now.method.now
        (option_copied object.entry) asked.now.caller input.now) }
    ensures err { IfErr result (IsLoopCallRefusal class.now asked.now.method.now input.now) }
{
    let caller = asked.caller.get();
    call_loops(alloc, class, asked.method, object, caller, input)
}

/// Makes the call of a safe class on the object that is spelled.
fn call_safe<F: ReadableFiles>(
    alloc: Global,
    files: &F,
    class: &LoopClass,
    asked: &MethodCall<'_>,
) -> Result<Outcome, Failure>
    requires { IsLoopSafeIn (F.disk files.now) asked.now.image.now class.now }
    ensures ok { IfOk result (LoopCalls (F.disk files.now) asked.now) }
    ensures err { IfErr result (LoopFails (F.disk files.now) asked.now) }
{
    let input = decode_input(alloc, asked.input)?;
    let object = begun(alloc, files, asked)?;
    match call(alloc, class, asked, object.as_ref(), &input) {
        Ok(outcome) => Ok(outcome),
        Err(error) => Err(Failure::Call(error)),
    }
}

/// Loads the class and makes the call.
fn call_loaded<F: ReadableFiles>(
    alloc: Global,
    files: &F,
    asked: &MethodCall<'_>,
) -> Result<Outcome, Failed>
    ensures ok { IfOk result (LoopCalls (F.disk files.now) asked.now) }
    ensures err { IfErr result (λ e. LoopFails (F.disk files.now) asked.now e.failure) }
{
    let class = load_by_loops(alloc, files, asked.image)?;
    Ok(call_safe(alloc, files, &class, asked)?)
}

/// The report of a call's outcome.
fn report_of(
    alloc: Global,
    asked: &MethodCall<'_>,
    outcome: &Outcome,
) -> Result<RunReport, AllocError>
    ensures { IfOk result (IsRunReport asked.now.is_shown outcome.now) }
{
    let report = report_beside(alloc, asked, outcome)?;
    Ok(report.with_trace(String::new(alloc)))
}

/// Makes a call of a method of the class whose image or text a file holds, if the verdict on loops
/// accepts it: on the object that words or a file spell, or on none, by the method's budget if it
/// declares loops. The object after it is saved if a file is named for it. The report is that of the
/// call's own outcome, and has no trace; a call that used up its budget has the code -62, no output,
/// the budget for its steps, and its object is as it was.
///
/// Refused, the first that applies: a file of which no class is read, or whose class the verdict
/// refuses; an input that isn't hexadecimal; an object that words or a file don't spell; the call,
/// as `loop_objects::call_loops` refuses it; a write that fails. Before that no file changes.
pub fn run_by_loops<F: Files>(
    alloc: Global,
    files: &mut F,
    asked: &MethodCall<'_>,
) -> Result<RunReport, Failed>
    ensures ok { IfOk result (LoopRuns (storage F.disk F.failed F.in_place files.old)
        (storage F.disk F.failed F.in_place files.new) asked.now) }
    ensures err { IfErr result (λ e. LoopRunFails (storage F.disk F.failed F.in_place files.old)
        (storage F.disk F.failed F.in_place files.new) asked.now e.failure) }
{
    let outcome = call_loaded(alloc, files, asked)?;
    let report = report_of(alloc, asked, &outcome)?;
    match keep(alloc, files, asked, &report) {
        Ok(()) => Ok(report),
        Err(failure) => Err(Failed::from(failure)),
    }
}
