//! The command `run`: a call of one method, on a saved object, a spelled one or none.

ghost use Rattle.std.specs.Prelude.{◌≡◌, ◌⊎◌, FitsSigned, None, Some, IfOk, IfErr};
ghost use Rattle.std.specs.Option.{option_copied};
ghost use Rattle.std.specs.Int.{w64};
ghost use Rattle.interp.specs.Plain.{Answers};
ghost use Rattle.interp.specs.declared.outcome.Outcome.{Outcome as AnOutcome};
ghost use Rattle.program_files.specs.Image.{IsSafeIn, class_of};
ghost use Rattle.class_tool.specs.Log.{IsLogged, LogFails, first_request};
ghost use Rattle.class_tool.specs.RunReport.{IsOneOutcome, IsReplied, IsReportOf, Reports};
ghost use Rattle.program_files.specs.Assembly.{TextFails};
ghost use Rattle.class_tool.specs.Begun.{BeginFails, Begins, IsMisspelledIn, IsSpelledIn};
ghost use Rattle.program_files.specs.Files.{storage};
ghost use Rattle.object_texts.specs.Saved.{SaveFails, Saves};
ghost use Rattle.class_tool.specs.Run.{RunFails, SavedReports, SavedRunFails};
ghost use Rattle.class_tool.specs.declared.log.Logged.{Logged as ALogged};

use crate::input::decode_input;
use crate::log::{Logged, append};
use crate::run_report::RunReport;
use crate::traced::traced;
use bpf_machine::outcomes;
use interp::Outcome;
use object_store::Object;
use object_texts::{MethodCall, object_before, save, spelled_object};
use program_files::{
    ClassSource, Failed, Failure, Files, ReadableFiles, load_with_source, read_text,
};
use std::alloc::{AllocError, Global};
use verifier::VerifiedClass;

/// Makes the call on an object, or on none.
fn call(
    alloc: Global,
    class: &VerifiedClass,
    asked: &MethodCall<'_>,
    object: Option<&Object>,
    input: &[u8],
) -> Result<Outcome, Failure>
    ensures ok { IfOk result (Answers class.now asked.now.method.now
        (option_copied object.entry) asked.now.caller input.now) }
    ensures err { IfErr result (LogFails class.now asked.now.method.now input.now) }
{
    let caller = asked.caller.get();
    match interp::call(alloc, class, asked.method, object, caller, input) {
        Ok(outcome) => Ok(outcome),
        Err(error) => Err(Failure::Call(error)),
    }
}

/// Codes are signed numbers of 64 bits. It does nothing.
fn are_codes(logged: &Logged, outcome: &Outcome)
    ensures logged { FitsSigned w64 logged.now.code }
    ensures outcome { FitsSigned w64 outcome.now.code }
{
    let _codes = (logged.code, outcome.code);
}

/// Appends the request of a call to an empty group, and gives the report of its log entry and of
/// the call's outcome.
fn log(
    alloc: Global,
    class: VerifiedClass,
    asked: &MethodCall<'_>,
    input: Vec<u8>,
    outcome: &Outcome,
) -> Result<RunReport, Failure>
    ensures ok { IfOk result (λ report. (logged : ALogged) ×
        IsLogged class (first_request asked.now.caller asked.now.method.now input.items) logged ×
        FitsSigned w64 logged.code × FitsSigned w64 outcome.now.code ×
        IsReportOf asked.now.is_shown logged outcome.now report) }
    ensures err { IfErr result (LogFails class asked.now.method.now input.items) }
{
    let logged = append(alloc, class, asked.caller, asked.method, input)?;
    are_codes(&logged, outcome);
    Ok(RunReport::new(alloc, &logged, outcome, asked.is_shown)?)
}

/// Makes the call on no object, then appends the same request to an empty group.
fn call_and_log(
    alloc: Global,
    class: VerifiedClass,
    asked: &MethodCall<'_>,
    input: Vec<u8>,
) -> Result<RunReport, Failure>
    ensures ok { IfOk result (λ report. (outcome : AnOutcome) × (logged : ALogged) ×
        Answers class asked.now.method.now None asked.now.caller input.items outcome ×
        IsLogged class (first_request asked.now.caller asked.now.method.now input.items) logged ×
        IsOneOutcome outcome logged × IsReportOf asked.now.is_shown logged outcome report) }
    ensures err { IfErr result (LogFails class asked.now.method.now input.items) }
{
    let outcome = call(alloc, &class, asked, None, &input)?;
    // A call has one outcome, which is proved of the machine, of a class; the calls do nothing.
    outcomes();
    let _methods = class.methods();
    log(alloc, class, asked, input, &outcome)
}

/// The report of a call's own outcome, without a trace.
///
/// Refused is want of memory alone.
pub fn report_beside(
    alloc: Global,
    asked: &MethodCall<'_>,
    outcome: &Outcome,
) -> Result<RunReport, AllocError>
    ensures { IfOk result (λ report. (logged : ALogged) × IsOneOutcome outcome.now logged ×
        IsReportOf asked.now.is_shown logged outcome.now report) }
{
    let answered = Logged {
        code: outcome.code,
        output: Vec::from_slice(alloc, &outcome.output)?,
    };
    RunReport::new(alloc, &answered, outcome, asked.is_shown)
}

/// Makes the call on an object.
fn call_beside(
    alloc: Global,
    class: &VerifiedClass,
    asked: &MethodCall<'_>,
    object: &Object,
    input: &[u8],
) -> Result<RunReport, Failure>
    ensures ok { IfOk result (λ report. (outcome : AnOutcome) × (logged : ALogged) ×
        Answers class.now asked.now.method.now (Some object.now) asked.now.caller input.now outcome ×
        IsOneOutcome outcome logged × IsReportOf asked.now.is_shown logged outcome report) }
    ensures err { IfErr result (LogFails class.now asked.now.method.now input.now) }
{
    let outcome = call(alloc, class, asked, Some(object), input)?;
    Ok(report_beside(alloc, asked, &outcome)?)
}

/// The object before a call: that of the file that is named for it, or else that of words; `None` if
/// neither is there.
///
/// Refused, the first that applies: a file that can't be read or is no text, its first bad line, or
/// the first word that spells no part of an object; and want of memory.
pub fn begun<F: ReadableFiles>(
    alloc: Global,
    files: &F,
    asked: &MethodCall<'_>,
) -> Result<Option<Object>, Failure>
    ensures ok { IfOk result (Begins (F.disk files.now) asked.now) }
    ensures err { IfErr result (BeginFails (F.disk files.now) asked.now) }
{
    match asked.load {
        None => object_before(alloc, asked),
        Some(file) => loaded(alloc, files, file),
    }
}

/// The object that a file's text spells.
fn loaded<F: ReadableFiles>(alloc: Global, files: &F, file: &str) -> Result<Option<Object>, Failure>
    ensures ok { IfOk result (IsSpelledIn (F.disk files.now) file.now) }
    ensures err { IfErr result (λ e. (e ≡ Failure.NoMemory) ⊎ TextFails (F.disk files.now) file.now e ⊎
        IsMisspelledIn (F.disk files.now) file.now e) }
{
    let text = read_text(alloc, files, file)?;
    spelled_object(alloc, &text)
}

/// Makes the call on an object. If there is none, it appends the same request to an empty group,
/// and code and output are those of the log's entry.
fn answered(
    alloc: Global,
    class: VerifiedClass,
    asked: &MethodCall<'_>,
    object: Option<Object>,
    input: Vec<u8>,
) -> Result<RunReport, Failure>
    ensures ok { IfOk result (λ report. (outcome : AnOutcome) × (logged : ALogged) ×
        Answers class asked.now.method.now object asked.now.caller input.items outcome ×
        IsReplied object class (first_request asked.now.caller asked.now.method.now input.items) logged ×
        IsOneOutcome outcome logged × IsReportOf asked.now.is_shown logged outcome report) }
    ensures err { IfErr result (LogFails class asked.now.method.now input.items) }
{
    match object {
        None => call_and_log(alloc, class, asked, input),
        Some(object) => call_beside(alloc, &class, asked, &object, &input),
    }
}

/// Makes the call of a safe class on the object that is spelled, and a trace of it if one is asked
/// for.
fn run_safe<F: ReadableFiles>(
    alloc: Global,
    files: &F,
    class: VerifiedClass,
    source: &ClassSource,
    asked: &MethodCall<'_>,
) -> Result<RunReport, Failure>
    requires safe { IsSafeIn (F.disk files.now) asked.now.image.now class }
    requires source { class ≡ (class_of source.now).methods }
    ensures ok { IfOk result (Reports (F.disk files.now) asked.now) }
    ensures err { IfErr result (RunFails (F.disk files.now) asked.now) }
{
    let input = decode_input(alloc, asked.input)?;
    let object = begun(alloc, files, asked)?;
    let traced = traced(alloc, source, asked, object.as_ref(), &input)?;
    let report = answered(alloc, class, asked, object, input)?;
    Ok(report.with_trace(traced))
}

/// Loads the class and makes the call.
fn run<F: ReadableFiles>(
    alloc: Global,
    files: &F,
    asked: &MethodCall<'_>,
) -> Result<RunReport, Failed>
    ensures ok { IfOk result (Reports (F.disk files.now) asked.now) }
    ensures err { IfErr result (λ e. RunFails (F.disk files.now) asked.now e.failure) }
{
    let (class, source) = load_with_source(alloc, files, asked.image)?;
    Ok(run_safe(alloc, files, class, &source, asked)?)
}

/// Saves the object after a call if a file is named for it, as `object_texts::save` does.
///
/// Refused is a write that fails, or want of memory.
pub fn keep<F: Files>(
    alloc: Global,
    files: &mut F,
    asked: &MethodCall<'_>,
    report: &RunReport,
) -> Result<(), Failure>
    ensures ok { IfOk result (λ _. Saves (storage F.disk F.failed F.in_place files.old)
        (storage F.disk F.failed F.in_place files.new) asked.now.save report.now.after) }
    ensures err { IfErr result (SaveFails (storage F.disk F.failed F.in_place files.old)
        (storage F.disk F.failed F.in_place files.new) asked.now.save report.now.after) }
{
    save(alloc, files, asked.save, report.after.as_ref())
}

/// The same, and the object is saved if a file is named for it.
pub fn run_and_save<F: Files>(
    alloc: Global,
    files: &mut F,
    asked: &MethodCall<'_>,
) -> Result<RunReport, Failed>
    ensures ok { IfOk result (SavedReports (storage F.disk F.failed F.in_place files.old)
        (storage F.disk F.failed F.in_place files.new) asked.now) }
    ensures err { IfErr result (λ e. SavedRunFails (storage F.disk F.failed F.in_place files.old)
        (storage F.disk F.failed F.in_place files.new) asked.now e.failure) }
{
    let report = run(alloc, files, asked)?;
    match keep(alloc, files, asked, &report) {
        Ok(()) => Ok(report),
        Err(failure) => Err(Failed::from(failure)),
    }
}
