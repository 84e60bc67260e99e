//! The command `run` by an OSD's limits.

ghost use Rattle.std.specs.Prelude.{◌≡◌, ◌⊎◌, List, ℕ, IfOk, IfErr, option_map};
ghost use Rattle.std.specs.Option.{option_copied};
ghost use Rattle.bpf_decode.specs.Class.{ClassMethod};
ghost use Rattle.large_objects.specs.Calls.{AnswersLarge, RefusesLarge};
ghost use Rattle.program_files.specs.Assembly.{TextFails};
ghost use Rattle.program_files.specs.Files.{storage};
ghost use Rattle.program_files.specs.Image.{IsSafeIn};
ghost use Rattle.object_texts.specs.LargeGiven.{IsBadIn, IsLargeIn, LargeBeginFails, LargeBegins, LargeSaveFails};
ghost use Rattle.object_texts.specs.LargeGiven.{LargeSaves};
ghost use Rattle.class_tool.specs.LargeRun.{IsLargeReport, LargeCalls, LargeFails, LargeRefused, LargeReports};
ghost use Rattle.class_tool.specs.LargeRun.{LargeRunFails};
ghost use Rattle.class_tool.specs.RunReport.{holdings_of};

use crate::input::decode_input;
use crate::run_report::{Holdings, RunReport};
use interp::CallError;
use large_objects::{LargeAnswer, LargeCall, LargeCallError, LargeObject, call_large};
use object_texts::{MethodCall, large_before, large_text, save_large, spelled_large};
use program_files::{Failed, Failure, Files, ReadableFiles, load_with_source, read_text};
use std::alloc::{AllocError, Global};
use verifier::VerifiedClass;

/// The failure of a call for its refusal.
fn of_refusal(error: LargeCallError) -> Failure
    ensures { (class : List ClassMethod) (method input : List ℕ) → RefusesLarge class method input error →
        LargeRefused class method input result }
{
    match error {
        LargeCallError::NoMethod => Failure::Call(CallError::NoMethod),
        LargeCallError::InputTooLong => Failure::Call(CallError::InputTooLong),
        LargeCallError::NoMemory => Failure::Call(CallError::NoMemory),
        LargeCallError::Full => Failure::CallFull,
    }
}

/// Makes the call.
fn call(
    alloc: Global,
    class: &VerifiedClass,
    asked: &MethodCall<'_>,
    object: Option<LargeObject>,
    input: &[u8],
) -> Result<LargeAnswer, Failure>
    ensures ok { IfOk result (AnswersLarge class.now asked.now.method.now object asked.now.caller input.now) }
    ensures err { IfErr result (LargeRefused class.now asked.now.method.now input.now) }
{
    let request = LargeCall {
        method: asked.method.as_bytes(),
        caller: asked.caller.get(),
        input,
    };
    match call_large(alloc, class, request, object) {
        Ok(answer) => Ok(answer),
        Err(error) => Err(of_refusal(error)),
    }
}

/// The object that a file's text spells.
fn loaded<F: ReadableFiles>(
    alloc: Global,
    files: &F,
    file: &str,
) -> Result<Option<LargeObject>, Failure>
    ensures ok { IfOk result (IsLargeIn (F.disk files.now) file.now) }
    ensures err { IfErr result (λ e. (e ≡ Failure.NoMemory) ⊎ TextFails (F.disk files.now) file.now e ⊎
        IsBadIn (F.disk files.now) file.now e) }
{
    let text = read_text(alloc, files, file)?;
    spelled_large(alloc, &text)
}

/// The object before a call: that of the file that is named for it, or else that of words.
fn begun<F: ReadableFiles>(
    alloc: Global,
    files: &F,
    asked: &MethodCall<'_>,
) -> Result<Option<LargeObject>, Failure>
    ensures ok { IfOk result (LargeBegins asked.now.load (F.disk files.now) asked.now) }
    ensures err { IfErr result (LargeBeginFails (F.disk files.now) asked.now) }
{
    match asked.load {
        None => large_before(alloc, asked),
        Some(file) => loaded(alloc, files, file),
    }
}

/// Makes the call of a safe class on the object that is spelled.
fn call_safe<F: ReadableFiles>(
    alloc: Global,
    files: &F,
    class: &VerifiedClass,
    asked: &MethodCall<'_>,
) -> Result<LargeAnswer, Failure>
    requires { IsSafeIn (F.disk files.now) asked.now.image.now class.now }
    ensures ok { IfOk result (LargeCalls (F.disk files.now) asked.now) }
    ensures err { IfErr result (LargeFails (F.disk files.now) asked.now) }
{
    let input = decode_input(alloc, asked.input)?;
    let object = begun(alloc, files, asked)?;
    call(alloc, class, asked, object, &input)
}

/// Loads the class and makes the call.
fn call_loaded<F: ReadableFiles>(
    alloc: Global,
    files: &F,
    asked: &MethodCall<'_>,
) -> Result<LargeAnswer, Failed>
    ensures ok { IfOk result (LargeCalls (F.disk files.now) asked.now) }
    ensures err { IfErr result (λ e. LargeFails (F.disk files.now) asked.now e.failure) }
{
    let (class, _) = load_with_source(alloc, files, asked.image)?;
    Ok(call_safe(alloc, files, &class, asked)?)
}

/// The sizes of an object's parts, if there is one.
fn holdings(object: Option<&LargeObject>) -> Option<Holdings>
    ensures { result ≡ option_map holdings_of (option_copied object.entry) }
{
    match object {
        Some(object) => Some(Holdings {
            bytes: object.bytes().len(),
            xattrs: object.xattrs().len(),
            keys: object.keys().len(),
        }),
        None => None,
    }
}

/// The report of an answer.
fn report_of(alloc: Global, is_shown: bool, answer: &LargeAnswer) -> Result<RunReport, AllocError>
    ensures { IfOk result (IsLargeReport is_shown answer.now) }
{
    Ok(RunReport {
        traced: String::new(alloc),
        code: answer.answer.code,
        output: hex::encode(alloc, &answer.answer.output)?,
        steps: answer.answer.steps,
        object: holdings(answer.after.as_ref()),
        shown: large_text(alloc, is_shown, answer.after.as_ref())?,
        after: None,
    })
}

/// Saves the object after a call if a file is named for it.
fn keep<F: Files>(
    alloc: Global,
    files: &mut F,
    asked: &MethodCall<'_>,
    answer: &LargeAnswer,
) -> Result<(), Failure>
    ensures ok { IfOk result (λ _. LargeSaves (storage F.disk F.failed F.in_place files.old)
        (storage F.disk F.failed F.in_place files.new) asked.now.save answer.now.after) }
    ensures err { IfErr result (LargeSaveFails (storage F.disk F.failed F.in_place files.old)
        (storage F.disk F.failed F.in_place files.new) asked.now.save answer.now.after) }
{
    save_large(alloc, files, asked.save, answer.after.as_ref())
}

/// Makes a call by an OSD's limits; the object after it is saved if a file is named for it.
pub(crate) fn run_large<F: Files>(
    alloc: Global,
    files: &mut F,
    asked: &MethodCall<'_>,
) -> Result<RunReport, Failed>
    ensures ok { IfOk result (LargeReports (storage F.disk F.failed F.in_place files.old)
        (storage F.disk F.failed F.in_place files.new) asked.now) }
    ensures err { IfErr result (λ e. LargeRunFails (storage F.disk F.failed F.in_place files.old)
        (storage F.disk F.failed F.in_place files.new) asked.now e.failure) }
{
    let answer = call_loaded(alloc, files, asked)?;
    let report = report_of(alloc, asked.is_shown, &answer)?;
    match keep(alloc, files, asked, &answer) {
        Ok(()) => Ok(report),
        Err(failure) => Err(Failed::from(failure)),
    }
}
