//! Verdicts and results of calls in JSON, an object a line.
ghost use Rattle.std.specs.Prelude.{◌≡◌, IfOk, false, string_bytes};
ghost use Rattle.std.specs.List.{after_first};
ghost use Rattle.class_reports.specs.Json.{accepted_data, accepted_lines, answer_line, error_data, file_error_data};
ghost use Rattle.class_reports.specs.Json.{is_blank, json_line, object_data, refused_data, rule_name, run_data};
ghost use Rattle.class_reports.specs.Json.{unsafe_data};
ghost use Rattle.serde_json.specs.View.{view};
ghost use Rattle.serde_json.specs.Written.{has_float};

use class_tool::{ActionResult, Holdings, RunReport};
use program_files::Failure;
use serde_json::{Value, json};
use std::alloc::{AllocError, Global};
use verifier::{Refusal, Rule, VerifiedClass};

/// The line of an object.
fn line_of(alloc: Global, value: &Value) -> Result<String, AllocError>
    requires { has_float (view value.now) ≡ false }
    ensures { IfOk result (λ line. string_bytes line ≡ json_line (view value.now)) }
{
    let mut line = value.to_string(alloc)?;
    line.push_str("\n")?;
    Ok(line)
}

/// The object of a method that no rule refuses.
fn accepted_value(
    alloc: Global,
    file: &str,
    method: &str,
    count: usize,
) -> Result<Value, AllocError>
    ensures { IfOk result (λ value. view value ≡ accepted_data file.now method.now count) }
{
    json!(in alloc; {"file": file, "instructions": count, "method": method, "ok": true})
}

/// Its line.
fn accepted_line(
    alloc: Global,
    file: &str,
    method: &str,
    count: usize,
) -> Result<String, AllocError>
    ensures { IfOk result (λ line. string_bytes line ≡ json_line (accepted_data file.now method.now count)) }
{
    let value = accepted_value(alloc, file, method, count)?;
    line_of(alloc, &value)
}

/// The lines of a safe class's methods, in their order.
pub(crate) fn accepted_lines(
    alloc: Global,
    file: &str,
    class: &VerifiedClass,
) -> Result<String, AllocError>
    ensures { IfOk result (λ lines. string_bytes lines ≡ accepted_lines file.now class.now) }
{
    let mut lines = String::new(alloc);
    for method in class.methods() {
        let line = accepted_line(alloc, file, method.name(), method.count())?;
        lines.push_str(&line)?;
    }
    Ok(lines)
}

/// The text after the first blank.
fn after_blank<'a>(text: &'a str) -> &'a str
    ensures { result.now ≡ after_first is_blank text.now }
{
    match text.split_once(' ') {
        Some((_, rest)) => rest,
        None => "",
    }
}

/// The name of a rule, which follows its number.
fn rule_name(alloc: Global, rule: Rule) -> Result<String, AllocError>
    ensures { IfOk result (λ name. string_bytes name ≡ rule_name rule) }
{
    let text = format!(in alloc; "{rule}")?;
    String::from_str(alloc, after_blank(&text))
}

/// The object of a refused method.
fn unsafe_value(alloc: Global, file: &str, refusal: Refusal) -> Result<Value, AllocError>
    ensures { IfOk result (λ value. view value ≡ unsafe_data file.now refusal) }
{
    let name = rule_name(alloc, refusal.rule)?;
    let (method, slot, rule) = (refusal.method, refusal.slot, refusal.rule.number());
    json!(in alloc; {
        "file": file,
        "method": method,
        "name": name,
        "ok": false,
        "rule": rule,
        "slot": slot,
    })
}

/// The object of a file of which no class was read.
fn unread_value(alloc: Global, file: &str, failure: Failure) -> Result<Value, AllocError>
    ensures { IfOk result (λ value. view value ≡ file_error_data file.now failure) }
{
    let error = format!(in alloc; "{failure}")?;
    json!(in alloc; {"error": error, "file": file})
}

/// The object of a file that has no safe class: of its refused method, or why no class was read.
fn refused_value(alloc: Global, file: &str, failure: Failure) -> Result<Value, AllocError>
    ensures { IfOk result (λ value. view value ≡ refused_data file.now failure) }
{
    if let Failure::Verdict(refusal) = failure {
        unsafe_value(alloc, file, refusal)
    } else {
        unread_value(alloc, file, failure)
    }
}

/// Its line.
pub(crate) fn refused_line(
    alloc: Global,
    file: &str,
    failure: Failure,
) -> Result<String, AllocError>
    ensures { IfOk result (λ line. string_bytes line ≡ json_line (refused_data file.now failure)) }
{
    let value = refused_value(alloc, file, failure)?;
    line_of(alloc, &value)
}

/// The object of a call that failed.
fn error_value(alloc: Global, failure: Failure) -> Result<Value, AllocError>
    ensures { IfOk result (λ value. view value ≡ error_data failure) }
{
    let error = format!(in alloc; "{failure}")?;
    json!(in alloc; {"error": error})
}

/// The object of a call that failed, in a line.
pub fn error_line(alloc: Global, failure: Failure) -> Result<String, AllocError>
    ensures { IfOk result (λ line. string_bytes line ≡ json_line (error_data failure)) }
{
    let value = error_value(alloc, failure)?;
    line_of(alloc, &value)
}

/// The sizes of an object's parts; null if it is absent.
fn object_value(alloc: Global, object: Option<Holdings>) -> Result<Value, AllocError>
    ensures { IfOk result (λ value. view value ≡ object_data object) }
{
    match object {
        Some(held) => {
            let (bytes, xattrs, keys) = (held.bytes, held.xattrs, held.keys);
            json!(in alloc; {"bytes": bytes, "keys": keys, "xattrs": xattrs})
        }
        None => Ok(Value::Null),
    }
}

/// The object of a call's report.
fn run_value(alloc: Global, report: &RunReport) -> Result<Value, AllocError>
    ensures { IfOk result (λ value. view value ≡ run_data report.now) }
{
    let (code, output, steps) = (report.code, report.output.as_str(), report.steps);
    let (shown, trace) = (report.shown.as_str(), report.traced.as_str());
    let object = object_value(alloc, report.object)?;
    json!(in alloc; {
        "code": code,
        "object": object,
        "output": output,
        "shown": shown,
        "steps": steps,
        "trace": trace,
    })
}

/// Its line.
fn run_line(alloc: Global, report: &RunReport) -> Result<String, AllocError>
    ensures { IfOk result (λ line. string_bytes line ≡ json_line (run_data report.now)) }
{
    let value = run_value(alloc, report)?;
    line_of(alloc, &value)
}

/// The result of an action: of a call its report as an object, in a line; of the others what they
/// print.
pub fn answer_line(alloc: Global, answer: &ActionResult) -> Result<String, AllocError>
    ensures { IfOk result (λ line. string_bytes line ≡ answer_line answer.now) }
{
    match answer {
        ActionResult::Ran(report) => run_line(alloc, report),
        ActionResult::Accepted(_) | ActionResult::Assembled | ActionResult::Disassembled(_) => {
            format!(in alloc; "{answer}")
        }
    }
}
