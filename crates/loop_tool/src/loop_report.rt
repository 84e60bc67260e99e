ghost use Rattle.std.specs.Prelude.{◌≡◌, IfOk, None, Some, false, length, string_bytes, true};
ghost use Rattle.std.specs.List.{flat_map};
ghost use Rattle.loop_tool.specs.Reports.{IsFailureText, IsLoopReport, IsPlainReport, line_with, method_line};

use crate::asked::LoopsAsked;
use crate::load::load_by_loops;
use crate::note::note_of;
use bpf_decode::Method;
use class_reports::told_text;
use loop_classes::{LoopClass, LoopClassMethod, MethodRun};
use loop_heads::Loops;
use program_files::{Failed, Files};
use std::alloc::{AllocError, Global};

/// What is told of a file, and if its class is accepted.
#[derive(Drop)]
pub(crate) struct LoopReport {
    pub(crate) text: String,
    pub(crate) is_accepted: bool,
}

/// The line of a method that declares no loops.
fn plain_line(alloc: Global, name: &str, count: usize) -> Result<String, AllocError>
    ensures { IfOk result (λ line. string_bytes line ≡ line_with None name.now count) }
{
    let mut line = String::from_str(alloc, name)?;
    write!(line, " ok {count}\n")?;
    Ok(line)
}

/// The line of a method that declares those loops.
fn budget_line(alloc: Global, name: &str, count: usize, loops: &Loops) -> Result<String, AllocError>
    ensures { IfOk result (λ line. string_bytes line ≡ line_with (Some loops.now) name.now count) }
{
    let budget = loops.budget();
    let mut line = String::from_str(alloc, name)?;
    write!(line, " ok {count} budget {budget}\n")?;
    Ok(line)
}

/// The line of a method.
fn line_of(alloc: Global, method: &Method) -> Result<String, AllocError>
    ensures { IfOk result (λ line. string_bytes line ≡ method_line method.now) }
{
    let (name, count) = (method.name(), method.instructions().len());
    match method.loops() {
        None => plain_line(alloc, name, count),
        Some(loops) => budget_line(alloc, name, count, loops),
    }
}

/// The line of a method that is safe.
fn method_line(alloc: Global, method: &LoopClassMethod) -> Result<String, AllocError>
    ensures { IfOk result (λ line. string_bytes line ≡ method_line method.now) }
{
    match method.run() {
        MethodRun::Plain(method) => plain_line(alloc, method.name(), method.count()),
        MethodRun::Looped(method, _) => line_of(alloc, method),
    }
}

/// The lines of the methods of a safe class, in their order.
fn class_lines(alloc: Global, class: &LoopClass) -> Result<String, AllocError>
    ensures { IfOk result (λ lines. string_bytes lines ≡ flat_map method_line class.now) }
{
    let mut lines = String::new(alloc);
    for method in class.methods() {
        let line = method_line(alloc, method)?;
        lines.push_str(&line)?;
    }
    Ok(lines)
}

/// The report of a safe class.
fn safe_report(alloc: Global, class: &LoopClass) -> Result<LoopReport, AllocError>
    ensures { IfOk result (λ r. (r.is_accepted ≡ true) × (string_bytes r.text ≡ flat_map method_line class.now)) }
{
    let text = class_lines(alloc, class)?;
    let is_accepted = true;
    Ok(LoopReport { text, is_accepted })
}

/// The report of a failure: its line, and the note below it, if one is asked for.
fn failure_report<F: Files>(
    alloc: Global,
    files: &F,
    failed: &Failed,
    is_explained: bool,
) -> Result<LoopReport, AllocError>
    ensures { IfOk result (λ r. (r.is_accepted ≡ false) ×
        IsFailureText is_explained failed.now.failure (string_bytes r.text)) }
{
    let (failure, note) = (failed.failure, note_of(alloc, files, failed, is_explained));
    let text = format!(in alloc; "{failure}\n{note}")?;
    let is_accepted = false;
    Ok(LoopReport { text, is_accepted })
}

/// The verdict on the class of a file: a line for each method, or the first refusal.
fn plain_report<F: Files>(
    alloc: Global,
    files: &F,
    name: &str,
    is_explained: bool,
) -> Result<LoopReport, AllocError>
    ensures { IfOk result (IsPlainReport (F.disk files.now) name.now is_explained) }
{
    match load_by_loops(alloc, files, name) {
        Ok(class) => safe_report(alloc, &class),
        Err(failed) => failure_report(alloc, files, &failed, is_explained),
    }
}

/// The verdict on a file, each line after its name if there are several files.
pub(crate) fn loop_report<F: Files>(
    alloc: Global,
    files: &F,
    name: &str,
    asked: &LoopsAsked<'_>,
) -> Result<LoopReport, AllocError>
    ensures { IfOk result (IsLoopReport (F.disk files.now) asked.now name.now) }
{
    let plain = plain_report(alloc, files, name, asked.is_explained)?;
    let is_accepted = plain.is_accepted;
    let text = told_text(alloc, asked.is_named(), name, plain.text)?;
    Ok(LoopReport { text, is_accepted })
}
