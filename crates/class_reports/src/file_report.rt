ghost use Rattle.std.specs.Prelude.{◌≡◌, IfOk, false, string_bytes, true};
ghost use Rattle.std.specs.List.{flat_map};
ghost use Rattle.class_reports.specs.Json.{accepted_lines, json_line, refused_data};
ghost use Rattle.class_reports.specs.Notes.{IsFailureText};
ghost use Rattle.class_reports.specs.Reports.{IsClassReport, IsEachReport, IsJsonReport, IsPlainReport, IsReport};
ghost use Rattle.class_tool.specs.ActionResult.{method_line};

use crate::asked::{FilesAsked, ReportForm};
use crate::json::{accepted_lines, refused_line};
use crate::named::told_text;
use crate::notes::{Notes, note_below};
use class_tool::{ActionResult, Verdicts, verify_each};
use program_files::{Failed, Failure, Files, load};
use std::alloc::{AllocError, Global};
use verifier::VerifiedClass;

/// What is told of a file, and if its class is accepted.
#[derive(Drop)]
pub(crate) struct FileReport {
    pub(crate) text: String,
    pub(crate) is_accepted: bool,
}

/// The report of a failure: its line, and the note below it, if one is asked for.
fn failure_report<F: Files>(
    alloc: Global,
    files: &F,
    failed: &Failed,
    notes: Notes,
) -> Result<FileReport, AllocError>
    ensures { IfOk result (λ r. (r.is_accepted ≡ false) ×
        IsFailureText notes failed.now.failure (string_bytes r.text)) }
{
    let (failure, note) = (failed.failure, note_below(alloc, files, failed, notes));
    let text = format!(in alloc; "{failure}\n{note}")?;
    let is_accepted = false;
    Ok(FileReport { text, is_accepted })
}

/// The report of a safe class: a line for each method.
fn safe_report(alloc: Global, class: VerifiedClass) -> Result<FileReport, AllocError>
    ensures { IfOk result (λ r. (r.is_accepted ≡ true) × (string_bytes r.text ≡ flat_map method_line class)) }
{
    let answer = ActionResult::Accepted(class);
    let text = format!(in alloc; "{answer}")?;
    let is_accepted = true;
    Ok(FileReport { text, is_accepted })
}

/// The verdict on the class of a file: a line for each method, or the first refusal.
fn class_report<F: Files>(
    alloc: Global,
    files: &F,
    name: &str,
    is_explained: bool,
) -> Result<FileReport, AllocError>
    ensures { IfOk result (IsClassReport (F.disk files.now) name.now is_explained) }
{
    let is_each_line = false;
    let notes = Notes {
        is_explained,
        is_each_line,
    };
    match load(alloc, files, name) {
        Ok(class) => safe_report(alloc, class),
        Err(failed) => failure_report(alloc, files, &failed, notes),
    }
}

/// The report of the verdicts on each method.
fn verdicts_report(alloc: Global, verdicts: &Verdicts) -> Result<FileReport, AllocError>
    ensures { IfOk result (λ r. (r.is_accepted ≡ verdicts.now.are_accepted) ×
        (string_bytes r.text ≡ string_bytes verdicts.now.lines)) }
{
    let text = format!(in alloc; "{verdicts}")?;
    let is_accepted = verdicts.are_accepted();
    Ok(FileReport { text, is_accepted })
}

/// The verdict on each method of the class of a file.
fn each_report<F: Files>(
    alloc: Global,
    files: &F,
    name: &str,
    is_explained: bool,
) -> Result<FileReport, AllocError>
    ensures { IfOk result (IsEachReport (F.disk files.now) name.now is_explained) }
{
    let is_each_line = true;
    let notes = Notes {
        is_explained,
        is_each_line,
    };
    match verify_each(alloc, files, name, is_explained) {
        Ok(verdicts) => verdicts_report(alloc, &verdicts),
        Err(failed) => failure_report(alloc, files, &failed, notes),
    }
}

/// The report of a safe class in JSON.
fn safe_json(alloc: Global, name: &str, class: &VerifiedClass) -> Result<FileReport, AllocError>
    ensures { IfOk result (λ r. (r.is_accepted ≡ true) ×
        (string_bytes r.text ≡ accepted_lines name.now class.now)) }
{
    let text = accepted_lines(alloc, name, class)?;
    let is_accepted = true;
    Ok(FileReport { text, is_accepted })
}

/// The report of a failure in JSON.
fn failure_json(alloc: Global, name: &str, failure: Failure) -> Result<FileReport, AllocError>
    ensures { IfOk result (λ r. (r.is_accepted ≡ false) ×
        (string_bytes r.text ≡ json_line (refused_data name.now failure))) }
{
    let text = refused_line(alloc, name, failure)?;
    let is_accepted = false;
    Ok(FileReport { text, is_accepted })
}

/// The verdict on the class of a file in JSON.
fn json_report<F: Files>(alloc: Global, files: &F, name: &str) -> Result<FileReport, AllocError>
    ensures { IfOk result (IsJsonReport (F.disk files.now) name.now) }
{
    match load(alloc, files, name) {
        Ok(class) => safe_json(alloc, name, &class),
        Err(failed) => failure_json(alloc, name, failed.failure),
    }
}

/// The verdict on a file in that form.
fn plain_report<F: Files>(
    alloc: Global,
    files: &F,
    name: &str,
    asked: &FilesAsked<'_>,
) -> Result<FileReport, AllocError>
    ensures { IfOk result (IsPlainReport (F.disk files.now) asked.now name.now) }
{
    match asked.form {
        ReportForm::Class => class_report(alloc, files, name, asked.is_explained),
        ReportForm::Each => each_report(alloc, files, name, asked.is_explained),
        ReportForm::Json => json_report(alloc, files, name),
    }
}

/// The verdict on a file, each line after its name if there are several files.
pub(crate) fn file_report<F: Files>(
    alloc: Global,
    files: &F,
    name: &str,
    asked: &FilesAsked<'_>,
) -> Result<FileReport, AllocError>
    ensures { IfOk result (IsReport (F.disk files.now) asked.now name.now) }
{
    let plain = plain_report(alloc, files, name, asked)?;
    let is_accepted = plain.is_accepted;
    let text = told_text(alloc, asked.is_named(), name, plain.text)?;
    Ok(FileReport { text, is_accepted })
}
