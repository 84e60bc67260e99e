//! What stands below the line of a failure.

ghost use Rattle.std.specs.Prelude.{string_bytes};
ghost use Rattle.class_tool.specs.Note.{IsNote};

use crate::found::found_note;
use bpf_decode::{ClassImage, Method};
use class_tool::Explain;
use interp::CallError;
use program_files::{About, Failed, Failure, Files};
use std::alloc::{AllocError, Global};
use verifier::{Refusal, Rule};

/// The note of a jump back in a method that declares no loops.
const NO_HEAD: &str = "  no head is declared at its target: radoscls heads IN OUT finds heads\n";

/// The note of a call of no method.
const NO_METHOD: &str = "  wanted: a method of the class; `radoscls verify --loops` lists them\n";

/// The note of a jump back that is refused.
fn jump_note(
    alloc: Global,
    class: &ClassImage,
    method: &Method,
    refusal: &Refusal,
) -> Result<String, AllocError> {
    let mut note = String::new(alloc);
    if method.loops().is_none() {
        note.push_str(NO_HEAD)?;
    }
    let found = found_note(alloc, class, method, refusal)?;
    note.push_str(&found)?;
    Ok(note)
}

/// The note of a class that is refused by its loops: of a jump back alone there is one.
fn refusal_note(
    alloc: Global,
    class: &ClassImage,
    refusal: &Refusal,
) -> Result<String, AllocError> {
    match class.methods().get(refusal.method) {
        Some(method) if refusal.rule == Rule::Backward => {
            jump_note(alloc, class, method, refusal)
        }
        Some(_) | None => Ok(String::new(alloc)),
    }
}

/// The note of a failure: what is said of it without loops, but for a verdict and a method's name.
fn any_note<F: Files>(alloc: Global, files: &F, failed: &Failed) -> Result<String, AllocError> {
    match (failed.failure, &failed.about) {
        (Failure::Verdict(refusal), About::Class(source)) => {
            refusal_note(alloc, source.class(), &refusal)
        }
        (Failure::Call(CallError::NoMethod), _) => String::from_str(alloc, NO_METHOD),
        _ => failed.note(alloc, files.fault(alloc)),
    }
}

/// The note below the line of a failure of a class whose methods may loop, if it is asked for; none
/// if memory for it is refused. It is what is said of the failure where no method loops, but for a
/// verdict: of that it says only what heads a jump back wants.
pub fn note_of<F: Files>(alloc: Global, files: &F, failed: &Failed, is_explained: bool) -> String
    ensures { IsNote is_explained (string_bytes result) }
{
    if !is_explained {
        return String::new(alloc);
    }
    match any_note(alloc, files, failed) {
        Ok(note) => note,
        Err(_) => String::new(alloc),
    }
}
