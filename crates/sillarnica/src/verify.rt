//! The verdict, and its line.

ghost use Rattle.std.specs.Prelude.{◌≡◌, ◌<◌, ◌^◌, length, take};
ghost use Rattle.object_store.specs.Edits.{overlaid};
ghost use Rattle.bpf_decode.specs.Refusal.{image_text_of};
ghost use Rattle.verifier.specs.RuleNumber.{refusal_text};
ghost use Rattle.class_calls.specs.Answers.{RefusesImage};
ghost use Rattle.class_loops.specs.Opened.{RefusesByLoops};
ghost use Rattle.sillarnica.specs.Told.{TellsVerify, TellsExplain, ExplainsClass, Writes, WritesOrNot};
ghost use Rattle.sillarnica.specs.Told.{ExplainsLoopsClass, TellsLoopsExplain};

use crate::told::{NO_MEMORY, ToldRefusal, tell_class};
use bpf_decode::ImageError;
use class_calls::{ClassError, load};
use class_loops::load_loops;
use std::alloc::Global;
use verifier::Refusal;

/// Returns 0 if the image spells a class that no rule refuses; 1 or 2 with the reason; or -12.
#[unsafe(no_mangle)]
pub extern "C" fn sillarnica_verify(alloc: Global, image: &[u8], refusal: &mut ToldRefusal) -> i32
    ensures { TellsVerify image.now refusal.old refusal.new result }
{
    match load(alloc, image) {
        Ok(_class) => 0,
        Err(error) => tell_class(image, refusal, error),
    }
}

/// Copies as many bytes of the line as fit.
pub(crate) fn write_front(line: &[u8], text: &mut [u8])
    ensures { text.new ≡ overlaid (take (length text.old) line.now) text.old }
{
    let fits = if line.len() < text.len() {
        line.len()
    } else {
        text.len()
    };
    let (front, _) = line.split_at(fits);
    let (begin, _) = text.split_at_mut(fits);
    begin.copy_from_slice(front);
}

/// Copies the bytes of the line that fit, and returns its whole length.
fn write_line(line: &[u8], text: &mut [u8]) -> i64
    requires { length line.now < 2 ^ 63 }
    ensures { Writes line.now text.old text.new result }
{
    write_front(line, text);
    line.len() as i64
}

/// The line of a refused image; -12 if memory is refused.
fn explain_image(alloc: Global, error: ImageError, text: &mut [u8]) -> i64
    ensures { WritesOrNot (image_text_of error) text.old text.new result }
{
    match format!(in alloc; "{error}") {
        Ok(line) => write_line(line.as_bytes(), text),
        Err(_) => i64::from(NO_MEMORY),
    }
}

/// The line of a verdict; -12 if memory is refused.
fn explain_verdict(alloc: Global, refusal: Refusal, text: &mut [u8]) -> i64
    ensures { WritesOrNot (refusal_text refusal) text.old text.new result }
{
    match format!(in alloc; "{refusal}") {
        Ok(line) => write_line(line.as_bytes(), text),
        Err(_) => i64::from(NO_MEMORY),
    }
}

/// The line of a refusal.
fn explain_class(alloc: Global, image: &[u8], error: ClassError, text: &mut [u8]) -> i64
    requires { RefusesImage image.now error }
    ensures { ExplainsClass image.now text.old text.new result }
{
    match error {
        ClassError::Image(error) => explain_image(alloc, error, text),
        ClassError::Verdict(refusal) => explain_verdict(alloc, refusal, text),
        ClassError::NoMemory => i64::from(NO_MEMORY),
    }
}

/// Writes the line that says why the image or the class is refused, as many bytes of it as fit.
/// Returns the length of the line; 0 if the class is accepted; or -12.
#[unsafe(no_mangle)]
pub extern "C" fn sillarnica_explain(alloc: Global, image: &[u8], text: &mut [u8]) -> i64
    ensures { TellsExplain image.now text.old text.new result }
{
    match load(alloc, image) {
        Ok(_class) => 0,
        Err(error) => explain_class(alloc, image, error, text),
    }
}

/// The line of a refusal by the verdict on loops.
fn explain_loops_class(alloc: Global, image: &[u8], error: ClassError, text: &mut [u8]) -> i64
    requires { RefusesByLoops image.now error }
    ensures { ExplainsLoopsClass image.now text.old text.new result }
{
    match error {
        ClassError::Image(error) => explain_image(alloc, error, text),
        ClassError::Verdict(refusal) => explain_verdict(alloc, refusal, text),
        ClassError::NoMemory => i64::from(NO_MEMORY),
    }
}

/// Writes the line that says why the image is refused, or the class by the verdict on loops, as many
/// bytes of it as fit. Returns the length of the line; 0 if the class is accepted; or -12.
#[unsafe(no_mangle)]
pub extern "C" fn sillarnica_loops_explain(alloc: Global, image: &[u8], text: &mut [u8]) -> i64
    ensures { TellsLoopsExplain image.now text.old text.new result }
{
    match load_loops(alloc, image) {
        Ok(_class) => 0,
        Err(error) => explain_loops_class(alloc, image, error, text),
    }
}
