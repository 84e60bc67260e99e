//! What is printed of an end.
ghost use Rattle.std.specs.Prelude.{◌≡◌, IfOk, string_bytes};
ghost use Rattle.class_tests.specs.Text.{IsEndText, differs_text};

use crate::test_bytes::TestBytes;
use crate::test_said::TestSaid;
use crate::tests::TestEnd;
use std::alloc::{AllocError, Global};

/// TestBytes in hexadecimal, `-` if there are none.
fn digits_of(alloc: Global, bytes: &TestBytes) -> Result<String, AllocError> {
    if bytes.items().is_empty() {
        return String::from_str(alloc, "-");
    }
    hex::encode(alloc, bytes.items())
}

/// What is said, or is there, as a text.
fn said_text(alloc: Global, said: &TestSaid) -> Result<String, AllocError> {
    match said {
        TestSaid::Answer(code, output) => {
            let (code, output) = (code.cast_signed(), digits_of(alloc, output)?);
            format!(in alloc; "code {code} output {output}")
        }
        TestSaid::Held(Some(bytes)) => digits_of(alloc, bytes),
        TestSaid::Held(None) => String::from_str(alloc, "none"),
        TestSaid::NoMethod => String::from_str(alloc, "no such method"),
        TestSaid::InputTooLong => String::from_str(alloc, "the input is too long"),
    }
}

/// The lines of a line that differs.
fn differs_text(alloc: Global, number: usize, said: &str, there: &str) -> Result<String, AllocError>
    ensures { IfOk result (λ text. string_bytes text ≡ differs_text number said.now there.now) }
{
    let mut text = format!(in alloc; "line {number}: differs\n  wanted: ")?;
    text.push_str(said)?;
    text.push_str("\n  found: ")?;
    text.push_str(there)?;
    text.push_str("\n")?;
    Ok(text)
}

/// The lines of an end: that all holds, or the first line that doesn't, and below it what it wants
/// and what was found.
pub fn end_text(alloc: Global, end: &TestEnd) -> Result<String, AllocError>
    ensures { IfOk result (λ text. IsEndText end.now (string_bytes text)) }
{
    match end {
        TestEnd::AllHold(count) => format!(in alloc; "ok {count}\n"),
        TestEnd::BadAt(number) => format!(in alloc; "line {number}: bad\n"),
        TestEnd::DiffersAt(number, said, there, _) => {
            let (said, there) = (said_text(alloc, said)?, said_text(alloc, there)?);
            differs_text(alloc, *number, &said, &there)
        }
    }
}
