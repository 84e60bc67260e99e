//! The text of a trace.

ghost use Rattle.std.specs.Prelude.{◌≡◌, IfOk, string_bytes};
ghost use Rattle.class_trace.specs.Trace.{trace_text};

use crate::steps::TraceLine;
use std::alloc::{AllocError, Global};

/// The text of the lines, each with its end. Refused: no memory.
pub fn trace_text(alloc: Global, lines: &[TraceLine]) -> Result<String, AllocError>
    ensures { IfOk result (λ text. string_bytes text ≡ trace_text lines.now) }
{
    let mut text = String::new(alloc);
    for line in lines {
        text.push_str(&line.text)?;
        text.push_str("\n")?;
    }
    Ok(text)
}
