//! How a bad line of a file is reported.

ghost use Rattle.std.specs.Prelude.{◌≡◌, IfOk, string_bytes};
ghost use Rattle.sim.specs.Run.{bad_line};

use std::alloc::{AllocError, Global};

/// A line that can't be done.
pub(crate) fn bad_line(alloc: Global, number: usize) -> Result<String, AllocError>
    ensures { IfOk result (λ t. string_bytes t ≡ bad_line number) }
{
    format!(in alloc; "line {number}: bad\n")
}
