//! Texts that are repeated, and columns at which nothing is drawn.

use std::alloc::AllocError;

/// Appends a text `n` times.
pub(crate) fn push_repeated(out: &mut String, n: usize, text: &str) -> Result<(), AllocError> {
    for _k in 0..n {
        out.push_str(text)?;
    }
    Ok(())
}

/// The character of a column's line: dotted if its node is stopped.
pub(crate) fn bar(is_stopped: bool) -> &'static str {
    if is_stopped { ":" } else { "|" }
}

/// Columns with nothing but their lines: for each, true if its node is stopped.
pub(crate) fn push_bars(out: &mut String, stopped: &[bool]) -> Result<(), AllocError> {
    for is_stopped in stopped {
        out.push_str(bar(*is_stopped))?;
        out.push_str("           ")?;
    }
    Ok(())
}
