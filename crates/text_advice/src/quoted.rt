//! Words of a text, as a terminal may have them.

use escaped_text::push_escaped;
use std::alloc::AllocError;

/// Adds a word in quotes, and texts before and after it.
pub(crate) fn push_about(
    out: &mut String,
    before: &str,
    word: &str,
    after: &str,
) -> Result<(), AllocError> {
    out.push_str(before)?;
    push_escaped(out, word)?;
    out.push_str(after)
}

/// Adds a name, of letters, digits and `_`, and texts before and after it.
pub(crate) fn push_name(
    out: &mut String,
    before: &str,
    name: &[u8],
    after: &str,
) -> Result<(), AllocError> {
    out.push_str(before)?;
    for byte in name {
        out.push(char::from(*byte))?;
    }
    out.push_str(after)
}
