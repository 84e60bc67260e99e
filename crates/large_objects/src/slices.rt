//! Writes into bytes, and their cuts.

ghost use Rattle.std.specs.Prelude.{◌≡◌, ◌++◌, ◌+◌, ◌-◌, ◌<◌, ◌≤◌, ◌^◌, OnErr, OnOk, drop, length, replicate, take};
ghost use Rattle.object_store.specs.Object.{resized, spliced};

use std::alloc::AllocError;

/// Writes text over bytes at a place, with zeros in a gap.
pub(crate) fn splice(content: &mut Vec<u8>, at: usize, text: &[u8]) -> Result<(), AllocError>
    requires { at + length text.now < 2 ^ 32 }
    ensures ok { OnOk result (content.new.items ≡ spliced content.old.items at text.now) }
    ensures err { OnErr result (content.new.items ≡ content.old.items) }
{
    if text.is_empty() {
        return Ok(());
    }
    lengthen(content, at + text.len())?;
    overlay(content, at, text);
    Ok(())
}

/// Writes text over the bytes at a place.
fn overlay(bytes: &mut [u8], at: usize, text: &[u8])
    requires { at + length text.now ≤ length bytes.old }
    ensures { bytes.new ≡ take at bytes.old ++ text.now ++ drop (at + length text.now) bytes.old }
{
    bytes[at..at + text.len()].copy_from_slice(text);
}

/// Adds zeros up to a length, if the bytes are fewer.
fn lengthen(bytes: &mut Vec<u8>, len: usize) -> Result<(), AllocError>
    ensures lengthened { OnOk result (bytes.new.items ≡ bytes.old.items ++ replicate (len - length bytes.old.items) 0) }
    ensures refused { OnErr result (bytes.new.items ≡ bytes.old.items) }
{
    if len > bytes.len() {
        bytes.resize(len, 0)?;
    }
    Ok(())
}

/// Cuts bytes, or extends them with zeros.
pub(crate) fn resize(content: &mut Vec<u8>, len: usize) -> Result<(), AllocError>
    ensures ok { OnOk result (content.new.items ≡ resized content.old.items len) }
    ensures err { OnErr result (content.new.items ≡ content.old.items) }
{
    content.resize(len, 0)
}
