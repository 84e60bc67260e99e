//! Parts of data by place and length, and the test that they stay within the limit of data.

ghost use Rattle.std.specs.Prelude.{◌≡◌, ◌+◌, ◌-◌, ◌≤◌, ◌++◌, OnOk, OnErr, IfSome, IsSome, ◌↔◌, length, replicate};
ghost use Rattle.std.specs.Prelude.{take, drop};
ghost use Rattle.object_store.specs.declared.limits.TheConstants.{DATA_LIMIT};
ghost use Rattle.object_store.specs.Object.{part};

use crate::limits::DATA_LIMIT;
use std::alloc::AllocError;

/// The place, if `len` bytes from there on stay within the limit of data.
pub(crate) fn place_of(at: u64, len: usize) -> Option<usize>
    ensures value { IfSome result (λ place. place ≡ at) }
    ensures within { IsSome result ↔ (at + len ≤ DATA_LIMIT) }
{
    // A place is 64 bits wide, as a register is, so that none is cut before it is refused.
    if len > DATA_LIMIT || at > (DATA_LIMIT - len) as u64 {
        return None;
    }
    Some(at as usize)
}

/// The bytes from a place on that there are, at most n.
pub fn part(bytes: &[u8], at: u64, n: u64) -> &[u8]
    ensures bytes { result.now ≡ part bytes.now at n }
    ensures short { length result.now ≤ n }
{
    if at >= bytes.len() as u64 {
        return &bytes[..0];
    }
    let rest = &bytes[at as usize..];
    if n < rest.len() as u64 {
        &rest[..n as usize]
    } else {
        rest
    }
}

/// Writes text over the bytes at a place.
pub(crate) fn overlay(bytes: &mut [u8], at: usize, text: &[u8])
    requires { at + length text.now ≤ length bytes.old }
    ensures { bytes.new ≡ take at bytes.old ++ text.now ++ drop (at + length text.now) bytes.old }
{
    bytes[at..at + text.len()].copy_from_slice(text);
}

/// Adds zeros up to a length, if the bytes are fewer.
pub(crate) fn lengthen(bytes: &mut Vec<u8>, len: usize) -> Result<(), AllocError>
    ensures lengthened { OnOk result (bytes.new.items ≡ bytes.old.items ++ replicate (len - length bytes.old.items) 0) }
    ensures refused { OnErr result (bytes.new.items ≡ bytes.old.items) }
{
    if len > bytes.len() {
        bytes.resize(len, 0)?;
    }
    Ok(())
}
