//! From the result of a lookup or a change to what a helper answers.

ghost use Rattle.std.specs.Prelude.{◌≡◌, ◌-◌, ◌^◌, ◌<◌, ◌≤◌, IfOk, OnErr, Err, length};
ghost use Rattle.object_store.specs.Returned.{behind};
ghost use Rattle.helpers.specs.Effect.{refuses};
ghost use Rattle.helpers.specs.Table.{copy_answer};
ghost use Rattle.helpers.specs.Refusals.{errno_of, number_of, looked_up, IsAnswer};

use crate::errno::{EEXIST, EFBIG, EINVAL, ENODATA, ENOENT, ENOMEM, ENOSPC, ERANGE};
use object_store::StoreError;
use txn::NoMemory;

/// The answer of a helper: the number for register 0, and the bytes that it copies to the beginning
/// of its writable range.
#[derive(Clone, Copy)]
pub struct HelperAnswer<'a> {
    pub number: u64,
    pub bytes: &'a [u8],
}

/// The negative of an error number, as register 0 holds it.
pub fn negative(errno: u64) -> u64
    requires { (1 ≤ errno) × (errno < 4096) }
    ensures { result ≡ 2 ^ 64 - errno }
{
    // 2^64 - errno, without the number 2^64, which 64 bits don't hold.
    u64::MAX - (errno - 1)
}

/// The error number of a refusal.
fn errno_of(error: StoreError) -> u64
    ensures errno { result ≡ errno_of error }
    ensures range { (1 ≤ result) × (result < 4096) }
{
    match error {
        StoreError::Absent => ENOENT,
        StoreError::Exists => EEXIST,
        StoreError::NoAttr => ENODATA,
        StoreError::TooBig => EFBIG,
        StoreError::TooMany => ENOSPC,
        StoreError::Range => EINVAL,
        StoreError::NoMemory => ENOMEM,
    }
}

/// The answer of a helper whose change had this result: the number that it gives, or the negative
/// of an error number.
pub fn answered(change: Result<(), StoreError>, number: u64) -> Result<u64, NoMemory>
    ensures answer { IfOk result (λ n. n ≡ number_of change number) }
    ensures no_want { IfOk result (λ _. IsAnswer change) }
    ensures want { OnErr result (change ≡ Err StoreError.NoMemory) }
{
    // A lack of memory ends the call and has no error number here: the result of a method depends
    // on its object, client and input alone, so every replica computes the same.
    match change {
        Ok(()) => Ok(number),
        Err(StoreError::NoMemory) => Err(NoMemory),
        Err(error) => Ok(negative(errno_of(error))),
    }
}

/// The answer of a helper that looked up this value, with a range of `room` bytes for it.
pub fn looked_up(value: Result<&[u8], StoreError>, room: u64) -> HelperAnswer<'_>
    ensures number { result.number ≡ (looked_up room (behind value.entry)).number }
    ensures bytes { result.bytes.now ≡ (looked_up room (behind value.entry)).bytes }
    ensures short { length result.bytes.now ≤ room }
{
    match value {
        Err(error) => refused(errno_of(error)),
        Ok(bytes) => copied(bytes, room),
    }
}

/// The answer of `copy`, with a range of `room` bytes for what is copied: their number. Refused:
/// ERANGE.
pub fn copied(bytes: &[u8], room: u64) -> HelperAnswer<'_>
    ensures number { result.number ≡ (copy_answer bytes.now room).number }
    ensures bytes { result.bytes.now ≡ (copy_answer bytes.now room).bytes }
    ensures short { length result.bytes.now ≤ room }
{
    let count = bytes.len() as u64;
    if room < count {
        refused(ERANGE)
    } else {
        HelperAnswer {
            number: count,
            bytes,
        }
    }
}

/// A refusal: it copies nothing.
fn refused<'a>(errno: u64) -> HelperAnswer<'a>
    requires { (1 ≤ errno) × (errno < 4096) }
    ensures number { result.number ≡ (refuses errno).number }
    ensures bytes { result.bytes.now ≡ (refuses errno).bytes }
{
    HelperAnswer {
        number: negative(errno),
        bytes: &[],
    }
}
