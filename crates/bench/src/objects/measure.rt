use crate::timing::{Time, Work, least_of};
use anyhow::{Error, Result};
use object_store::{Object, StoreError, calls};
use std::alloc::Global;
use std::time::Clock;

/// The times that are taken of a subject, whose least counts, and the calls of each.
const RUNS: usize = 50;

const CALLS: usize = 1024;

const LONGEST_VALUE: [u8; 4096] = [7; 4096];

/// A call that is measured.
#[derive(Clone, Copy)]
pub enum Subject {
    /// A copy of the largest object.
    Copy,
    /// A write of one byte to an object of that many bytes.
    Write { len: u64 },
    /// A set of a new key to 8 bytes, next to that many others of 4,096 bytes each.
    Set { others: u32 },
    /// A read of 64 bytes of an object of that many.
    Read { len: u64 },
}

/// Makes the calls once, and gives the least time that one took of some runs, if there is a clock.
pub fn time<C: Clock>(alloc: Global, clock: Option<&C>, subject: Subject) -> Result<Time> {
    let object = object_of(alloc, subject)?;
    let work = Calls {
        object: &object,
        subject,
    };
    work.run(alloc, CALLS)?;
    Ok(Time::Picos(least_of(alloc, clock, &work, CALLS, RUNS)?))
}

/// The calls of a time.
#[derive(Clone, Copy)]
struct Calls<'a> {
    object: &'a Object,
    subject: Subject,
}

impl Work for Calls<'_> {
    fn run(&self, alloc: Global, count: usize) -> Result<()> {
        let mut read = [0; 64];
        let mut n: u32 = 0;
        for _ in 0..count {
            call(alloc, self.object, self.subject, n, &mut read)?;
            n = n.wrapping_add(1);
        }
        all_zero(&read)
    }
}

/// Looks at the bytes that were read, of objects that hold zeros: without that, the compiler leaves
/// each read out.
fn all_zero(read: &[u8; 64]) -> Result<()> {
    if *read == [0; 64] {
        Ok(())
    } else {
        Err(Error::msg("other bytes"))
    }
}

/// A key for each number.
fn key(n: u32) -> [u8; 4] {
    n.wrapping_mul(2_654_435_761).to_be_bytes()
}

/// An object of that many bytes, and that many keys.
fn filled(alloc: Global, len: u64, keys: u32) -> Result<Object, StoreError> {
    let mut object = calls::truncate(alloc, Some(&calls::create(None, true)?), len)?;
    for n in 0..keys {
        object = calls::set_key(alloc, Some(&object), &key(n), &LONGEST_VALUE)?;
    }
    Ok(object)
}

/// The object that a subject is measured on.
fn object_of(alloc: Global, subject: Subject) -> Result<Object, StoreError> {
    match subject {
        Subject::Copy => filled(alloc, 65_536, 1024),
        Subject::Write { len } | Subject::Read { len } => filled(alloc, len, 0),
        Subject::Set { others } => filled(alloc, 0, others),
    }
}

/// One call, the n-th.
fn call(
    alloc: Global,
    object: &Object,
    subject: Subject,
    n: u32,
    read: &mut [u8; 64],
) -> Result<()> {
    match subject {
        Subject::Copy => {
            let _ = object.copy()?;
        }
        Subject::Write { len } => {
            let _ = calls::write(alloc, Some(object), place(n, len), b"x")?;
        }
        Subject::Set { others } => {
            let new = key(n.saturating_add(others));
            let _ = calls::set_key(alloc, Some(object), &new, b"8 bytes!")?;
        }
        Subject::Read { len } => {
            let _ = calls::read(Some(object), place(n, len), read)?;
        }
    }
    Ok(())
}

/// A place in that many bytes, another for each number.
fn place(n: u32, len: u64) -> u64 {
    u64::from(n).wrapping_mul(977) % len.max(1)
}
