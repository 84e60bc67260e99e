//! Calls on parts of objects, from the part's bytes: what each helper answers, or what it needs.

ghost use Rattle.object_store.specs.Limits.{IsLimits};

use helpers::{ENODATA, ENOENT, HelperAnswer};
use object_store::{Limits, NameLimits};
use part_bytes::{Need, need_form, read_part};
use parts::{StagedPart, Stop};
use std::alloc::Global;
use std::process::Abort;

/// A helper of a call, and its arguments.
enum Helper {
    Stat,
    Read(u64, usize),
    Write(u64, u8),
    Xattr(&'static [u8]),
    Key(&'static [u8]),
    KeyAbove(&'static [u8]),
    RemoveKey(&'static [u8]),
}

/// What a helper gives: a number, a refusal by that error number, bytes and their number, or the
/// spelling of what it needs.
enum Gives {
    Number(u64),
    Refused(u64),
    Bytes(&'static [u8]),
    Needs(&'static [u8]),
}

use Gives::{Bytes, Needs, Number, Refused};
use Helper::{Key, KeyAbove, Read, RemoveKey, Stat, Write, Xattr};

/// Of an object of 4 MiB nothing more is known.
const UNKNOWN: &[u8] = b"\x01\0\0\x40\0\0\0\0\0\0\0\0\0\0\0\0\0\0\0\0\0";

/// A part, and helpers on it one after the other with what each gives.
#[rattlefmt::skip]
static ROWS: [(&[u8], &[(Helper, Gives)]); 7] = [
    (b"\0", &[(Stat, Refused(ENOENT)), (Key(b"k"), Refused(ENOENT)), (KeyAbove(b""), Refused(ENOENT))]),
    (UNKNOWN, &[
        (Stat, Number(4_194_304)),
        (Read(4_194_304, 8), Number(0)),
        (Read(4095, 2), Needs(b"\x01\0\0\0\0\0\0\0\0\x02")),
    ]),
    (UNKNOWN, &[(Write(10, b'y'), Number(1)), (Read(10, 1), Needs(b"\x01\0\0\0\0\0\0\0\0\x01"))]),
    (UNKNOWN, &[(RemoveKey(b"k"), Needs(b"\x03\x01\0k"))]),
    // Keys: [k, k\0), no entry.
    (b"\x01\0\0\x40\0\0\0\0\0\0\0\0\0\0\0\0\0\x01\0\x01\0k\x02\0k\0\0\0", &[
        (RemoveKey(b"k"), Refused(ENODATA)),
    ]),
    // Keys: from the least to below b\0, b = 1.
    (b"\x01\0\0\x40\0\0\0\0\0\0\0\0\0\0\0\0\0\x01\0\0\0\x02\0b\0\x01\0\x01\0b\x01\01", &[
        (KeyAbove(b""), Bytes(b"b")),
        (KeyAbove(b"b"), Needs(b"\x04\x02\0b\0")),
    ]),
    // Data abc, no xattr known, all keys, k = v.
    (b"\x01\x03\0\0\0\0\0\0\0\x01\0\0\0\0\0\0\0\0\0\0\0abc\0\0\0\0\x01\0\0\0\0\0\x01\0\x01\0k\x01\0v", &[
        (Stat, Number(3)),
        (Read(0, 9), Bytes(b"abc")),
        (Key(b"k"), Bytes(b"v")),
        (Key(b"l"), Refused(ENODATA)),
        (KeyAbove(b"k"), Refused(ENODATA)),
        (Xattr(b"a"), Needs(b"\x02\x01\0a")),
    ]),
];

/// The limits of a host that has no counts.
fn limits() -> Limits
    ensures { IsLimits result }
{
    let names = NameLimits {
        count: None,
        length: 64,
    };
    Limits {
        bytes: 1 << 31,
        xattrs: names,
        keys: names,
    }
}

fn is_need<R: Abort>(rt: &R, alloc: Global, need: &Need, gives: &Gives) -> bool {
    match gives {
        Needs(bytes) => need_form(alloc, need).expect(rt, "memory").as_slice() == *bytes,
        _ => false,
    }
}

fn is_number(number: u64, gives: &Gives) -> bool {
    match gives {
        Number(wanted) => number == *wanted,
        // The negative of the error number.
        Refused(errno) => number.wrapping_add(*errno) == 0,
        _ => false,
    }
}

fn is_answer<R: Abort>(
    rt: &R,
    alloc: Global,
    answer: Result<HelperAnswer, Need>,
    gives: &Gives,
) -> bool {
    match (answer, gives) {
        (Ok(answer), Bytes(bytes)) => {
            answer.number == bytes.len() as u64 && answer.bytes == *bytes
        }
        (Ok(answer), _) => is_number(answer.number, gives),
        (Err(need), _) => is_need(rt, alloc, &need, gives),
    }
}

fn is_read<R: Abort>(
    rt: &R,
    alloc: Global,
    part: &StagedPart,
    at: u64,
    n: usize,
    gives: &Gives,
) -> bool {
    let mut out = [0; 16];
    match (part.read(at, &mut out[..n.min(16)]), gives) {
        (Ok(count), Bytes(bytes)) => count == bytes.len() as u64 && out.starts_with(*bytes),
        (Ok(count), _) => is_number(count, gives),
        (Err(need), _) => is_need(rt, alloc, &need, gives),
    }
}

fn is_change<R: Abort>(rt: &R, alloc: Global, change: Result<u64, Stop>, gives: &Gives) -> bool {
    match change {
        Ok(number) => is_number(number, gives),
        Err(Stop::Needs(need)) => is_need(rt, alloc, &need, gives),
        Err(Stop::Full | Stop::NoMemory) => false,
    }
}

/// True if the helper gives that.
fn is<R: Abort>(
    rt: &R,
    alloc: Global,
    part: &mut StagedPart,
    helper: &Helper,
    gives: &Gives,
) -> bool {
    let limits = limits();
    match helper {
        Stat => is_number(part.stat(), gives),
        Read(at, n) => is_read(rt, alloc, part, *at, *n, gives),
        Write(at, byte) => is_change(rt, alloc, part.write(alloc, &limits, *at, &[*byte]), gives),
        Xattr(name) => is_answer(rt, alloc, part.xattr_value(&limits, *name, 4096), gives),
        Key(key) => is_answer(rt, alloc, part.map_value(&limits, *key, 4096), gives),
        KeyAbove(key) => is_answer(rt, alloc, part.key_above(&limits, *key, 4096), gives),
        RemoveKey(key) => is_change(rt, alloc, part.remove_key(alloc, &limits, *key), gives),
    }
}

/// True if the helpers give that, one after the other, on what these bytes say.
fn are<R: Abort>(rt: &R, alloc: Global, bytes: &[u8], calls: &[(Helper, Gives)]) -> bool {
    let said = read_part(alloc, bytes).expect(rt, "a part");
    let mut part = StagedPart::of(alloc, said.as_ref()).expect(rt, "memory");
    for (helper, gives) in calls {
        if !is(rt, alloc, &mut part, helper, gives) {
            return false;
        }
    }
    true
}

#[test]
fn helpers_on_parts(rt: HostRuntime) {
    for (bytes, calls) in &ROWS {
        assert!(rt; are(&rt, rt.alloc(), *bytes, *calls));
    }
}
