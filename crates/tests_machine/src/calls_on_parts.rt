//! Calls on parts of objects: what a method answers, or what it needs, with the bytes of parts,
//! needs and lists written by hand; and the answers on a part with all that an object has, beside
//! those on the object.

use crate::lists::{self, Made};
use crate::words::{object, pairs};
use class_calls::{PartCall, PartCallError, call_part};
use object_store::{Limits, NameLimits, Object};
use part_bytes::need_form;
use part_calls::{PartAnswer, PartRoom};
use std::alloc::Global;
use std::process::Abort;

/// Of an object of 4 MiB nothing more is known.
const UNKNOWN: &str = "01000040000000000000000000\
0000000000000000";

/// The same, with the keys from `k` to below `k\0`, of which there is none; and with `k` = `v`.
const NO_KEY: &str = "0100004000000000000000000000000000010001006b02006b000000";

const ONE_KEY: &str = "0100004000000000000000000000000000010001006b02006b00010001006b010076";

/// A part; the calls of helpers that the method makes, as in the rows of lists; and the list that
/// it leaves, or the need after `needs`.
const ROWS: &[(&str, &str, &str)] = &[
    // an absent object: all is known
    ("00", "map_set <k <v", "010501006b010076"),
    ("00", "map_get <k >9; map_next <- >9", ""),
    // a set needs nothing; what was set is known
    (UNKNOWN, "map_set <k <v; map_get <k >9", "0501006b010076"),
    (
        UNKNOWN,
        "setxattr <a <1; getxattr <a >9; getxattr <b >9",
        "needs 02010062",
    ),
    // a value, known or not, and a removal of one that isn't there
    (UNKNOWN, "map_get <k >9", "needs 0301006b"),
    (ONE_KEY, "map_get <k >9; map_set <k <w", "0501006b010077"),
    (NO_KEY, "map_rm <k; map_get <l >9", "needs 0301006c"),
    // the least key: from the end of what is known on
    (ONE_KEY, "map_next <- >9", "needs 040000"),
    (ONE_KEY, "map_next <k >9", "needs 0402006b00"),
    // a block isn't known once some of it is written; a cut leaves it unknown
    (
        UNKNOWN,
        "write =10 <xy; read =10 >2",
        "needs 01000000000000000001",
    ),
    (
        UNKNOWN,
        "truncate =4096; read =4096 >9; read =4095 >9",
        "needs 01000000000000000001",
    ),
    (UNKNOWN, "read =4095 >2", "needs 01000000000000000002"),
    // a removal makes all known
    (
        UNKNOWN,
        "remove; map_get <k >9; read =0 >9; create =1; map_next <- >9",
        "0201",
    ),
];

/// The limits of a host that has no counts.
pub fn limits() -> Limits {
    let names = NameLimits {
        count: None,
        length: 64,
    };
    Limits {
        bytes: 1 << 27,
        xattrs: names,
        keys: names,
    }
}

fn call(
    alloc: Global,
    made: &Made,
    part: &[u8],
    caller: u64,
    limits: Limits,
) -> Result<PartAnswer, PartCallError> {
    let request = PartCall {
        method: b"f",
        part,
        caller,
        limits,
        input: &made.input,
    };
    call_part(alloc, &mut PartRoom::new(alloc), &made.class, request)
}

/// True if a call gives the list, or the need after `needs`.
fn gives(
    rt: &impl Abort,
    alloc: Global,
    answer: Result<PartAnswer, PartCallError>,
    wanted: &str,
) -> bool {
    match (answer, wanted.strip_prefix("needs ")) {
        (Ok(answer), None) => answer.edits.as_slice() == pairs(rt, alloc, wanted).as_slice(),
        (Err(PartCallError::Needs(need)), Some(bytes)) => {
            let form = need_form(alloc, &need).expect(rt, "memory");
            form.as_slice() == pairs(rt, alloc, bytes).as_slice()
        }
        _ => false,
    }
}

#[test]
fn parts(rt: HostRuntime) {
    let alloc = rt.alloc();
    for (part, calls, wanted) in ROWS {
        let made = lists::calling(&rt, alloc, calls, 0);
        let part = pairs(&rt, alloc, part);
        let answer = call(alloc, &made, &part, 7, limits());
        assert!(rt; gives(&rt, alloc, answer, wanted), "{calls}");
    }
}

/// The bytes of a number, in little-endian order.
pub fn put_number(rt: &impl Abort, bytes: &mut Vec<u8>, number: u64, count: usize) {
    let form = number.to_le_bytes();
    bytes
        .extend_from_slice(&form[..count.min(8)])
        .expect(rt, "memory");
}

pub fn put_text(rt: &impl Abort, bytes: &mut Vec<u8>, text: &[u8]) {
    put_number(rt, bytes, text.len() as u64, 2);
    bytes.extend_from_slice(text).expect(rt, "memory");
}

/// All names, which are these.
fn put_names(rt: &impl Abort, bytes: &mut Vec<u8>, object: &Object, are_keys: bool) {
    put_number(rt, bytes, 1, 2);
    put_text(rt, bytes, b"");
    put_text(rt, bytes, b"");
    let count = if are_keys {
        object.key_count()
    } else {
        object.xattr_count()
    };
    put_number(rt, bytes, count as u64, 2);
    for n in 0..count {
        let entry = if are_keys {
            object.key_at(n)
        } else {
            object.xattr_at(n)
        };
        if let Some((name, value)) = entry {
            put_text(rt, bytes, name);
            put_text(rt, bytes, value);
        }
    }
}

/// The part that has all of an object.
fn whole(rt: &impl Abort, alloc: Global, object: Option<&Object>) -> Vec<u8> {
    let mut bytes = Vec::new(alloc);
    let Some(object) = object else {
        put_number(rt, &mut bytes, 0, 1);
        return bytes;
    };
    put_number(rt, &mut bytes, 1, 1);
    put_number(rt, &mut bytes, object.len() as u64, 8);
    let blocks = object.len().div_ceil(4096);
    put_number(rt, &mut bytes, blocks as u64, 4);
    for number in 0..blocks {
        let mut block = [0; 4096];
        let count = object.read(number as u64 * 4096, &mut block).min(4096);
        put_number(rt, &mut bytes, number as u64, 8);
        bytes
            .extend_from_slice(&block[..count])
            .expect(rt, "memory");
    }
    put_names(rt, &mut bytes, object, false);
    put_names(rt, &mut bytes, object, true);
    bytes
}

/// By the limits of all objects, the call on the part that has all is the call on the object.
#[test]
fn wholes(rt: HostRuntime) {
    let alloc = rt.alloc();
    for (before, calls, code, list, _) in lists::ROWS {
        let made = lists::calling(&rt, alloc, calls, *code);
        let part = whole(&rt, alloc, object(&rt, alloc, before).as_ref());
        let answer = call(alloc, &made, &part, 7, Limits::profile());
        assert!(rt; gives(&rt, alloc, answer, list), "{calls}");
    }
}

/// A caller, limits or a part that a call may not have.
#[test]
fn refusals(rt: HostRuntime) {
    let alloc = rt.alloc();
    let made = lists::calling(&rt, alloc, "map_set <k <v", 0);
    let unknown = pairs(&rt, alloc, UNKNOWN);
    let few = Limits {
        bytes: 1 << 63,
        ..limits()
    };
    let refused = [
        // a caller of 33 bits, limits that are none, bytes that go on, and counted names of which
        // some aren't known
        call(alloc, &made, &unknown, 1 << 32, limits()),
        call(alloc, &made, &unknown, 7, few),
        call(alloc, &made, b"\0\0", 7, limits()),
        call(alloc, &made, &unknown, 7, Limits::profile()),
    ];
    for answer in &refused {
        assert!(rt; matches!(answer, Err(PartCallError::Malformed)));
    }
}

/// The part with all xattrs of an object that has 32, and no more.
fn full(rt: &impl Abort, alloc: Global) -> Vec<u8> {
    let mut bytes = pairs(rt, alloc, "01000000000000000000000000");
    put_number(rt, &mut bytes, 1, 2);
    put_text(rt, &mut bytes, b"");
    put_text(rt, &mut bytes, b"");
    put_number(rt, &mut bytes, 32, 2);
    for name in b'A'..b'A' + 32 {
        put_text(rt, &mut bytes, &[name]);
        put_text(rt, &mut bytes, b"");
    }
    bytes.extend_from_slice(&[0; 4]).expect(rt, "memory");
    bytes
}

/// A call keeps 32 xattrs: one more stops it, where the host doesn't count them.
#[test]
fn fulls(rt: HostRuntime) {
    let alloc = rt.alloc();
    let part = full(&rt, alloc);
    let made = lists::calling(&rt, alloc, "setxattr <A <1; setxattr <z <1", 0);
    let answer = call(alloc, &made, &part, 7, limits());
    assert!(rt; matches!(answer, Err(PartCallError::Full)));
    let made = lists::calling(&rt, alloc, "setxattr <A <1; rmxattr <B; setxattr <z <1", 0);
    let answer = call(alloc, &made, &part, 7, limits());
    assert!(rt; gives(&rt, alloc, answer, "03010041010031040100420301007a010031"));
}
