//! A call on the largest part, of 1,024 blocks, 1,025 intervals, 32 xattrs and 1,024 keys; and on
//! parts with one more of each.

use crate::calls_on_parts::{limits, put_number, put_text};
use crate::methods::image;
use bpf_decode::write_image;
use class_calls::{ClassHandle, PartCall, PartCallError};
use std::alloc::Global;
use std::process::Abort;

/// How many blocks, intervals and xattrs, intervals and keys a part has; and whether it is one.
#[rattlefmt::skip]
const PARTS: [([u64; 5], bool); 6] = [
    ([1024, 1025, 32, 1025, 1024], true),
    ([1025, 1025, 32, 1025, 1024], false),
    ([1024, 1026, 32, 1025, 1024], false),
    ([1024, 1025, 33, 1025, 1024], false),
    ([1024, 1025, 32, 1026, 1024], false),
    ([1024, 1025, 32, 1025, 1025], false),
];

/// It reads the last byte of block 1023, gets the xattr and the key that the input names, puts out
/// what they found, and answers the sum of what the helpers did.
const LAST: &str =
    ".method f r 4 3; mov r6, r1; mov r7, r3; mov r1, 4194303; mov r2, r3; mov r3, 1; call 2;
mov r8, r0; mov r1, r6; mov r2, 2; mov r3, r7; add r3, 1; mov r4, 1; call 6; add r8, r0;
mov r1, r6; add r1, 2; mov r2, 2; mov r3, r7; add r3, 2; mov r4, 1; call 9; add r8, r0;
mov r1, 3; call 13; mov r0, r8; exit";

/// The name of a number: its two bytes, the higher one first.
fn name(n: u64) -> [u8; 2] {
    let [low, high, ..] = n.to_le_bytes();
    [high, low]
}

/// Intervals, one for each name, and entries of the first names: a name's value is the lower byte
/// of its number.
fn put_names(rt: &impl Abort, bytes: &mut Vec<u8>, intervals: u64, entries: u64) {
    put_number(rt, bytes, intervals, 2);
    for n in 0..intervals {
        let [high, low] = name(n);
        put_text(rt, bytes, &[high, low]);
        put_text(rt, bytes, &[high, low, 0]);
    }
    put_number(rt, bytes, entries, 2);
    for n in 0..entries {
        let [high, low] = name(n);
        put_text(rt, bytes, &[high, low]);
        put_text(rt, bytes, &[low]);
    }
}

/// A part with so many of each. Each block has the lower byte of its number everywhere.
fn part(rt: &impl Abort, alloc: Global, counts: &[u64; 5]) -> Vec<u8> {
    let [blocks, xattr_intervals, xattrs, key_intervals, keys] = *counts;
    let mut bytes = Vec::new(alloc);
    put_number(rt, &mut bytes, 1, 1);
    put_number(rt, &mut bytes, 4_202_497, 8);
    put_number(rt, &mut bytes, blocks, 4);
    for n in 0..blocks {
        let [_, low] = name(n);
        put_number(rt, &mut bytes, n, 8);
        bytes.extend_from_slice(&[low; 4096]).expect(rt, "memory");
    }
    put_names(rt, &mut bytes, xattr_intervals, xattrs);
    put_names(rt, &mut bytes, key_intervals, keys);
    bytes
}

/// True if a call on a part answers with the last of each, none if it is refused as no part.
fn answers(alloc: Global, class: &mut ClassHandle, part: &[u8]) -> Option<bool> {
    let request = PartCall {
        method: b"f",
        part,
        caller: 7,
        limits: limits(),
        input: b"\0\x1f\x03\xff",
    };
    match class.call_part(alloc, request) {
        Ok(answer) => Some(
            answer.code == 3 && answer.output.as_slice() == b"\xff\x1f\xff".as_slice(),
        ),
        Err(PartCallError::Malformed) => None,
        Err(_) => Some(false),
    }
}

#[test]
fn the_largest_part(rt: HostRuntime) {
    let alloc = rt.alloc();
    let image = write_image(alloc, &image(&rt, alloc, &[LAST])).expect(&rt, "memory");
    let mut class = ClassHandle::open(alloc, &image).ok().expect(&rt, "a class");
    for (counts, is_part) in &PARTS {
        let part = part(&rt, alloc, counts);
        let answered = answers(alloc, &mut class, &part);
        let wanted = if *is_part { Some(true) } else { None };
        assert!(rt; answered == wanted, "{counts:?}");
    }
}
