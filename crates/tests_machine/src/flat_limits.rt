//! Objects at their limits of data, xattrs and keys: forms, and calls that would pass a limit.

use crate::flat_objects::is_form;
use crate::methods::image;
use bpf_decode::write_image;
use class_calls::{Answer, ClassCall, ClassHandle};
use std::alloc::Global;
use std::process::Abort;

/// Names of two bytes, as many as are wanted, with no values.
fn names(form: &mut Vec<u8>, count: u16) -> Option<()> {
    form.extend_from_slice(&count.to_le_bytes()).ok()?;
    for n in 0..count {
        form.push(2).ok()?;
        form.extend_from_slice(&n.to_be_bytes()).ok()?;
        form.extend_from_slice(&[0, 0]).ok()?;
    }
    Some(())
}

/// The flat form of an object of that many bytes of data, xattrs and keys.
fn form(alloc: Global, size: Size) -> Option<Vec<u8>> {
    let mut form = Vec::new(alloc);
    form.push(1).ok()?;
    form.extend_from_slice(&size.0.to_le_bytes()).ok()?;
    form.extend_from_slice(&vec![in alloc; 7; size.0 as usize].ok()?)
        .ok()?;
    names(&mut form, size.1)?;
    names(&mut form, size.2)?;
    Some(form)
}

/// Bytes of data, xattrs and keys.
type Size = (u32, u16, u16);

/// Sizes, and whether an object may have them.
const SIZES: [(Size, bool); 7] = [
    ((65536, 32, 1024), true),
    ((65536, 0, 0), true),
    ((0, 32, 0), true),
    ((0, 0, 1024), true),
    ((65537, 0, 0), false),
    ((0, 33, 0), false),
    ((0, 0, 1025), false),
];

/// The flat form of an object of one xattr, of that many bytes of name and of value.
fn long(alloc: Global, name: u8, value: u16) -> Option<Vec<u8>> {
    let mut form = Vec::new(alloc);
    form.extend_from_slice(&[1, 0, 0, 0, 0, 1, 0, name]).ok()?;
    form.extend_from_slice(&vec![in alloc; 65; usize::from(name)].ok()?)
        .ok()?;
    form.extend_from_slice(&value.to_le_bytes()).ok()?;
    form.extend_from_slice(&vec![in alloc; 66; usize::from(value)].ok()?)
        .ok()?;
    form.extend_from_slice(&[0, 0]).ok()?;
    Some(form)
}

/// Bytes of a name and of a value, and whether an object may have them.
const LENGTHS: [(u8, u16, bool); 3] = [(64, 4096, true), (65, 0, false), (1, 4097, false)];

#[test]
fn forms_at_the_limits(rt: HostRuntime) {
    for (size, expected) in &SIZES {
        let form = form(rt.alloc(), *size).expect(&rt, "memory");
        assert!(rt; is_form(rt.alloc(), &form) == Some(*expected));
    }
    for (name, value, expected) in &LENGTHS {
        let form = long(rt.alloc(), *name, *value).expect(&rt, "memory");
        assert!(rt; is_form(rt.alloc(), &form) == Some(*expected));
    }
}

/// An object at each limit.
const FULL: Size = (65536, 32, 1024);

/// Write the input's first byte at the last place of an object, and past it; and set the name of
/// two bytes that the input begins with to its third byte, of an xattr and of a key.
const LAST: &str = "mov r2, r1; mov r1, 65535; mov r3, 1; call 3";

const PAST: &str = "mov r2, r1; mov r1, 65536; mov r3, 1; call 3";

const XATTR: &str = "mov r2, 2; mov r3, r1; add r3, 2; mov r4, 1; call 7";

const KEY: &str = "mov r2, 2; mov r3, r1; add r3, 2; mov r4, 1; call 10";

/// A program, name and value, an object's size; the answer, and how many bytes of edits: a write has
/// 13 and its text, a set of a name 5, name and value.
type Row = (&'static str, &'static [u8], Size, i64, usize);

#[rattlefmt::skip]
const ROWS: [Row; 11] = [
    (LAST, b"x", FULL, 1, 14),
    (PAST, b"x", FULL, -27, 0),
    (LAST, b"x", (65535, 0, 0), 1, 14),
    (XATTR, b"\x00\x1fv", FULL, 0, 8),
    (XATTR, b"\x00\x20v", FULL, -28, 0),
    (XATTR, b"\x00\x20v", (0, 31, 0), 0, 8),
    (KEY, b"\x03\xffv", FULL, 0, 8),
    (KEY, b"\x04\x00v", FULL, -28, 0),
    (KEY, b"\x04\x00v", (0, 0, 1023), 0, 8),
    (XATTR, b"\x04\x00v", (0, 0, 1024), 0, 8),
    (KEY, b"\x00\x20v", (0, 32, 0), 0, 8),
];

/// The answer of a call, with at most 8 bytes of input, of a row's program, to whose end an `exit`
/// is added.
fn answered(rt: &impl Abort, alloc: Global, row: &Row) -> Option<Answer> {
    let image = image(rt, alloc, &[".method f rw 8 0;", row.0, ";exit"]);
    let image = write_image(alloc, &image).ok()?;
    let form = form(alloc, row.2)?;
    let mut class = ClassHandle::open(alloc, &image).ok()?;
    let request = ClassCall {
        method: b"f",
        object: &form,
        caller: 1,
        input: row.1,
    };
    class.call(alloc, request).ok()
}

#[test]
fn calls_at_the_limits(rt: HostRuntime) {
    for row in &ROWS {
        let answer = answered(&rt, rt.alloc(), row).expect(&rt, "an answer");
        assert!(rt; answer.code == row.3);
        assert!(rt; answer.edits.len() == row.4);
    }
}
