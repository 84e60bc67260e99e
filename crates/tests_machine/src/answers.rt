//! Each answer of a call on bytes, of the images of small classes.

use class_calls::{
    Answer, ClassCall, ClassError, ClassHandle, MethodError, call_on, load, place_of,
};
use interp::Room;
use std::alloc::Global;

/// `f`, flags 1, no input and no output: `mov r0, 0`, `exit`.
#[rattlefmt::skip]
const LEAST: [u8; 33] = [
    0x52, 0x43, 0x4c, 0x31, 1, 0, 0, 0, 1, 0x66, 1, 0, 0, 0, 0, 2, 0,
    0xb7, 0, 0, 0, 0, 0, 0, 0,
    0x95, 0, 0, 0, 0, 0, 0, 0,
];

/// The same without the `mov`: register 0 is unset at `exit`.
#[rattlefmt::skip]
const UNSET: [u8; 25] = [
    0x52, 0x43, 0x4c, 0x31, 1, 0, 0, 0, 1, 0x66, 1, 0, 0, 0, 0, 1, 0,
    0x95, 0, 0, 0, 0, 0, 0, 0,
];

/// `w`, flags 2, at most 1 byte of input: it writes its input to the object's first bytes, and
/// answers how many. `mov r3, r2`, `mov r2, r1`, `mov r1, 0`, `call 3`, `exit`.
#[rattlefmt::skip]
pub const WRITE: [u8; 57] = [
    0x52, 0x43, 0x4c, 0x31, 1, 0, 0, 0, 1, 0x77, 2, 1, 0, 0, 0, 5, 0,
    0xbf, 0x23, 0, 0, 0, 0, 0, 0,
    0xbf, 0x12, 0, 0, 0, 0, 0, 0,
    0xb7, 0x01, 0, 0, 0, 0, 0, 0,
    0x85, 0, 0, 0, 3, 0, 0, 0,
    0x95, 0, 0, 0, 0, 0, 0, 0,
];

/// True if an answer has the code, the steps and the edits of a row, and no output.
fn is_answer(answer: &Answer, call: &Call) -> bool {
    answer.code == call.5
        && answer.steps == call.6
        && answer.output.is_empty()
        && answer.edits.as_slice() == call.7
}

/// The number of an answer as C has it; 99 if the answer is another one.
fn number(found: Result<Answer, MethodError>, call: &Call) -> i32 {
    match found {
        Ok(answer) => if is_answer(&answer, call) { 0 } else { 99 },
        Err(MethodError::NoMethod) => -95,
        Err(MethodError::InputTooLong) => -7,
        Err(MethodError::Malformed) => -22,
        Err(MethodError::NoMemory) => -12,
    }
}

fn of_class(error: ClassError) -> i32 {
    match error {
        ClassError::Image(_) => 1,
        ClassError::Verdict(_) => 2,
        ClassError::NoMemory => -12,
    }
}

fn request<'a>(call: &'a Call, caller: u64) -> ClassCall<'a> {
    ClassCall {
        method: call.1,
        object: call.2,
        caller,
        input: call.3,
    }
}

/// The number of a call of an image's class.
fn once(alloc: Global, call: &Call) -> i32 {
    match load(alloc, call.0) {
        Ok(class) => number(
            call_on(alloc, &mut Room::new(alloc), &class, request(call, 7)),
            call,
        ),
        Err(error) => of_class(error),
    }
}

/// The same twice by a handle and once by another of its class, the first of which is closed; 99 if
/// they differ.
fn by_handles(alloc: Global, call: &Call) -> i32 {
    let mut handle = match ClassHandle::open(alloc, call.0) {
        Ok(handle) => handle,
        Err(error) => return of_class(error),
    };
    let first = number(handle.call(alloc, request(call, 7)), call);
    let second = number(handle.call(alloc, request(call, 7)), call);
    let Ok(mut other) = handle.share(alloc) else {
        return -12;
    };
    drop(handle);
    let third = number(other.call(alloc, request(call, 7)), call);
    if first == second && second == third {
        first
    } else {
        99
    }
}

/// Image, method, object, input; the number, and of an answer its code, steps and edits.
type Call = (
    &'static [u8],
    &'static [u8],
    &'static [u8],
    &'static [u8],
    i32,
    i64,
    usize,
    &'static [u8],
);

/// An object of the byte `x` alone.
const ONE: [u8; 10] = [1, 1, 0, 0, 0, 0x78, 0, 0, 0, 0];

#[rattlefmt::skip]
const CALLS: [Call; 13] = [
    (&LEAST, b"f", &[0], b"", 0, 0, 2, &[]),
    (&LEAST, b"f", &ONE, b"", 0, 0, 2, &[]),
    (&WRITE, b"w", &[0], b"y", 0, 1, 5, &[1, 8, 0, 0, 0, 0, 0, 0, 0, 0, 1, 0, 0, 0, 0x79]),
    (&WRITE, b"w", &ONE, b"y", 0, 1, 5, &[8, 0, 0, 0, 0, 0, 0, 0, 0, 1, 0, 0, 0, 0x79]),
    // what was there is written all the same
    (&WRITE, b"w", &ONE, b"x", 0, 1, 5, &[8, 0, 0, 0, 0, 0, 0, 0, 0, 1, 0, 0, 0, 0x78]),
    (b"", b"f", &[0], b"", 1, 0, 0, &[]),
    (&UNSET, b"f", &[0], b"", 2, 0, 0, &[]),
    (&LEAST, b"g", &[0], b"", -95, 0, 0, &[]),
    (&LEAST, b"\xff", &[0], b"", -95, 0, 0, &[]),
    (&LEAST, b"f", &[0], b"a", -7, 0, 0, &[]),
    (&LEAST, b"f", &[2], b"", -22, 0, 0, &[]),
    (&LEAST, b"g", &[2], b"a", -95, 0, 0, &[]),
    (&LEAST, b"f", &[2], b"a", -7, 0, 0, &[]),
];

#[test]
fn each_answer(rt: HostRuntime) {
    for call in &CALLS {
        assert!(rt; once(rt.alloc(), call) == call.4);
        assert!(rt; by_handles(rt.alloc(), call) == call.4);
    }
}

/// A client's number, and the number of the answer: -22 from 2^32 on, but for what comes before it.
const CALLERS: [(usize, u64, i32); 5] = [
    (2, 0xffff_ffff, 0),
    (2, 0x1_0000_0000, -22),
    (2, u64::MAX, -22),
    (7, u64::MAX, -95),
    (9, u64::MAX, -7),
];

#[test]
fn clients_of_32_bits(rt: HostRuntime) {
    for (row, caller, expected) in CALLERS {
        let call = &CALLS[row];
        let mut handle = ClassHandle::open(rt.alloc(), call.0)
            .ok()
            .expect(&rt, "a class");
        assert!(rt; number(handle.call(rt.alloc(), request(call, caller)), call) == expected);
    }
}

/// What a handle tells of its methods, by their numbers.
#[test]
fn methods_by_number(rt: HostRuntime) {
    let handle = ClassHandle::open(rt.alloc(), &WRITE)
        .ok()
        .expect(&rt, "a class");
    let (name, declared) = handle.method_at(0).expect(&rt, "a method");
    assert!(rt; name == b"w".as_slice());
    assert!(rt; declared.flags == 2 && declared.in_cap == 1 && declared.out_cap == 0);
    assert!(rt; declared.parts.number() == 1);
    assert!(rt; handle.method_at(1).is_none());
    assert!(rt; handle.place_of(b"w") == Some(0) && handle.place_of(b"v").is_none());
    let class = load(rt.alloc(), &WRITE).ok().expect(&rt, "a class");
    assert!(rt; place_of(&class, b"w") == Some(0) && place_of(&class, b"").is_none());
}
