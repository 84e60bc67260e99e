//! A call at all limits at once: input and output of 65,535 bytes, and an object that is written to
//! 65,536 bytes.

use crate::methods::{class, outcome};
use interp::Outcome;
use object_store::{DATA_LIMIT, Object, calls};
use std::alloc::Global;
use std::process::Abort;

/// Copies the input's last byte to the output's last, writes the input to the object's last 65,535
/// bytes, and answers with all of the output.
const LONGEST: &str =
    ".rules 3; .method f w 65535 65535; mov r2, r1; add r1, 65534; ldxb r4, [r1+0];
add r3, 65534; stxb [r3+0], r4; mov r1, 1; mov r3, 65535; call 3; mov r6, r0; mov r1, 65535; call 13;
mov r0, r6; exit";

/// True if the first `count` bytes are all `first`, and the rest are all `then`.
fn begins(bytes: &[u8], first: u8, count: usize, then: u8) -> bool {
    let mut all = true;
    for (k, byte) in bytes.iter().enumerate() {
        all = all && *byte == (if k < count { first } else { then });
    }
    all
}

/// True if the code is 65,535 after 13 steps, and the output is 65,534 zeros and a byte of 0x5a.
fn has_all_output(outcome: &Outcome) -> bool {
    outcome.code == 65535
        && outcome.steps == 13
        && outcome.output.len() == 65535
        && begins(&outcome.output, 0, 65534, 0x5a)
}

/// True if an object has 65,536 bytes, the first `count` of them all `first`, and the rest 0x5a.
fn is_full(
    rt: &impl Abort,
    alloc: Global,
    object: Option<&Object>,
    first: u8,
    count: usize,
) -> bool {
    match object {
        None => false,
        Some(object) => {
            let mut data = Vec::from_elem(alloc, 0u8, DATA_LIMIT).expect(rt, "memory");
            object.read(0, &mut data) == DATA_LIMIT && begins(&data, first, count, 0x5a)
        }
    }
}

/// True if a call of `LONGEST` on 65,535 bytes of 0x5a has all output, and leaves an object of the
/// largest size. It writes all bytes but the first one, which is still `first`, as on the full
/// object before, if there was one.
fn is_longest(rt: &impl Abort, alloc: Global, object: Option<&Object>, first: u8) -> bool {
    let class = class(rt, alloc, &[LONGEST]);
    let input = [0x5a].repeat(alloc, 65535).expect(rt, "memory");
    let outcome = outcome(rt, alloc, &class, object, &input);
    let before = outcome.change.before();
    has_all_output(&outcome)
        && is_full(rt, alloc, outcome.change.after(), first, 1)
        && (before.is_none() || is_full(rt, alloc, before, first, DATA_LIMIT))
        && before.is_none() == object.is_none()
}

#[test]
fn an_object_grows_to_its_limit(rt: HostRuntime) {
    assert!(rt; is_longest(&rt, rt.alloc(), None, 0));
}

/// The object of 65,536 bytes of 0x33.
fn full(rt: &impl Abort, alloc: Global) -> Object {
    let bytes = [0x33].repeat(alloc, DATA_LIMIT).expect(rt, "memory");
    calls::write(alloc, None, 0, &bytes).expect(rt, "an object")
}

#[test]
fn a_full_object_is_shared(rt: HostRuntime) {
    let object = full(&rt, rt.alloc());
    assert!(rt; is_longest(&rt, rt.alloc(), Some(&object), 0x33));
}
