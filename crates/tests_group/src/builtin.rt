//! The built-in classes: every method on its answers, through a group and by `call`.
use super::script::check;
use super::words::see;
use builtin_classes::{load_lock, load_obj};
use interp::{Outcome, call};
use object_store::{Object, calls};
use std::alloc::Global;
use std::process::Abort;
use verifier::VerifiedClass;

/// A row is a request (client, object, class, method and input), a bar, and its reply (code and
/// output). Bytes are hexadecimal, `-` for none, and `*N` after them adds N zero bytes. Numbers of
/// an input are of eight bytes, the lowest first.
const ROWS: &str = "new turns of two clients
1 a lock lock - | 0 -
2 a lock lock - | -16 -
1 a lock unlock - | 0 -
2 a lock lock - | 0 -
new locks: an owner, another, and nobody
1 a lock unlock - | -2 -
1 a lock lock - | 0 -
2 a lock lock - | -16 -
1 a lock lock - | 0 -
2 a lock unlock - | -16 -
1 a lock unlock - | 0 -
1 a lock unlock - | -61 -
2 a lock lock - | 0 -
1 b obj setxattr 046c6f636b*9 | 0 -
1 b lock unlock - | -34 -
1 b lock lock - | 0 -
2 b lock lock - | -16 -
1 c obj setxattr 046c6f636b01 | 0 -
2 c lock unlock - | -16 -
2 c lock lock - | -16 -
1 c lock lock - | 0 -
1 c lock unlock - | 0 -
1 c obj setxattr 046c6f636b | 0 -
1 c lock lock - | -16 -
1 c lock unlock - | -16 -
1 d obj setxattr 046c6f636b0100000001000000 | 0 -
1 d lock lock - | -16 -
1 d lock unlock - | -16 -
1 d obj setxattr 046c6f636b0100000000000000 | 0 -
1 d lock lock - | 0 -
1 d lock unlock - | 0 -
new data
1 a obj stat - | -2 -
1 a obj read *16 | -2 -
1 a obj remove - | -2 -
1 a obj write *8 | 0 -
1 a obj stat - | 0 -
1 a obj remove - | 0 -
1 a obj write 000000000000000068656c6c6f | 5 -
1 a obj stat - | 5 -
1 a obj read 00000000000000000500000000000000 | 5 68656c6c6f
1 a obj read 03000000000000000500000000000000 | 2 6c6f
1 a obj read 05000000000000000500000000000000 | 0 -
1 a obj read ffffffffffffffff0500000000000000 | 0 -
1 b obj write fe0f00000000000061626364 | 4 -
1 b obj stat - | 4098 -
1 b obj read fe0f0000000000000400000000000000 | 4 61626364
1 b obj read 00000000000000000200000000000000 | 2 0000
1 b obj read 00000000000000000010000000000000 | 4096 *4094,6162
1 b obj read 00000000000000000110000000000000 | -22 -
1 b obj read *15 | -22 -
1 b obj read - | -22 -
1 b obj write *7 | -22 -
1 b obj write - | -22 -
1 b obj write 000001000000000061 | -27 -
1 b obj write ffffffffffffffff61 | -27 -
1 b obj write ffff00000000000061 | 1 -
1 b obj stat - | 65536 -
1 b obj remove - | 0 -
1 b obj stat - | -2 -
new offsets and lengths from 2^32 on, of which the lower half alone is within the object
1 a obj write 000000000000000068656c6c6f | 5 -
1 a obj write 000000000100000061 | -27 -
1 a obj read 00000000010000000500000000000000 | 0 -
1 a obj read 00000000000000000500000001000000 | -22 -
1 a obj read 00000000000000000500000000000000 | 5 68656c6c6f
new xattrs
1 a obj getxattr 61 | -2 -
1 a obj setxattr 016162 | 0 -
1 a obj stat - | 0 -
1 a obj getxattr 61 | 1 62
1 a obj getxattr 62 | -61 -
1 a obj getxattr - | -22 -
1 a obj setxattr 0161 | 0 -
1 a obj getxattr 61 | 0 -
1 a obj setxattr - | -22 -
1 a obj setxattr 00 | -22 -
1 a obj setxattr 0261 | -22 -
1 a obj setxattr 41*65 | -22 -
1 a obj setxattr 40*63 | -22 -
1 a obj setxattr 00*4032 | -27 -
1 a obj setxattr 3f*4095 | -27 -
1 a obj setxattr 40*4095 | 0 -
1 a obj getxattr *64 | 4031 *4031
1 a obj getxattr *63 | -61 -
1 a obj setxattr 00*4031 | -22 -
1 a obj remove - | 0 -
1 a obj getxattr 61 | -2 -";

#[test]
fn answers_of_each_method(rt: HostRuntime) {
    check(&rt, rt.alloc(), ROWS);
}

/// After 32 xattrs no further one, and no lock.
const FULL: &str = "1 a obj setxattr 0142 | -28 -
1 a obj setxattr 011061 | 0 -
1 a lock lock - | -28 -
1 a lock unlock - | -61 -";

/// The lines that set 32 xattrs, and those after them.
fn full<R: Abort>(rt: &R, alloc: Global) -> String {
    let mut text = String::new(alloc);
    for name in 10..42u32 {
        let line = format!(in alloc; "1 a obj setxattr 01{name} | 0 -\n").expect(rt, "memory");
        text.push_str(&line).expect(rt, "memory");
    }
    text.push_str(FULL).expect(rt, "memory");
    text
}

#[test]
fn no_xattr_and_no_lock_past_32_xattrs(rt: HostRuntime) {
    let text = full(&rt, rt.alloc());
    check(&rt, rt.alloc(), &text);
}

/// True if an object has one xattr and nothing else.
fn has_one_xattr(object: Option<&Object>) -> bool {
    match object {
        None => false,
        Some(object) => {
            object.len() == 0 && object.xattr_count() == 1 && object.key_count() == 0
        }
    }
}

/// True if a call has this code and output, takes so many steps, and leaves one xattr.
fn is_answer(outcome: &Outcome, code: i64, output: &[u8], steps: usize) -> bool {
    outcome.code == code
        && outcome.steps == steps
        && outcome.output.as_slice() == output
        && has_one_xattr(outcome.change.after())
}

/// The outcome of a client's call of `lock`.
fn locked<R: Abort>(
    rt: &R,
    alloc: Global,
    class: &VerifiedClass,
    object: Option<&Object>,
    client: u32,
) -> Outcome {
    call(alloc, class, "lock", object, client, &[]).expect(rt, "an answer")
}

/// True if a client's call of `lock` has this code, in so many steps.
fn answers_in<R: Abort>(
    rt: &R,
    alloc: Global,
    class: &VerifiedClass,
    object: Option<&Object>,
    client: u32,
    (code, steps): (i64, usize),
) -> bool {
    let outcome = locked(rt, alloc, class, object, client);
    let is_right = is_answer(&outcome, code, &[], steps);
    drop(outcome);
    is_right
}

/// A lock is taken, refused to another and kept.
#[test]
fn steps_of_locks(rt: HostRuntime) {
    let class = load_lock(rt.alloc()).expect(&rt, "a class");
    let first = locked(&rt, rt.alloc(), &class, None, 1);
    see(&rt, is_answer(&first, 0, &[], 20), "taken in 20 steps");
    let object = first.change.after();
    let is_refused = answers_in(&rt, rt.alloc(), &class, object, 2, (-16, 16));
    see(&rt, is_refused, "refused in 16 steps");
    let is_kept = answers_in(&rt, rt.alloc(), &class, object, 1, (0, 15));
    see(&rt, is_kept, "kept in 15 steps");
    drop(first);
    drop(class);
}

/// True if `getxattr` of the name `x` outputs the value of that xattr, which `setxattr` has no
/// input for, in its eight steps.
fn gets<R: Abort>(rt: &R, alloc: Global, class: &VerifiedClass, value: &[u8]) -> bool {
    let object = calls::set_xattr(alloc, None, b"x", value).expect(rt, "an object");
    let outcome = call(alloc, class, "getxattr", Some(&object), 1, b"x").expect(rt, "an answer");
    let is_value = is_answer(&outcome, 4096, value, 8);
    drop(outcome);
    drop(object);
    is_value
}

#[test]
fn gets_the_longest_xattr(rt: HostRuntime) {
    let class = load_obj(rt.alloc()).expect(&rt, "a class");
    let mut value = Vec::from_elem(rt.alloc(), 3u8, 4095).expect(&rt, "memory");
    value.push(9).expect(&rt, "memory");
    see(&rt, gets(&rt, rt.alloc(), &class, &value), "4,096 bytes");
    drop(class);
}
