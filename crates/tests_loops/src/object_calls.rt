//! Worked calls of methods with loops on objects, by budgets.

use crate::made::{Heads, loops};
use bpf_asm::assemble;
use bpf_decode::{ClassImage, Method, RuleSet};
use interp::{CallError, Outcome};
use loop_calls::SPENT_CODE;
use loop_classes::{LoopClass, verify_loops};
use loop_heads::PlaceKind;
use loop_objects::call_loops;
use object_store::{Object, calls};
use std::alloc::Global;

/// A method: what it may do to the object (1 read, 2 write), its lines and its heads.
#[derive(Clone, Copy)]
struct Looping {
    flags: u8,
    lines: &'static str,
    heads: Heads,
}

/// The sum of the input's bytes, by an index.
const SUM: Looping = Looping {
    flags: 1,
    lines: "mov r0, 0; mov r4, 0; jge r4, r2, +6; mov r5, r1; add r5, r4; ldxb r5, [r5+0];
        add r0, r5; add r4, 1; ja -7; exit",
    heads: &[(2, &[(0, PlaceKind::Any), (4, PlaceKind::Unsigned(0, 16))])],
};

/// It writes eight bytes after the other, and never ends.
const GROW: Looping = Looping {
    flags: 2,
    lines: "mov r6, 0; mov r1, r6; mov r2, r10; add r2, -8; mov r3, 8; call 3; add r6, 8; ja -7",
    heads: &[(
        1,
        &[
            (1, PlaceKind::Unset),
            (2, PlaceKind::Unset),
            (3, PlaceKind::Unset),
            (6, PlaceKind::Any),
        ],
    )],
};

/// It creates the object; its head is at the first slot.
const CREATE: Looping = Looping {
    flags: 2,
    lines: "mov r1, 1; call 14; exit",
    heads: &[(0, &[])],
};

/// The same, and it declares no loops.
const PLAIN: Looping = Looping {
    flags: 2,
    lines: "mov r1, 1; call 14; exit",
    heads: &[],
};

/// It writes two zeros at 0, 2 and 4.
const THRICE: Looping = Looping {
    flags: 2,
    lines: "mov r6, 0; mov r1, r6; mov r2, r10; add r2, -8; mov r3, 2; call 3; add r6, 2;
        jlt r6, 5, -7; mov r0, r6; exit",
    heads: &[(
        1,
        &[
            (1, PlaceKind::Unset),
            (2, PlaceKind::Unset),
            (3, PlaceKind::Unset),
            (6, PlaceKind::Unsigned(0, 4)),
        ],
    )],
};

/// The data of an object; none if it is absent.
type Data = Option<&'static [u8]>;

/// A method and its budget, the object before and the input; code, steps and the object after.
type Row = (Looping, u32, Data, &'static [u8], i64, usize, Data);

#[rattlefmt::skip]
const ROWS: [Row; 12] = [
    (SUM, 100, None, b"\x01\x02\x03", 6, 25, None),
    (SUM, 25, Some(b"abc"), b"\x01\x02\x03", 6, 25, Some(b"abc")),
    (SUM, 24, None, b"\x01\x02\x03", -62, 24, None),
    (GROW, 20, None, b"", -62, 20, None),
    (GROW, 1000, Some(b"abc"), b"", -62, 1000, Some(b"abc")),
    (CREATE, 66, None, b"", 0, 3, Some(b"")),
    (CREATE, 66, Some(b"abc"), b"", -17, 3, Some(b"abc")),
    (CREATE, 65, None, b"", -62, 65, None),
    (PLAIN, 1, None, b"", 0, 3, Some(b"")),
    (THRICE, 213, None, b"", 6, 24, Some(b"\0\0\0\0\0\0")),
    (THRICE, 213, Some(b"abcdefgh"), b"", 6, 24, Some(b"\0\0\0\0\0\0gh")),
    (THRICE, 212, Some(b"abcdefgh"), b"", -62, 212, Some(b"abcdefgh")),
];

/// The class of a method `f` of in_cap and out_cap 16.
fn class(alloc: Global, looping: Looping, budget: u32) -> Option<LoopClass> {
    let text = String::from_str(alloc, looping.lines).ok()?;
    let text = text.replace(alloc, ';', "\n").ok()?;
    let code = assemble(alloc, &text).ok()?;
    let name = String::from_str(alloc, "f").ok()?;
    let mut method = Method::new(name, looping.flags, 16, 16, code);
    if !looping.heads.is_empty() {
        let loops = loops(alloc, budget, looping.heads)?.ok()?;
        method = method.with_loops(Some(loops));
    }
    let mut methods = Vec::new(alloc);
    methods.push(method).ok()?;
    let image = ClassImage::new(methods, RuleSet::Three).ok()?;
    verify_loops(alloc, &image).ok()
}

/// An object of that data with an xattr; none if memory was refused.
fn with_xattr(alloc: Global, data: &[u8]) -> Option<Object> {
    let object = calls::write(alloc, None, 0, data).ok()?;
    calls::set_xattr(alloc, Some(&object), b"x", b"1").ok()
}

/// The same with a key.
fn object(alloc: Global, data: &[u8]) -> Option<Object> {
    let object = with_xattr(alloc, data)?;
    calls::set_key(alloc, Some(&object), b"k", b"2").ok()
}

/// True if an object has that data.
fn has_data(object: &Object, data: &[u8]) -> bool {
    let mut bytes = [0; 16];
    let count = object.read(0, &mut bytes);
    &bytes[..count] == data
}

/// True if the object is such.
fn is_object(object: Option<&Object>, data: Data) -> bool {
    match (object, data) {
        (None, None) => true,
        (Some(object), Some(data)) => has_data(object, data),
        _ => false,
    }
}

/// True if a call gives that answer, and leaves an object's names as they were.
fn answers(alloc: Global, row: &Row) -> Option<bool> {
    let (looping, budget, before, input, code, steps, after) = *row;
    let class = class(alloc, looping, budget)?;
    let object = match before {
        Some(data) => Some(object(alloc, data)?),
        None => None,
    };
    let outcome = call_loops(alloc, &class, "f", object.as_ref(), 7, input).ok()?;
    let Outcome {
        code: number,
        output,
        change,
        steps: count,
    } = outcome;
    let names = match (change.before(), change.after()) {
        (Some(before), Some(after)) => {
            after.xattr(b"x") == before.xattr(b"x") && after.key(b"k") == before.key(b"k")
        }
        _ => true,
    };
    Some(
        number == code
            && count == steps
            && output.is_empty()
            && is_object(change.before(), before)
            && is_object(change.after(), after)
            && names,
    )
}

/// The refusal of a call of a method on an input.
fn refusal(alloc: Global, class: &LoopClass, method: &str, input: &[u8]) -> Option<CallError> {
    call_loops(alloc, class, method, None, 7, input).err()
}

#[test]
fn answers_on_objects(rt: HostRuntime) {
    for (number, row) in ROWS.iter().enumerate() {
        assert!(rt; answers(rt.alloc(), row) == Some(true), "{number}");
    }
    assert!(rt; SPENT_CODE == -62);
}

#[test]
fn refuses_calls(rt: HostRuntime) {
    let class = class(rt.alloc(), SUM, 100).expect(&rt, "a class");
    let none = refusal(rt.alloc(), &class, "g", &[0; 17]);
    assert!(rt; none == Some(CallError::NoMethod));
    let long = refusal(rt.alloc(), &class, "f", &[0; 17]);
    assert!(rt; long == Some(CallError::InputTooLong));
}
