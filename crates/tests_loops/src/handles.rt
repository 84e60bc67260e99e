//! Calls of held classes whose methods may loop, on objects in their flat form and on parts.

use bpf_decode::{DecodeError, write_image};
use class_calls::{
    Answer, ClassCall, ClassError, ClassHandle, MethodError, PartCall, PartCallError,
};
use class_loops::{HeldClass, LoopClassError, LoopHandle, OverBudget, load_loops};
use loop_asm::assemble_class;
use object_store::{Limits, NameLimits};
use part_bytes::Need;
use std::alloc::Global;
use verifier::Rule;

/// `grow` never ends; `look` reads the first two bytes of the data; `make` creates the object, and
/// declares no loops; `sum` adds the input's bytes; `thrice` writes two zeros at 0, 2 and 4.
const CLASS: &str = ".rules 3
.method grow w 0 0
.budget 20
mov r6, 0
.head r1 unset, r2 unset, r3 unset, r6 any
mov r1, r6
mov r2, r10
add r2, -8
mov r3, 8
call 3
add r6, 8
ja -7
.method look r 0 0
.budget 142
mov r6, 0
.head r1 unset, r2 unset, r3 unset, r6 0 1, s63 any
mov r1, r6
mov r2, r10
add r2, -8
mov r3, 1
call 2
add r6, 1
jlt r6, 2, -7
exit
.method make w 0 0
mov r1, 1
call 14
exit
.method sum r 16 0
.budget 100
mov r0, 0
mov r4, 0
.head r0 any, r4 0 16
jge r4, r2, +6
mov r5, r1
add r5, r4
ldxb r5, [r5+0]
add r0, r5
add r4, 1
ja -7
exit
.method thrice w 0 0
.budget 1000
mov r6, 0
.head r1 unset, r2 unset, r3 unset, r6 0 4
mov r1, r6
mov r2, r10
add r2, -8
mov r3, 2
call 3
add r6, 2
jlt r6, 5, -7
mov r0, r6
exit
";

/// A head that leaves out what a loop changes.
const REFUSED: &str = ".rules 3
.method f r 0 0
.budget 9
mov r0, 0
.head
mov r0, 1
ja -2
";

/// What it writes.
#[rattlefmt::skip]
const ZEROS: [u8; 45] = [
    8, 0, 0, 0, 0, 0, 0, 0, 0, 2, 0, 0, 0, 0, 0,
    8, 2, 0, 0, 0, 0, 0, 0, 0, 2, 0, 0, 0, 0, 0,
    8, 4, 0, 0, 0, 0, 0, 0, 0, 2, 0, 0, 0, 0, 0,
];

/// An object of the byte `x` alone.
const ONE: [u8; 10] = [1, 1, 0, 0, 0, 0x78, 0, 0, 0, 0];

/// A part of an object of 5,000 bytes of which nothing else is known.
const SIZE: [u8; 21] = [
    1, 0x88, 0x13, 0, 0, 0, 0, 0, 0, 0, 0, 0, 0, 0, 0, 0, 0, 0, 0, 0, 0,
];

/// The same with its first block of 4,096 zeros, as the bytes before and after the block.
const BLOCK: ([u8; 21], [u8; 8]) = (
    [
        1, 0x88, 0x13, 0, 0, 0, 0, 0, 0, 1, 0, 0, 0, 0, 0, 0, 0, 0, 0, 0, 0,
    ],
    [0; 8],
);

/// A host that counts no names.
const LIMITS: Limits = Limits {
    bytes: 1 << 40,
    xattrs: NameLimits {
        count: None,
        length: 64,
    },
    keys: NameLimits {
        count: None,
        length: 64,
    },
};

fn image(alloc: Global, text: &str) -> Option<Vec<u8>> {
    let class = assemble_class(alloc, text).ok()?;
    write_image(alloc, &class).ok()
}

/// The class, for a host whose greatest budget is 1,000.
fn opened(alloc: Global) -> Option<LoopHandle> {
    let image = image(alloc, CLASS)?;
    LoopHandle::open(alloc, &image, 1000).ok()
}

/// Method, flat form, client and input; the number of the answer, and of an answer its code, steps
/// and edits.
type Row = (
    &'static [u8],
    &'static [u8],
    u64,
    &'static [u8],
    i32,
    i64,
    usize,
    &'static [u8],
);

#[rattlefmt::skip]
const CALLS: [Row; 12] = [
    (b"grow", &[0], 7, b"", 0, -62, 20, &[]),
    (b"grow", &ONE, 7, b"", 0, -62, 20, &[]),
    (b"look", &[0], 7, b"", 0, -2, 16, &[]),
    (b"make", &[0], 7, b"", 0, 0, 3, &[1]),
    (b"make", &ONE, 7, b"", 0, -17, 3, &[]),
    (b"sum", &[0], 0xffff_ffff, b"\x01\x02\x03", 0, 6, 25, &[]),
    (b"thrice", &ONE, 7, b"", 0, 6, 24, &ZEROS),
    (b"summ", &[2], u64::MAX, &[0; 17], -95, 0, 0, &[]),
    (b"sum", &[2], u64::MAX, &[0; 17], -7, 0, 0, &[]),
    (b"sum", &[0], 0x1_0000_0000, b"", -22, 0, 0, &[]),
    (b"sum", &[2], 7, b"", -22, 0, 0, &[]),
    (b"make", &[2], 7, b"", -22, 0, 0, &[]),
];

/// The number of an answer: of one that isn't the row's 99.
fn number(found: Result<Answer, MethodError>, row: &Row) -> i32 {
    match found {
        Ok(answer) => {
            let is_same = answer.code == row.5
                && answer.steps == row.6
                && answer.output.is_empty()
                && answer.edits.as_slice() == row.7;
            if is_same { 0 } else { 99 }
        }
        Err(MethodError::NoMethod) => -95,
        Err(MethodError::InputTooLong) => -7,
        Err(MethodError::Malformed) => -22,
        Err(MethodError::NoMemory) => -12,
    }
}

fn request(row: &Row) -> ClassCall<'static> {
    ClassCall {
        method: row.0,
        object: row.1,
        caller: row.2,
        input: row.3,
    }
}

/// The number of a call by a handle, made twice, and by another of its class; 98 if they differ.
fn by_handles(alloc: Global, row: &Row) -> Option<i32> {
    let mut handle = opened(alloc)?;
    let first = number(handle.call(alloc, request(row)), row);
    let second = number(handle.call(alloc, request(row)), row);
    let mut other = HeldClass::Looped(handle.share(alloc).ok()?);
    drop(handle);
    let third = number(other.call(alloc, request(row)), row);
    let mut last = other.share(alloc).ok()?;
    drop(other);
    let fourth = number(last.call(alloc, request(row)), row);
    Some(if first == second && third == fourth && first == third {
        first
    } else {
        98
    })
}

#[test]
fn calls_on_objects(rt: HostRuntime) {
    for (n, row) in CALLS.iter().enumerate() {
        assert!(rt; by_handles(rt.alloc(), row) == Some(row.4), "{n}");
    }
}

/// What a call on a part answers.
#[derive(Clone, Copy, PartialEq)]
enum OnPart {
    /// Code, steps and bytes of edits.
    Answer(i64, usize, usize),
    /// A need of blocks: the first, and how many.
    Blocks(u64, u8),
    /// The number of a refusal.
    Refused(i32),
}

/// Method, part (none: the one with a block), client, input and limits' bytes; and the answer.
type PartRow = (
    &'static [u8],
    Option<&'static [u8]>,
    u64,
    &'static [u8],
    OnPart,
);

#[rattlefmt::skip]
const ON_PARTS: [PartRow; 11] = [
    (b"grow", Some(&[0]), 7, b"", OnPart::Answer(-62, 20, 0)),
    (b"look", Some(&[0]), 7, b"", OnPart::Answer(-2, 16, 0)),
    (b"look", Some(&SIZE), 7, b"", OnPart::Blocks(0, 1)),
    (b"look", None, 7, b"", OnPart::Answer(1, 16, 0)),
    (b"make", Some(&SIZE), 7, b"", OnPart::Answer(-17, 3, 0)),
    (b"sum", Some(&SIZE), 7, b"\x01\x02\x03", OnPart::Answer(6, 25, 0)),
    (b"thrice", Some(&SIZE), 7, b"", OnPart::Answer(6, 24, 45)),
    (b"summ", Some(&[2]), u64::MAX, &[0; 17], OnPart::Refused(-95)),
    (b"sum", Some(&[2]), u64::MAX, &[0; 17], OnPart::Refused(-7)),
    (b"sum", Some(&[0]), 0x1_0000_0000, b"", OnPart::Refused(-22)),
    (b"make", Some(&[2]), 7, b"", OnPart::Refused(-22)),
];

/// The part with a block.
fn with_block(alloc: Global) -> Option<Vec<u8>> {
    let mut part = Vec::new(alloc);
    part.extend_from_slice(&BLOCK.0).ok()?;
    part.extend_from_slice(&[0; 4096]).ok()?;
    part.extend_from_slice(&BLOCK.1).ok()?;
    Some(part)
}

fn on_part(alloc: Global, class: &mut HeldClass, row: &PartRow, part: &[u8]) -> OnPart {
    let request = PartCall {
        method: row.0,
        part,
        caller: row.2,
        limits: LIMITS,
        input: row.3,
    };
    match class.call_part(alloc, request) {
        Ok(answer) => OnPart::Answer(answer.code, answer.steps, answer.edits.len()),
        Err(PartCallError::Needs(Need::Blocks { first, count })) => OnPart::Blocks(first, count),
        Err(PartCallError::Needs(_)) => OnPart::Refused(99),
        Err(PartCallError::NoMethod) => OnPart::Refused(-95),
        Err(PartCallError::InputTooLong) => OnPart::Refused(-7),
        Err(PartCallError::Malformed) => OnPart::Refused(-22),
        Err(PartCallError::NoMemory) => OnPart::Refused(-12),
        Err(PartCallError::Full) => OnPart::Refused(-28),
    }
}

#[test]
fn calls_on_parts(rt: HostRuntime) {
    let mut class = HeldClass::Looped(opened(rt.alloc()).expect(&rt, "a class"));
    let block = with_block(rt.alloc()).expect(&rt, "a part");
    for (n, row) in ON_PARTS.iter().enumerate() {
        let part = match row.1 {
            Some(part) => part,
            None => block.as_slice(),
        };
        assert!(rt; on_part(rt.alloc(), &mut class, row, part) == row.4, "{n}");
    }
}

/// What opening a class for a budget comes to: 0, or why it is refused.
fn refusal(found: Result<LoopHandle, LoopClassError>) -> (i32, usize, u32) {
    match found {
        Ok(_) => (0, 0, 0),
        Err(LoopClassError::Class(ClassError::Image(error))) => {
            let is_short = error.error == DecodeError::Truncated;
            (if is_short { 1 } else { 99 }, error.methods, 0)
        }
        Err(LoopClassError::Class(ClassError::Verdict(refusal))) => {
            let is_backward = refusal.rule == Rule::Backward && refusal.slot == 2;
            (if is_backward { 2 } else { 99 }, refusal.method, 0)
        }
        Err(LoopClassError::Class(ClassError::NoMemory)) => (-12, 0, 0),
        Err(LoopClassError::TooLarge(OverBudget { method, budget })) => (-27, method, budget),
    }
}

/// A host's greatest budget, and what the class comes to: the first method that declares a greater
/// one, and what it declares.
const BUDGETS: [(u32, i32, usize, u32); 6] = [
    (1_048_576, 0, 0, 0),
    (1000, 0, 0, 0),
    (999, -27, 4, 1000),
    (141, -27, 1, 142),
    (20, -27, 1, 142),
    (19, -27, 0, 20),
];

#[test]
fn opens_by_budgets(rt: HostRuntime) {
    let class = image(rt.alloc(), CLASS).expect(&rt, "an image");
    for (most, number, method, budget) in BUDGETS {
        let found = refusal(LoopHandle::open(rt.alloc(), &class, most));
        assert!(rt; found == (number, method, budget));
    }
    assert!(rt; load_loops(rt.alloc(), &class).is_ok());
    let wrong = image(rt.alloc(), REFUSED).expect(&rt, "an image");
    assert!(rt; refusal(LoopHandle::open(rt.alloc(), &wrong, 8)) == (2, 0, 0));
    assert!(rt; refusal(LoopHandle::open(rt.alloc(), b"", 8)) == (1, 0, 0));
}

/// What a handle tells of its methods, by their numbers, and as a handle of either kind.
#[test]
fn methods_by_number(rt: HostRuntime) {
    let handle = opened(rt.alloc()).expect(&rt, "a class");
    let (name, declared) = handle.method_at(4).expect(&rt, "a method");
    assert!(rt; name == b"thrice".as_slice());
    assert!(rt; declared.flags == 2 && declared.in_cap == 0 && declared.parts.number() == 1);
    assert!(rt; handle.method_at(5).is_none());
    assert!(rt; handle.place_of(b"make") == Some(2) && handle.place_of(b"mak").is_none());
    let held = HeldClass::Looped(handle);
    assert!(rt; held.place_of(b"sum") == Some(3) && held.place_of(b"").is_none());
    assert!(rt; held.method_at(0).is_some() && held.method_at(5).is_none());
}

/// A class without loops, held by the other verdict, that creates the object.
const MAKE: &str = ".rules 3\n.method make w 0 0\nmov r1, 1\ncall 14\nexit\n";

#[test]
fn plain_classes(rt: HostRuntime) {
    let image = image(rt.alloc(), MAKE).expect(&rt, "an image");
    let class = ClassHandle::open(rt.alloc(), &image)
        .ok()
        .expect(&rt, "a class");
    let mut held = HeldClass::Plain(class);
    let row = &CALLS[3];
    assert!(rt; number(held.call(rt.alloc(), request(row)), row) == 0);
    let mut other = held.share(rt.alloc()).expect(&rt, "a copy");
    assert!(rt; on_part(rt.alloc(), &mut other, &ON_PARTS[4], &SIZE) == ON_PARTS[4].4);
    assert!(rt; other.place_of(b"make") == Some(0) && other.method_at(1).is_none());
}
