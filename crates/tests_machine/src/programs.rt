//! Whole methods on an object: their code, steps and output, and the object afterwards.
//!
//! A line has the method's flags, in_cap and out_cap; the object and the input; the program, to
//! whose end an `exit` is added; and the code, the steps, the output, and the object after. Without
//! the last two there is no output, and the object is as it was.

use crate::methods::{class, outcome};
use crate::words::{bytes, halves, is_object, next, number, object};
use interp::Outcome;
use std::alloc::Global;
use std::process::Abort;

/// Returns, stores, loads and jumps.
const PLAIN: &str = "\
r 0 0 | none - | mov r0, 0 | 0 2
r 9 9 | none - | mov r0, 0 | 0 2
r 0 0 | none - | mov r1, 0; add r1, 0x11223344; mov r0, r1 | 0x11223344 4
r 0 0 | none - | lddw r0, 0x5566778811223344 | 0x5566778811223344 2
r 0 0 | none - | lddw r0, 0x0102030405060708 | 0x0102030405060708 2
r 0 0 | none - | mov r0, 5; add r0, -7 | -2 3
r 0 0 | none - | mov r0, 0; ja +1; mov r0, 1 | 0 3
r 0 0 | none - | stxdw [r10-512], r2; mov r0, 0 | 0 3
r 8 4 | none 0x01 | stxdw [r10-512], r2; mov r0, 0 | 0 3
r 0 0 | none - | stw [r10-7], 0x01020304; ldxh r0, [r10-6] | 0x0203 3
r 2 4 | none - | stw [r10-7], 0x01020304; ldxh r0, [r10-6] | 0x0203 3
r 8 0 | none 0x010203040506 | ldxw r0, [r1+1] | 0x05040302 2
r 8 0 | none 0x010203040506 | stxdw [r10-8], r2; ja +1; exit; ldxdw r0, [r10-8]; add r0, -1 | 5 5
r 2 4 | none 0x6162 | ldxb r0, [r1+1] | 0x62 2
r 2 4 | none 0x61 | ldxb r0, [r1+1] | 0 2
r 0 4 | none - | stb [r3+0], 65; stb [r3+1], 66; stb [r3+2], 67; mov r1, 2; call 13; mov r0, 9 | 9 7 AB
r 0 5 | none - | mov r1, 5; call 13 | 0 3 0x0000000000
r 0 4 | none - | stb [r3+0], 65; mov r1, 4; call 13; mov r1, 1; call 13 | 0 6 A
r 4 4 | none - | stb [r3+0], 65; mov r1, 1; call 13; mov r0, -1 | -1 5
r 0 0 | none - | call 15 | 7 2
";

/// Two instructions that run as one operation: a jump to the second one of them, and all their
/// results. Of `jeq r2, 16` the sum before it isn't an operand, and a load overwrites its base.
const PAIRS: &str = "\
r 16 0 | none - | mov r0, 5; mov r4, 100; jeq r2, 0, +1; ldxb r4, [r1+0]; add r0, r4 | 105 5
r 16 0 | none 0x010203 | mov r0, 5; mov r4, 100; jeq r2, 0, +1; ldxb r4, [r1+0]; add r0, r4 | 6 6
r 16 0 | none - | mov r0, 1; jeq r2, 0, +1; and r0, 2; jne r0, 0, +1; mov r0, 9 | 1 4
r 16 0 | none 0x010203 | mov r0, 1; jeq r2, 0, +1; and r0, 2; jne r0, 0, +1; mov r0, 9 | 9 6
r 16 0 | none 0x0102030405060708090a0b0c0d0e0f10 | mov r0, r2; and r0, 15; jeq r0, 0, +1; mov r0, 9 | 0 4
r 16 0 | none 0x010203 | mov r0, r2; and r0, 15; jeq r0, 0, +1; mov r0, 9 | 9 5
r 16 0 | none 0x0102030405060708090a0b0c0d0e0f10 | mov r0, r2; and r0, 15; jne r0, 0, +1; mov r0, 9 | 9 5
r 16 0 | none 0x010203 | mov r0, r2; and r0, 15; jne r0, 0, +1; mov r0, 9 | 3 4
r 16 0 | none 0x0102030405060708090a0b0c0d0e0f10 | lddw r0, 3; add r0, -3; jeq r2, 16, +1; mov r0, 9 | 0 4
r 16 0 | none 0x010203 | lddw r0, 3; add r0, -3; jeq r2, 16, +1; mov r0, 9 | 9 5
r 16 0 | none 0x010203 | lddw r0, 3; add r0, -4; jne r0, -1, +1; mov r0, 9 | 9 5
r 16 0 | none 0x0102030405060708090a0b0c0d0e0f10 | mov r3, r1; add r3, 1; ldxb r0, [r3+0] | 2 4
r 16 0 | none - | mov r0, 5; mul r0, r2; add r0, r2; add r0, -7 | -7 5
r 16 0 | none 0x0102030405060708090a0b0c0d0e0f10 | mov r0, 5; mul r0, r2; add r0, r2; add r0, -7 | 89 5
r 16 0 | none 0x0102030405060708090a0b0c0d0e0f10 | ldxb r1, [r1+2]; mul r1, r1; mov r0, r1 | 9 4
";

/// Reads and writes of the object. A method that fails leaves no trace.
const OBJECTS: &str = "\
r 0 4 | hello - | mov r2, r3; mov r1, 1; mov r3, 4; call 2; mov r6, r0; mov r1, 4; call 13; mov r0, r6 | 4 9 ello
r 0 4 | hello - | mov r2, r3; mov r1, 3; mov r3, 4; call 2; mov r6, r0; mov r1, 4; call 13; mov r0, r6 | 2 9 0x6c6f0000
r 0 4 | hello - | mov r2, r3; mov r1, 5; mov r3, 4; call 2; mov r6, r0; mov r1, 4; call 13; mov r0, r6 | 0 9 0x00000000
r 0 4 | hello - | mov r2, r3; mov r1, 6; mov r3, 4; call 2; mov r6, r0; mov r1, 4; call 13; mov r0, r6 | 0 9 0x00000000
r 0 4 | none - | mov r2, r3; mov r1, 1; mov r3, 4; call 2; mov r6, r0; mov r1, 4; call 13; mov r0, r6 | -2 9
w 3 0 | none abc | mov r2, r1; mov r1, 0; mov r3, 3; call 3; mov r0, 7 | 7 6 - abc
w 3 9 | 12345 abc | mov r2, r1; mov r1, 0; mov r3, 3; call 3; mov r0, 7 | 7 6 - abc45
w 3 0 | a bcd | mov r2, r1; mov r1, 5; mov r3, 2; call 3 | 2 5 - 0x61000000006263
w 3 0 | xy abc | mov r2, r1; mov r1, 4; mov r3, 2; call 3 | 2 5 - 0x787900006162
w 3 0 | a bcd | mov r2, r1; mov r1, 65534; mov r3, 3; call 3; add r0, 27 | 0 6
w 3 0 | xy abc | mov r2, r1; mov r1, 65535; mov r3, 2; call 3 | -27 5
w 3 0 | none abc | mov r2, r1; mov r1, 9; mov r3, 0; call 3 | 0 5 - -
w 3 0 | none abc | mov r2, r1; mov r1, 0; mov r3, 3; call 3; mov r0, -5 | -5 6
w 3 9 | z abc | mov r2, r1; mov r1, 0; mov r3, 3; call 3; mov r0, -5 | -5 6
w 0 0 | hello - | mov r1, 2; call 4; mov r0, -1 | -1 4
w 0 0 | h/lock=0x01/a=b - | call 5; mov r0, -1 | -1 3
w 4 0 | none lock | mov r3, r1; mov r4, r2; call 7; mov r0, -5 | -5 5
w 4 0 | h/lock=0x01 lock | mov r3, r1; mov r4, r2; call 7; mov r0, -5 | -5 5
w 4 0 | none lock | mov r3, r1; mov r4, r2; call 10; mov r0, -5 | -5 5
w 4 0 | h//lock=0x01 lock | mov r3, r1; mov r4, r2; call 10; mov r0, -5 | -5 5
w 0 0 | h/lock=0x01/a=b - | call 5; mov r1, 1; call 14 | 0 4 - -
w 41 0 | none lock | mov r3, r1; mov r4, r2; call 7 | 0 4 - -/lock=lock
w 41 0 | h/lock=0x01,a=0x02 lock | mov r3, r1; mov r4, r2; call 7 | 0 4 - h/lock=lock,a=0x02
w 64 0 | none @64 | mov r3, r1; mov r4, r2; call 10 | 0 4 - -//@64=@64
";

/// Ranges that overlap: a name is read whole before the value is written over it, and a key before
/// the next one is. The first two lines have them on the stack. In the others the method copies its
/// input to the output, where the ranges lie, and returns 100 more than the helper. Where there is
/// no room, or no such key, nothing is written.
const OVERLAPS: &str = "\
r 0 0 | h//a=0x01,bc=0x02,d=0x03 - | stb [r10-2], 97; mov r1, r10; add r1, -2; mov r2, 1; mov r3, r1; mov r4, 2; call \
    12; ldxh r0, [r10-2] | 0x6362 9
r 0 0 | h//a=0x01,bc=0x02,d=0x03 - | sth [r10-2], 25442; mov r1, r10; add r1, -2; mov r2, 2; mov r3, r10; add r3, -1; \
    mov r4, 1; call 12; ldxh r0, [r10-2] | 0x6462 10
r 12 12 | -/lock=12345678/bb=,lock=12345678 ..lock...... | ldxdw r5, [r1+0]; stxdw [r3+0], r5; ldxw r5, [r1+8]; stxw \
    [r3+8], r5; mov r1, r3; add r1, 2; mov r2, 4; add r3, 1; mov r4, 9; call 6; mov r6, r0; mov r1, 12; call 13; mov \
    r0, r6; add r0, 100 | 108 16 .12345678...
r 12 12 | -/lock=12345678/bb=,lock=12345678 ..lock...... | ldxdw r5, [r1+0]; stxdw [r3+0], r5; ldxw r5, [r1+8]; stxw \
    [r3+8], r5; mov r1, r3; add r1, 2; mov r2, 4; add r3, 3; mov r4, 8; call 9; mov r6, r0; mov r1, 12; call 13; mov \
    r0, r6; add r0, 100 | 108 16 ..l12345678.
r 12 12 | -/lock=12345678/bb=,lock=12345678 ..lock...... | ldxdw r5, [r1+0]; stxdw [r3+0], r5; ldxw r5, [r1+8]; stxw \
    [r3+8], r5; mov r1, r3; add r1, 2; mov r2, 4; add r3, 2; mov r4, 7; call 6; mov r6, r0; mov r1, 12; call 13; mov \
    r0, r6; add r0, 100 | 66 16 ..lock......
r 12 12 | -/lock=12345678/bb=,lock=12345678 a........... | ldxdw r5, [r1+0]; stxdw [r3+0], r5; ldxw r5, [r1+8]; stxw \
    [r3+8], r5; mov r1, r3; add r1, 0; mov r2, 1; add r3, 0; mov r4, 2; call 12; mov r6, r0; mov r1, 12; call 13; mov \
    r0, r6; add r0, 100 | 102 16 bb..........
r 12 12 | -/lock=12345678/bb=,lock=12345678 bb.......... | ldxdw r5, [r1+0]; stxdw [r3+0], r5; ldxw r5, [r1+8]; stxw \
    [r3+8], r5; mov r1, r3; add r1, 0; mov r2, 2; add r3, 1; mov r4, 9; call 12; mov r6, r0; mov r1, 12; call 13; mov \
    r0, r6; add r0, 100 | 104 16 block.......
r 12 12 | -/lock=12345678/bb=,lock=12345678 lock........ | ldxdw r5, [r1+0]; stxdw [r3+0], r5; ldxw r5, [r1+8]; stxw \
    [r3+8], r5; mov r1, r3; add r1, 0; mov r2, 4; add r3, 0; mov r4, 9; call 12; mov r6, r0; mov r1, 12; call 13; mov \
    r0, r6; add r0, 100 | 39 16 lock........
r 12 12 | -/lock=12345678/bb=,lock=12345678 ............ | ldxdw r5, [r1+0]; stxdw [r3+0], r5; ldxw r5, [r1+8]; stxw \
    [r3+8], r5; mov r1, r3; add r1, 12; mov r2, 0; add r3, 0; mov r4, 2; call 12; mov r6, r0; mov r1, 12; call 13; mov \
    r0, r6; add r0, 100 | 102 16 bb..........
r 12 12 | -/lock=12345678/bb=,lock=12345678 bb.......... | ldxdw r5, [r1+0]; stxdw [r3+0], r5; ldxw r5, [r1+8]; stxw \
    [r3+8], r5; mov r1, r3; add r1, 0; mov r2, 2; add r3, 12; mov r4, 0; call 9; mov r6, r0; mov r1, 12; call 13; mov \
    r0, r6; add r0, 100 | 100 16 bb..........
";

/// True if the outcome is the one that words tell, of a call on the object that a word tells.
fn is_told(rt: &impl Abort, alloc: Global, outcome: &Outcome, before: &str, told: &str) -> bool {
    let mut words = told.split_whitespace();
    let (code, steps) = (number(rt, next(&mut words)), number(rt, next(&mut words)));
    let output = bytes(rt, alloc, words.next().unwrap_or("-"));
    let after = words.next().unwrap_or(before);
    outcome.code == code
        && outcome.steps == steps.cast_unsigned() as usize
        && outcome.output.as_slice() == output.as_slice()
        && is_object(rt, alloc, outcome.change.before(), before)
        && is_object(rt, alloc, outcome.change.after(), after)
}

/// True if a call of a line's method has the outcome that the line tells. `head` is the class's
/// text before the method.
fn is_line(rt: &impl Abort, alloc: Global, head: &str, line: &str) -> bool {
    let (declared, rest) = halves(line, '|');
    let (given, rest) = halves(rest, '|');
    let (program, told) = halves(rest, '|');
    let (before, input) = halves(given, ' ');
    let pieces = [head, ".method f ", declared, ";", program, ";exit"];
    let class = class(rt, alloc, &pieces);
    let object = object(rt, alloc, before);
    let input = bytes(rt, alloc, input);
    let outcome = outcome(rt, alloc, &class, object.as_ref(), &input);
    is_told(rt, alloc, &outcome, before, told)
}

/// Runs the methods of all lines. Returns their number.
fn run_all(rt: &impl Abort, alloc: Global, head: &str, text: &str) -> usize {
    let mut count = 0usize;
    for line in text.lines() {
        assert!(rt; is_line(rt, alloc, head, line), "{line}");
        count = count.wrapping_add(1);
    }
    count
}

#[test]
fn methods(rt: HostRuntime) {
    assert!(rt; run_all(&rt, rt.alloc(), "", PLAIN) == 20);
    assert!(rt; run_all(&rt, rt.alloc(), "", PAIRS) == 15);
}

#[test]
fn methods_on_objects(rt: HostRuntime) {
    assert!(rt; run_all(&rt, rt.alloc(), "", OBJECTS) == 24);
    assert!(rt; run_all(&rt, rt.alloc(), "", OVERLAPS) == 10);
}

/// In rule set 2: a pointer and a number come back from the stack as they were.
const SPILLED: &str = "\
r 0 1 | none - | stxdw [r10-8], r3; mov r0, 0; ldxdw r4, [r10-8]; stb [r4+0], 1 | 0 5
r 8 1 | none - | stxdw [r10-8], r3; ldxdw r4, [r10-8]; stb [r4+0], 65; mov r1, 1; call 13 | 0 6 A
r 8 1 | none 0x010203 | stxdw [r10-16], r1; stxdw [r10-8], r2; ldxdw r4, [r10-16]; ldxb r0, [r4+1]; ldxdw r5, [r10-8]; \
    add r0, r5 | 5 7
";

#[test]
fn methods_of_rule_set_2(rt: HostRuntime) {
    assert!(rt; run_all(&rt, rt.alloc(), ".rules 2;", SPILLED) == 3);
}
