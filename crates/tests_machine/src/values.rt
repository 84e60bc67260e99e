//! Short programs and the numbers that they return.
//!
//! A line has a program, to whose end an `exit` is added, its steps, and pairs `ARGUMENT=RESULT`:
//! the program with that argument in the place of `$` returns that hexadecimal number.

use crate::methods::{class, returns};
use crate::words::{halves, hex, number};
use std::alloc::Global;
use std::process::Abort;

/// The input of the loads.
const INPUT: [u8; 16] = [
    0x81, 0x02, 0x83, 0x04, 0x85, 0x06, 0x87, 0x08, 0x09, 0x8a, 0x0b, 0x8c, 0x0d, 0x8e, 0x0f, 0x90,
];

/// The bytes 1 to 16.
const RISING: [u8; 16] = [1, 2, 3, 4, 5, 6, 7, 8, 9, 10, 11, 12, 13, 14, 15, 16];

/// Single operations at their edges.
const PROGRAMS: &str = "\
mov r0, -13; smod r0, 3 | 3 | =ffffffffffffffff
lddw r0, 0x8000000000000000; sdiv r0, -1 | 3 | =8000000000000000
lddw r0, 0xffffffffffffffff; mov r1, 0; mod32 r0, r1 | 4 | =ffffffff
mov r0, 10; div r0, 0 | 3 | =0
lddw r0, 0x9abcdef0; be32 r0 | 3 | =f0debc9a
mov32 r0, -13; sdiv32 r0, 3 | 3 | =fffffffc
lddw r0, 0x80000000; arsh32 r0, 33 | 3 | =c0000000
mov r1, 128; movsx8_32 r0, r1 | 3 | =ffffff80
mov r1, 128; movsx8 r0, r1 | 3 | =ffffffffffffff80
mov r0, -1; jgt32 r0, 0, +1; mov r0, 7 | 3 | =ffffffffffffffff
mov r0, 3; ja32 +1; mov r0, 7 | 3 | =3
";

/// MOV of a register and of an immediate, and NEG.
const MOVED: &str = "\
lddw r1, $; mov r0, r1 | 3 | 0=0 1=1 0xffffffffffffffff=ffffffffffffffff 0x8000000000000000=8000000000000000 \
    0x7fffffffffffffff=7fffffffffffffff 0x80000000=80000000 0xffffffff=ffffffff
lddw r1, $; mov32 r0, r1 | 3 | 0=0 1=1 0xffffffffffffffff=ffffffff 0x8000000000000000=0 0x7fffffffffffffff=ffffffff \
    0x80000000=80000000 0xffffffff=ffffffff
lddw r0, $; neg r0 | 3 | 0=0 1=ffffffffffffffff 0xffffffffffffffff=1 0x8000000000000000=8000000000000000 \
    0x7fffffffffffffff=8000000000000001 0x80000000=ffffffff80000000 0xffffffff=ffffffff00000001
lddw r0, $; neg32 r0 | 3 | 0=0 1=ffffffff 0xffffffffffffffff=1 0x8000000000000000=0 0x7fffffffffffffff=1 \
    0x80000000=80000000 0xffffffff=1
mov r0, $ | 2 | 0=0 1=1 -1=ffffffffffffffff -2147483648=ffffffff80000000 2147483647=7fffffff
mov32 r0, $ | 2 | 0=0 1=1 -1=ffffffff -2147483648=80000000 2147483647=7fffffff
";

/// MOVSX.
const EXTENDED: &str = "\
lddw r1, $; movsx8 r0, r1 | 3 | 0=0 1=1 0xffffffffffffffff=ffffffffffffffff 0x8000000000000000=0 \
    0x7fffffffffffffff=ffffffffffffffff 0x80000000=0 0xffffffff=ffffffffffffffff 0x7f=7f 0x80=ffffffffffffff80 \
    0xff=ffffffffffffffff 0x123456789abcdef0=fffffffffffffff0 0x1122334455667788=ffffffffffffff88
lddw r1, $; movsx8_32 r0, r1 | 3 | 0=0 1=1 0xffffffffffffffff=ffffffff 0x8000000000000000=0 \
    0x7fffffffffffffff=ffffffff 0x80000000=0 0xffffffff=ffffffff 0x7f=7f 0x80=ffffff80 0xff=ffffffff \
    0x123456789abcdef0=fffffff0 0x1122334455667788=ffffff88
lddw r1, $; movsx16 r0, r1 | 3 | 0=0 1=1 0xffffffffffffffff=ffffffffffffffff 0x8000000000000000=0 \
    0x7fffffffffffffff=ffffffffffffffff 0x80000000=0 0xffffffff=ffffffffffffffff 0x7fff=7fff 0x8000=ffffffffffff8000 \
    0xffff=ffffffffffffffff 0x123456789abcdef0=ffffffffffffdef0 0x1122334455667788=7788
lddw r1, $; movsx16_32 r0, r1 | 3 | 0=0 1=1 0xffffffffffffffff=ffffffff 0x8000000000000000=0 \
    0x7fffffffffffffff=ffffffff 0x80000000=0 0xffffffff=ffffffff 0x7fff=7fff 0x8000=ffff8000 0xffff=ffffffff \
    0x123456789abcdef0=ffffdef0 0x1122334455667788=7788
lddw r1, $; movsx32 r0, r1 | 3 | 0=0 1=1 0xffffffffffffffff=ffffffffffffffff 0x8000000000000000=0 \
    0x7fffffffffffffff=ffffffffffffffff 0x80000000=ffffffff80000000 0xffffffff=ffffffffffffffff 0x7fffffff=7fffffff \
    0x80000000=ffffffff80000000 0xffffffff=ffffffffffffffff 0x123456789abcdef0=ffffffff9abcdef0 \
    0x1122334455667788=55667788
";

/// END.
const ORDERED: &str = "\
lddw r0, $; le16 r0 | 3 | 0x102030405060708=708 0xf1f2f3f4f5f6f7f8=f7f8
lddw r0, $; le32 r0 | 3 | 0x102030405060708=5060708 0xf1f2f3f4f5f6f7f8=f5f6f7f8
lddw r0, $; le64 r0 | 3 | 0x102030405060708=102030405060708 0xf1f2f3f4f5f6f7f8=f1f2f3f4f5f6f7f8
lddw r0, $; be16 r0 | 3 | 0x102030405060708=807 0xf1f2f3f4f5f6f7f8=f8f7
lddw r0, $; be32 r0 | 3 | 0x102030405060708=8070605 0xf1f2f3f4f5f6f7f8=f8f7f6f5
lddw r0, $; be64 r0 | 3 | 0x102030405060708=807060504030201 0xf1f2f3f4f5f6f7f8=f8f7f6f5f4f3f2f1
lddw r0, $; bswap16 r0 | 3 | 0x102030405060708=807 0xf1f2f3f4f5f6f7f8=f8f7
lddw r0, $; bswap32 r0 | 3 | 0x102030405060708=8070605 0xf1f2f3f4f5f6f7f8=f8f7f6f5
lddw r0, $; bswap64 r0 | 3 | 0x102030405060708=807060504030201 0xf1f2f3f4f5f6f7f8=f8f7f6f5f4f3f2f1
";

/// Loads at the ends of the input, the output and the stack.
const LOADED: &str = "\
ldxb r0, [$] | 2 | r1+0=81 r1+1=2 r1+14=f r1+15=90 r3+0=0 r3+15=0 r10-512=0 r10-1=0
ldxsb r0, [$] | 2 | r1+0=ffffffffffffff81 r1+1=2 r1+14=f r1+15=ffffffffffffff90 r3+0=0 r3+15=0 r10-512=0 r10-1=0
ldxh r0, [$] | 2 | r1+0=281 r1+1=8302 r1+13=f8e r1+14=900f r3+0=0 r3+14=0 r10-512=0 r10-2=0
ldxsh r0, [$] | 2 | r1+0=281 r1+1=ffffffffffff8302 r1+13=f8e r1+14=ffffffffffff900f r3+0=0 r3+14=0 r10-512=0 r10-2=0
ldxw r0, [$] | 2 | r1+0=4830281 r1+1=85048302 r1+11=f8e0d8c r1+12=900f8e0d r3+0=0 r3+12=0 r10-512=0 r10-4=0
ldxsw r0, [$] | 2 | r1+0=4830281 r1+1=ffffffff85048302 r1+11=f8e0d8c r1+12=ffffffff900f8e0d r3+0=0 r3+12=0 r10-512=0 \
    r10-4=0
ldxdw r0, [$] | 2 | r1+0=887068504830281 r1+1=908870685048302 r1+7=f8e0d8c0b8a0908 r1+8=900f8e0d8c0b8a09 r3+0=0 r3+8=0 \
    r10-512=0 r10-8=0
";

/// Stores at the ends of the output and of the stack, each with eight bytes loaded afterwards.
const STORED: &str = "\
lddw r5, 0x8877665544332211; stxb [r3+0], r5; ldxdw r0, [r3+0] | 4 | =11
lddw r5, 0x5555555555555555; stxdw [r3+0], r5; stb [r3+0], $; ldxdw r0, [r3+0] | 5 \
    | -2=55555555555555fe 287454020=5555555555555544
lddw r5, 0x8877665544332211; stxb [r3+15], r5; ldxdw r0, [r3+8] | 4 | =1100000000000000
lddw r5, 0x5555555555555555; stxdw [r3+8], r5; stb [r3+15], $; ldxdw r0, [r3+8] | 5 \
    | -2=fe55555555555555 287454020=4455555555555555
lddw r5, 0x8877665544332211; stxb [r10-512], r5; ldxdw r0, [r10-512] | 4 | =11
lddw r5, 0x5555555555555555; stxdw [r10-512], r5; stb [r10-512], $; ldxdw r0, [r10-512] | 5 \
    | -2=55555555555555fe 287454020=5555555555555544
lddw r5, 0x8877665544332211; stxb [r10-1], r5; ldxdw r0, [r10-8] | 4 | =1100000000000000
lddw r5, 0x5555555555555555; stxdw [r10-8], r5; stb [r10-1], $; ldxdw r0, [r10-8] | 5 \
    | -2=fe55555555555555 287454020=4455555555555555
lddw r5, 0x8877665544332211; stxh [r3+0], r5; ldxdw r0, [r3+0] | 4 | =2211
lddw r5, 0x5555555555555555; stxdw [r3+0], r5; sth [r3+0], $; ldxdw r0, [r3+0] | 5 \
    | -2=555555555555fffe 287454020=5555555555553344
lddw r5, 0x8877665544332211; stxh [r3+14], r5; ldxdw r0, [r3+8] | 4 | =2211000000000000
lddw r5, 0x5555555555555555; stxdw [r3+8], r5; sth [r3+14], $; ldxdw r0, [r3+8] | 5 \
    | -2=fffe555555555555 287454020=3344555555555555
lddw r5, 0x8877665544332211; stxh [r10-512], r5; ldxdw r0, [r10-512] | 4 | =2211
lddw r5, 0x5555555555555555; stxdw [r10-512], r5; sth [r10-512], $; ldxdw r0, [r10-512] | 5 \
    | -2=555555555555fffe 287454020=5555555555553344
lddw r5, 0x8877665544332211; stxh [r10-2], r5; ldxdw r0, [r10-8] | 4 | =2211000000000000
lddw r5, 0x5555555555555555; stxdw [r10-8], r5; sth [r10-2], $; ldxdw r0, [r10-8] | 5 \
    | -2=fffe555555555555 287454020=3344555555555555
lddw r5, 0x8877665544332211; stxw [r3+0], r5; ldxdw r0, [r3+0] | 4 | =44332211
lddw r5, 0x5555555555555555; stxdw [r3+0], r5; stw [r3+0], $; ldxdw r0, [r3+0] | 5 \
    | -2=55555555fffffffe 287454020=5555555511223344
lddw r5, 0x8877665544332211; stxw [r3+12], r5; ldxdw r0, [r3+8] | 4 | =4433221100000000
lddw r5, 0x5555555555555555; stxdw [r3+8], r5; stw [r3+12], $; ldxdw r0, [r3+8] | 5 \
    | -2=fffffffe55555555 287454020=1122334455555555
lddw r5, 0x8877665544332211; stxw [r10-512], r5; ldxdw r0, [r10-512] | 4 | =44332211
lddw r5, 0x5555555555555555; stxdw [r10-512], r5; stw [r10-512], $; ldxdw r0, [r10-512] | 5 \
    | -2=55555555fffffffe 287454020=5555555511223344
lddw r5, 0x8877665544332211; stxw [r10-4], r5; ldxdw r0, [r10-8] | 4 | =4433221100000000
lddw r5, 0x5555555555555555; stxdw [r10-8], r5; stw [r10-4], $; ldxdw r0, [r10-8] | 5 \
    | -2=fffffffe55555555 287454020=1122334455555555
lddw r5, 0x8877665544332211; stxdw [r3+0], r5; ldxdw r0, [r3+0] | 4 | =8877665544332211
lddw r5, 0x5555555555555555; stxdw [r3+0], r5; stdw [r3+0], $; ldxdw r0, [r3+0] | 5 \
    | -2=fffffffffffffffe 287454020=11223344
lddw r5, 0x8877665544332211; stxdw [r3+8], r5; ldxdw r0, [r3+8] | 4 | =8877665544332211
lddw r5, 0x5555555555555555; stxdw [r3+8], r5; stdw [r3+8], $; ldxdw r0, [r3+8] | 5 \
    | -2=fffffffffffffffe 287454020=11223344
lddw r5, 0x8877665544332211; stxdw [r10-512], r5; ldxdw r0, [r10-512] | 4 | =8877665544332211
lddw r5, 0x5555555555555555; stxdw [r10-512], r5; stdw [r10-512], $; ldxdw r0, [r10-512] | 5 \
    | -2=fffffffffffffffe 287454020=11223344
lddw r5, 0x8877665544332211; stxdw [r10-8], r5; ldxdw r0, [r10-8] | 4 | =8877665544332211
lddw r5, 0x5555555555555555; stxdw [r10-8], r5; stdw [r10-8], $; ldxdw r0, [r10-8] | 5 \
    | -2=fffffffffffffffe 287454020=11223344
";

/// Two instructions that run as one operation, on the bytes 1 to 16.
const PAIRS: &str = "\
ldxb r0, [r1+0]; $ r4, [r1+8]; sub r0, r4 | 4 | ldxb=fffffffffffffff8 ldxh=fffffffffffff5f8 ldxw=fffffffff3f4f5f8 \
    ldxdw=eff0f1f2f3f4f5f8
ldxh r0, [r1+0]; $ r4, [r1+8]; sub r0, r4 | 4 | ldxb=1f8 ldxh=fffffffffffff7f8 ldxw=fffffffff3f4f7f8 \
    ldxdw=eff0f1f2f3f4f7f8
ldxw r0, [r1+0]; $ r4, [r1+8]; sub r0, r4 | 4 | ldxb=40301f8 ldxh=402f7f8 ldxw=fffffffff7f7f7f8 ldxdw=eff0f1f2f7f7f7f8
ldxdw r0, [r1+0]; $ r4, [r1+8]; sub r0, r4 | 4 | ldxb=8070605040301f8 ldxh=80706050402f7f8 ldxw=8070604f7f7f7f8 \
    ldxdw=f7f7f7f7f7f7f7f8
mov r0, 3; $ r4, [r1+0]; add r0, r4 | 4 | ldxb=4 ldxh=204 ldxw=4030204 ldxdw=807060504030204
mov r0, 3; $ r4, [r1+0]; mul r0, r4 | 4 | ldxb=3 ldxh=603 ldxw=c090603 ldxdw=1815120f0c090603
mov r0, 1; ldxb r4, [r1+0]; jeq r4, $, +1; mov r0, 7 | 4 | 1=1
mov r0, 1; ldxb r4, [r1+0]; jne r4, $, +1; mov r0, 7 | 5 | 1=7
mov r0, 1; ldxb r4, [r1+0]; jeq r4, $, +1; mov r0, 7 | 5 | -255=7
mov r0, 1; ldxb r4, [r1+0]; jne r4, $, +1; mov r0, 7 | 4 | -255=1
mov r0, 1; ldxh r4, [r1+0]; jeq r4, $, +1; mov r0, 7 | 4 | 513=1
mov r0, 1; ldxh r4, [r1+0]; jne r4, $, +1; mov r0, 7 | 5 | 513=7
mov r0, 1; ldxh r4, [r1+0]; jeq r4, $, +1; mov r0, 7 | 5 | 1=7
mov r0, 1; ldxh r4, [r1+0]; jne r4, $, +1; mov r0, 7 | 4 | 1=1
mov r0, 1; ldxw r4, [r1+0]; jeq r4, $, +1; mov r0, 7 | 4 | 67305985=1
mov r0, 1; ldxw r4, [r1+0]; jne r4, $, +1; mov r0, 7 | 5 | 67305985=7
mov r0, 1; ldxw r4, [r1+0]; jeq r4, $, +1; mov r0, 7 | 5 | 513=7
mov r0, 1; ldxw r4, [r1+0]; jne r4, $, +1; mov r0, 7 | 4 | 513=1
mov r0, 1; ldxdw r4, [r1+0]; jeq r4, $, +1; mov r0, 7 | 5 | 67305985=7
mov r0, 1; ldxdw r4, [r1+0]; jne r4, $, +1; mov r0, 7 | 4 | 67305985=1
";

/// The program of a line, its steps, and the input.
#[derive(Clone, Copy)]
struct Line<'a> {
    program: &'a str,
    steps: usize,
    input: &'a [u8],
}

/// True if a program with the argument of a pair returns the pair's result.
fn gives(rt: &impl Abort, alloc: Global, line: Line<'_>, pair: &str) -> bool {
    let (before, behind) = line.program.split_once('$').unwrap_or((line.program, ""));
    let (argument, wanted) = halves(pair, '=');
    let pieces = [".method f r 16 16;", before, argument, behind, ";exit"];
    let class = class(rt, alloc, &pieces);
    let code = hex(wanted).cast_signed();
    returns(rt, alloc, &class, line.input, code, line.steps)
}

/// Runs the programs of a line. Returns the number of results.
fn run(rt: &impl Abort, alloc: Global, input: &[u8], told: &str) -> usize {
    let (program, rest) = halves(told, '|');
    let (steps, pairs) = halves(rest, '|');
    let line = Line {
        program,
        steps: number(rt, steps).cast_unsigned() as usize,
        input,
    };
    let mut count = 0usize;
    for pair in pairs.split_whitespace() {
        assert!(rt; gives(rt, alloc, line, pair), "{program}: {pair}");
        count = count.wrapping_add(1);
    }
    count
}

/// Runs the programs of all lines. Returns the number of results.
fn run_all(rt: &impl Abort, alloc: Global, input: &[u8], text: &str) -> usize {
    let mut count = 0usize;
    for line in text.lines() {
        count = count.wrapping_add(run(rt, alloc, input, line));
    }
    count
}

#[test]
fn single_operations(rt: HostRuntime) {
    assert!(rt; run_all(&rt, rt.alloc(), &[], PROGRAMS) == 11);
    assert!(rt; run_all(&rt, rt.alloc(), &[], MOVED) == 38);
    assert!(rt; run_all(&rt, rt.alloc(), &[], EXTENDED) == 60);
    assert!(rt; run_all(&rt, rt.alloc(), &[], ORDERED) == 18);
}

#[test]
fn loads_and_stores(rt: HostRuntime) {
    assert!(rt; run_all(&rt, rt.alloc(), &INPUT, LOADED) == 56);
    assert!(rt; run_all(&rt, rt.alloc(), &INPUT, STORED) == 48);
}

#[test]
fn pairs_of_instructions(rt: HostRuntime) {
    assert!(rt; run_all(&rt, rt.alloc(), &RISING, PAIRS) == 38);
}
