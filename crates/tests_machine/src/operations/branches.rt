//! Which way each comparison goes.

use super::{IMMEDIATES, byte, gives, takes_register};
use crate::words::next;
use std::alloc::Global;
use std::process::Abort;

/// The destinations, and the operands in registers: 0, 1, -1, the least and the greatest signed
/// number, 2^31, 2^32 - 1, 2^31 - 1.
const VALUES: [u64; 8] = [
    0,
    1,
    0xffff_ffff_ffff_ffff,
    0x8000_0000_0000_0000,
    0x7fff_ffff_ffff_ffff,
    0x8000_0000,
    0xffff_ffff,
    0x7fff_ffff,
];

/// The comparisons. A line has the opcode, a word for each destination, and in it a digit for each
/// operand: 1 if the jump is taken.
const ROWS: &str = "\
1d 10000000 01000000 00100000 00010000 00001000 00000100 00000010 00000001
15 10000 01000 00100 00000 00000 00000 00000 00001
1e 10010000 01000000 00101010 10010000 00101010 00000100 00101010 00000001
16 10000 01000 00100 10000 00100 00010 00100 00001
2d 00000000 10000000 11011111 11001111 11000111 11000001 11000101 11000000
25 00000 10000 11011 11001 11001 11001 11001 11000
2e 00000000 10010000 11010101 00000000 11010101 11010001 11010101 11010000
26 00000 10000 11011 00000 11011 11001 11011 11000
3d 10000000 11000000 11111111 11011111 11001111 11000101 11000111 11000001
35 10000 11000 11111 11001 11001 11001 11001 11001
3e 10010000 11010000 11111111 10010000 11111111 11010101 11111111 11010001
36 10000 11000 11111 10000 11111 11011 11111 11001
4d 00000000 01101011 01111111 00110000 01101111 00101110 01101111 01101011
45 00000 01101 01111 00110 01111 00110 01111 01101
4e 00000000 01101011 01101111 00000000 01101111 00101110 01101111 01101011
46 00000 01101 01111 00000 01111 00110 01111 01101
5d 01111111 10111111 11011111 11101111 11110111 11111011 11111101 11111110
55 01111 10111 11011 11111 11111 11111 11111 11110
5e 01101111 10111111 11010101 01101111 11010101 11111011 11010101 11111110
56 01111 10111 11011 01111 11011 11101 11011 11110
6d 00110000 10110000 00010000 00000000 11110111 11110001 11110101 11110000
65 00110 10110 00010 00000 11111 11111 11111 11110
6e 00101110 10111110 00000100 00101110 00000100 00000000 00000100 11111110
66 00110 10110 00010 00110 00010 00000 00010 11110
7d 10110000 11110000 00110000 00010000 11111111 11110101 11110111 11110001
75 10110 11110 00110 00000 11111 11111 11111 11111
7e 10111110 11111110 00101110 10111110 00101110 00000100 00101110 11111111
76 10110 11110 00110 10110 00110 00010 00110 11111
ad 01111111 00111111 00000000 00100000 00110000 00111010 00111000 00111110
a5 01111 00111 00000 00110 00110 00110 00110 00110
ae 01101111 00101111 00000000 01101111 00000000 00101010 00000000 00101110
a6 01111 00111 00000 01111 00000 00100 00000 00110
bd 11111111 01111111 00100000 00110000 00111000 00111110 00111010 00111111
b5 11111 01111 00100 00110 00110 00110 00110 00111
be 11111111 01101111 00101010 11111111 00101010 00101110 00101010 00101111
b6 11111 01111 00100 11111 00100 00110 00100 00111
cd 01001111 00001111 11001111 11101111 00000000 00001010 00001000 00001110
c5 01001 00001 11001 11111 00000 00000 00000 00000
ce 01000001 00000001 11010001 01000001 11010001 11111011 11010001 00000000
c6 01001 00001 11001 01001 11001 11101 11001 00000
dd 11001111 01001111 11101111 11111111 00001000 00001110 00001010 00001111
d5 11001 01001 11101 11111 00000 00000 00000 00001
de 11010001 01000001 11111011 11010001 11111011 11111111 11111011 00000001
d6 11001 01001 11101 11001 11101 11111 11101 00001
";

/// A program: register 0 is 1, and a jump by the comparison of register 6 skips that it becomes 0.
fn program(opcode: u8, dst: u64, operand: u64) -> [u8; 64] {
    let [a, b, c, d, e, f, g, h] = dst.to_le_bytes();
    let [i, j, k, l, m, n, o, p] = operand.to_le_bytes();
    let (registers, [q, r, s, t]) = if takes_register(opcode) {
        (0x76, [0, 0, 0, 0])
    } else {
        (0x06, [i, j, k, l])
    };
    [
        0x18, 0x06, 0, 0, a, b, c, d, 0, 0, 0, 0, e, f, g, h, // lddw r6, dst
        0x18, 0x07, 0, 0, i, j, k, l, 0, 0, 0, 0, m, n, o, p, // lddw r7, operand
        0xb7, 0x00, 0, 0, 1, 0, 0, 0, // mov r0, 1
        opcode, registers, 1, 0, q, r, s, t, // the jump over one slot
        0xb7, 0x00, 0, 0, 0, 0, 0, 0, // mov r0, 0
        0x95, 0x00, 0, 0, 0, 0, 0, 0, // exit
    ]
}

/// True if the jump goes the way that the digit says. One that is taken skips a step.
fn goes(rt: &impl Abort, alloc: Global, code: &[u8], taken: u8) -> bool {
    if taken == b'1' {
        gives(rt, alloc, code, 1, 5)
    } else {
        gives(rt, alloc, code, 0, 6)
    }
}

/// Compares a destination with the operands. Returns their number.
fn compare(rt: &impl Abort, alloc: Global, opcode: u8, dst: u64, taken: &str) -> usize {
    let operands = if takes_register(opcode) {
        VALUES.as_slice()
    } else {
        IMMEDIATES.as_slice()
    };
    let mut count = 0usize;
    for (operand, digit) in operands.iter().zip(taken.bytes()) {
        let code = program(opcode, dst, *operand);
        assert!(rt; goes(rt, alloc, &code, digit), "{opcode} {dst} {operand}");
        count = count.wrapping_add(1);
    }
    count
}

/// Compares as a line says. Returns the number of comparisons.
fn compare_all(rt: &impl Abort, alloc: Global, line: &str) -> usize {
    let mut words = line.split_whitespace();
    let opcode = byte(next(&mut words));
    let mut count = 0usize;
    for (dst, taken) in VALUES.iter().zip(words) {
        count = count.wrapping_add(compare(rt, alloc, opcode, *dst, taken));
    }
    count
}

// of 22 comparisons, with 8 destinations, and 8 and 5 operands
#[test]
fn each_comparison(rt: HostRuntime) {
    let mut count = 0usize;
    for line in ROWS.lines() {
        count = count.wrapping_add(compare_all(&rt, rt.alloc(), line));
    }
    assert!(rt; count == 2288);
}
