//! Results of each arithmetic operation, and which way each comparison goes (RFC 9669 sections 4.1
//! and 4.3).

mod branches;
mod rows_32;
mod rows_64;

use crate::methods::{class_of, returns};
use crate::words::{hex, next};
use std::alloc::Global;
use std::process::Abort;

/// The operands in registers: 0, 1, -1, the least and the greatest signed number, 2^31, 2^32 - 1.
const VALUES: [u64; 7] = [
    0,
    1,
    0xffff_ffff_ffff_ffff,
    0x8000_0000_0000_0000,
    0x7fff_ffff_ffff_ffff,
    0x8000_0000,
    0xffff_ffff,
];

/// The immediates: 0, 1, -1, the least and the greatest.
const IMMEDIATES: [u64; 5] = [0, 1, 0xffff_ffff, 0x8000_0000, 0x7fff_ffff];

/// True if the opcode's operand is a register.
fn takes_register(opcode: u8) -> bool {
    opcode / 8 % 2 == 1
}

/// The byte of hexadecimal digits.
fn byte(digits: &str) -> u8 {
    (hex(digits) % 256) as u8
}

/// An operation by its instruction's opcode and offset, and its destination.
#[derive(Clone, Copy)]
struct Operation {
    opcode: u8,
    offset: u8,
    dst: u64,
}

/// A program: the destination and the operand in registers, the operation, and an exit.
fn with_register(operation: Operation, operand: u64) -> [u8; 48] {
    let Operation {
        opcode,
        offset,
        dst,
    } = operation;
    let [a, b, c, d, e, f, g, h] = dst.to_le_bytes();
    let [i, j, k, l, m, n, o, p] = operand.to_le_bytes();
    [
        0x18, 0x00, 0, 0, a, b, c, d, 0, 0, 0, 0, e, f, g, h, // lddw r0, dst
        0x18, 0x09, 0, 0, i, j, k, l, 0, 0, 0, 0, m, n, o, p, // lddw r9, operand
        opcode, 0x90, offset, 0, 0, 0, 0, 0, // the operation on r0 and r9
        0x95, 0, 0, 0, 0, 0, 0, 0, // exit
    ]
}

/// A program: the destination in a register, the operation with an immediate, and an exit.
fn with_immediate(operation: Operation, imm: u32) -> [u8; 32] {
    let Operation {
        opcode,
        offset,
        dst,
    } = operation;
    let [a, b, c, d, e, f, g, h] = dst.to_le_bytes();
    let [i, j, k, l] = imm.to_le_bytes();
    [
        0x18, 0x00, 0, 0, a, b, c, d, 0, 0, 0, 0, e, f, g, h, // lddw r0, dst
        opcode, 0x00, offset, 0, i, j, k, l, // the operation on r0
        0x95, 0, 0, 0, 0, 0, 0, 0, // exit
    ]
}

/// True if a program without input and object returns this number, after this number of steps.
fn gives(rt: &impl Abort, alloc: Global, code: &[u8], value: u64, steps: usize) -> bool {
    let class = class_of(rt, alloc, code);
    returns(rt, alloc, &class, &[], value.cast_signed(), steps)
}

/// True if an operation has this result.
fn computes(
    rt: &impl Abort,
    alloc: Global,
    operation: Operation,
    operand: u64,
    value: u64,
) -> bool {
    if takes_register(operation.opcode) {
        let code = with_register(operation, operand);
        gives(rt, alloc, &code, value, 4)
    } else {
        let code = with_immediate(operation, (operand % 0x1_0000_0000) as u32);
        gives(rt, alloc, &code, value, 3)
    }
}

/// Computes a line. Returns the number of its results.
fn compute(rt: &impl Abort, alloc: Global, line: &str) -> usize {
    let mut words = line.split_whitespace();
    // The name in the line is for readers alone.
    let _name = next(&mut words);
    let operation = Operation {
        opcode: byte(next(&mut words)),
        offset: byte(next(&mut words)),
        dst: hex(next(&mut words)),
    };
    let operands = if takes_register(operation.opcode) {
        VALUES.as_slice()
    } else {
        IMMEDIATES.as_slice()
    };
    let mut count = 0usize;
    for (operand, result) in operands.iter().zip(words) {
        assert!(rt;
            computes(rt, alloc, operation, *operand, hex(result)),
            "{line}: {result}"
        );
        count = count.wrapping_add(1);
    }
    count
}

/// Computes each line. Returns the number of results.
fn compute_all(rt: &impl Abort, alloc: Global, text: &str) -> usize {
    let mut count = 0usize;
    for line in text.lines() {
        count = count.wrapping_add(compute(rt, alloc, line));
    }
    count
}

// of 13 operations, with 7 destinations, and 7 and 5 operands

#[test]
fn on_64_bits(rt: HostRuntime) {
    assert!(rt; compute_all(&rt, rt.alloc(), rows_64::ROWS) == 1092);
}

#[test]
fn on_32_bits(rt: HostRuntime) {
    assert!(rt; compute_all(&rt, rt.alloc(), rows_32::ROWS) == 1092);
}
