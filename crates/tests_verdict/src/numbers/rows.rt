//! Rows of the transfer table, by hand.

use super::{ALL, ANY, LOW, MAX, MIN, Six, TOP, gives, number};
use abstract_num::{
    Number, Precision, arithmetic, between, constant, copied, negative, ordered, sign_extended,
};
use bpf_decode::{Arithmetic, ByteOrder, EndWidth, OpWidth, SignedMove};
use std::process::Abort;

/// An operation on two ranges and what it gives.
type Row = (Arithmetic, (u64, u64), (u64, u64), Six);

#[rattlefmt::skip]
const FITS: [Row; 13] = [
    (Arithmetic::Add, (1, 2), (10, 20), (11, 22, 11, 22, 0, ALL)),
    (Arithmetic::Add, (TOP - 1, TOP), (1, 1), (TOP, TOP + 1, MIN, MIN + 1, 0, ALL)),
    (Arithmetic::Add, (0, ALL), (1, 1), ANY),
    (Arithmetic::Sub, (10, 20), (1, 2), (8, 19, 8, 19, 0, ALL)),
    (Arithmetic::Sub, (0, 5), (1, 1), (0, ALL, -1, 4, 0, ALL)),
    (Arithmetic::Sub, (5, 5), (7, 7), (ALL - 1, ALL - 1, -2, -2, ALL - 1, 0)),
    (Arithmetic::Mul, (2, 3), (4, 5), (8, 15, 8, 15, 0, ALL)),
    (Arithmetic::Mul, (0, LOW + 1), (0, LOW + 1), ANY),
    (Arithmetic::Div, (10, 20), (2, 5), (2, 10, 2, 10, 0, ALL)),
    (Arithmetic::Div, (10, 20), (0, 5), (0, 20, 0, 20, 0, ALL)),
    (Arithmetic::Mod, (10, 20), (3, 7), (0, 6, 0, 6, 0, ALL)),
    (Arithmetic::Mod, (10, 20), (0, 7), (0, 20, 0, 20, 0, ALL)),
    (Arithmetic::Mod, (1, 2), (8, 9), (0, 2, 0, 2, 0, ALL)),
];

#[rattlefmt::skip]
const BITWISE: [Row; 15] = [
    (Arithmetic::And, (0, 12), (10, 10), (0, 10, 0, 10, 0, 10)),
    (Arithmetic::Or, (1, 4), (8, 8), (8, 15, 8, 15, 8, ALL - 8)),
    (Arithmetic::Xor, (1, 4), (2, 9), (0, 15, 0, 15, 0, ALL)),
    (Arithmetic::Xor, (0, TOP), (1, 1), ANY),
    (Arithmetic::Lsh, (1, 3), (4, 4), (16, 48, 16, 48, 0, ALL - 15)),
    (Arithmetic::Lsh, (1, 3), (68, 68), (16, 48, 16, 48, 0, ALL - 15)),
    (Arithmetic::Lsh, (1, 2), (63, 63), (0, TOP, MIN, MAX, 0, TOP)),
    (Arithmetic::Lsh, (1, 3), (1, 2), ANY),
    (Arithmetic::Rsh, (16, 48), (4, 4), (1, 3, 1, 3, 0, ALL >> 4)),
    (Arithmetic::Rsh, (16, 48), (1, 2), (0, 48, 0, 48, 0, ALL)),
    (Arithmetic::Arsh, (16, 48), (4, 4), (1, 3, 1, 3, 0, ALL)),
    (Arithmetic::Arsh, (16, 48), (1, 2), (0, 48, 0, 48, 0, ALL)),
    (Arithmetic::Arsh, (TOP, TOP + 16), (4, 4), ANY),
    (Arithmetic::SignedDiv, (1, 2), (1, 2), ANY),
    (Arithmetic::SignedMod, (1, 2), (1, 2), ANY),
];

/// At 0, at 2^63 and at 2^64 - 1.
#[rattlefmt::skip]
const ENDS: [Row; 17] = [
    (Arithmetic::Add, (0, 1), (TOP, ALL - 1), (TOP, ALL, MIN, -1, 0, ALL)),
    (Arithmetic::Sub, (TOP, ALL), (0, TOP), ANY),
    (Arithmetic::Sub, (TOP, ALL), (0, 1), (TOP - 1, ALL, MIN, MAX, 0, ALL)),
    (Arithmetic::Mul, (0, 1), (TOP, ALL), ANY),
    (Arithmetic::Mul, (0, 1), (0, 0), (0, 0, 0, 0, 0, 0)),
    (Arithmetic::Div, (0, ALL), (TOP, ALL), (0, 1, 0, 1, 0, ALL)),
    (Arithmetic::Mod, (0, ALL), (TOP, ALL), (0, ALL - 1, MIN, MAX, 0, ALL)),
    (Arithmetic::And, (TOP, ALL), (0, ALL), ANY),
    (Arithmetic::And, (0, ALL), (0, 0), (0, 0, 0, 0, 0, 0)),
    (Arithmetic::Or, (0, 1), (TOP, TOP + 1), (TOP, ALL, MIN, -1, 0, ALL)),
    (Arithmetic::Xor, (0, 1), (0, 1), (0, 1, 0, 1, 0, ALL)),
    (Arithmetic::Lsh, (0, 1), (63, 63), (0, TOP, MIN, MAX, 0, TOP)),
    (Arithmetic::Lsh, (5, 9), (0, 0), (5, 9, 5, 9, 0, ALL)),
    (Arithmetic::Rsh, (TOP, ALL), (63, 63), (1, 1, 1, 1, 1, 0)),
    (Arithmetic::Arsh, (0, TOP - 1), (63, 63), (0, 0, 0, 0, 0, 0)),
    (Arithmetic::Arsh, (TOP, TOP), (63, 63), (ALL, ALL, -1, -1, ALL, 0)),
    (Arithmetic::SignedDiv, (TOP, TOP), (ALL, ALL), (TOP, TOP, MIN, MIN, TOP, 0)),
];

#[rattlefmt::skip]
const HALVES: [Row; 11] = [
    (Arithmetic::Add, (1, 2), (10, 20), (11, 22, 11, 22, 0, LOW)),
    (Arithmetic::Add, (0, LOW), (1, 1), (0, LOW, 0, 0xffff_ffff, 0, LOW)),
    (Arithmetic::Add, (LOW, LOW), (1, 1), (0, 0, 0, 0, 0, 0)),
    (Arithmetic::Sub, (0, 5), (1, 1), (0, LOW, 0, 0xffff_ffff, 0, LOW)),
    (Arithmetic::Div, (7, 7), (0, 0), (0, 0, 0, 0, 0, 0)),
    (Arithmetic::Mod, (ALL, ALL), (0, 0), (LOW, LOW, 0xffff_ffff, 0xffff_ffff, LOW, 0)),
    (Arithmetic::Lsh, (1, 3), (33, 33), (2, 6, 2, 6, 0, LOW - 1)),
    (Arithmetic::Rsh, (0, LOW), (1, 2), (0, LOW, 0, 0xffff_ffff, 0, LOW)),
    (Arithmetic::Arsh, (16, 48), (4, 4), (1, 3, 1, 3, 0, LOW >> 4)),
    (Arithmetic::Arsh, (0x8000_0000, 0x8000_0001), (1, 1), (0, LOW, 0, 0xffff_ffff, 0, LOW)),
    (Arithmetic::SignedDiv, (1, 2), (1, 2), (0, LOW, 0, 0xffff_ffff, 0, LOW)),
];

/// True if the operation gives what the row wants.
fn holds(bits: OpWidth, row: Row) -> bool {
    let (operation, (a, b), (c, d), want) = row;
    if b < a || d < c {
        return false;
    }
    gives(
        arithmetic(
            Precision::Whole,
            bits,
            operation,
            between(Precision::Whole, a, b),
            between(Precision::Whole, c, d),
        ),
        Some(want),
    )
}

/// Each row is what the operation gives.
fn all_hold(rt: &impl Abort, bits: OpWidth, rows: &[Row]) {
    for (i, row) in rows.iter().enumerate() {
        assert!(rt; holds(bits, *row), "row {i}");
    }
}

#[test]
fn sums_and_products(rt: HostRuntime) {
    all_hold(&rt, OpWidth::Bits64, &FITS);
}

#[test]
fn bits_and_shifts(rt: HostRuntime) {
    all_hold(&rt, OpWidth::Bits64, &BITWISE);
}

#[test]
fn ends_of_the_word(rt: HostRuntime) {
    all_hold(&rt, OpWidth::Bits64, &ENDS);
}

#[test]
fn low_halves(rt: HostRuntime) {
    all_hold(&rt, OpWidth::Bits32, &HALVES);
}

/// An operation on a number and a constant, and what it gives.
type Whole = (OpWidth, Arithmetic, Six, u64, Option<Six>);

#[rattlefmt::skip]
const KNOWN: [Whole; 7] = [
    // a sign that is known stays known
    (OpWidth::Bits64, Arithmetic::Arsh, (TOP, TOP + 15, MIN, MIN + 15, TOP, 15), 4, Some((0xf800_0000_0000_0000,
        0xf800_0000_0000_0000, -0x0800_0000_0000_0000, -0x0800_0000_0000_0000, 0xf800_0000_0000_0000, 0))),
    // signed parts
    (OpWidth::Bits64, Arithmetic::Add, (0, ALL, -5, 5, 0, ALL), 3, Some((0, ALL, -2, 8, 0, ALL))),
    (OpWidth::Bits64, Arithmetic::Sub, (0, ALL, -5, 5, 0, ALL), 3, Some((0, ALL, -8, 2, 0, ALL))),
    (OpWidth::Bits64, Arithmetic::Sub, (0, ALL, MIN, 5, 0, ALL), 3, Some(ANY)),
    // known bits of both
    (OpWidth::Bits64, Arithmetic::And, (1, ALL, MIN, MAX, 1, ALL - 1), 3, Some((1, 3, 1, 3, 1, 2))),
    // a low half that is constant
    (OpWidth::Bits32, Arithmetic::Add, (5, 0x1_0000_0005, 5, 0x1_0000_0005, 5, 0x1_0000_0000), 1,
        Some((6, 6, 6, 6, 6, 0))),
    // a low half that can't be
    (OpWidth::Bits32, Arithmetic::Add, (0, 5, 0, 5, 8, 0), 1, None),
];

#[test]
fn known_parts(rt: HostRuntime) {
    for (i, row) in KNOWN.iter().enumerate() {
        let (bits, operation, six, by, want) = *row;
        let x = number(six).expect(&rt, "a number");
        assert!(rt;
            gives(
                arithmetic(Precision::Whole, bits, operation, x, constant(by)),
                want
            ),
            "row {i}"
        );
    }
}

/// An operation on one number.
enum Change {
    Copied(OpWidth),
    Negative(OpWidth),
    Extended(SignedMove),
    Ordered(ByteOrder, EndWidth),
}

/// An operation on a range, or on a constant if both ends are equal, and its result.
type One = (Change, (u64, u64), Six);

/// Any number of 32 bits.
const ANY_LOW: Six = (0, LOW, 0, 0xffff_ffff, 0, LOW);

const LAST_LOW: Six = (LOW, LOW, 0xffff_ffff, 0xffff_ffff, LOW, 0);

const LAST: Six = (ALL, ALL, -1, -1, ALL, 0);

#[rattlefmt::skip]
const CHANGES: [One; 12] = [
    (Change::Copied(OpWidth::Bits64), (1, LOW + 1), (1, LOW + 1, 1, 0x1_0000_0000, 0, ALL)),
    (Change::Copied(OpWidth::Bits32), (1, LOW + 1), ANY_LOW),
    (Change::Negative(OpWidth::Bits64), (1, 1), LAST),
    (Change::Negative(OpWidth::Bits32), (1, 1), LAST_LOW),
    (Change::Negative(OpWidth::Bits64), (0, 1), (0, ALL, -1, 0, 0, ALL)),
    (Change::Negative(OpWidth::Bits32), (0, 1), ANY_LOW),
    (Change::Extended(SignedMove::Byte64), (0x1ff, 0x1ff), LAST),
    (Change::Extended(SignedMove::Byte32), (0x1ff, 0x1ff), LAST_LOW),
    (Change::Extended(SignedMove::Half64), (1, 2), ANY),
    (Change::Extended(SignedMove::Half32), (1, 2), ANY_LOW),
    (Change::Ordered(ByteOrder::ToBig, EndWidth::End16), (0x1_0203, 0x1_0203), (0x302, 0x302, 0x302, 0x302, 0x302, 0)),
    (Change::Ordered(ByteOrder::ToLittle, EndWidth::End16), (1, 2), ANY),
];

/// The number that an operation gives for a number.
fn changed(change: &Change, x: Number) -> Option<Number> {
    match change {
        Change::Copied(bits) => copied(Precision::Whole, *bits, x),
        Change::Negative(bits) => negative(Precision::Whole, *bits, x),
        Change::Extended(extension) => sign_extended(Precision::Whole, *extension, x),
        Change::Ordered(order, width) => ordered(Precision::Whole, *order, *width, x),
    }
}

/// True if the operation gives what the row wants.
fn changes_so(row: &One) -> bool {
    let (change, (low, high), want) = row;
    if low == high {
        gives(changed(change, constant(*low)), Some(*want))
    } else if low < high {
        gives(
            changed(change, between(Precision::Whole, *low, *high)),
            Some(*want),
        )
    } else {
        false
    }
}

#[test]
fn changes(rt: HostRuntime) {
    for (i, row) in CHANGES.iter().enumerate() {
        assert!(rt; changes_so(row), "row {i}");
    }
}
