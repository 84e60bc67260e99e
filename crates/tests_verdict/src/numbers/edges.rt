//! Both edges of each comparison, by hand.

use super::{ALL, ANY, MAX, MIN, Six, TOP, gives, number};
use abstract_num::{Number, Precision, between, constant, loaded, refine};
use bpf_decode::{Comparison, OpWidth, Width};
use std::process::Abort;

/// A comparison of a number with a constant, whether it holds, and what is left of the number.
type Row = (Comparison, bool, Six, u64, Option<Six>);

const FIVE_TO_NINE: Six = (5, 9, 5, 9, 0, ALL);

const TO_TWENTY: Six = (0, 20, 0, 20, 0, ALL);

const SEVEN: Six = (7, 7, 7, 7, 7, 0);

#[rattlefmt::skip]
const LONG: [Row; 30] = [
    (Comparison::SignedGreater, false, ANY, 0, Some((0, ALL, MIN, 0, 0, ALL))),
    (Comparison::SignedLess, false, ANY, 0, Some((0, TOP - 1, 0, MAX, 0, ALL))),
    (Comparison::SignedLessEqual, true, ANY, ALL, Some((TOP, ALL, MIN, -1, 0, ALL))),
    (Comparison::Equal, true, ANY, 7, Some(SEVEN)),
    (Comparison::Equal, true, FIVE_TO_NINE, 4, None),
    (Comparison::Equal, true, (1, ALL, MIN, MAX, 1, ALL - 1), 6, None),
    (Comparison::Equal, false, FIVE_TO_NINE, 5, Some((6, 9, 6, 9, 0, ALL))),
    (Comparison::Equal, false, SEVEN, 7, None),
    (Comparison::NotEqual, true, FIVE_TO_NINE, 9, Some((5, 8, 5, 8, 0, ALL))),
    (Comparison::NotEqual, true, FIVE_TO_NINE, 7, Some(FIVE_TO_NINE)),
    (Comparison::NotEqual, true, ANY, ALL, Some((0, ALL - 1, MIN, MAX, 0, ALL))),
    (Comparison::NotEqual, false, ANY, 7, Some(SEVEN)),
    (Comparison::Greater, true, TO_TWENTY, 15, Some((16, 20, 16, 20, 0, ALL))),
    (Comparison::Greater, false, TO_TWENTY, 15, Some((0, 15, 0, 15, 0, ALL))),
    (Comparison::Greater, true, ANY, ALL, None),
    (Comparison::GreaterEqual, true, ANY, TOP, Some((TOP, ALL, MIN, -1, 0, ALL))),
    (Comparison::GreaterEqual, false, ANY, 0, None),
    (Comparison::Less, true, ANY, 8, Some((0, 7, 0, 7, 0, ALL))),
    (Comparison::Less, false, TO_TWENTY, 8, Some((8, 20, 8, 20, 0, ALL))),
    (Comparison::LessEqual, true, ANY, 8, Some((0, 8, 0, 8, 0, ALL))),
    (Comparison::LessEqual, false, TO_TWENTY, 20, None),
    (Comparison::SignedGreater, true, ANY, ALL, Some((0, TOP - 1, 0, MAX, 0, ALL))),
    (Comparison::SignedGreater, true, ANY, TOP - 1, None),
    (Comparison::SignedGreaterEqual, true, ANY, TOP, Some(ANY)),
    (Comparison::SignedGreaterEqual, false, ANY, 0, Some((TOP, ALL, MIN, -1, 0, ALL))),
    (Comparison::SignedLess, true, ANY, 0, Some((TOP, ALL, MIN, -1, 0, ALL))),
    (Comparison::SignedLessEqual, false, ANY, ALL, Some((0, TOP - 1, 0, MAX, 0, ALL))),
    (Comparison::SharesBits, true, TO_TWENTY, 0, None),
    (Comparison::SharesBits, false, ANY, 4, Some((0, ALL - 4, MIN, MAX, 0, ALL - 4))),
    (Comparison::SharesBits, false, (4, 7, 4, 7, 4, 3), 4, None),
];

#[rattlefmt::skip]
const SHORT: [Row; 5] = [
    (Comparison::Equal, true, ANY, 7, Some(ANY)),
    (Comparison::Greater, true, TO_TWENTY, 15, Some((16, 20, 16, 20, 0, ALL))),
    (Comparison::SignedGreater, true, (0, 0x8000_0000, 0, 0x8000_0000, 0, ALL), 5,
        Some((0, 0x8000_0000, 0, 0x8000_0000, 0, ALL))),
    (Comparison::SignedGreater, true, (0, 0x7fff_ffff, 0, 0x7fff_ffff, 0, ALL), 5,
        Some((6, 0x7fff_ffff, 6, 0x7fff_ffff, 0, ALL))),
    (Comparison::SharesBits, false, TO_TWENTY, 16, Some((0, 20, 0, 20, 0, ALL - 16))),
];

/// A comparison of two numbers, and whether it holds.
type Edge = (OpWidth, Comparison, bool);

/// What the edge leaves of the first number, and of the second.
fn left(edge: Edge, x: Number, y: Number) -> (Option<Number>, Option<Number>) {
    let (bits, comparison, taken) = edge;
    match refine(Precision::Whole, bits, comparison, taken, x, y) {
        Some((x, y)) => (Some(x), Some(y)),
        None => (None, None),
    }
}

/// True if the edge leaves of the number what the row wants.
fn holds(bits: OpWidth, row: Row) -> bool {
    let (comparison, taken, six, by, want) = row;
    match number(six) {
        Some(x) => gives(left((bits, comparison, taken), x, constant(by)).0, want),
        None => false,
    }
}

/// Each row is what the edge leaves of the number.
fn all_hold(rt: &impl Abort, bits: OpWidth, rows: &[Row]) {
    for (i, row) in rows.iter().enumerate() {
        assert!(rt; holds(bits, *row), "row {i}");
    }
}

#[test]
fn of_64_bits(rt: HostRuntime) {
    all_hold(&rt, OpWidth::Bits64, &LONG);
}

#[test]
fn of_32_bits(rt: HostRuntime) {
    all_hold(&rt, OpWidth::Bits32, &SHORT);
}

/// Of a loaded byte no bit is known, so that it may share bit 8.
#[test]
fn bits_of_a_loaded_byte(rt: HostRuntime) {
    let edge = (OpWidth::Bits64, Comparison::SharesBits, true);
    let byte = loaded(Precision::Whole, Width::Byte);
    assert!(rt;
        gives(
            left(edge, byte, constant(256)).0,
            Some((0, 255, 0, 255, 0, ALL))
        )
    );
}

/// Both numbers are refined: the second one by the first, and by a constant first one.
#[test]
fn second_numbers(rt: HostRuntime) {
    let x = between(Precision::Whole, 0, 20);
    let y = between(Precision::Whole, 5, 30);
    let above = left((OpWidth::Bits64, Comparison::Greater, true), x, y);
    let apart = left(
        (OpWidth::Bits64, Comparison::NotEqual, true),
        constant(5),
        y,
    );
    let same = left((OpWidth::Bits32, Comparison::Equal, true), x, y);
    assert!(rt;
        gives(above.0, Some((6, 20, 6, 20, 0, ALL)))
            && gives(above.1, Some((5, 19, 5, 19, 0, ALL)))
            && gives(apart.1, Some((6, 30, 6, 30, 0, ALL)))
            && gives(same.1, Some((5, 20, 5, 20, 0, ALL)))
    );
}
