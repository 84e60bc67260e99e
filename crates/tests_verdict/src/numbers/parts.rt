//! Joins, the order, tightening and ranges, by hand.

use super::{ALL, MAX, MIN, Six, TOP, gives, is, number};
use abstract_num::{
    Precision, any, arithmetic, between, constant, highest, holds, is_below, join, loaded,
    loaded_signed, signed_between, tighten,
};
use bpf_decode::{Arithmetic, OpWidth, SignedWidth, Width};

#[rattlefmt::skip]
const ONCE: [(Six, Option<Six>); 8] = [
    ((10, ALL, 5, 20, 0, ALL), Some((10, 20, 5, 20, 0, ALL))),
    ((10, 20, 5, 20, 0, ALL), Some((10, 20, 10, 20, 0, ALL))),
    ((0, ALL, MIN, MAX, 8, 3), Some((8, 11, 8, 11, 8, 3))),
    ((0, ALL, -8, -5, 0, ALL), Some((ALL - 7, ALL - 4, -8, -5, 0, ALL))),
    ((TOP, TOP + 1, MIN, MAX, 0, ALL), Some((TOP, TOP + 1, MIN, MIN + 1, 0, ALL))),
    ((4, 4, MIN, MAX, 0, 7), Some((4, 4, 4, 4, 4, 0))),
    ((4, 4, 0, MAX, 1, 6), None),
    ((0, 5, 6, 9, 0, ALL), None),
];

/// Tightening the first once gives the second.
#[test]
fn tightened(rt: HostRuntime) {
    for (i, row) in ONCE.iter().enumerate() {
        let (six, want) = *row;
        let x = number(six).expect(&rt, "a number");
        assert!(rt; gives(tighten(Precision::Whole, x), want), "row {i}");
    }
}

#[test]
fn joined(rt: HostRuntime) {
    let both = join(constant(1), constant(4));
    assert!(rt;
        is(both, (1, 4, 1, 4, 0, 5))
            && is(join(constant(ALL), constant(0)), (0, ALL, -1, 0, 0, ALL))
            && is_below(constant(4), both)
            && !is_below(both, constant(4))
            && is_below(both, any())
    );
}

#[test]
fn ranges(rt: HostRuntime) {
    assert!(rt;
        is(between(Precision::Whole, 0, 8), (0, 8, 0, 8, 0, ALL))
            && is(between(Precision::Whole, 3, 3), (3, 3, 3, 3, 3, 0))
            && is(
                signed_between(Precision::Whole, -8, -5),
                (ALL - 7, ALL - 4, -8, -5, 0, ALL)
            )
            && is(
                loaded(Precision::Whole, Width::Double),
                (0, ALL, MIN, MAX, 0, ALL)
            )
            && is(
                loaded_signed(Precision::Whole, SignedWidth::Byte),
                (0, ALL, -128, 127, 0, ALL)
            )
    );
}

#[test]
fn readings(rt: HostRuntime) {
    let x = between(Precision::Whole, 2, 9);
    assert!(rt; highest(&x) == 9 && holds(&x, 2) && !holds(&x, 10) && !holds(&constant(4), 5));
}

#[test]
fn parts_of_a_number(rt: HostRuntime) {
    let x = number((1, 9, -3, 4, 2, 5)).expect(&rt, "a number");
    assert!(rt; x.unsigned().high == 9 && x.signed().low == -3 && x.bits().unknown == 5);
}

/// A number is constant if its unsigned range is, whatever its other parts say.
#[test]
fn constant_by_the_range(rt: HostRuntime) {
    let x = number((5, 5, MIN, MAX, 0, ALL)).expect(&rt, "a number");
    assert!(rt;
        gives(
            arithmetic(
                Precision::Whole,
                OpWidth::Bits64,
                Arithmetic::Add,
                x,
                constant(1)
            ),
            Some((6, 6, 6, 6, 6, 0))
        )
    );
}
