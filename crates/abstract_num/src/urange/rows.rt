//! What each row of the table makes of unsigned ranges.

ghost use Rattle.std.specs.Prelude.{◌≤◌, ◌≡◌, ◌^◌, ◌-◌};
ghost use Rattle.abstract_num.specs.UnsignedRows.{digits, all, ends, unsigned_row};
ghost use Rattle.abstract_num.specs.proved.UnsignedRows.{IsSpan};

use crate::row::Row;
use crate::urange::URange;

/// The range from `low` to `high`.
#[inline(always)]
pub(super) fn span(low: u64, high: u64) -> URange
    requires { low ≤ high }
    ensures { IsSpan result (ends low high) }
{
    URange { low, high }
}

/// Every number.
#[inline(always)]
pub(super) fn every() -> URange
    ensures { IsSpan result all }
{
    URange {
        low: 0,
        high: u64::MAX,
    }
}

#[inline(always)]
pub(super) fn add(left: URange, right: URange) -> URange
    ensures { IsSpan result (unsigned_row Row.Add left.low left.high right.low right.high) }
{
    match left.high.checked_add(right.high) {
        Some(high) => span(left.low + right.low, high),
        None => every(),
    }
}

#[inline(always)]
pub(super) fn sub(left: URange, right: URange) -> URange
    ensures { IsSpan result (unsigned_row Row.Sub left.low left.high right.low right.high) }
{
    if left.low >= right.high {
        span(left.low - right.high, left.high - right.low)
    } else {
        every()
    }
}

pub(super) fn mul(left: URange, right: URange) -> URange
    ensures { IsSpan result (unsigned_row Row.Mul left.low left.high right.low right.high) }
{
    match left.high.checked_mul(right.high) {
        Some(high) => span(left.low * right.low, high),
        None => every(),
    }
}

pub(super) fn div(left: URange, right: URange) -> URange
    ensures { IsSpan result (unsigned_row Row.Div left.low left.high right.low right.high) }
{
    // A division by 0 gives 0, so a divisor that may be 0 takes the low end to 0.
    if right.low >= 1 {
        span(left.low / right.high, left.high / right.low)
    } else {
        span(0, left.high)
    }
}

pub(super) fn rem(left: URange, right: URange) -> URange
    ensures { IsSpan result (unsigned_row Row.Mod left.low left.high right.low right.high) }
{
    // A remainder by 0 is the dividend, so a divisor that may be 0 bounds nothing.
    if right.low == 0 {
        return span(0, left.high);
    }
    span(0, left.high.min(right.high - 1))
}

/// The greatest number whose highest set bit is that of `n`; 0 of 0.
#[inline(always)]
fn filled(n: u64) -> u64
    ensures { result ≡ 2 ^ digits n - 1 }
{
    if n == 0 {
        0
    } else {
        u64::MAX >> n.leading_zeros()
    }
}

#[inline(always)]
pub(super) fn or(left: URange, right: URange) -> URange
    ensures { IsSpan result (unsigned_row Row.Or left.low left.high right.low right.high) }
{
    // An `or` keeps every set bit of both, and sets none above the highest.
    span(left.low.max(right.low), filled(left.high.max(right.high)))
}

#[inline(always)]
pub(super) fn xor(left: URange, right: URange) -> URange
    ensures { IsSpan result (unsigned_row Row.Xor left.low left.high right.low right.high) }
{
    span(0, filled(left.high.max(right.high)))
}

#[inline(always)]
pub(super) fn lsh(left: URange, by: u32) -> URange
    ensures { IsSpan result (unsigned_row (Row.LshBy by) left.low left.high 0 0) }
{
    let power = 1 << (by % 64);
    match left.high.checked_mul(power) {
        Some(high) => span(left.low * power, high),
        None => every(),
    }
}

#[inline(always)]
pub(super) fn rsh(left: URange, by: u32) -> URange
    ensures { IsSpan result (unsigned_row (Row.RshBy by) left.low left.high 0 0) }
{
    span(left.low >> (by % 64), left.high >> (by % 64))
}

#[inline(always)]
pub(super) fn arsh(left: URange, by: u32) -> URange
    ensures { IsSpan result (unsigned_row (Row.ArshBy by) left.low left.high 0 0) }
{
    // Below 2^63 the sign is 0, and the shift is a logical one.
    if left.high < 1 << 63 {
        span(left.low >> (by % 64), left.high >> (by % 64))
    } else {
        every()
    }
}

#[inline(always)]
pub(super) fn arsh_by_any(left: URange) -> URange
    ensures { IsSpan result (unsigned_row Row.Arsh left.low left.high 0 0) }
{
    if left.high < 1 << 63 {
        span(0, left.high)
    } else {
        every()
    }
}

#[inline(always)]
pub(super) fn cut(left: URange) -> URange
    ensures { IsSpan result (unsigned_row Row.Cut left.low left.high 0 0) }
{
    if left.high < 1 << 32 {
        left
    } else {
        span(0, (1 << 32) - 1)
    }
}
