//! What each row of the table makes of signed ranges.

ghost use Rattle.std.specs.Prelude.{◌≡◌, ◌^◌, ◌≤◌, pos};
ghost use Rattle.abstract_num.specs.proved.Scaled.{IsScaled};
ghost use Rattle.abstract_num.specs.SignedRows.{all, signed_row};
ghost use Rattle.abstract_num.specs.proved.SignedRows.{IsReach};

use crate::row::Row;
use crate::srange::SRange;

/// Every number.
#[inline(always)]
pub(super) fn every() -> SRange
    ensures { IsReach result all }
{
    SRange {
        low: i64::MIN,
        high: i64::MAX,
    }
}

#[inline(always)]
pub(super) fn add(left: SRange, right: SRange) -> SRange
    ensures { IsReach result (signed_row Row.Add left.low left.high right.low right.high) }
{
    let Some(low) = left.low.checked_add(right.low) else {
        return every();
    };
    let Some(high) = left.high.checked_add(right.high) else {
        return every();
    };
    SRange { low, high }
}

#[inline(always)]
pub(super) fn sub(left: SRange, right: SRange) -> SRange
    ensures { IsReach result (signed_row Row.Sub left.low left.high right.low right.high) }
{
    let Some(low) = left.low.checked_sub(right.high) else {
        return every();
    };
    let Some(high) = left.high.checked_sub(right.low) else {
        return every();
    };
    SRange { low, high }
}

/// 2 to `by`.
#[inline(always)]
fn power(by: u32) -> i64
    requires { by ≤ 32 }
    ensures { result ≡ pos (2 ^ by) }
{
    (1u64 << by).cast_signed()
}

/// `n` times 2 to `by`, or none if that doesn't fit.
#[inline(always)]
fn doubled(n: i64, by: u32) -> Option<i64>
    requires { by ≤ 32 }
    ensures { IsScaled n by result }
{
    n.checked_mul(power(by))
}

/// `n` times 2 to `by`, or none if that doesn't fit.
// 2 to 63 is no signed number: half of the shift at a time.
#[inline(always)]
fn scaled(n: i64, by: u32) -> Option<i64>
    requires { by ≤ 63 }
    ensures { IsScaled n by result }
{
    let first = by / 2;
    match doubled(n, first) {
        Some(part) => doubled(part, by - first),
        None => None,
    }
}

#[inline(always)]
pub(super) fn lsh(left: SRange, by: u32) -> SRange
    ensures { IsReach result (signed_row (Row.SignedLshBy by) left.low left.high left.low left.high) }
{
    let Some(low) = scaled(left.low, by % 64) else {
        return every();
    };
    let Some(high) = scaled(left.high, by % 64) else {
        return every();
    };
    SRange { low, high }
}

#[inline(always)]
pub(super) fn arsh(left: SRange, by: u32) -> SRange
    ensures { IsReach result (signed_row (Row.SignedArshBy by) left.low left.high left.low left.high) }
{
    SRange {
        low: left.low >> (by % 64),
        high: left.high >> (by % 64),
    }
}
