//! What each row of the table makes of halves.

ghost use Rattle.std.specs.Prelude.{◌≡◌, ◌+ℤ◌, FitsSigned};
ghost use Rattle.std.specs.Int.{w32};
ghost use Rattle.std.specs.Option.{SomeIff};
ghost use Rattle.abstract_num.specs.HalfRows.{all, half_row};
ghost use Rattle.abstract_num.specs.Signed.{signed_half};
ghost use Rattle.abstract_num.specs.proved.HalfRows.{IsHalf};

use crate::half::Half;
use crate::row::Row;

/// Every number.
#[inline(always)]
pub(super) fn every() -> Half
    ensures { IsHalf result all }
{
    Half {
        low: i32::MIN,
        high: i32::MAX,
    }
}

/// The sum of two ends, or none if it doesn't fit 32 signed bits.
#[inline(always)]
fn sum(left: i32, right: i32) -> Option<i32>
    ensures { SomeIff result (FitsSigned w32 (left +ℤ right)) (left +ℤ right) }
{
    left.checked_add(right)
}

#[inline(always)]
pub(super) fn add(left: Half, right: Half) -> Half
    ensures { IsHalf result (half_row Row.Add left.low left.high right.low right.high) }
{
    let Some(low) = sum(left.low, right.low) else {
        return every();
    };
    let Some(high) = sum(left.high, right.high) else {
        return every();
    };
    Half { low, high }
}

#[inline(always)]
pub(super) fn sub(left: Half, right: Half) -> Half
    ensures { IsHalf result (half_row Row.Sub left.low left.high right.low right.high) }
{
    let Some(low) = left.low.checked_sub(right.high) else {
        return every();
    };
    let Some(high) = left.high.checked_sub(right.low) else {
        return every();
    };
    Half { low, high }
}

/// The low 32 bits of `n`, as a signed number.
#[inline(always)]
pub(crate) fn low_half(n: u64) -> i32
    ensures { result ≡ signed_half n }
{
    ((n % (1 << 32)) as u32).cast_signed()
}
