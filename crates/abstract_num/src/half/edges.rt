//! What the outcome of a comparison tells of halves.

ghost use Rattle.std.specs.Prelude.{◌≡◌, ◌-◌, ◌^◌, ◌<ℤ◌, ◌+ℤ◌, ◌-ℤ◌, pos, negsuc};
ghost use Rattle.std.specs.Int.{int_max, int_min};
ghost use Rattle.abstract_num.specs.Refined.{IsRefined};
ghost use Rattle.abstract_num.specs.HalfFacts.{crosses};
ghost use Rattle.abstract_num.specs.proved.HalfFacts.{AreHalves, HalfRefines};

use crate::fact::Fact;
use crate::half::Half;

/// The halves between the ends, or none if two ends cross.
#[inline(always)]
fn between(low: i32, high: i32, other_low: i32, other_high: i32) -> Option<(Half, Half)>
    ensures { IsRefined (crosses ((low, high), (other_low, other_high)))
        (AreHalves ((low, high), (other_low, other_high))) result }
{
    if high < low || other_high < other_low {
        None
    } else {
        Some((
            Half { low, high },
            Half {
                low: other_low,
                high: other_high,
            },
        ))
    }
}

/// The low end of the numbers from `low` on that are above `other`.
#[inline(always)]
fn least_above(low: i32, other: i32) -> i32
    requires { other <ℤ pos (2 ^ 31 - 1) }
    ensures { result ≡ int_max low (other +ℤ pos 1) }
{
    low.max(other + 1)
}

/// The high end of the numbers up to `high` that are below `other`.
#[inline(always)]
fn greatest_below(high: i32, other: i32) -> i32
    requires { negsuc (2 ^ 31 - 1) <ℤ other }
    ensures { result ≡ int_min high (other -ℤ pos 1) }
{
    high.min(other - 1)
}

#[inline(always)]
pub(super) fn same(left: Half, right: Half) -> Option<(Half, Half)>
    ensures { HalfRefines Fact.Same left right result }
{
    let low = left.low.max(right.low);
    let high = left.high.min(right.high);
    between(low, high, low, high)
}

#[inline(always)]
pub(super) fn above(left: Half, right: Half) -> Option<(Half, Half)>
    ensures { HalfRefines Fact.HalfAbove left right result }
{
    if left.high <= right.low {
        return None;
    }
    between(
        least_above(left.low, right.low),
        left.high,
        right.low,
        greatest_below(right.high, left.high),
    )
}

#[inline(always)]
pub(super) fn at_least(left: Half, right: Half) -> Option<(Half, Half)>
    ensures { HalfRefines Fact.HalfAtLeast left right result }
{
    between(
        left.low.max(right.low),
        left.high,
        right.low,
        right.high.min(left.high),
    )
}
