//! What the outcome of a comparison tells of signed ranges.

ghost use Rattle.std.specs.Prelude.{◌≡◌, ◌-◌, ◌^◌, ◌<ℤ◌, ◌+ℤ◌, ◌-ℤ◌, pos, negsuc};
ghost use Rattle.std.specs.Int.{int_max, int_min};
ghost use Rattle.abstract_num.specs.Refined.{IsRefined};
ghost use Rattle.abstract_num.specs.SignedFacts.{crosses, if_at};
ghost use Rattle.abstract_num.specs.proved.SignedFacts.{AreReaches, SRangeRefines};

use crate::fact::Fact;
use crate::srange::SRange;

/// The ranges between the ends, or none if two ends cross.
#[inline(always)]
fn between(low: i64, high: i64, other_low: i64, other_high: i64) -> Option<(SRange, SRange)>
    ensures { IsRefined (crosses ((low, high), (other_low, other_high)))
        (AreReaches ((low, high), (other_low, other_high))) result }
{
    if high < low || other_high < other_low {
        None
    } else {
        Some((
            SRange { low, high },
            SRange {
                low: other_low,
                high: other_high,
            },
        ))
    }
}

/// The number after `n`.
#[inline(always)]
fn next(n: i64) -> i64
    requires { n <ℤ pos (2 ^ 63 - 1) }
    ensures { result ≡ n +ℤ pos 1 }
{
    n + 1
}

/// The number before `n`.
#[inline(always)]
fn previous(n: i64) -> i64
    requires { negsuc (2 ^ 63 - 1) <ℤ n }
    ensures { result ≡ n -ℤ pos 1 }
{
    n - 1
}

/// The low end of the numbers from `low` on that are above `other`.
#[inline(always)]
fn least_above(low: i64, other: i64) -> i64
    requires { other <ℤ pos (2 ^ 63 - 1) }
    ensures { result ≡ int_max low (other +ℤ pos 1) }
{
    low.max(next(other))
}

/// The high end of the numbers up to `high` that are below `other`.
#[inline(always)]
fn greatest_below(high: i64, other: i64) -> i64
    requires { negsuc (2 ^ 63 - 1) <ℤ other }
    ensures { result ≡ int_min high (other -ℤ pos 1) }
{
    high.min(previous(other))
}

#[inline(always)]
pub(super) fn same(left: SRange, right: SRange) -> Option<(SRange, SRange)>
    ensures { SRangeRefines Fact.Same left right result }
{
    let low = left.low.max(right.low);
    let high = left.high.min(right.high);
    between(low, high, low, high)
}

#[inline(always)]
pub(super) fn above(left: SRange, right: SRange) -> Option<(SRange, SRange)>
    ensures { SRangeRefines Fact.SignedAbove left right result }
{
    if left.high <= right.low {
        return None;
    }
    between(
        least_above(left.low, right.low),
        left.high,
        right.low,
        greatest_below(right.high, left.high),
    )
}

#[inline(always)]
pub(super) fn at_least(left: SRange, right: SRange) -> Option<(SRange, SRange)>
    ensures { SRangeRefines Fact.SignedAtLeast left right result }
{
    between(
        left.low.max(right.low),
        left.high,
        right.low,
        right.high.min(left.high),
    )
}

/// The low end, moved inwards if it is `c`.
#[inline(always)]
fn raised(low: i64, c: i64) -> i64
    requires { low ≡ c → low <ℤ pos (2 ^ 63 - 1) }
    ensures { result ≡ low +ℤ if_at low c }
{
    if low == c { next(low) } else { low }
}

/// The high end, moved inwards if it is `c`.
#[inline(always)]
fn lowered(high: i64, c: i64) -> i64
    requires { high ≡ c → negsuc (2 ^ 63 - 1) <ℤ high }
    ensures { result ≡ high -ℤ if_at high c }
{
    if high == c { previous(high) } else { high }
}

#[inline(always)]
pub(super) fn other_than(left: SRange, right: SRange, c: u64) -> Option<(SRange, SRange)>
    ensures { SRangeRefines (Fact.Not c) left right result }
{
    let c = c.cast_signed();
    if left.low == left.high && left.low == c {
        return None;
    }
    between(
        raised(left.low, c),
        lowered(left.high, c),
        right.low,
        right.high,
    )
}
