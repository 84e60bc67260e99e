//! What the outcome of a comparison tells of unsigned ranges.

ghost use Rattle.std.specs.Prelude.{◌≡◌};
ghost use Rattle.abstract_num.specs.Refined.{IsRefined};
ghost use Rattle.abstract_num.specs.UnsignedFacts.{crosses};
ghost use Rattle.abstract_num.specs.proved.UnsignedFacts.{AreSpans, URangeRefines};

use crate::fact::Fact;
use crate::urange::URange;

/// The ranges between the ends, or none if two ends cross.
#[inline(always)]
fn between(low: u64, high: u64, other_low: u64, other_high: u64) -> Option<(URange, URange)>
    ensures { IsRefined (crosses ((low, high), (other_low, other_high)))
        (AreSpans ((low, high), (other_low, other_high))) result }
{
    if high < low || other_high < other_low {
        None
    } else {
        Some((
            URange { low, high },
            URange {
                low: other_low,
                high: other_high,
            },
        ))
    }
}

#[inline(always)]
pub(super) fn same(left: URange, right: URange) -> Option<(URange, URange)>
    ensures { URangeRefines Fact.Same left right result }
{
    let low = left.low.max(right.low);
    let high = left.high.min(right.high);
    between(low, high, low, high)
}

#[inline(always)]
pub(super) fn above(left: URange, right: URange) -> Option<(URange, URange)>
    ensures { URangeRefines Fact.Above left right result }
{
    if left.high <= right.low {
        return None;
    }
    between(
        // `right.low` is below `left.high` here, so neither `+ 1` nor `- 1` overflows.
        left.low.max(right.low + 1),
        left.high,
        right.low,
        right.high.min(left.high - 1),
    )
}

#[inline(always)]
pub(super) fn at_least(left: URange, right: URange) -> Option<(URange, URange)>
    ensures { URangeRefines Fact.AtLeast left right result }
{
    between(
        left.low.max(right.low),
        left.high,
        right.low,
        right.high.min(left.high),
    )
}

#[inline(always)]
pub(super) fn other_than(left: URange, right: URange, c: u64) -> Option<(URange, URange)>
    ensures { URangeRefines (Fact.Not c) left right result }
{
    if left.low == left.high && left.low == c {
        None
    } else {
        // The range isn't `c` alone, so an end that is `c` can move inwards.
        let low = if left.low == c {
            left.low + 1
        } else {
            left.low
        };
        let high = if left.high == c {
            left.high - 1
        } else {
            left.high
        };
        between(low, high, right.low, right.high)
    }
}
