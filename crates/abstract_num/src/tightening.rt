//! The four parts of a number tell each other what they know.

ghost use Rattle.std.specs.Prelude.{◌≡◌, ℕ, ◌-◌, ◌^◌, ◌<◌, ◌<ℤ◌, ◌≤ℤ◌, ◌||◌, nat_lt, int_lt, pos, negsuc, true};
ghost use Rattle.std.specs.Prelude.{MatchOption};
ghost use Rattle.std.specs.Int.{int_max, int_min};
ghost use Rattle.abstract_num.specs.Plain.{Gives, Holds, Kept, view};
ghost use Rattle.abstract_num.specs.Tighten.{by_bits, by_constant, by_half, by_signed, by_unsigned, half_of_constant};
ghost use Rattle.abstract_num.specs.Tighten.{is_empty, is_narrowed, is_short, meet_half, meet_signed, meet_unsigned};
ghost use Rattle.abstract_num.specs.Tighten.{tighten, tighten_again, tighten_halves, tighten_whole, with_any_half};

use crate::bits::Bits;
use crate::half::Half;
use crate::half::rows::low_half;
use crate::number::{Number, any};
use crate::precision::Precision;
use crate::product::Product;
use crate::srange::SRange;
use crate::urange::URange;

/// Intersects x's unsigned range with the one from `low` to `high`; none if the ends cross.
#[inline(always)]
fn meet_unsigned(x: Number, low: u64, high: u64) -> Option<Number>
    ensures { let y = meet_unsigned (view x) low high in MatchOption result (y.high < y.low) (λ z. view z ≡ y) }
{
    let low = x.unsigned().low.max(low);
    let high = x.unsigned().high.min(high);
    if high < low {
        return None;
    }
    Some(Number::of(URange { low, high }, x.signed(), x.bits(), x.half()))
}

/// Intersects x's signed range with the one from `low` to `high`; none if the ends cross.
#[inline(always)]
fn meet_signed(x: Number, low: i64, high: i64) -> Option<Number>
    ensures { let y = meet_signed (view x) low high in MatchOption result (y.greatest <ℤ y.least) (λ z. view z ≡ y) }
{
    let range = x.first;
    let sign = x.second.first;
    let rest = x.second.second;
    let low = sign.low.max(low);
    let high = sign.high.min(high);
    if high < low {
        return None;
    }
    Some(Product {
        first: range,
        second: Product {
            first: SRange { low, high },
            second: rest,
        },
    })
}

/// Intersects the unsigned range with the least and the greatest number that the bits allow.
#[inline(always)]
fn by_bits(x: Number) -> Option<Number>
    ensures { let y = by_bits (view x) in MatchOption result (y.high < y.low) (λ z. view z ≡ y) }
{
    let bits = x.bits();
    // No bit is set in both, so the sum can't overflow.
    meet_unsigned(x, bits.value, bits.value + bits.unknown)
}

/// Intersects the signed range with the unsigned one, if all numbers of that have one sign.
#[inline(always)]
fn by_unsigned(x: Number) -> Option<Number>
    ensures { let y = by_unsigned (view x) in MatchOption result (y.greatest <ℤ y.least) (λ z. view z ≡ y) }
{
    let range = x.first;
    // A range across 2^63 has numbers of both signs, and bounds neither end of the signed one.
    if range.high < 1 << 63 || range.low >= 1 << 63 {
        meet_signed(x, range.low.cast_signed(), range.high.cast_signed())
    } else {
        Some(x)
    }
}

/// Intersects the unsigned range with the signed one, if all numbers of that have one sign.
#[inline(always)]
fn by_signed(x: Number) -> Option<Number>
    ensures { let y = by_signed (view x) in MatchOption result (y.high < y.low) (λ z. view z ≡ y) }
{
    let sign = x.signed();
    if sign.low >= 0 || sign.high < 0 {
        meet_unsigned(x, sign.low.cast_unsigned(), sign.high.cast_unsigned())
    } else {
        Some(x)
    }
}

/// Makes the bits and the signed range that number, if the unsigned range is one number; none if
/// they don't hold it.
#[inline(always)]
fn by_constant(x: Number) -> Option<Number>
    ensures { Gives (by_constant (view x)) result }
{
    let range = x.first;
    let sign = x.second.first;
    let bits = x.second.second.first;
    let n = range.low;
    if n != range.high {
        return Some(x);
    }
    let s = n.cast_signed();
    if (n ^ (n & bits.unknown)) == bits.value && sign.low <= s && s <= sign.high {
        Some(Product {
            first: range,
            second: Product {
                first: SRange { low: s, high: s },
                second: Product {
                    first: Bits {
                        value: n,
                        unknown: 0,
                    },
                    second: x.second.second.second,
                },
            },
        })
    } else {
        None
    }
}

/// Tightens the unsigned range, the signed range and the bits: the four steps, one after another.
#[inline(always)]
fn stepped(x: Number) -> Option<Number>
    ensures { Gives (tighten_whole (view x)) result }
{
    let Some(y) = by_bits(x) else {
        return None;
    };
    let Some(z) = by_unsigned(y) else {
        return None;
    };
    let Some(w) = by_signed(z) else {
        return None;
    };
    by_constant(w)
}

/// The numbers that lie in the signed range and in the half, if those are read alike.
#[inline(always)]
fn within_half(sign: SRange, half: Half) -> Option<SRange>
    ensures { let p = int_max sign.low half.low in let q = int_min sign.high half.high in MatchOption result (q <ℤ p)
        (λ z. (z.low ≡ p) × (z.high ≡ q)) }
{
    let low = sign.low.max(i64::from(half.low));
    let high = sign.high.min(i64::from(half.high));
    if high < low {
        None
    } else {
        Some(SRange { low, high })
    }
}

/// The half of those ends.
#[inline(always)]
fn half_of(range: SRange) -> Half
    requires low { negsuc (2 ^ 31 - 1) ≤ℤ range.low }
    requires high { range.high <ℤ pos (2 ^ 31) }
    ensures { (result.low ≡ range.low) × (result.high ≡ range.high) }
{
    Half {
        low: range.low as i32,
        high: range.high as i32,
    }
}

/// Intersects the signed range and the half; none if the ends cross.
#[inline(always)]
fn meet_half(x: Number) -> Option<Number>
    requires { is_short (view x) ≡ true }
    ensures { let y = meet_half (view x) in MatchOption result (y.greatest <ℤ y.least) (λ z. view z ≡ y) }
{
    let Some(range) = within_half(x.signed(), x.half()) else {
        return None;
    };
    Some(Number::of(x.unsigned(), range, x.bits(), half_of(range)))
}

/// True if the signed range lies in 32 signed bits.
#[inline(always)]
pub(crate) fn is_short(x: Number) -> bool
    ensures { result ≡ is_short (view x) }
{
    let sign = x.signed();
    sign.low >= -(1 << 31) && sign.high < 1 << 31
}

/// Intersects the half with the signed range or the unsigned one, if it tells of that.
fn by_half(x: Number) -> Option<Number>
    ensures { let y = by_half (view x) in MatchOption result (is_empty y ≡ true) (λ z. view z ≡ y) }
{
    let half = x.half();
    if is_short(x) {
        meet_half(x)
    } else if x.unsigned().high < 1 << 32 && half.low >= 0 {
        meet_unsigned(
            x,
            u64::from(half.low.cast_unsigned()),
            u64::from(half.high.cast_unsigned()),
        )
    } else {
        Some(x)
    }
}

/// True if an end moved inwards from `x` to `y`.
#[inline(always)]
fn is_shorter(x: URange, y: URange) -> bool
    ensures { result ≡ (nat_lt x.low y.low || nat_lt y.high x.high) }
{
    x.low < y.low || y.high < x.high
}

/// True if an end moved inwards from `x` to `y`.
#[inline(always)]
fn is_shorter_signed(x: SRange, y: SRange) -> bool
    ensures { result ≡ (int_lt x.low y.low || int_lt y.high x.high) }
{
    x.low < y.low || y.high < x.high
}

/// True if an end of a range moved inwards from `x` to `y`.
fn is_narrowed(x: Number, y: Number) -> bool
    ensures { result ≡ is_narrowed (view x) (view y) }
{
    is_shorter(x.unsigned(), y.unsigned()) || is_shorter_signed(x.signed(), y.signed())
}

/// Makes the half that number's, if the unsigned range is one number; none if it doesn't hold it.
fn half_of_constant(x: Number) -> Option<Number>
    ensures { Gives (half_of_constant (view x)) result }
{
    let range = x.unsigned();
    if range.low != range.high {
        return Some(x);
    }
    let n = low_half(range.low);
    if x.half().low <= n && n <= x.half().high {
        Some(Number::of(range, x.signed(), x.bits(), Half { low: n, high: n }))
    } else {
        None
    }
}

/// Intersects the half with the ranges, and tightens the other parts again if that narrowed one.
fn tightened_again(x: Number) -> Option<Number>
    ensures { Gives (tighten_again (view x) (by_half (view x))) result }
{
    let Some(y) = by_half(x) else {
        return None;
    };
    if is_narrowed(x, y) {
        stepped(y)
    } else {
        Some(y)
    }
}

/// Tightens all four parts.
fn tightened_halves(x: Number) -> Option<Number>
    ensures { Gives (tighten_halves (view x)) result }
{
    let Some(y) = stepped(x) else {
        return None;
    };
    let Some(z) = tightened_again(y) else {
        return None;
    };
    half_of_constant(z)
}

/// The number with any half.
#[inline(always)]
pub(crate) fn with_any_half(x: Number) -> Number
    ensures { view result ≡ with_any_half (view x) }
{
    Number::of(x.unsigned(), x.signed(), x.bits(), any().half())
}

/// Tightens with or without the half.
#[inline(always)]
fn tightened(precision: Precision, x: Number) -> Option<Number>
    ensures { Gives (tighten precision (view x)) result }
{
    match precision {
        Precision::Whole => stepped(with_any_half(x)),
        Precision::Halves => tightened_halves(x),
    }
}

/// Passes once what each part knows to the others, in the order of the table: bits to the unsigned
/// range, that to the signed one and back, and a single number to all parts; then with halves the
/// half to the ranges and back. A second time may tighten further. None if no number is left.
// Inlined, so that the compiler tightens a named range whose ends are constants, as a load's.
#[inline(always)]
pub fn tighten(precision: Precision, x: Number) -> Option<Number>
    ensures table { Gives (tighten precision (view x)) result }
    ensures keeps { (n : ℕ) → Holds (view x) n → Kept result n }
{
    tightened(precision, x)
}
