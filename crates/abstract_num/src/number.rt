//! Abstract numbers of four parts: how they are made, joined, compared and looked at.

ghost use Rattle.std.specs.Prelude.{◌≡◌, ℕ, ◌+◌, ◌-◌, ◌*◌, ◌^◌, ◌<◌, ◌≤◌, ◌≤ℤ◌, ◌↔◌, Some, IsTrue, ℤ, pos, negsuc};
ghost use Rattle.bpf_decode.specs.Instruction.{byte_count, signed_byte_count};
ghost use Rattle.bpf_decode.specs.Arithmetic.{signed_load_value};
ghost use Rattle.abstract_num.specs.Signed.{signed, signed_half};
ghost use Rattle.abstract_num.specs.Masks.{clear};
ghost use Rattle.abstract_num.specs.Plain.{Holds, Below, any, constant, join, view};
ghost use Rattle.abstract_num.specs.Tighten.{tighten};
ghost use Rattle.abstract_num.specs.Transfer.{ranged, signed_ranged, load_high, signed_low, signed_high};
ghost use Rattle.abstract_num.specs.Laws.{joined};

use crate::bits::Bits;
use crate::domain::Domain;
use crate::half::{Half, rows};
use crate::precision::Precision;
use crate::product::Product;
use crate::srange::SRange;
use crate::tightening::tighten;
use crate::urange::URange;
use bpf_decode::{SignedWidth, Width};
use std::mem::size_of;

/// An abstract number below `2^64`: it holds the numbers that lie in both ranges, agree with the
/// known bits, and have a low half that lies in the half.
pub type Number = Product<URange, Product<SRange, Product<Bits, Half>>>;

/// A value takes seven words.
const _: () = prove!(size_of::<Number>() <= 56);

impl Product<URange, Product<SRange, Product<Bits, Half>>> {
    /// The number of these parts.
    #[inline(always)]
    pub(crate) fn of(unsigned: URange, signed: SRange, bits: Bits, half: Half) -> Number
        ensures { result ≡ record {
          first = unsigned;
          second = record { first = signed; second = record { first = bits; second = half } };
        } }
    {
        Product {
            first: unsigned,
            second: Product {
                first: signed,
                second: Product {
                    first: bits,
                    second: half,
                },
            },
        }
    }

    /// Its unsigned range.
    #[inline(always)]
    pub fn unsigned(self) -> URange
        ensures { result ≡ self.first }
    {
        self.first
    }

    /// Its signed range.
    #[inline(always)]
    pub fn signed(self) -> SRange
        ensures { result ≡ self.second.first }
    {
        self.second.first
    }

    /// Its known bits.
    #[inline(always)]
    pub fn bits(self) -> Bits
        ensures { result ≡ self.second.second.first }
    {
        self.second.second.first
    }

    /// Its half: the range of its low 32 bits as a signed number.
    #[inline(always)]
    pub fn half(self) -> Half
        ensures { result ≡ self.second.second.second }
    {
        self.second.second.second
    }
}

/// Every number.
#[inline(always)]
pub fn any() -> Number
    ensures table { view result ≡ any }
    ensures holds { (n : ℕ) → n < 2 ^ 64 → Holds (view result) n }
{
    let unsigned = URange {
        low: 0,
        high: u64::MAX,
    };
    let signed = SRange {
        low: i64::MIN,
        high: i64::MAX,
    };
    let bits = Bits {
        value: 0,
        unknown: u64::MAX,
    };
    let half = Half {
        low: i32::MIN,
        high: i32::MAX,
    };
    Number::of(unsigned, signed, bits, half)
}

/// The number `n` alone.
#[inline(always)]
pub fn constant(n: u64) -> Number
    ensures table { view result ≡ constant n }
    ensures holds { (k : ℕ) → Holds (view result) k ↔ (k ≡ n) }
{
    let signed = n.cast_signed();
    let half = rows::low_half(n);
    let bits = Bits {
        value: n,
        unknown: 0,
    };
    Number::of(
        URange { low: n, high: n },
        SRange {
            low: signed,
            high: signed,
        },
        bits,
        Half {
            low: half,
            high: half,
        },
    )
}

/// The range from `low` to `high`, tightened once.
#[inline(always)]
fn tightened(precision: Precision, low: u64, high: u64) -> Number
    requires { low ≤ high }
    ensures { tighten precision (ranged low high) ≡ Some (view result) }
{
    // The other parts begin as every number: the one tightening gives them what the range implies.
    let wide = Number::of(
        URange { low, high },
        any().signed(),
        any().bits(),
        any().half(),
    );
    match tighten(precision, wide) {
        Some(x) => x,
        None => unreachable!(),
    }
}

/// The numbers from `low` to `high`, tightened once.
#[inline(always)]
pub fn between(precision: Precision, low: u64, high: u64) -> Number
    requires { low ≤ high }
    ensures table { tighten precision (ranged low high) ≡ Some (view result) }
    ensures holds { (n : ℕ) → low ≤ n → n ≤ high → Holds (view result) n }
{
    tightened(precision, low, high)
}

/// The signed range from `low` to `high`, tightened once.
#[inline(always)]
fn signed_tightened(precision: Precision, low: i64, high: i64) -> Number
    requires { low ≤ℤ high }
    ensures { tighten precision (signed_ranged low high) ≡ Some (view result) }
{
    let wide = Number::of(
        any().unsigned(),
        SRange { low, high },
        any().bits(),
        any().half(),
    );
    match tighten(precision, wide) {
        Some(x) => x,
        None => unreachable!(),
    }
}

/// The numbers that are from `low` to `high` as signed ones, tightened once.
#[inline(always)]
pub fn signed_between(precision: Precision, low: i64, high: i64) -> Number
    requires { low ≤ℤ high }
    ensures table { tighten precision (signed_ranged low high) ≡ Some (view result) }
    ensures holds { (n : ℕ) → n < 2 ^ 64 → low ≤ℤ signed n → signed n ≤ℤ high → Holds (view result) n }
{
    signed_tightened(precision, low, high)
}

/// The numbers of a load that zero-extends.
#[inline(always)]
fn of_load(precision: Precision, width: Width) -> Number
    ensures { tighten precision (ranged 0 (load_high width)) ≡ Some (view result) }
{
    match width {
        Width::Byte => between(precision, 0, 0xff),
        Width::Half => between(precision, 0, 0xffff),
        Width::Word => between(precision, 0, 0xffff_ffff),
        Width::Double => between(precision, 0, u64::MAX),
    }
}

/// The numbers that a load may give which zero-extends: their range, tightened once.
#[inline(always)]
pub fn loaded(precision: Precision, width: Width) -> Number
    ensures table { tighten precision (ranged 0 (load_high width)) ≡ Some (view result) }
    ensures holds { (n : ℕ) → n < 256 ^ byte_count width → Holds (view result) n }
{
    of_load(precision, width)
}

/// The numbers of a load that sign-extends.
#[inline(always)]
fn of_signed_load(precision: Precision, width: SignedWidth) -> Number
    ensures { tighten precision (signed_ranged (signed_low width) (signed_high width)) ≡ Some (view result) }
{
    match width {
        SignedWidth::Byte => signed_between(precision, -0x80, 0x7f),
        SignedWidth::Half => signed_between(precision, -0x8000, 0x7fff),
        SignedWidth::Word => signed_between(precision, -0x8000_0000, 0x7fff_ffff),
    }
}

/// The numbers that a load may give which sign-extends: their range, tightened once.
#[inline(always)]
pub fn loaded_signed(precision: Precision, width: SignedWidth) -> Number
    ensures table { tighten precision (signed_ranged (signed_low width) (signed_high width)) ≡ Some (view result) }
    ensures holds { (n : ℕ) → n < 256 ^ signed_byte_count width → Holds (view result) (signed_load_value width n) }
{
    of_signed_load(precision, width)
}

/// An upper bound of both, not tightened.
#[inline(always)]
pub fn join(x: Number, y: Number) -> Number
    ensures table { view result ≡ join (view x) (view y) }
    ensures joined { result ≡ joined x y }
{
    x.join(y)
}

/// True if `x` is below `y` in the order of the join.
#[inline(always)]
pub fn is_below(x: Number, y: Number) -> bool
    ensures { IsTrue result ↔ Below (view x) (view y) }
{
    x.is_below(y)
}

/// True if `n` agrees with the known bits.
#[inline(always)]
fn agrees(bits: Bits, n: u64) -> bool
    ensures { IsTrue result ↔ (clear n bits.unknown ≡ bits.value) }
{
    (n ^ (n & bits.unknown)) == bits.value
}

/// True if `n` lies in the range.
#[inline(always)]
fn lies_in(range: URange, n: u64) -> bool
    ensures { IsTrue result ↔ (range.low ≤ n) × (n ≤ range.high) }
{
    range.low <= n && n <= range.high
}

/// True if `n` lies in the range as a signed number.
#[inline(always)]
fn lies_in_signed(range: SRange, n: u64) -> bool
    ensures { IsTrue result ↔ (range.low ≤ℤ signed n) × (signed n ≤ℤ range.high) }
{
    range.low <= n.cast_signed() && n.cast_signed() <= range.high
}

/// True if the low 32 bits of `n` lie in the half as a signed number.
#[inline(always)]
fn lies_in_half(half: Half, n: u64) -> bool
    ensures { IsTrue result ↔ (half.low ≤ℤ signed_half n) × (signed_half n ≤ℤ half.high) }
{
    half.low <= rows::low_half(n) && rows::low_half(n) <= half.high
}

/// True if the number holds `n`.
#[inline(always)]
pub fn holds(x: &Number, n: u64) -> bool
    ensures { IsTrue result ↔ Holds (view x.now) n }
{
    lies_in(x.unsigned(), n)
        && lies_in_signed(x.signed(), n)
        && agrees(x.bits(), n)
        && lies_in_half(x.half(), n)
}

/// The unsigned upper bound.
#[inline(always)]
pub fn highest(x: &Number) -> u64
    ensures table { result ≡ (view x.now).high }
    ensures bound { (n : ℕ) → Holds (view x.now) n → n ≤ result }
{
    x.unsigned().high
}
