//! What is left of two abstract numbers once a comparison of them went one way.

ghost use Rattle.std.specs.Prelude.{◌≡◌, ℕ, IsSomeAnd, MatchOption, Some, None};
ghost use Rattle.bpf_decode.specs.Arithmetic.{is_taken};
ghost use Rattle.abstract_num.specs.Plain.{Gives, GivesBoth, Holds, view};
ghost use Rattle.abstract_num.specs.Edges.{along, along_cuts, by_edge, by_fact, edge_of, half_edge, half_fact_of};
ghost use Rattle.abstract_num.specs.Edges.{is_signed, other_than, put_back, refined, short_end, tells, tightened};
ghost use Rattle.bpf_decode.specs.declared.operation.OpWidth.TheVariants.{Bits32, Bits64};
ghost use Rattle.abstract_num.specs.declared.precision.Precision.TheVariants.{Whole, Halves};

use crate::domain::Domain;
use crate::fact::{Edge, Fact};
use crate::number::Number;
use crate::precision::Precision;
use crate::tightening::{tighten, with_any_half};
use crate::transfer::{cut, is_constant};
use bpf_decode::{Comparison, OpWidth};

/// The relation between both numbers if the comparison holds (`taken`), or if it doesn't.
// `Turned` swaps the operands, so that four facts serve both edges of all comparisons of order.
#[inline(always)]
fn edge_of(comparison: Comparison, taken: bool) -> Edge
    ensures { result ≡ edge_of comparison taken }
{
    match comparison {
        Comparison::Equal if taken => Edge::Ahead(Fact::Same),
        Comparison::Equal => Edge::Apart,
        Comparison::NotEqual if taken => Edge::Apart,
        Comparison::NotEqual => Edge::Ahead(Fact::Same),
        Comparison::Greater if taken => Edge::Ahead(Fact::Above),
        Comparison::Greater => Edge::Turned(Fact::AtLeast),
        Comparison::GreaterEqual if taken => Edge::Ahead(Fact::AtLeast),
        Comparison::GreaterEqual => Edge::Turned(Fact::Above),
        Comparison::Less if taken => Edge::Turned(Fact::Above),
        Comparison::Less => Edge::Ahead(Fact::AtLeast),
        Comparison::LessEqual if taken => Edge::Turned(Fact::AtLeast),
        Comparison::LessEqual => Edge::Ahead(Fact::Above),
        Comparison::SignedGreater if taken => Edge::Ahead(Fact::SignedAbove),
        Comparison::SignedGreater => Edge::Turned(Fact::SignedAtLeast),
        Comparison::SignedGreaterEqual if taken => Edge::Ahead(Fact::SignedAtLeast),
        Comparison::SignedGreaterEqual => Edge::Turned(Fact::SignedAbove),
        Comparison::SignedLess if taken => Edge::Turned(Fact::SignedAbove),
        Comparison::SignedLess => Edge::Ahead(Fact::SignedAtLeast),
        Comparison::SignedLessEqual if taken => Edge::Turned(Fact::SignedAtLeast),
        Comparison::SignedLessEqual => Edge::Ahead(Fact::SignedAbove),
        Comparison::SharesBits if taken => Edge::Ahead(Fact::Meets),
        Comparison::SharesBits => Edge::Disjoint,
    }
}

/// Refines both numbers by a fact, part by part. None if a part has no number left.
#[inline(always)]
fn by_fact(fact: Fact, x: Number, y: Number) -> Option<(Number, Number)>
    ensures { GivesBoth (by_fact fact (view x) (view y)) result }
{
    Number::refine(fact, x, y)
}

/// Refines both numbers by a fact that holds of the second and the first.
#[inline(always)]
fn by_turned(fact: Fact, x: Number, y: Number) -> Option<(Number, Number)>
    ensures { GivesBoth (by_edge (Edge.Turned fact) (view x) (view y)) result }
{
    match by_fact(fact, y, x) {
        Some(both) => Some((both.1, both.0)),
        None => None,
    }
}

/// `x` without the number `y` if that is constant; else `x`.
// Two ranges that overlap may still hold different numbers: only a constant can be taken out.
#[inline(always)]
fn other_than(x: Number, y: Number) -> Option<Number>
    ensures { Gives (other_than (view x) (view y)) result }
{
    if is_constant(y) {
        match by_fact(Fact::Not(y.unsigned().low), x, y) {
            Some(both) => Some(both.0),
            None => None,
        }
    } else {
        Some(x)
    }
}

/// Two different numbers.
#[inline(always)]
fn apart(x: Number, y: Number) -> Option<(Number, Number)>
    ensures { GivesBoth (by_edge Edge.Apart (view x) (view y)) result }
{
    let Some(a) = other_than(x, y) else {
        return None;
    };
    let Some(b) = other_than(y, x) else {
        return None;
    };
    Some((a, b))
}

/// Two numbers without a set bit in common.
#[inline(always)]
fn disjoint(x: Number, y: Number) -> Option<(Number, Number)>
    ensures { GivesBoth (by_edge Edge.Disjoint (view x) (view y)) result }
{
    if is_constant(y) {
        by_fact(Fact::NoneOf(y.unsigned().low), x, y)
    } else {
        Some((x, y))
    }
}

/// Refines both numbers by their relation along an edge, without tightening.
fn by_edge(edge: Edge, x: Number, y: Number) -> Option<(Number, Number)>
    ensures { GivesBoth (by_edge edge (view x) (view y)) result }
{
    match edge {
        Edge::Ahead(fact) => by_fact(fact, x, y),
        Edge::Turned(fact) => by_turned(fact, x, y),
        Edge::Apart => apart(x, y),
        Edge::Disjoint => disjoint(x, y),
    }
}

/// The bound below which the low halves compare as the whole numbers do.
// A signed comparison of 32 bits takes bit 31 as the sign: hence its lower bound.
#[inline(always)]
fn short_end(comparison: Comparison) -> u64
    ensures { result ≡ short_end comparison }
{
    match comparison {
        Comparison::SignedGreater
        | Comparison::SignedGreaterEqual
        | Comparison::SignedLess
        | Comparison::SignedLessEqual => 1 << 31,
        _ => 1 << 32,
    }
}

/// True if the comparison refines its numbers, without halves: one of 32 bits does so only if both
/// are so small that their low halves compare as they do.
#[inline(always)]
fn tells(bits: OpWidth, comparison: Comparison, x: Number, y: Number) -> bool
    ensures { result ≡ tells bits comparison (view x) (view y) }
{
    match bits {
        OpWidth::Bits64 => true,
        OpWidth::Bits32 => {
            let end = short_end(comparison);
            x.unsigned().high < end && y.unsigned().high < end
        }
    }
}

/// Refines both numbers along the comparison's edge, without tightening.
#[inline(always)]
fn refined(
    bits: OpWidth,
    comparison: Comparison,
    taken: bool,
    x: Number,
    y: Number,
) -> Option<(Number, Number)>
    ensures { GivesBoth (refined bits comparison taken (view x) (view y)) result }
{
    if tells(bits, comparison, x, y) {
        by_edge(edge_of(comparison, taken), x, y)
    } else {
        Some((x, y))
    }
}

/// Tightens each once.
#[inline(always)]
fn tightened(precision: Precision, both: (Number, Number)) -> Option<(Number, Number)>
    ensures { GivesBoth (tightened precision (view both.0, view both.1)) result }
{
    let Some(a) = tighten(precision, both.0) else {
        return None;
    };
    let Some(b) = tighten(precision, both.1) else {
        return None;
    };
    Some((a, b))
}

/// The signed facts become facts of the halves.
#[inline(always)]
fn half_fact_of(fact: Fact) -> Fact
    ensures { result ≡ half_fact_of fact }
{
    match fact {
        Fact::SignedAbove => Fact::HalfAbove,
        Fact::SignedAtLeast => Fact::HalfAtLeast,
        _ => fact,
    }
}

/// The relation between two cuts, of which the low halves were compared.
#[inline(always)]
fn half_edge(edge: Edge) -> Edge
    ensures { result ≡ half_edge edge }
{
    match edge {
        Edge::Ahead(fact) => Edge::Ahead(half_fact_of(fact)),
        Edge::Turned(fact) => Edge::Turned(half_fact_of(fact)),
        Edge::Apart => Edge::Apart,
        Edge::Disjoint => Edge::Disjoint,
    }
}

/// Refines the cuts of both numbers along the edge of a comparison of low halves.
fn along_cuts(comparison: Comparison, taken: bool, x: Number, y: Number) -> Option<(Number, Number)>
    ensures { GivesBoth (along_cuts comparison taken (view x) (view y)) result }
{
    let Some(a) = cut(Precision::Halves, x) else {
        return None;
    };
    let Some(b) = cut(Precision::Halves, y) else {
        return None;
    };
    let Some(both) = by_edge(half_edge(edge_of(comparison, taken)), a, b) else {
        return None;
    };
    tightened(Precision::Halves, both)
}

/// The number after what is left of its cut is known.
// A cut says nothing of the upper half of a longer number.
fn put_back(x: Number, cut: Number) -> Option<Number>
    ensures { Gives (put_back (view x) (view cut)) result }
{
    if x.unsigned().high < 1 << 32 {
        Some(cut)
    } else {
        let whole = Number::of(x.unsigned(), x.signed(), x.bits(), cut.half());
        tighten(Precision::Halves, whole)
    }
}

/// Refines both numbers along the edge of a comparison of 32 bits, with halves.
fn along32(comparison: Comparison, taken: bool, x: Number, y: Number) -> Option<(Number, Number)>
    ensures { GivesBoth (along Halves Bits32 comparison taken (view x) (view y)) result }
{
    let Some(both) = along_cuts(comparison, taken, x, y) else {
        return None;
    };
    let Some(a) = put_back(x, both.0) else {
        return None;
    };
    let Some(b) = put_back(y, both.1) else {
        return None;
    };
    Some((a, b))
}

/// Refines both numbers along the edge of a comparison of 64 bits, with halves.
fn along64(comparison: Comparison, taken: bool, x: Number, y: Number) -> Option<(Number, Number)>
    ensures { GivesBoth (along Halves Bits64 comparison taken (view x) (view y)) result }
{
    let Some(both) = by_edge(edge_of(comparison, taken), x, y) else {
        return None;
    };
    tightened(Precision::Halves, both)
}

/// Refines both numbers along the comparison's edge without their halves, and tightens each once.
#[inline(always)]
fn along_whole(
    bits: OpWidth,
    comparison: Comparison,
    taken: bool,
    x: Number,
    y: Number,
) -> Option<(Number, Number)>
    ensures { GivesBoth (along Whole bits comparison taken (view x) (view y)) result }
{
    let Some(both) = refined(bits, comparison, taken, with_any_half(x), with_any_half(y)) else {
        return None;
    };
    tightened(Precision::Whole, both)
}

/// Refines both numbers along the comparison's edge, and tightens each once.
#[inline(always)]
fn along(
    precision: Precision,
    bits: OpWidth,
    comparison: Comparison,
    taken: bool,
    x: Number,
    y: Number,
) -> Option<(Number, Number)>
    ensures { GivesBoth (along precision bits comparison taken (view x) (view y)) result }
{
    match (precision, bits) {
        (Precision::Whole, _) => along_whole(bits, comparison, taken, x, y),
        (Precision::Halves, OpWidth::Bits64) => along64(comparison, taken, x, y),
        (Precision::Halves, OpWidth::Bits32) => along32(comparison, taken, x, y),
    }
}

/// Refines both numbers of a comparison along the edge on which it holds (`taken`) or doesn't: by
/// the table, each tightened once. Every pair of numbers held before for which the comparison goes
/// this way is held after; None says that there is no such pair. For a register that is compared
/// with itself, call `tighten` on its number instead.
pub fn refine(
    precision: Precision,
    bits: OpWidth,
    comparison: Comparison,
    taken: bool,
    x: Number,
    y: Number,
) -> Option<(Number, Number)>
    ensures table { GivesBoth (along precision bits comparison taken (view x) (view y)) result }
    ensures keeps { (m n : ℕ) → Holds (view x) m → Holds (view y) n → is_taken bits comparison m n ≡ taken
        → IsSomeAnd result (λ s. Holds (view s.0) m × Holds (view s.1) n) }
{
    along(precision, bits, comparison, taken, x, y)
}
