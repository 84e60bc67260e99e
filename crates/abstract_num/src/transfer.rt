//! What the operations of instructions make of abstract numbers.

ghost use Rattle.std.specs.Prelude.{◌≡◌, pos, ◌*ℤ◌, ℕ, ◌%◌, ◌^◌, ◌<◌, ◌≤◌, IsTrue};
ghost use Rattle.bpf_decode.specs.Arithmetic.{alu_value, neg_value, mov_value, signed_move_value, end_value};
ghost use Rattle.bpf_decode.specs.Instruction.{signed_move_bits};
ghost use Rattle.bpf_decode.specs.declared.operation.OpWidth.TheVariants.{Bits32, Bits64};
ghost use Rattle.abstract_num.specs.Plain.{Gives, Holds, Kept, constant, view};
ghost use Rattle.abstract_num.specs.Transfer.{answer32, answer64, copied, bits_above, count_of, cut, extended_from};
ghost use Rattle.abstract_num.specs.Transfer.{extended_of, finished32, finished64, is_constant, known, lsh_answer};
ghost use Rattle.abstract_num.specs.Transfer.{moved, ordered, raised, row_in, row_of, row_of_32, sign_extended};
ghost use Rattle.abstract_num.specs.Transfer.{transferred};

use crate::domain::Domain;
use crate::half::Half;
use crate::number::{Number, any, constant};
use crate::precision::Precision;
use crate::row::{Row, RowAnswer};
use crate::srange::SRange;
use crate::tightening::{is_short, tighten, with_any_half};
use bpf_decode::{Arithmetic, ByteOrder, EndWidth, OpWidth, SignedMove, arithmetic as exact};

/// True if the unsigned range is one number.
#[inline(always)]
pub(crate) fn is_constant(x: Number) -> bool
    ensures { result ≡ is_constant (view x) }
{
    x.unsigned().low == x.unsigned().high
}

/// The shift count modulo `width`, if it is constant.
#[inline(always)]
fn count_of(width: u64, y: Number) -> Option<u32>
    requires some { 0 < width }
    requires most { width ≤ 64 }
    ensures { result ≡ count_of width (view y) }
{
    if is_constant(y) {
        Some((y.unsigned().low % width) as u32)
    } else {
        None
    }
}

/// The row that answers an operation. `count` is the shift count modulo the width, if constant.
#[rattlefmt::skip]
fn row_of(operation: Arithmetic, count: Option<u32>) -> RowAnswer
    ensures { result ≡ row_of operation count }
{
    match operation {
        Arithmetic::Add => RowAnswer::By(Row::Add),
        Arithmetic::Sub => RowAnswer::By(Row::Sub),
        Arithmetic::Mul => RowAnswer::By(Row::Mul),
        Arithmetic::Div => RowAnswer::By(Row::Div),
        Arithmetic::SignedDiv => RowAnswer::All,
        Arithmetic::Or => RowAnswer::By(Row::Or),
        Arithmetic::And => RowAnswer::By(Row::And),
        Arithmetic::Lsh => match count { Some(by) => RowAnswer::By(Row::LshBy(by)), None => RowAnswer::All },
        Arithmetic::Rsh => match count { Some(by) => RowAnswer::By(Row::RshBy(by)), None => RowAnswer::By(Row::Rsh) },
        Arithmetic::Mod => RowAnswer::By(Row::Mod),
        Arithmetic::SignedMod => RowAnswer::All,
        Arithmetic::Xor => RowAnswer::By(Row::Xor),
        Arithmetic::Arsh =>
            match count { Some(by) => RowAnswer::By(Row::ArshBy(by)), None => RowAnswer::By(Row::Arsh) },
    }
}

/// The row of LSH by a constant count, with halves.
#[inline(always)]
fn lsh_answer(by: u32, x: Number) -> RowAnswer
    ensures { result ≡ lsh_answer by (view x) }
{
    if by == 32 && !is_short(x) {
        RowAnswer::Raised
    } else {
        RowAnswer::By(Row::SignedLshBy(by))
    }
}

/// The row that answers an operation on `x`. With halves, LSH and ARSH by a constant count have
/// signed ranges.
fn row_in(precision: Precision, operation: Arithmetic, count: Option<u32>, x: Number) -> RowAnswer
    ensures { result ≡ row_in precision operation count (view x) }
{
    match (precision, operation, count) {
        (Precision::Halves, Arithmetic::Lsh, Some(by)) => lsh_answer(by, x),
        (Precision::Halves, Arithmetic::Arsh, Some(by)) => RowAnswer::By(Row::SignedArshBy(by)),
        _ => row_of(operation, count),
    }
}

/// The row of 32 bits: an arithmetic shift is a logical one if bit 31 is 0, and else gives any
/// number.
// The rows shift numbers of 64 bits, and don't take bit 31 as a sign.
fn row_of_32(precision: Precision, operation: Arithmetic, x: Number, y: Number) -> RowAnswer
    ensures { result ≡ row_of_32 precision operation (view x) (view y) }
{
    match operation {
        Arithmetic::Arsh => {
            if x.unsigned().high < 1 << 31 {
                row_of(Arithmetic::Rsh, count_of(32, y))
            } else {
                RowAnswer::All
            }
        }
        _ => row_in(precision, operation, count_of(32, y), x),
    }
}

/// The table's answer to an operation of 64 bits, which is exact for two constants.
#[inline(always)]
fn answer64(precision: Precision, operation: Arithmetic, x: Number, y: Number) -> RowAnswer
    ensures { result ≡ answer64 precision operation (view x) (view y) }
{
    if is_constant(x) && is_constant(y) {
        RowAnswer::Exact(exact::alu(
            OpWidth::Bits64,
            operation,
            x.unsigned().low,
            y.unsigned().low,
        ))
    } else {
        row_in(precision, operation, count_of(64, y), x)
    }
}

/// The table's answer to an operation of 32 bits on numbers cut to 32 bits.
fn answer32(precision: Precision, operation: Arithmetic, x: Number, y: Number) -> RowAnswer
    ensures { result ≡ answer32 precision operation (view x) (view y) }
{
    if is_constant(x) && is_constant(y) {
        RowAnswer::Exact(exact::alu(
            OpWidth::Bits32,
            operation,
            x.unsigned().low,
            y.unsigned().low,
        ))
    } else {
        row_of_32(precision, operation, x, y)
    }
}

/// Applies a row of the table, part by part.
fn moved(row: Row, x: Number, y: Number) -> Number
    ensures { view result ≡ moved row (view x) (view y) }
{
    Number::transfer(row, x, y)
}

/// The half's ends times `2^32`.
#[inline(always)]
fn raised_range(half: Half) -> SRange
    ensures { (result.low ≡ half.low *ℤ pos (2 ^ 32)) × (result.high ≡ half.high *ℤ pos (2 ^ 32)) }
{
    SRange {
        low: i64::from(half.low) * 0x1_0000_0000,
        high: i64::from(half.high) * 0x1_0000_0000,
    }
}

/// LSH by 32, whose signed range comes from the half.
fn raised(x: Number) -> Number
    ensures { view result ≡ raised (view x) }
{
    let shifted = moved(Row::LshBy(32), x, any());
    let signed = raised_range(x.half());
    Number::of(shifted.unsigned(), signed, shifted.bits(), shifted.half())
}

/// One number.
#[inline(always)]
fn known(precision: Precision, n: u64) -> Number
    ensures { view result ≡ known precision n }
{
    match precision {
        Precision::Whole => with_any_half(constant(n)),
        Precision::Halves => constant(n),
    }
}

/// The number that answers an operation of 64 bits: the row, tightened.
// Tightening would leave an exact number, and any number, as they are.
#[inline(always)]
fn finished64(precision: Precision, answer: RowAnswer, x: Number, y: Number) -> Option<Number>
    ensures { Gives (finished64 precision answer (view x) (view y)) result }
{
    match answer {
        RowAnswer::Exact(n) => Some(known(precision, n)),
        RowAnswer::By(row) => tighten(precision, moved(row, x, y)),
        RowAnswer::Raised => tighten(precision, raised(x)),
        RowAnswer::All => Some(any()),
    }
}

/// The low 32 bits of a number, tightened.
#[inline(always)]
pub(crate) fn cut(precision: Precision, x: Number) -> Option<Number>
    ensures { Gives (cut precision (view x)) result }
{
    tighten(precision, moved(Row::Cut, x, x))
}

/// The number that answers an operation of 32 bits: an exact one as it is, and else cut.
#[inline(always)]
fn finished32(precision: Precision, answer: RowAnswer, x: Number, y: Number) -> Option<Number>
    ensures { Gives (finished32 precision answer (view x) (view y)) result }
{
    match answer {
        RowAnswer::Exact(n) => Some(known(precision, n)),
        RowAnswer::By(row) => cut(precision, moved(row, x, y)),
        RowAnswer::Raised => cut(precision, raised(x)),
        RowAnswer::All => cut(precision, any()),
    }
}

/// Applies an operation of 32 bits to two numbers, which are cut to 32 bits first.
fn arithmetic32(precision: Precision, operation: Arithmetic, x: Number, y: Number) -> Option<Number>
    ensures { Gives (transferred precision Bits32 operation (view x) (view y)) result }
{
    let Some(a) = cut(precision, x) else {
        return None;
    };
    let Some(b) = cut(precision, y) else {
        return None;
    };
    finished32(precision, answer32(precision, operation, a, b), a, b)
}

/// Applies arithmetic to two numbers.
#[inline(always)]
fn transferred(
    precision: Precision,
    bits: OpWidth,
    operation: Arithmetic,
    x: Number,
    y: Number,
) -> Option<Number>
    ensures { Gives (transferred precision bits operation (view x) (view y)) result }
{
    match bits {
        OpWidth::Bits64 => finished64(precision, answer64(precision, operation, x, y), x, y),
        OpWidth::Bits32 => arithmetic32(precision, operation, x, y),
    }
}

/// Applies arithmetic to two numbers, by the table: what the machine computes from any two numbers
/// that they hold, the result holds. None if no number is left.
pub fn arithmetic(
    precision: Precision,
    bits: OpWidth,
    operation: Arithmetic,
    x: Number,
    y: Number,
) -> Option<Number>
    ensures table { Gives (transferred precision bits operation (view x) (view y)) result }
    ensures keeps { (m n : ℕ) → Holds (view x) m → Holds (view y) n → Kept result (alu_value bits operation m n) }
{
    transferred(precision, bits, operation, x, y)
}

/// The sum of a number and a distance, modulo `2^64`. None if no number is left.
// Most places are constants: inlined, their sum is computed without a call.
#[inline(always)]
pub fn offset_by(precision: Precision, x: &Number, distance: u64) -> Option<Number>
    ensures { Gives (transferred precision Bits64 Arithmetic.Add (view x.now) (constant distance)) result }
{
    let place = *x;
    if is_constant(place) {
        let moved = exact::alu(
            OpWidth::Bits64,
            Arithmetic::Add,
            place.unsigned().low,
            distance,
        );
        Some(known(precision, moved))
    } else {
        arithmetic(
            precision,
            OpWidth::Bits64,
            Arithmetic::Add,
            place,
            constant(distance),
        )
    }
}

/// The negative: 0 less the number.
#[inline(always)]
pub fn negative(precision: Precision, bits: OpWidth, x: Number) -> Option<Number>
    ensures table { Gives (transferred precision bits Arithmetic.Sub (constant 0) (view x)) result }
    ensures keeps { (n : ℕ) → Holds (view x) n → Kept result (neg_value bits n) }
{
    arithmetic(precision, bits, Arithmetic::Sub, constant(0), x)
}

/// Copies a number: whole in 64 bits, its low half in 32 bits.
#[inline(always)]
fn copy(precision: Precision, bits: OpWidth, x: Number) -> Option<Number>
    ensures { Gives (copied precision bits (view x)) result }
{
    match bits {
        OpWidth::Bits64 => Some(x),
        OpWidth::Bits32 => cut(precision, x),
    }
}

/// A copy: of 64 bits the number as it is, not tightened; of 32 bits its low half. None if no
/// number is left.
#[inline(always)]
pub fn copied(precision: Precision, bits: OpWidth, x: Number) -> Option<Number>
    ensures table { Gives (copied precision bits (view x)) result }
    ensures keeps { (n : ℕ) → Holds (view x) n → Kept result (mov_value bits n) }
{
    copy(precision, bits, x)
}

/// How many bits above its sign a number has.
#[inline(always)]
fn bits_above(extension: SignedMove) -> u32
    ensures { result ≡ bits_above extension }
{
    match extension {
        SignedMove::Byte64 | SignedMove::Byte32 => 56,
        SignedMove::Half64 | SignedMove::Half32 => 48,
        SignedMove::Word64 => 32,
    }
}

/// What sign extension to 64 bits makes of a number that isn't constant: any number, or with halves
/// what the shifts up and down by the bits above make.
fn extended_from(precision: Precision, extension: SignedMove, x: Number) -> Option<Number>
    ensures { Gives (extended_from precision extension (view x)) result }
{
    match precision {
        Precision::Whole => tighten(precision, any()),
        Precision::Halves => {
            let by = bits_above(extension);
            let Some(y) = finished64(precision, lsh_answer(by, x), x, any()) else {
                return None;
            };
            tighten(precision, moved(Row::SignedArshBy(by), y, any()))
        }
    }
}

/// Sign-extends a number to 64 bits: exactly if it is constant.
fn sign_extended64(precision: Precision, extension: SignedMove, x: Number) -> Option<Number>
    ensures { Gives (extended_of precision extension Bits64 (view x)) result }
{
    if is_constant(x) {
        let n = exact::sign_extended(extension, x.unsigned().low);
        Some(known(precision, n))
    } else {
        extended_from(precision, extension, x)
    }
}

/// Sign-extends a number to 32 bits, once it is cut to 32 bits: exactly if it is constant then.
fn sign_extended32(precision: Precision, extension: SignedMove, x: Number) -> Option<Number>
    ensures { Gives (extended_of precision extension Bits32 (view x)) result }
{
    let Some(a) = cut(precision, x) else {
        return None;
    };
    if is_constant(a) {
        let n = exact::sign_extended(extension, a.unsigned().low);
        return Some(known(precision, n));
    }
    let Some(b) = extended_from(precision, extension, a) else {
        return None;
    };
    cut(precision, b)
}

/// The width of a copy with sign extension.
#[inline(always)]
fn class_of(extension: SignedMove) -> OpWidth
    ensures { result ≡ signed_move_bits extension }
{
    match extension {
        SignedMove::Byte64 | SignedMove::Half64 | SignedMove::Word64 => OpWidth::Bits64,
        SignedMove::Byte32 | SignedMove::Half32 => OpWidth::Bits32,
    }
}

/// Sign-extends a number to the width of the copy.
fn extended(precision: Precision, extension: SignedMove, x: Number) -> Option<Number>
    ensures { Gives (sign_extended precision extension (view x)) result }
{
    match class_of(extension) {
        OpWidth::Bits64 => sign_extended64(precision, extension, x),
        OpWidth::Bits32 => sign_extended32(precision, extension, x),
    }
}

/// A copy with sign extension: exact of a constant, and else any number of its width, or with
/// halves what its shifts make. None if no number is left.
pub fn sign_extended(precision: Precision, extension: SignedMove, x: Number) -> Option<Number>
    ensures table { Gives (sign_extended precision extension (view x)) result }
    ensures keeps { (n : ℕ) → Holds (view x) n → Kept result (signed_move_value extension n) }
{
    extended(precision, extension, x)
}

/// Changes the byte order of a number: exactly if it is constant, and else to any number.
fn reordered(precision: Precision, order: ByteOrder, width: EndWidth, x: Number) -> Option<Number>
    ensures { Gives (ordered precision order width (view x)) result }
{
    if is_constant(x) {
        let n = exact::ordered(order, width, x.unsigned().low);
        Some(known(precision, n))
    } else {
        tighten(precision, any())
    }
}

/// A change of byte order: exact of a constant, and else any number. Its answer is never none.
pub fn ordered(precision: Precision, order: ByteOrder, width: EndWidth, x: Number) -> Option<Number>
    ensures table { Gives (ordered precision order width (view x)) result }
    ensures keeps { (n : ℕ) → Holds (view x) n → Kept result (end_value order width n) }
{
    reordered(precision, order, width, x)
}
