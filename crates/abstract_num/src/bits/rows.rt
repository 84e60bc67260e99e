//! What each row of the table makes of known bits.

ghost use Rattle.std.specs.Prelude.{◌≡◌, ◌%◌};
ghost use Rattle.abstract_num.specs.proved.Shifts.{arsh};
ghost use Rattle.abstract_num.specs.Masks.{clear};
ghost use Rattle.abstract_num.specs.BitsRows.{bits_row, unknown, value_first, unknown_first};
ghost use Rattle.abstract_num.specs.proved.BitsRows.{IsMask};

use crate::bits::Bits;
use crate::row::Row;

/// `n` with the bits of `mask` cleared.
#[inline(always)]
pub(super) fn without(n: u64, mask: u64) -> u64
    ensures { result ≡ clear n mask }
{
    n & !mask
}

/// The bits of `value`, but for those of `unknown`.
#[inline(always)]
pub(super) fn known(value: u64, unknown: u64) -> Bits
    ensures { IsMask result (unknown_first unknown value) }
{
    Bits {
        value: without(value, unknown),
        unknown,
    }
}

/// The bits of `unknown`, but for those of `value`, are unknown.
#[inline(always)]
pub(super) fn unless(value: u64, unknown: u64) -> Bits
    ensures { IsMask result (value_first value unknown) }
{
    Bits {
        value,
        unknown: without(unknown, value),
    }
}

/// Every number.
#[inline(always)]
pub(super) fn every() -> Bits
    ensures { IsMask result unknown }
{
    Bits {
        value: 0,
        unknown: u64::MAX,
    }
}

#[inline(always)]
pub(super) fn and(left: Bits, right: Bits) -> Bits
    ensures { IsMask result (bits_row Row.And left.value left.unknown right.value right.unknown) }
{
    unless(
        left.value & right.value,
        (left.value | left.unknown) & (right.value | right.unknown),
    )
}

#[inline(always)]
pub(super) fn or(left: Bits, right: Bits) -> Bits
    ensures { IsMask result (bits_row Row.Or left.value left.unknown right.value right.unknown) }
{
    unless(left.value | right.value, left.unknown | right.unknown)
}

#[inline(always)]
pub(super) fn xor(left: Bits, right: Bits) -> Bits
    ensures { IsMask result (bits_row Row.Xor left.value left.unknown right.value right.unknown) }
{
    known(left.value ^ right.value, left.unknown | right.unknown)
}

#[inline(always)]
pub(super) fn lsh(left: Bits, by: u32) -> Bits
    ensures { IsMask result (bits_row (Row.LshBy by) left.value left.unknown 0 0) }
{
    Bits {
        value: left.value << (by % 64),
        unknown: left.unknown << (by % 64),
    }
}

#[inline(always)]
pub(super) fn rsh(left: Bits, by: u32) -> Bits
    ensures { IsMask result (bits_row (Row.RshBy by) left.value left.unknown 0 0) }
{
    Bits {
        value: left.value >> (by % 64),
        unknown: left.unknown >> (by % 64),
    }
}

/// `n` shifted to the right with its sign.
#[inline(always)]
fn shifted_signed(n: u64, by: u32) -> u64
    ensures { result ≡ arsh (by % 64) n }
{
    (n.cast_signed() >> (by % 64)).cast_unsigned()
}

#[inline(always)]
pub(super) fn arsh(left: Bits, by: u32) -> Bits
    ensures { IsMask result (bits_row (Row.ArshBy by) left.value left.unknown 0 0) }
{
    Bits {
        value: shifted_signed(left.value, by),
        unknown: shifted_signed(left.unknown, by),
    }
}

#[inline(always)]
pub(super) fn cut(left: Bits) -> Bits
    ensures { IsMask result (bits_row Row.Cut left.value left.unknown 0 0) }
{
    Bits {
        value: left.value % (1 << 32),
        unknown: left.unknown % (1 << 32),
    }
}
