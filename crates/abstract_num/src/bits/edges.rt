//! What the outcome of a comparison tells of known bits.

ghost use Rattle.std.specs.Prelude.{◌≡◌};
ghost use Rattle.abstract_num.specs.proved.BitsFacts.{BitsRefine};

use crate::bits::Bits;
use crate::bits::rows::without;
use crate::fact::Fact;

#[inline(always)]
pub(super) fn same(left: Bits, right: Bits) -> Option<(Bits, Bits)>
    ensures { BitsRefine Fact.Same left right result }
{
    let conflict = without(
        without(left.value ^ right.value, left.unknown),
        right.unknown,
    );
    if conflict != 0 {
        return None;
    }
    let both = Bits {
        value: left.value | right.value,
        unknown: left.unknown & right.unknown,
    };
    Some((both, both))
}

#[inline(always)]
pub(super) fn meets(left: Bits, right: Bits) -> Option<(Bits, Bits)>
    ensures { BitsRefine Fact.Meets left right result }
{
    if (left.value | left.unknown) & (right.value | right.unknown) == 0 {
        None
    } else {
        Some((left, right))
    }
}

#[inline(always)]
pub(super) fn none_of(left: Bits, right: Bits, c: u64) -> Option<(Bits, Bits)>
    ensures { BitsRefine (Fact.NoneOf c) left right result }
{
    if left.value & c != 0 {
        return None;
    }
    let fewer = Bits {
        value: left.value,
        unknown: without(left.unknown, c),
    };
    Some((fewer, right))
}
