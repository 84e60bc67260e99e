//! Known bits as a part of abstract numbers, by the trait that all parts have.

ghost use Rattle.std.specs.Prelude.{◌≡◌, ℕ, ◌^◌, ◌<◌, ◌↔◌, IsTrue};

use crate::bits::{Bits, edges, rows};
use crate::domain::Domain;
use crate::fact::Fact;
use crate::row::Row;

impl Domain for Bits {
    ghost use Rattle.abstract_num.specs.Parts.{InBits, joined_bits, BelowBits};
    ghost use Rattle.abstract_num.specs.proved.Ranges.{same_number_itself};
    ghost use Rattle.abstract_num.specs.proved.KnownBits.{bits_join_commutes, bits_join_associates, bits_join_of_same};
    ghost use Rattle.abstract_num.specs.proved.KnownBits.{bits_join_is_above, bits_below_holds};
    ghost use Rattle.abstract_num.specs.proved.BitsRows.{BitsMove, bits_move_sound};
    ghost use Rattle.abstract_num.specs.proved.BitsFacts.{BitsRefine, bits_refine_sound};

    ghost holds = { InBits };

    ghost joined = { joined_bits };

    ghost below = { BelowBits };

    ghost moves = { BitsMove };

    ghost refines = { BitsRefine };

    #[inline(always)]
    fn top() -> Self {
        rows::every()
    }

    #[inline(always)]
    fn constant(n: u64) -> Self {
        Bits {
            value: n,
            unknown: 0,
        }
    }

    #[inline(always)]
    fn join(self, other: Self) -> Self {
        rows::known(
            self.value,
            self.unknown | other.unknown | (self.value ^ other.value),
        )
    }

    #[inline(always)]
    fn is_below(self, other: Self) -> bool {
        rows::without(self.unknown, other.unknown) == 0
            && rows::without(self.value, other.unknown) == other.value
    }

    fn transfer(row: Row, left: Self, right: Self) -> Self {
        match row {
            Row::And => rows::and(left, right),
            Row::Or => rows::or(left, right),
            Row::Xor => rows::xor(left, right),
            Row::LshBy(by) | Row::SignedLshBy(by) => rows::lsh(left, by),
            Row::RshBy(by) => rows::rsh(left, by),
            Row::ArshBy(by) | Row::SignedArshBy(by) => rows::arsh(left, by),
            Row::Cut => rows::cut(left),
            // The table keeps no known bit for the other rows.
            _ => rows::every(),
        }
    }

    #[inline(always)]
    fn refine(fact: Fact, left: Self, right: Self) -> Option<(Self, Self)> {
        match fact {
            Fact::Same => edges::same(left, right),
            Fact::Meets => edges::meets(left, right),
            Fact::NoneOf(c) => edges::none_of(left, right, c),
            _ => Some((left, right)),
        }
    }

    ghost alike_itself = { same_number_itself };

    ghost join_commutes = { bits_join_commutes };

    ghost join_associates = { bits_join_associates };

    ghost join_of_same = { bits_join_of_same };

    ghost join_is_above = { bits_join_is_above };

    ghost below_holds = { bits_below_holds };

    ghost transfer_is_sound = { bits_move_sound };

    ghost refine_is_sound = { bits_refine_sound };
}
