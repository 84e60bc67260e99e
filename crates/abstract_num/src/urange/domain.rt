//! The unsigned range as a part of abstract numbers, by the trait that all parts have.

ghost use Rattle.std.specs.Prelude.{◌≡◌, ℕ, ◌^◌, ◌<◌, ◌↔◌, IsTrue};

use crate::domain::Domain;
use crate::fact::Fact;
use crate::row::Row;
use crate::urange::{URange, edges, rows};

impl Domain for URange {
    ghost use Rattle.abstract_num.specs.Parts.{InURange, joined_urange, BelowURange};
    ghost use Rattle.abstract_num.specs.proved.Ranges.{same_number_itself, urange_join_commutes};
    ghost use Rattle.abstract_num.specs.proved.Ranges.{urange_join_associates, urange_join_of_same};
    ghost use Rattle.abstract_num.specs.proved.Ranges.{urange_join_is_above, urange_below_holds};
    ghost use Rattle.abstract_num.specs.proved.UnsignedRows.{URangeMoves, urange_moves_sound};
    ghost use Rattle.abstract_num.specs.proved.UnsignedFacts.{URangeRefines, urange_refines_sound};

    ghost holds = { InURange };

    ghost joined = { joined_urange };

    ghost below = { BelowURange };

    ghost moves = { URangeMoves };

    ghost refines = { URangeRefines };

    #[inline(always)]
    fn top() -> Self {
        rows::every()
    }

    #[inline(always)]
    fn constant(n: u64) -> Self {
        URange { low: n, high: n }
    }

    #[inline(always)]
    fn join(self, other: Self) -> Self {
        URange {
            low: self.low.min(other.low),
            high: self.high.max(other.high),
        }
    }

    #[inline(always)]
    fn is_below(self, other: Self) -> bool {
        other.low <= self.low && self.high <= other.high
    }

    fn transfer(row: Row, left: Self, right: Self) -> Self {
        match row {
            Row::Add => rows::add(left, right),
            Row::Sub => rows::sub(left, right),
            Row::Mul => rows::mul(left, right),
            Row::Div => rows::div(left, right),
            Row::Mod => rows::rem(left, right),
            Row::And => rows::span(0, left.high.min(right.high)),
            Row::Or => rows::or(left, right),
            Row::Xor => rows::xor(left, right),
            Row::LshBy(by) | Row::SignedLshBy(by) => rows::lsh(left, by),
            Row::RshBy(by) => rows::rsh(left, by),
            Row::Rsh => rows::span(0, left.high),
            Row::ArshBy(by) | Row::SignedArshBy(by) => rows::arsh(left, by),
            Row::Arsh => rows::arsh_by_any(left),
            Row::Cut => rows::cut(left),
        }
    }

    #[inline(always)]
    fn refine(fact: Fact, left: Self, right: Self) -> Option<(Self, Self)> {
        match fact {
            Fact::Same => edges::same(left, right),
            Fact::Above => edges::above(left, right),
            Fact::AtLeast => edges::at_least(left, right),
            Fact::Not(c) => edges::other_than(left, right, c),
            _ => Some((left, right)),
        }
    }

    ghost alike_itself = { same_number_itself };

    ghost join_commutes = { urange_join_commutes };

    ghost join_associates = { urange_join_associates };

    ghost join_of_same = { urange_join_of_same };

    ghost join_is_above = { urange_join_is_above };

    ghost below_holds = { urange_below_holds };

    ghost transfer_is_sound = { urange_moves_sound };

    ghost refine_is_sound = { urange_refines_sound };
}
