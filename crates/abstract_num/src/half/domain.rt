//! The half as a part of abstract numbers, by the trait that all parts have.

ghost use Rattle.std.specs.Prelude.{◌≡◌, ℕ, ◌^◌, ◌<◌, ◌↔◌, IsTrue};

use crate::domain::Domain;
use crate::fact::Fact;
use crate::half::{Half, edges, rows};
use crate::row::Row;

impl Domain for Half {
    ghost use Rattle.abstract_num.specs.Parts.{InHalf, HaveSameHalf, joined_half, BelowHalf};
    ghost use Rattle.abstract_num.specs.proved.Ranges.{same_half_itself, half_join_commutes, half_join_associates};
    ghost use Rattle.abstract_num.specs.proved.Ranges.{half_join_of_same, half_join_is_above, half_below_holds};
    ghost use Rattle.abstract_num.specs.proved.HalfRows.{HalfMoves, half_moves_sound};
    ghost use Rattle.abstract_num.specs.proved.HalfFacts.{HalfRefines, half_refines_sound};

    ghost holds = { InHalf };

    ghost alike = { HaveSameHalf };

    ghost joined = { joined_half };

    ghost below = { BelowHalf };

    ghost moves = { HalfMoves };

    ghost refines = { HalfRefines };

    #[inline(always)]
    fn top() -> Self {
        rows::every()
    }

    #[inline(always)]
    fn constant(n: u64) -> Self {
        let half = rows::low_half(n);
        Half {
            low: half,
            high: half,
        }
    }

    #[inline(always)]
    fn join(self, other: Self) -> Self {
        Half {
            low: self.low.min(other.low),
            high: self.high.max(other.high),
        }
    }

    #[inline(always)]
    fn is_below(self, other: Self) -> bool {
        other.low <= self.low && self.high <= other.high
    }

    fn transfer(row: Row, left: Self, right: Self) -> Self {
        match row {
            Row::Add => rows::add(left, right),
            Row::Sub => rows::sub(left, right),
            Row::Cut => left,
            // The table keeps no half for the other rows.
            _ => rows::every(),
        }
    }

    #[inline(always)]
    fn refine(fact: Fact, left: Self, right: Self) -> Option<(Self, Self)> {
        match fact {
            Fact::Same => edges::same(left, right),
            Fact::HalfAbove => edges::above(left, right),
            Fact::HalfAtLeast => edges::at_least(left, right),
            _ => Some((left, right)),
        }
    }

    ghost alike_itself = { same_half_itself };

    ghost join_commutes = { half_join_commutes };

    ghost join_associates = { half_join_associates };

    ghost join_of_same = { half_join_of_same };

    ghost join_is_above = { half_join_is_above };

    ghost below_holds = { half_below_holds };

    ghost transfer_is_sound = { half_moves_sound };

    ghost refine_is_sound = { half_refines_sound };
}
