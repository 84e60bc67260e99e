//! The signed range as a part of abstract numbers, by the trait that all parts have.

ghost use Rattle.std.specs.Prelude.{◌≡◌, ℕ, ◌^◌, ◌<◌, ◌↔◌, IsTrue};

use crate::domain::Domain;
use crate::fact::Fact;
use crate::row::Row;
use crate::srange::{SRange, edges, rows};

impl Domain for SRange {
    ghost use Rattle.abstract_num.specs.Parts.{InSRange, joined_srange, BelowSRange};
    ghost use Rattle.abstract_num.specs.proved.Ranges.{same_number_itself, srange_join_commutes};
    ghost use Rattle.abstract_num.specs.proved.Ranges.{srange_join_associates, srange_join_of_same};
    ghost use Rattle.abstract_num.specs.proved.Ranges.{srange_join_is_above, srange_below_holds};
    ghost use Rattle.abstract_num.specs.proved.SignedRows.{SRangeMoves, srange_moves_sound};
    ghost use Rattle.abstract_num.specs.proved.SignedFacts.{SRangeRefines, srange_refines_sound};

    ghost holds = { InSRange };

    ghost joined = { joined_srange };

    ghost below = { BelowSRange };

    ghost moves = { SRangeMoves };

    ghost refines = { SRangeRefines };

    #[inline(always)]
    fn top() -> Self {
        rows::every()
    }

    #[inline(always)]
    fn constant(n: u64) -> Self {
        SRange {
            low: n.cast_signed(),
            high: n.cast_signed(),
        }
    }

    #[inline(always)]
    fn join(self, other: Self) -> Self {
        SRange {
            low: self.low.min(other.low),
            high: self.high.max(other.high),
        }
    }

    #[inline(always)]
    fn is_below(self, other: Self) -> bool {
        other.low <= self.low && self.high <= other.high
    }

    fn transfer(row: Row, left: Self, right: Self) -> Self {
        match row {
            Row::Add => rows::add(left, right),
            Row::Sub => rows::sub(left, right),
            Row::SignedLshBy(by) => rows::lsh(left, by),
            Row::SignedArshBy(by) => rows::arsh(left, by),
            // The table keeps no signed range for the other rows.
            _ => rows::every(),
        }
    }

    #[inline(always)]
    fn refine(fact: Fact, left: Self, right: Self) -> Option<(Self, Self)> {
        match fact {
            Fact::Same => edges::same(left, right),
            Fact::SignedAbove => edges::above(left, right),
            Fact::SignedAtLeast => edges::at_least(left, right),
            Fact::Not(c) => edges::other_than(left, right, c),
            _ => Some((left, right)),
        }
    }

    ghost alike_itself = { same_number_itself };

    ghost join_commutes = { srange_join_commutes };

    ghost join_associates = { srange_join_associates };

    ghost join_of_same = { srange_join_of_same };

    ghost join_is_above = { srange_join_is_above };

    ghost below_holds = { srange_below_holds };

    ghost transfer_is_sound = { srange_moves_sound };

    ghost refine_is_sound = { srange_refines_sound };
}
