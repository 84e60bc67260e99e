ghost use Rattle.std.specs.Prelude.{◌≡◌, ℕ, ◌^◌, ◌<◌, ◌↔◌, IsTrue};
ghost use mathlib.Core.Path.{ap₂};

use crate::domain::Domain;
use crate::fact::Fact;
use crate::row::Row;

/// The numbers that both parts hold.
#[derive(Clone, Copy, PartialEq, Eq)]
pub struct Product<A, B> {
    pub first: A,
    pub second: B,
}

impl<A: Domain, B: Domain> Domain for Product<A, B> {
    ghost use Rattle.abstract_num.specs.Both.{BothRefine};
    ghost use Rattle.abstract_num.specs.proved.BothKept.{both_kept};

    ghost holds = { λ p n. A.holds p.first n × B.holds p.second n };

    ghost alike = { λ k n. A.alike k n × B.alike k n };

    ghost joined = { λ p q. record { first = A.joined p.first q.first; second = B.joined p.second q.second } };

    ghost below = { λ p q. A.below p.first q.first × B.below p.second q.second };

    ghost moves = { λ r p q s. A.moves r p.first q.first s.first × B.moves r p.second q.second s.second };

    ghost refines = { λ f p q r. BothRefine (A.refines f p.first q.first) (B.refines f p.second q.second) r };

    #[inline(always)]
    fn top() -> Self {
        Product {
            first: A::top(),
            second: B::top(),
        }
    }

    #[inline(always)]
    fn constant(n: u64) -> Self {
        Product {
            first: A::constant(n),
            second: B::constant(n),
        }
    }

    #[inline(always)]
    fn join(self, other: Self) -> Self {
        Product {
            first: self.first.join(other.first),
            second: self.second.join(other.second),
        }
    }

    #[inline(always)]
    fn is_below(self, other: Self) -> bool {
        self.first.is_below(other.first) && self.second.is_below(other.second)
    }

    fn transfer(row: Row, left: Self, right: Self) -> Self {
        Product {
            first: A::transfer(row, left.first, right.first),
            second: B::transfer(row, left.second, right.second),
        }
    }

    #[inline(always)]
    fn refine(fact: Fact, left: Self, right: Self) -> Option<(Self, Self)> {
        match A::refine(fact, left.first, right.first) {
            None => None,
            Some(a) => match B::refine(fact, left.second, right.second) {
                None => None,
                Some(b) => Some((
                    Product {
                        first: a.0,
                        second: b.0,
                    },
                    Product {
                        first: a.1,
                        second: b.1,
                    },
                )),
            },
        }
    }

    ghost alike_itself = { λ n h. (A.alike_itself n h, B.alike_itself n h) };

    ghost join_commutes = { λ p q. ap₂ (λ a b. record { first = a; second = b }) (A.join_commutes p.first q.first)
        (B.join_commutes p.second q.second) };

    ghost join_associates = { λ p q r. ap₂ (λ a b. record { first = a; second = b })
        (A.join_associates p.first q.first r.first) (B.join_associates p.second q.second r.second) };

    ghost join_of_same = { λ p. ap₂ (λ a b. record { first = a; second = b }) (A.join_of_same p.first)
        (B.join_of_same p.second) };

    ghost join_is_above = { λ p q. (A.join_is_above p.first q.first, B.join_is_above p.second q.second) };

    ghost below_holds = { λ p q b n h. (
      A.below_holds p.first q.first b.0 n h.0,
      B.below_holds p.second q.second b.1 n h.1,
    ) };

    ghost transfer_is_sound = { λ r p q s e m n h k. (
      A.transfer_is_sound r p.first q.first s.first e.0 m n h.0 k.0,
      B.transfer_is_sound r p.second q.second s.second e.1 m n h.1 k.1,
    ) };

    ghost refine_is_sound = { λ f p q r e m n h k is. both_kept (A.refines f p.first q.first)
        (B.refines f p.second q.second) (λ s. A.holds s m) (λ s. A.holds s n) (λ s. B.holds s m) (λ s. B.holds s n)
        (λ a i. A.refine_is_sound f p.first q.first a i m n h.0 k.0 is)
        (λ b i. B.refine_is_sound f p.second q.second b i m n h.1 k.1 is) r e };
}
