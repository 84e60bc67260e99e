ghost use Rattle.std.specs.Prelude.{◌≡◌, ℕ, ◌^◌, ◌<◌, ◌↔◌, IsTrue, IsSomeAnd, Option};
ghost use Rattle.abstract_num.specs.declared.row.Row.{Row};
ghost use Rattle.abstract_num.specs.declared.fact.Fact.{Fact};
ghost use Rattle.abstract_num.specs.Meaning.{row_value, IsFact};

use crate::fact::Fact;
use crate::row::Row;

/// A kind of value that holds some whole numbers below `2^64`. Nothing here takes memory or
/// fails.
pub trait Domain: Copy {
    /// The numbers that a value holds.
    ghost holds: { Self → ℕ → Type 0 };

    /// The numbers that the constant of a second number holds: for most kinds, that number alone.
    ghost alike: { ℕ → ℕ → Type 0 } = { λ k n. k ≡ n };

    /// The join of two values.
    ghost joined: { Self → Self → Self };

    /// The order: what a value holds, each greater one holds.
    ghost below: { Self → Self → Type 0 };

    /// Relates a row of the table and two values to the value that the row gives for them.
    ghost moves: { Row → Self → Self → Self → Type 0 };

    /// Relates a fact and two values to both, refined by it: none if nothing is left of one.
    ghost refines: { Fact → Self → Self → Option (Self × Self) → Type 0 };

    /// The value that holds every number.
    fn top() -> Self
        ensures { (n : ℕ) → n < 2 ^ 64 → holds result n };

    /// The least value that holds `n`.
    fn constant(n: u64) -> Self
        ensures { (k : ℕ) → holds result k ↔ alike k n };

    /// An upper bound of both.
    fn join(self, other: Self) -> Self
        ensures { result ≡ joined self other };

    /// True if this value is below the other.
    fn is_below(self, other: Self) -> bool
        ensures { IsTrue result ↔ below self other };

    /// The row's answer.
    fn transfer(row: Row, left: Self, right: Self) -> Self
        ensures { moves row left right result };

    /// Refines both values by the fact. None if nothing is left of one of them.
    fn refine(fact: Fact, left: Self, right: Self) -> Option<(Self, Self)>
        ensures { refines fact left right result };

    ghost alike_itself: { (n : ℕ) → n < 2 ^ 64 → alike n n };

    ghost join_commutes: { (x y : Self) → joined x y ≡ joined y x };

    ghost join_associates: { (x y z : Self) → joined (joined x y) z ≡ joined x (joined y z) };

    ghost join_of_same: { (x : Self) → joined x x ≡ x };

    ghost join_is_above: { (x y : Self) → below x (joined x y) };

    ghost below_holds: { (x y : Self) → below x y → (n : ℕ) → holds x n → holds y n };

    ghost transfer_is_sound: { (r : Row) (x y z : Self) → moves r x y z
        → (m n : ℕ) → holds x m → holds y n → holds z (row_value r m n) };

    ghost refine_is_sound: { (f : Fact) (x y : Self) (r : Option (Self × Self)) → refines f x y r
        → (m n : ℕ) → holds x m → holds y n → IsFact f m n → IsSomeAnd r (λ s. holds s.0 m × holds s.1 n) };
}
