//! Laws of abstract numbers, for the proofs of the crates above. Each function does nothing.

ghost use Rattle.abstract_num.specs.Keeping.{NumbersFit, ConstantsFit, AnyHolds, ConstantHolds, ArithmeticKeeps};
ghost use Rattle.abstract_num.specs.Keeping.{NegativeKeeps, CopyKeeps, ExtensionKeeps, OrderKeeps, RangeKeeps};
ghost use Rattle.abstract_num.specs.Keeping.{LoadKeeps, SignedLoadKeeps, TightenKeeps, EdgeKeeps, JoinKeeps};
ghost use Rattle.abstract_num.specs.Keeping.{WholeHasAnyHalf};
ghost use Rattle.abstract_num.specs.Laws.{JoinCommutes, JoinAssociates, JoinOfSame, JoinIsAbove, BelowIsReflexive};
ghost use Rattle.abstract_num.specs.Laws.{BelowIsTransitive, BelowHolds};

/// A law, proved when the crate is checked; a call does nothing. The join of numbers is a
/// commutative, associative and idempotent upper bound.
pub fn join_laws()
    ensures commutes { JoinCommutes }
    ensures associates { JoinAssociates }
    ensures of_same { JoinOfSame }
    ensures is_above { JoinIsAbove }
{}

/// A law. The order is one, and a greater number holds what a smaller one holds.
pub fn order_laws()
    ensures reflexive { BelowIsReflexive }
    ensures transitive { BelowIsTransitive }
    ensures holds { BelowHolds }
{}

/// A law. The tables of specs/ keep every number: what the machine computes of held numbers is held
/// by what they give. Numbers of the code fit.
pub fn keeping_laws()
    ensures fits { NumbersFit }
    ensures constants_fit { ConstantsFit }
    ensures any { AnyHolds }
    ensures constant { ConstantHolds }
    ensures arithmetic { ArithmeticKeeps }
    ensures negative { NegativeKeeps }
    ensures copies { CopyKeeps }
    ensures extensions { ExtensionKeeps }
    ensures orders { OrderKeeps }
    ensures ranges { RangeKeeps }
    ensures loads { LoadKeeps }
    ensures signed_loads { SignedLoadKeeps }
    ensures tighten { TightenKeeps }
    ensures edges { EdgeKeeps }
    ensures join { JoinKeeps }
{}

/// A law. With `Precision::Whole` an answer has any half, but a copy of 64 bits, which is the
/// number as it is.
pub fn whole_laws()
    ensures { WholeHasAnyHalf }
{}
