//! Laws of acting sets, for the proofs of the crates above. Each function does nothing.

ghost use Rattle.placement.specs.Laws.{ActingSetsMayAct, RankedIsRanking};

/// The ranked nodes are the given ones, and none ranks above one before it.
pub fn ranking()
    ensures { RankedIsRanking }
{}

/// An acting set has one to three nodes, each below 16 and none twice.
pub fn acting_sets()
    ensures { ActingSetsMayAct }
{}
