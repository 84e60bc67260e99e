/// A fact that holds of two numbers along an edge of a comparison, by which each part is refined.
#[derive(Clone, Copy)]
pub enum Fact {
    /// Both are the same number.
    Same,
    /// The first is above the second.
    Above,
    /// The first is at least the second.
    AtLeast,
    /// The first is above the second, as signed numbers.
    SignedAbove,
    /// The first is at least the second, as signed numbers.
    SignedAtLeast,
    /// The low half of the first is above that of the second, as signed numbers.
    HalfAbove,
    /// The low half of the first is at least that of the second, as signed numbers.
    HalfAtLeast,
    /// They have a set bit in common.
    Meets,
    /// The first isn't this number.
    Not(u64),
    /// The first has no set bit of this one.
    NoneOf(u64),
}

/// The relation between the two numbers of a comparison along an edge.
#[derive(Clone, Copy)]
pub enum Edge {
    /// The fact holds of the first and the second.
    Ahead(Fact),
    /// The fact holds of the second and the first.
    Turned(Fact),
    /// They are different numbers.
    Apart,
    /// They have no set bit in common.
    Disjoint,
}
