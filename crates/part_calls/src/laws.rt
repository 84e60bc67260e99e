//! A law of calls on parts, proved as the contract of a function that does nothing.

ghost use Rattle.part_calls.specs.More.{MoreIsEnough, MoreStopsNoEarlier, NeededOnce};

/// Where a call on a part of an object is answered, a call that knows more of this object needs nothing
/// besides. Where both need something, the one that knows more stops at the same helper call as the
/// other, or at a later one: at a later one, if it knows the blocks or the name that the other needed.
pub fn more_is_enough()
    ensures enough { MoreIsEnough }
    ensures later { MoreStopsNoEarlier }
    ensures once { NeededOnce }
{}
