//! A law of calls by a budget on parts, proved as the contract of a function that does nothing.

ghost use Rattle.loop_calls.specs.Enough.{MoreIsEnoughByBudget};

/// Where a call by a budget on a part of an object is answered, a call that knows more of this object needs nothing
/// besides. Where both need something, `part_calls::more_is_enough` says which stops later: its laws speak of all runs.
pub fn more_is_enough_by_budget()
    ensures { MoreIsEnoughByBudget }
{}
