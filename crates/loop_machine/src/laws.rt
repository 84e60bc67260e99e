//! Laws of runs by a budget, for the proofs of the crates above. Each function does nothing.

ghost use Rattle.loop_machine.specs.Runs.{EndsAreOne, RunsByBudgetAreOne};
ghost use Rattle.loop_machine.specs.Typed.{NeverStuckIsSafe};

use helpers::edits_make;

/// A law. A method whose typed runs by a budget are never stuck is safe by it: on the flat machine,
/// wherever the regions lie, each of its runs ends at an exit within the budget or uses it up, with
/// one outcome, number of steps and list of edits, and the edits make of the object the one after.
pub fn budgets()
    ensures { NeverStuckIsSafe }
{
    // For the proof: the edits of a helper make of an object the one that it leaves.
    edits_make();
}

/// A law. A run by a budget ends in one way: with one outcome, number of steps and list of edits. So
/// a method that is safe by its budget has these alone for an object, a client and an input.
pub fn one_end()
    ensures ends { EndsAreOne }
    ensures runs { RunsByBudgetAreOne }
{}
