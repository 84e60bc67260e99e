//! Laws of the verdict. Each function does nothing.

ghost use Rattle.verifier.specs.Verdict.{FirstSetHasFewerRules, TableIsOne};

use abstract_regs::slots_stay;

/// A law, proved when the crate is checked; a call does nothing. The frames by which `verify`
/// judges a method are the one table in which each slot's frame is the join of all that flows into
/// it from lower slots.
pub fn one_table()
    ensures { TableIsOne }
{}

/// A law. A class of rule set 1 is never refused by `PointerBytes`.
pub fn first_rule_set()
    ensures { FirstSetHasFewerRules }
{
    slots_stay();
}
