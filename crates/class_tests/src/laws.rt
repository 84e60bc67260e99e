//! A law of calls, proved as the contract of a function that does nothing.

ghost use Rattle.class_tests.specs.Calls.{LoopOutcomesAreOne};

use bpf_machine::{layouts, other_runs, outcomes};

/// What a call by loops answers is the outcome that `loop_outcome` names.
pub(crate) fn loop_outcomes()
    ensures { LoopOutcomesAreOne }
{
    // For the proof: a method that runs to its exit has one outcome; there is a layout; no state at an exit steps on.
    outcomes();
    layouts();
    other_runs();
}
