//! Laws of the calls, proved as contracts of functions that do nothing.

ghost use Rattle.loop_objects.specs.Calls.{WithoutLoopsAnswersIsOne};

/// Of a class without loops `call_loops` answers what `interp::call` does.
pub fn answers_without_loops()
    ensures { WithoutLoopsAnswersIsOne }
{}
