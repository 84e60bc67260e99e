//! Laws of the verdict, proved as contracts of functions that do nothing.

ghost use Rattle.loop_classes.specs.Verdict.{WithoutLoopsIsOne};

/// The verdict on a class without loops is that of `verifier::verify`.
pub fn without_loops()
    ensures { WithoutLoopsIsOne }
{}
