//! Laws of calls on parts of one object, one after the other, proved as contracts of functions that do
//! nothing.

ghost use Rattle.part_rounds.specs.ClassRounds.{PartRoundsAreFew, PartRoundsAreFewInRun};
ghost use Rattle.part_rounds.specs.Rounds.{RoundsAreFew, RoundsAreFewInRun};

/// Where each next call knows all that the one before knew of the object, and what that one needed, calls
/// need something at most as often as the method's run on the object calls helpers and removes names. Both
/// are counted up to the last call that needs something, and over the whole run.
pub fn rounds_are_few()
    ensures few { RoundsAreFew }
    ensures in_run { RoundsAreFewInRun }
{
    // For the proof: a run that knows more stops no earlier, and needs blocks or a name but once.
    part_calls::more_is_enough();
}

/// The same of calls of a class on parts that a host gives as bytes: where each next part has all of the
/// one before, and what was needed, `Needs` comes at most as often.
pub fn part_rounds_are_few()
    ensures few { PartRoundsAreFew }
    ensures in_run { PartRoundsAreFewInRun }
{
    // For the proof: bytes spell one part, and a call on one with more stops no earlier, and needs blocks or a
    // name but once.
    part_bytes::one_part();
    class_calls::more_of_a_part_is_enough();
}
