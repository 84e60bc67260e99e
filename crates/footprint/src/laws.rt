//! Laws of two runs and of a run's list, proved as contracts of functions that do nothing.

ghost use Rattle.footprint.specs.Answers.{AnswersDecideLists, AnswersDecideRuns};
ghost use Rattle.footprint.specs.Frame.{FrameLaw, ListFrameLaw};
ghost use Rattle.footprint.specs.Lengths.{EditsAreShort, ListsAreBounded, ListsAreShort, NoChangeLeavesNothing};
ghost use Rattle.footprint.specs.Lengths.{ReadersLeaveNothing};

use bpf_machine::{blind_steps, chains, decoded, layouts};
use helpers::edits_lead;

/// A law. If a run of a method ends on an object without parts that the method's code doesn't need,
/// the run on the whole object ends with the same code, output and steps, and leaves the needed
/// parts as the other run did, and the others as they were. The list of its edits is that of the
/// other run, and makes of the whole object what it leaves.
pub fn frame()
    ensures outcome { FrameLaw }
    ensures list { ListFrameLaw }
{
    // For the proof: a run ends exactly if the chain of its steps ends.
    chains();
    // For the proof: a step on the bytes is the step of the instruction that begins there.
    decoded();
    // For the proof: only a call of a helper looks at the object or the list, or changes them.
    blind_steps();
    // For the proof: there is a layout for all capacities.
    layouts();
    // For the proof: a helper's edits make of the object before the object after.
    edits_lead();
}

/// A law. What a run's helpers answer decides its list: their numbers, and the bytes that they write
/// into the method's memory. Of two objects that are both absent or both there, if the run on one
/// ends, and in as many steps on the other the helpers answer the same, one after the other, that
/// run ends with the same code, output, steps and list. So two runs that end are alike wherever
/// their helpers' answers are equal in some layout.
pub fn answers_decide_lists()
    ensures runs { AnswersDecideRuns }
    ensures lists { AnswersDecideLists }
{
    // For the proof: a step on the bytes is the step of the instruction that begins there.
    decoded();
    // For the proof: only a call of a helper looks at the object or the list, or changes them.
    blind_steps();
}

/// A law. A helper's edits have at most 14 bytes beside the name and the text that it was given. A
/// run in which each helper that may change the object answers a negative number leaves the empty
/// list, and so does every run of code that calls no such helper. A whole list has at most a fourth
/// of the longest write for each step, and for two more; so it is below 4,300,000 bytes in rule sets
/// 1 and 2 and below 68,000,000 in rule set 3, if the run has no more steps than the method has
/// instructions.
pub fn list_lengths()
    ensures edits { EditsAreShort }
    ensures unchanged { NoChangeLeavesNothing }
    ensures readers { ReadersLeaveNothing }
    ensures bounded { ListsAreBounded }
    ensures short { ListsAreShort }
{
    // For the proof: a step on the bytes is the step of the instruction that begins there.
    decoded();
    // For the proof: only a call of a helper looks at the object or the list, or changes them.
    blind_steps();
    // For the proof: there is a layout for all capacities.
    layouts();
}
