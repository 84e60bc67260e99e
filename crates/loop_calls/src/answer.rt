//! What a run answers that has used up its budget.

ghost use Rattle.loop_calls.specs.inner.LoopRun.{IsSpentAnswer};

use part_calls::PartAnswer;
use std::alloc::Global;

/// The code of a call that has used up its budget: ETIME, negative.
pub const SPENT_CODE: i64 = -62;

/// The answer of a run that has used up its budget: nothing that it did is kept, and its steps are the budget.
pub fn spent_answer(alloc: Global, budget: u32) -> PartAnswer
    ensures { IsSpentAnswer budget result }
{
    PartAnswer {
        code: SPENT_CODE,
        output: Vec::new(alloc),
        steps: budget as usize,
        edits: Vec::new(alloc),
    }
}
