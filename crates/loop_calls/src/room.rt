//! One call after the other of methods with loops, on parts of objects.

ghost use Rattle.std.specs.Prelude.{◌≡◌, ◌≤◌, [], Some, IfErr, IfOk, length};
ghost use Rattle.bpf_decode.specs.Class.{ClassMethod};
ghost use Rattle.object_store.specs.Object.{PlainObject};
ghost use Rattle.object_store.specs.Limits.{IsLimits};
ghost use Rattle.part_calls.specs.Parts.{AreCounted, MayBe};
ghost use Rattle.loop_calls.specs.ByBudget.{AnswersByBudget, IsBudgeted, NeedsNoMoreByBudget, StopsByBudget};

use crate::execute::execute_by_budget;
use crate::method::BudgetedMethod;
use bpf_machine::{STACK_SIZE, decoded, layouts};
use interp::{are_bytes, lay_out};
use loop_machine::one_end;
use object_store::Limits;
use part_calls::{PartAnswer, PartRun};
use parts::{StagedPart, Stop};
use std::alloc::Global;

/// The memory of runs by a budget, which one call after the other uses. It keeps the most bytes that a run
/// took, in_cap, out_cap and 512. No run sees what an earlier one left.
#[derive(Drop)]
pub struct LoopRoom {
    alloc: Global,
    memory: Vec<u8>,
}

impl LoopRoom {
    /// A room that holds no memory yet.
    pub fn new(alloc: Global) -> LoopRoom
        ensures { result.memory.items ≡ [] }
    {
        LoopRoom {
            alloc,
            memory: Vec::new(alloc),
        }
    }

    /// Runs a method by its budget on a part of an object, by a host's limits. What it answers is what the method
    /// answers on every object that the part may be; where the budget is used up, that is `SPENT_CODE`, no output, no
    /// edits, and the budget for its steps. It stops where it needs to know more of the object (`Needs`), or where one
    /// name more would be set than it can keep (`Full`). Nothing is changed then: the host fetches what is needed, and
    /// calls again with that. Where the limits have a number of names, all names are to be known.
    pub fn call_by_budget(
        &mut self,
        method: &BudgetedMethod<'_>,
        limits: Limits,
        part: StagedPart,
        caller: u32,
        input: &[u8],
    ) -> Result<PartAnswer, Stop>
        requires method { (m : ClassMethod) × IsBudgeted m method.now }
        requires limits { IsLimits limits }
        requires counted { AreCounted limits part }
        requires list { part.list ≡ Some [] }
        requires some { (o : PlainObject) × MayBe part o }
        requires short { length input.now ≤ method.now.caps.in_cap }
        ensures ok { (m : ClassMethod) → IsBudgeted m method.now →
            IfOk result (AnswersByBudget limits m method.now.budget part caller input.now) }
        ensures stopped { (m : ClassMethod) → IsBudgeted m method.now →
            IfErr result (StopsByBudget limits m method.now.budget part caller input.now) }
        ensures learns { (m : ClassMethod) → IsBudgeted m method.now →
            IfOk result (NeedsNoMoreByBudget limits m method.now.budget part caller input.now) }
    {
        are_bytes(input);
        // For the proof: a step on the bytes is the instruction's, there is a layout for all capacities, and a run by a
        // budget ends in one way. The calls do nothing.
        decoded();
        layouts();
        one_end();
        let caps = method.caps;
        let len = usize::from(caps.in_cap) + usize::from(caps.out_cap) + STACK_SIZE;
        lay_out(&mut self.memory, input, len)?;
        let run = PartRun::new(caps, limits, part, caller, input.len());
        execute_by_budget(self.alloc, method, run, input, &mut self.memory)
    }
}
