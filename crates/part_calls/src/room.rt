//! One call after the other on parts of objects.

ghost use Rattle.std.specs.Prelude.{◌≡◌, ◌≤◌, [], Some, IfErr, IfOk, length};
ghost use Rattle.object_store.specs.Object.{PlainObject};
ghost use Rattle.object_store.specs.Limits.{IsLimits};
ghost use Rattle.part_calls.specs.Parts.{AreCounted, MayBe, AnswersPart, NeedsNoMore, StopsPart};

use crate::answer::PartAnswer;
use crate::execute::execute_part;
use crate::run::PartRun;
use bpf_machine::{STACK_SIZE, chains, decoded, layouts, simulation};
use interp::{are_bytes, lay_out};
use object_store::Limits;
use parts::{StagedPart, Stop};
use std::alloc::Global;
use verifier::VerifiedMethod;

/// The memory of runs on parts of objects, which one call after the other uses. It keeps the most bytes
/// that a run took, in_cap, out_cap and 512. No run sees what an earlier one left.
#[derive(Drop)]
pub struct PartRoom {
    alloc: Global,
    memory: Vec<u8>,
}

impl PartRoom {
    /// A room that holds no memory yet.
    pub fn new(alloc: Global) -> PartRoom
        ensures { result.memory.items ≡ [] }
    {
        PartRoom {
            alloc,
            memory: Vec::new(alloc),
        }
    }

    /// Runs a method on a part of an object, by a host's limits. What it answers is what the method answers on every
    /// object that the part may be: a host hands in what it knows of one, and the call stops where it needs more
    /// (`Needs`), or where one name more would be set than it can keep (`Full`). Nothing is changed then: the host
    /// fetches what is needed, and calls again with that. Where the limits have a number of names, all names are to be
    /// known.
    pub fn call_method(
        &mut self,
        method: &VerifiedMethod,
        limits: Limits,
        part: StagedPart,
        caller: u32,
        input: &[u8],
    ) -> Result<PartAnswer, Stop>
        requires limits { IsLimits limits }
        requires counted { AreCounted limits part }
        requires list { part.list ≡ Some [] }
        requires some { (o : PlainObject) × MayBe part o }
        requires short { length input.now ≤ method.now.in_cap }
        ensures ok { IfOk result (AnswersPart limits method.now part caller input.now) }
        ensures stopped { IfErr result (StopsPart limits method.now part caller input.now) }
        ensures learns { IfOk result (NeedsNoMore limits method.now part caller input.now) }
    {
        are_bytes(input);
        // For the proof: a run ends where its chain of steps does, a step on the bytes is the instruction's, there is
        // a layout for all capacities, and by all limits a method ends in every layout, with one list. The calls do
        // nothing.
        chains();
        decoded();
        layouts();
        simulation();
        bpf_machine::lists();
        let caps = method.caps();
        let len = usize::from(caps.in_cap) + usize::from(caps.out_cap) + STACK_SIZE;
        lay_out(&mut self.memory, input, len)?;
        let run = PartRun::new(caps, limits, part, caller, input.len());
        execute_part(
            self.alloc,
            method.ops(),
            method.count(),
            run,
            input,
            &mut self.memory,
        )
    }
}
