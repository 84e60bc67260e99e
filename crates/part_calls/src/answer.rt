//! What a run on a part of an object answers at its exit.

ghost use Rattle.std.specs.Prelude.{◌≡◌, ℕ, IfOk, IfErr};
ghost use Rattle.bpf_machine.specs.State.{State};
ghost use Rattle.object_store.specs.Object.{PlainObject};
ghost use Rattle.part_calls.specs.inner.PartRun.{PartAgrees, IsAnswerOf};
ghost use Rattle.parts.specs.Stops.{IsWant};

use crate::run::PartRun;
use interp::cut;
use parts::Stop;
use std::alloc::Global;

/// The answer of a call on a part of an object: that on each object that the part may be.
#[derive(Drop)]
pub struct PartAnswer {
    /// The method's code; a negative one is an error, which changed nothing.
    pub code: i64,
    /// The output, at most out_cap bytes.
    pub output: Vec<u8>,
    /// The instructions executed, `exit` included.
    pub steps: usize,
    /// The edits that make of the object what the call leaves, spelled as those of `Listed`; none where the code is
    /// negative.
    pub edits: Vec<u8>,
}

/// The answer of a run on a part that reached its exit with a code, in that many steps. A negative code comes with no
/// output and no edits. It stops only where memory is refused (`NoMemory`).
pub fn part_answer(
    alloc: Global,
    mut run: PartRun,
    memory: &[u8],
    code: u64,
    steps: usize,
) -> Result<PartAnswer, Stop>
    requires { (s : State ℕ) × PartAgrees run memory.now s }
    ensures is { IfOk result (λ a. (given : PlainObject) (s : State ℕ) →
        PartAgrees run memory.now s → IsAnswerOf given code s a) }
    ensures steps { IfOk result (λ a. a.steps ≡ steps) }
    ensures refused { IfErr result IsWant }
{
    let code = code.cast_signed();
    if code < 0 {
        return Ok(PartAnswer {
            code,
            output: Vec::new(alloc),
            steps,
            edits: Vec::new(alloc),
        });
    }
    let start = usize::from(run.caps.in_cap);
    let output = cut(alloc, memory, start, run.out_len)?;
    let edits = run.part.take_list(alloc);
    Ok(PartAnswer {
        code,
        output,
        steps,
        edits,
    })
}
