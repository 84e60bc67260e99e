//! The verdict on one method with loops.

ghost use Rattle.std.specs.Prelude.{◌≡◌, ◌⊎◌, IfOk, IfErr, None};
ghost use Rattle.bpf_decode.specs.Class.{IsMethod};
ghost use Rattle.bpf_decode.specs.Instruction.{slots};
ghost use Rattle.bpf_machine.specs.Safe.{caps_of};
ghost use Rattle.verifier.specs.Verdict.{out_of_memory};
ghost use Rattle.loop_machine.specs.Runs.{IsSafeByBudget};
ghost use Rattle.loop_tables.specs.Verdict.{loop_verdict};
ghost use Rattle.loop_verdict.specs.Verified.{by_budget, IsLoopMethod, IsFirstByHeads};

use crate::pass::first_refusal_by_heads;
use crate::verified::LoopMethod;
use bpf_decode::{Insn, Method};
use bpf_machine::Caps;
use bpf_ops::ops_of;
use loop_heads::Loops;
use loop_machine::budgets;
use loop_tables::accepted_loops;
use std::alloc::Global;
use verifier::{Refusal, slots_of};

/// Accepts a method with heads, of rule set 3, that no rule refuses, and is safe by its budget then; else
/// gives the first refusal: the lowest refused slot, and there the lowest rule. `number` is the method's
/// in its class. `Rule::NoMemory`, with method and slot 0, says that memory was refused.
pub fn verify_by_heads(
    alloc: Global,
    number: usize,
    method: &Method,
    loops: &Loops,
) -> Result<LoopMethod, Refusal>
    requires { IsMethod method.now }
    ensures ok { IfOk result (λ v. v ≡ by_budget method.now loops.now.budget) }
    // Accepted means safe: never stuck, in every layout of the regions, whatever the heads say.
    ensures safe { IfOk result (λ _. IsSafeByBudget method.now loops.now.budget) }
    ensures accepted { IfOk result
        (λ _. loop_verdict (caps_of method.now) loops.now.heads (slots method.now.instructions) ≡ None) }
    ensures refused { IfErr result (λ r. (r ≡ out_of_memory) ⊎ IsFirstByHeads number method.now loops.now r) }
{
    let code = slots_of(alloc, method.instructions())?;
    judge(alloc, number, method, loops, &code)?;
    let ops = ops_of(alloc, &code)?;
    Ok(LoopMethod::new(method, loops.budget(), ops))
}

/// Refuses a method if a rule does; if none does, the method is safe. `code` has the instruction that
/// begins at each slot.
fn judge(
    alloc: Global,
    number: usize,
    method: &Method,
    loops: &Loops,
    code: &[Option<Insn>],
) -> Result<(), Refusal>
    requires method { IsMethod method.now }
    requires code { code.now ≡ slots method.now.instructions }
    ensures verified { IfOk result (λ _. IsLoopMethod method.now loops.now.budget) }
    ensures accepted { IfOk result
        (λ _. loop_verdict (caps_of method.now) loops.now.heads (slots method.now.instructions) ≡ None) }
    ensures refused { IfErr result (λ r. (r ≡ out_of_memory) ⊎ IsFirstByHeads number method.now loops.now r) }
{
    // For the proof: runs of an accepted method are never stuck, and a method whose runs aren't is safe.
    accepted_loops();
    budgets();
    match first_refusal_by_heads(alloc, &Caps::of(method), loops.heads(), code)? {
        Some((slot, rule)) => Err(Refusal {
            method: number,
            slot,
            rule,
        }),
        None => Ok(()),
    }
}
