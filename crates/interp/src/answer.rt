//! The outcome of a run that reached its exit.

ghost use Rattle.std.specs.Prelude.{◌≡◌, ◌+◌, ◌≤◌, ℕ, pos, ◌<ℤ◌, length, IfErr, IfOk};
ghost use Rattle.object_store.specs.Object.{IsObject, part};
ghost use Rattle.std.specs.Option.{option_copied};
ghost use Rattle.txn.specs.Edits.{spelled};
ghost use Rattle.bpf_machine.specs.State.{State, outcome_of};
ghost use Rattle.bpf_machine.specs.Lists.{list_of};
ghost use Rattle.interp.specs.Plain.{outcome_of_answer};
ghost use Rattle.interp.specs.inner.Run.{Agrees};

use crate::calls::CallError;
use crate::outcome::{Listed, Outcome};
use crate::run::Run;
use object_store::Object;
use std::alloc::{AllocError, Global};
use txn::Change;

/// The answer of a run that reached its exit with a code, in that many steps, and its list of
/// edits, which is empty where none was kept. A negative code drops all that the run did.
pub fn answer(
    alloc: Global,
    given: Option<&Object>,
    mut run: Run,
    memory: &[u8],
    code: u64,
    steps: usize,
) -> Result<Listed, CallError>
    requires { (s : State ℕ) × Agrees run.caps (option_copied given) run memory.now s }
    ensures outcome { IfOk result (λ o. (s : State ℕ) →
        Agrees run.entry.caps (option_copied given.entry) run.entry memory.now s →
        outcome_of (option_copied given.entry) code s ≡ outcome_of_answer o.outcome) }
    ensures edits { IfOk result (λ o. (s : State ℕ) →
        Agrees run.entry.caps (option_copied given.entry) run.entry memory.now s →
        o.edits.items ≡ spelled (list_of code s)) }
    ensures steps { IfOk result (λ o. o.outcome.steps ≡ steps) }
    ensures before { IfOk result (λ o. o.outcome.change.before ≡ option_copied given.entry) }
    ensures failed { IfOk result (λ o. o.outcome.code <ℤ pos 0 → o.outcome.change.after ≡ option_copied given.entry) }
    ensures within { IfOk result (λ o. IsObject o.outcome.change.after) }
    ensures refused { IfErr result (λ e. e ≡ CallError.NoMemory) }
{
    let code = code.cast_signed();
    if code < 0 {
        let change = Change::none(given)?;
        leads_within(&change);
        return Ok(Listed {
            outcome: Outcome {
                code,
                output: Vec::new(alloc),
                change,
                steps,
            },
            edits: Vec::new(alloc),
        });
    }
    let start = usize::from(run.caps.in_cap);
    let output = cut(alloc, memory, start, run.out_len)?;
    let edits = run.staged.take_list(alloc);
    let change = run.staged.finish()?;
    leads_within(&change);
    Ok(Listed {
        outcome: Outcome {
            code,
            output,
            change,
            steps,
        },
        edits,
    })
}

/// A copy of that many bytes from a place on. The usual output is empty, and costs no copy.
pub fn cut(alloc: Global, memory: &[u8], start: usize, len: usize) -> Result<Vec<u8>, AllocError>
    requires { start + len ≤ length memory.now }
    ensures { IfOk result (λ v. v.items ≡ part memory.now start len) }
{
    if len == 0 {
        return Ok(Vec::new(alloc));
    }
    Vec::from_slice(alloc, &memory[start..start + len])
}

/// The object after a change is within the limits. It does nothing.
fn leads_within(change: &Change)
    ensures { IsObject change.now.after }
{
    match change.after() {
        None => {}
        Some(object) => object.within(),
    }
}
