//! Calls of the methods of a class whose methods may loop.

ghost use Rattle.std.specs.Prelude.{◌≡◌, ◌≢◌, ◌<◌, ◌≤◌, ◌↔◌, Some, None, Err, IfErr, IfOk, length};
ghost use Rattle.std.specs.Option.{option_copied};
ghost use Rattle.bpf_decode.specs.Class.{IsMethod};
ghost use Rattle.verifier.specs.Verified.{method_named};
ghost use Rattle.interp.specs.Plain.{InputPasses};
ghost use Rattle.loop_heads.specs.Loops.{PlainLoops};
ghost use Rattle.loop_calls.specs.ByBudget.{IsBudgeted};
ghost use Rattle.loop_classes.specs.Runs.{RunsBy};
ghost use Rattle.loop_objects.specs.Calls.{AnswersBudget, AnswersLooped, AnswersLoops};

use crate::run::{ClientInput, outcome, run_by_budget};
use bpf_decode::Method;
use interp::{CallError, Outcome, call_method};
use loop_calls::{BudgetedMethod, LoopRoom};
use loop_classes::{LoopClass, LoopClassMethod, MethodRun};
use loop_verdict::LoopMethod;
use object_store::Object;
use std::alloc::Global;

/// Runs a method of a class whose methods may loop, as `interp::call` does: on an object, or on
/// none, for a client on an input. A method that declares no loops answers as there. One that does
/// runs by its budget; where that is used up, the code is `loop_calls::SPENT_CODE`, -62, there is
/// no output, the steps are the budget, and the object is as it was.
///
/// Refused, the first that applies: 1 NoMethod, 2 InputTooLong, 3 NoMemory. The part on which a
/// method with loops runs keeps as many names as an object may have, so that it isn't full where a
/// helper sets one; no contract says so, and it would be refused by 3 too.
pub fn call_loops(
    alloc: Global,
    class: &LoopClass,
    method: &str,
    object: Option<&Object>,
    caller: u32,
    input: &[u8],
) -> Result<Outcome, CallError>
    // The flat machine's outcome and steps, in every layout; the change is from the object before
    // to the one after.
    ensures ok { IfOk result
        (λ o. AnswersLoops class.now method.now (option_copied object.entry) caller input.now o) }
    ensures no_method { (result ≡ Err CallError.NoMethod) ↔ (method_named class.now method.now ≡ None) }
    ensures too_long { (result ≡ Err CallError.InputTooLong) ↔ InputPasses class.now method.now input.now }
{
    // For the proof: each method is such as a class may have.
    class.methods();
    match class.method(method) {
        None => Err(CallError::NoMethod),
        Some(found) => call_found(alloc, found, object, caller, input),
    }
}

/// Runs a method that was found by its name.
fn call_found(
    alloc: Global,
    method: &LoopClassMethod,
    object: Option<&Object>,
    caller: u32,
    input: &[u8],
) -> Result<Outcome, CallError>
    requires { IsMethod method.now }
    ensures ok { IfOk result (λ o. AnswersLooped method.now (option_copied object.entry) caller input.now o) }
    ensures short { IfOk result (λ _. length input.now ≤ method.now.in_cap) }
    ensures too_long { (result ≡ Err CallError.InputTooLong) ↔ (method.now.in_cap < length input.now) }
    ensures found { IfErr result (λ e. e ≢ CallError.NoMethod) }
{
    match method.run() {
        MethodRun::Plain(method) => call_method(alloc, method, object, caller, input),
        MethodRun::Looped(method, run) => {
            let looped = Looped { method, run };
            let given = ClientInput { caller, input };
            call_looped(alloc, &looped, object, given)
        }
    }
}

/// A method with loops, and how it runs.
#[derive(Clone, Copy)]
struct Looped<'a> {
    method: &'a Method,
    run: &'a LoopMethod,
}

/// What a run by its budget takes of a method with loops.
pub fn budgeted<'a>(method: &Method, run: &'a LoopMethod) -> BudgetedMethod<'a>
    requires method { IsMethod method.now }
    requires runs { RunsBy method.now run.now method.now.loops }
    ensures runs { IsBudgeted method.now result }
    ensures budget { result.budget ≡ run.now.budget }
    ensures declared { (l : PlainLoops) → method.now.loops ≡ Some l → result.budget ≡ l.budget }
{
    BudgetedMethod {
        caps: run.caps(),
        budget: run.budget(),
        ops: run.ops(),
    }
}

/// Runs a method with loops by its budget.
fn call_looped(
    alloc: Global,
    looped: &Looped<'_>,
    object: Option<&Object>,
    given: ClientInput,
) -> Result<Outcome, CallError>
    requires method { IsMethod looped.now.method.now }
    requires runs { RunsBy looped.now.method.now looped.now.run.now looped.now.method.now.loops }
    ensures ok { IfOk result (λ o. AnswersBudget looped.now.method.now looped.now.run.now.budget
        (option_copied object.entry) given.entry.caller given.entry.input.now o) }
    ensures short { IfOk result (λ _. length given.entry.input.now ≤ looped.now.method.now.in_cap) }
    ensures too_long { (result ≡ Err CallError.InputTooLong) ↔
        (looped.now.method.now.in_cap < length given.entry.input.now) }
    ensures found { IfErr result (λ e. e ≢ CallError.NoMethod) }
{
    let (method, run) = (looped.method, looped.run);
    if given.input.len() > usize::from(method.in_cap()) {
        return Err(CallError::InputTooLong);
    }
    let taken = budgeted(method, run);
    let mut room = LoopRoom::new(alloc);
    let answer = run_by_budget(alloc, &mut room, &taken, object, given)?;
    outcome(alloc, object, answer)
}
