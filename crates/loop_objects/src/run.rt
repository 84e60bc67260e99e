//! A run by a budget on all of an object, and its outcome.

ghost use Rattle.std.specs.Prelude.{◌≡◌, ◌≤◌, IfErr, IfOk, length};
ghost use Rattle.std.specs.Option.{option_copied};
ghost use Rattle.bpf_decode.specs.Class.{ClassMethod};
ghost use Rattle.object_store.specs.Object.{PlainObject, IsObject};
ghost use Rattle.loop_calls.specs.ByBudget.{IsBudgeted};
ghost use Rattle.loop_objects.specs.Calls.{AnswersByEdits};
ghost use Rattle.loop_objects.specs.inner.Making.{IsNoNeed, IsOutcomeOf, Makes};

use crate::edits::make_all;
use crate::whole::whole_part;
use bpf_machine::{blind_steps, decoded, layouts};
use helpers::edits_lead;
use interp::{CallError, Outcome};
use loop_calls::{BudgetedMethod, LoopRoom, Stop};
use object_store::{Limits, Object};
use part_calls::PartAnswer;
use std::alloc::Global;
use txn::Change;

/// What a client gives to a run.
#[derive(Clone, Copy)]
pub struct ClientInput<'a> {
    /// The client's number.
    pub caller: u32,
    /// The input.
    pub input: &'a [u8],
}

/// Runs a method by its budget on an object, or on none, in a room that runs share one after the
/// other. The answer has the bytes of the run's edits. Refused by `NoMemory` alone, also where the
/// part on which it runs is full: no contract says that it never is.
pub fn run_by_budget(
    alloc: Global,
    room: &mut LoopRoom,
    method: &BudgetedMethod<'_>,
    object: Option<&Object>,
    given: ClientInput,
) -> Result<PartAnswer, CallError>
    requires method { (m : ClassMethod) × IsBudgeted m method.now }
    requires short { length given.input.now ≤ method.now.caps.in_cap }
    ensures answered { (m : ClassMethod) → IsBudgeted m method.now →
        IfOk result (AnswersByEdits m method.now.budget (option_copied object.entry) given.entry.caller
        given.entry.input.now) }
    ensures refused { IfErr result (λ e. e ≡ CallError.NoMemory) }
{
    // For the proof: the object is within the limits. The edits of a helper make of the object
    // before the one after, and none of them is refused. There is a layout, a step on the bytes is the
    // instruction's, and no instruction but a call looks at the object or the list.
    is_object(object);
    edits_lead();
    layouts();
    decoded();
    blind_steps();
    let part = whole_part(alloc, object)?;
    match room.call_by_budget(method, Limits::profile(), part, given.caller, given.input) {
        Ok(answer) => Ok(answer),
        Err(stop) => Err(refusal_of(&stop)),
    }
}

/// The refusal of a run on all of an object, of which nothing more is needed. Nor is the part full,
/// which keeps as many names as an object may have: a helper answers ENOSPC before. No contract
/// says that.
fn refusal_of(stop: &Stop) -> CallError
    requires { IsNoNeed stop.now }
    ensures { result ≡ CallError.NoMemory }
{
    match stop {
        Stop::NoMemory | Stop::Full => CallError::NoMemory,
        Stop::Needs(_) => unreachable!(),
    }
}

/// The outcome of a run on an object that answered so.
pub(crate) fn outcome(
    alloc: Global,
    object: Option<&Object>,
    answer: PartAnswer,
) -> Result<Outcome, CallError>
    requires { (o : PlainObject) × Makes answer.edits.items (option_copied object) o }
    ensures outcome { IfOk result (IsOutcomeOf (option_copied object.entry) answer) }
    ensures refused { IfErr result (λ e. e ≡ CallError.NoMemory) }
{
    let PartAnswer {
        code,
        output,
        steps,
        edits,
    } = answer;
    let change = make_all(alloc, object, &edits)?;
    leads_within(&change);
    Ok(Outcome {
        code,
        output,
        change,
        steps,
    })
}

/// An object is within the limits. It does nothing.
fn is_object(object: Option<&Object>)
    ensures { IsObject (option_copied object.entry) }
{
    match object {
        None => {}
        Some(object) => object.within(),
    }
}

/// The object after a change is within the limits. It does nothing.
fn leads_within(change: &Change)
    ensures { IsObject change.now.after }
{
    is_object(change.after());
}
