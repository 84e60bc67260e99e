//! A call on bytes.

ghost use Rattle.std.specs.Prelude.{◌≡◌, IfOk, IfErr, Some};
ghost use Rattle.bpf_decode.specs.Class.{IsMethod};
ghost use Rattle.class_calls.specs.Answers.{RefusesMethod, RefusesToBegin};
ghost use Rattle.loop_heads.specs.Loops.{PlainLoops};
ghost use Rattle.loop_classes.specs.Runs.{RunsBy};
ghost use Rattle.class_loops.specs.Answers.{IsAnsweredByBudget, IsAnsweredByLoops, edits_answer};

use crate::class::place_of;
use bpf_decode::Method;
use class_calls::{Answer, ClassCall, MethodError, begin_call, call_method_on};
use interp::Room;
use loop_calls::LoopRoom;
use loop_classes::{LoopClass, MethodRun};
use loop_objects::{ClientInput, budgeted, run_by_budget};
use loop_verdict::LoopMethod;
use part_calls::PartAnswer;
use std::alloc::Global;

/// The answer of a run that has the bytes of its edits.
fn of_edits(found: PartAnswer) -> Answer
    ensures { edits_answer result ≡ found }
{
    let PartAnswer {
        code,
        output,
        steps,
        edits,
    } = found;
    Answer {
        code,
        steps,
        output,
        edits,
    }
}

/// Calls a method with loops on an object in its flat form, by its budget.
fn call_looped(
    alloc: Global,
    room: &mut LoopRoom,
    method: &Method,
    run: &LoopMethod,
    request: ClassCall,
) -> Result<Answer, MethodError>
    requires method { IsMethod method.now }
    requires runs { RunsBy method.now run.now method.now.loops }
    ensures ok { (l : PlainLoops) → method.now.loops ≡ Some l → IfOk result
        (IsAnsweredByBudget method.now l.budget request.entry.object.now request.entry.caller
        request.entry.input.now) }
    ensures refused { IfErr result
        (RefusesToBegin method.now.in_cap request.entry.object.now request.entry.caller request.entry.input.now) }
{
    let object = match begin_call(alloc, method.in_cap(), request) {
        Ok(object) => object,
        Err(error) => return Err(error),
    };
    let taken = budgeted(method, run);
    let given = ClientInput {
        caller: request.caller as u32,
        input: request.input,
    };
    match run_by_budget(alloc, room, &taken, object.as_ref(), given) {
        Ok(found) => Ok(of_edits(found)),
        Err(_) => Err(MethodError::NoMemory),
    }
}

/// Calls a method of a class whose methods may loop on an object in its flat form.
pub(crate) fn call_on(
    alloc: Global,
    room: &mut Room,
    loop_room: &mut LoopRoom,
    class: &LoopClass,
    request: ClassCall,
) -> Result<Answer, MethodError>
    ensures ok { IfOk result
        (IsAnsweredByLoops class.now request.entry.method.now request.entry.object.now request.entry.caller
        request.entry.input.now) }
    ensures refused { IfErr result
        (RefusesMethod class.now request.entry.method.now request.entry.object.now request.entry.caller
        request.entry.input.now) }
{
    let Some(place) = place_of(class, request.method) else {
        return Err(MethodError::NoMethod);
    };
    match class.methods()[place].run() {
        MethodRun::Plain(method) => call_method_on(alloc, room, method, request),
        MethodRun::Looped(method, run) => call_looped(alloc, loop_room, method, run, request),
    }
}
