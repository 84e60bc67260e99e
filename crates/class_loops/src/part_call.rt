//! A call on a part of an object.

ghost use Rattle.std.specs.Prelude.{◌≡◌, IfOk, IfErr, List, Some};
ghost use Rattle.bpf_decode.specs.Class.{ClassMethod, IsMethod};
ghost use Rattle.verifier.specs.Verified.{method_named};
ghost use Rattle.loop_heads.specs.Loops.{PlainLoops};
ghost use Rattle.loop_classes.specs.Runs.{RunsBy};
ghost use Rattle.class_loops.specs.Parts.{IsAnsweredByPartAndBudget, IsAnsweredByPartAndLoops, RefusesPartByLoops};

use crate::class::place_of;
use bpf_decode::Method;
use class_calls::{
    PartCall, PartCallError, begin_part, call_method_part, needs_are_lacking, stop_refusal,
};
use loop_calls::LoopRoom;
use loop_classes::{LoopClass, MethodRun};
use loop_objects::budgeted;
use loop_verdict::LoopMethod;
use part_calls::{PartAnswer, PartRoom};
use std::alloc::Global;

/// Calls a method with loops on a part of an object, by its budget.
fn call_looped_part(
    alloc: Global,
    room: &mut LoopRoom,
    method: &Method,
    run: &LoopMethod,
    request: PartCall,
) -> Result<PartAnswer, PartCallError>
    requires method { IsMethod method.now }
    requires runs { RunsBy method.now run.now method.now.loops }
    ensures ok { (l : PlainLoops) → method.now.loops ≡ Some l → IfOk result
        (IsAnsweredByPartAndBudget method.now l.budget request.entry.part.now request.entry.caller request.entry.limits
        request.entry.input.now) }
    ensures refused { (class : List ClassMethod) → method_named class request.entry.method.now ≡ Some method.now →
        IfErr result (RefusesPartByLoops class request.entry.method.now request.entry.part.now request.entry.caller
        request.entry.limits request.entry.input.now) }
{
    let known = match begin_part(alloc, method.in_cap(), request) {
        Ok(known) => known,
        Err(error) => return Err(error),
    };
    // For the proof: what a run on a part needs isn't in the part.
    needs_are_lacking();
    let taken = budgeted(method, run);
    match room.call_by_budget(
        &taken,
        request.limits,
        known,
        request.caller as u32,
        request.input,
    ) {
        Ok(answer) => Ok(answer),
        Err(stop) => Err(stop_refusal(stop)),
    }
}

/// Calls a method of a class whose methods may loop on a part of an object, by a host's limits.
pub(crate) fn call_part(
    alloc: Global,
    room: &mut PartRoom,
    loop_room: &mut LoopRoom,
    class: &LoopClass,
    request: PartCall,
) -> Result<PartAnswer, PartCallError>
    ensures ok { IfOk result
        (IsAnsweredByPartAndLoops class.now request.entry.method.now request.entry.part.now request.entry.caller
        request.entry.limits request.entry.input.now) }
    ensures refused { IfErr result
        (RefusesPartByLoops class.now request.entry.method.now request.entry.part.now request.entry.caller
        request.entry.limits request.entry.input.now) }
{
    let Some(place) = place_of(class, request.method) else {
        return Err(PartCallError::NoMethod);
    };
    let found = &class.methods()[place];
    match found.run() {
        MethodRun::Plain(method) => call_method_part(alloc, room, method, request),
        MethodRun::Looped(method, run) => call_looped_part(alloc, loop_room, method, run, request),
    }
}
