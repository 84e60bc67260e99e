//! A call on bytes.

ghost use Rattle.std.specs.Prelude.{◌≡◌, IfOk, IfErr, List, Some};
ghost use Rattle.bpf_decode.specs.Class.{ClassMethod};
ghost use Rattle.verifier.specs.Verified.{method_named};
ghost use Rattle.class_calls.specs.Answers.{BeginsCall, IsAnsweredBy, IsOfFlat, RefusesMethod, RefusesToBegin, Says};

use crate::class::place_of;
use interp::{Listed, Outcome, Room};
use object_bytes::{FlatError, read_object};
use object_store::Object;
use std::alloc::Global;
use verifier::{VerifiedClass, VerifiedMethod};

/// What is asked of a class: a method on an object, for a client.
#[derive(Clone, Copy)]
pub struct ClassCall<'a> {
    /// The method's name; any bytes.
    pub method: &'a [u8],
    /// The object's flat form.
    pub object: &'a [u8],
    /// The client's number, below 2^32.
    pub caller: u64,
    /// The input, at most the method's in_cap of bytes.
    pub input: &'a [u8],
}

/// Why a verified class gives no answer: the first that applies.
#[derive(Clone, Copy, Debug)]
pub enum MethodError {
    /// The class has no method of that name.
    NoMethod,
    /// The input is longer than the method's in_cap.
    InputTooLong,
    /// The bytes are no object's flat form, or the client's number is 2^32 or more.
    Malformed,
    /// Memory was refused.
    NoMemory,
}

/// The answer of a call.
#[derive(Drop)]
pub struct Answer {
    /// The method's code; a negative one is an error, which changed nothing.
    pub code: i64,
    /// The instructions executed, `exit` included.
    pub steps: usize,
    /// The output.
    pub output: Vec<u8>,
    /// The list of the edits that the method's helpers made, as it is written. They make of the
    /// object before the one after.
    pub edits: Vec<u8>,
}

/// The answer of a run with its list.
#[inline(always)]
fn listed_answer(listed: Listed) -> Answer
    ensures { Says listed result }
{
    let Listed { outcome, edits } = listed;
    let Outcome {
        code,
        output,
        change: _,
        steps,
    } = outcome;
    Answer {
        code,
        steps,
        output,
        edits,
    }
}

/// The refusal of a call for a refusal of the object's flat form.
fn of_flat(error: FlatError) -> MethodError
    ensures { IsOfFlat error result }
{
    match error {
        FlatError::Malformed => MethodError::Malformed,
        FlatError::NoMemory => MethodError::NoMemory,
    }
}

/// Checks what a call of a method of that in_cap is given, and reads its object, which may be absent.
pub fn begin_call(
    alloc: Global,
    in_cap: u16,
    request: ClassCall,
) -> Result<Option<Object>, MethodError>
    ensures begun { IfOk result
        (BeginsCall in_cap request.entry.object.now request.entry.caller request.entry.input.now) }
    ensures refused { IfErr result
        (RefusesToBegin in_cap request.entry.object.now request.entry.caller request.entry.input.now) }
{
    if request.input.len() > usize::from(in_cap) {
        return Err(MethodError::InputTooLong);
    }
    if request.caller >= 0x1_0000_0000 {
        return Err(MethodError::Malformed);
    }
    match read_object(alloc, request.object) {
        Ok(object) => Ok(object),
        Err(error) => Err(of_flat(error)),
    }
}

/// Calls a verified method on an object in its flat form, in a room that calls share one after the
/// other. The name in the request isn't looked at.
pub fn call_method_on(
    alloc: Global,
    room: &mut Room,
    method: &VerifiedMethod,
    request: ClassCall,
) -> Result<Answer, MethodError>
    ensures ok { (class : List ClassMethod) → method_named class request.entry.method.now ≡ Some method.now →
        IfOk result (IsAnsweredBy class request.entry.method.now request.entry.object.now request.entry.caller
        request.entry.input.now) }
    ensures refused { (class : List ClassMethod) → method_named class request.entry.method.now ≡ Some method.now →
        IfErr result (RefusesMethod class request.entry.method.now request.entry.object.now request.entry.caller
        request.entry.input.now) }
{
    let object = match begin_call(alloc, method.caps().in_cap, request) {
        Ok(object) => object,
        Err(error) => return Err(error),
    };
    // For the proof: the method is verified.
    method.ops();
    match room.call_method_listed(
        method,
        object.as_ref(),
        request.caller as u32,
        request.input,
    ) {
        Ok(listed) => Ok(listed_answer(listed)),
        Err(_) => Err(MethodError::NoMemory),
    }
}

/// Calls a method of a verified class on an object in its flat form, in a room that calls share one
/// after the other.
pub fn call_on(
    alloc: Global,
    room: &mut Room,
    class: &VerifiedClass,
    request: ClassCall,
) -> Result<Answer, MethodError>
    ensures ok { IfOk result
        (IsAnsweredBy class.now request.entry.method.now request.entry.object.now request.entry.caller
        request.entry.input.now) }
    ensures refused { IfErr result
        (RefusesMethod class.now request.entry.method.now request.entry.object.now request.entry.caller
        request.entry.input.now) }
{
    let Some(place) = place_of(class, request.method) else {
        return Err(MethodError::NoMethod);
    };
    let found = &class.methods()[place];
    call_method_on(alloc, room, found, request)
}
