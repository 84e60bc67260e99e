//! A call on a part of an object.

ghost use Rattle.std.specs.Prelude.{◌≡◌, ◌↔◌, IfOk, IfErr, IsTrue, IfSome, List, Some};
ghost use Rattle.bpf_decode.specs.Class.{ClassMethod};
ghost use Rattle.verifier.specs.Verified.{method_named};
ghost use Rattle.std.specs.Option.{option_copied};
ghost use Rattle.part_bytes.specs.View.{names_view, part_view};
ghost use Rattle.part_bytes.specs.Part.{Everything};
ghost use Rattle.class_calls.specs.Parts.{BeginsPart, HasCounted, IsAnsweredByPart, IsStagedOf, MayLimit};
ghost use Rattle.class_calls.specs.Parts.{RefusesBytes, RefusesPart, RefusesToBeginPart, of_stop};

use crate::class::place_of;
use object_store::{Limits, NAME_LIMIT, NameLimits};
use part_bytes::{Names, Need, ObjectPart, PartError, read_part};
use part_calls::{PartAnswer, PartRoom, StagedPart, Stop};
use std::alloc::Global;
use verifier::{VerifiedClass, VerifiedMethod};

/// What is asked of a class: a method on a part of an object, for a client.
#[derive(Clone, Copy)]
pub struct PartCall<'a> {
    /// The method's name; any bytes.
    pub method: &'a [u8],
    /// The spelling of what is known of the object.
    pub part: &'a [u8],
    /// The client's number, below 2^32.
    pub caller: u64,
    /// What the object may hold.
    pub limits: Limits,
    /// The input, at most the method's in_cap of bytes.
    pub input: &'a [u8],
}

/// Why a verified class gives no answer on a part: the first that applies.
#[derive(Drop)]
pub enum PartCallError {
    /// The class has no method of that name.
    NoMethod,
    /// The input is longer than the method's in_cap.
    InputTooLong,
    /// The client's number is 2^32 or more, the limits are no host's, or the bytes spell no part, or
    /// one that hasn't all names of which the limits have a number.
    Malformed,
    /// Memory was refused.
    NoMemory,
    /// One xattr, or one key, more would be set than a call can keep.
    Full,
    /// This isn't known of the object, and has to be.
    Needs(Need),
}

/// True if a host may give the limits.
fn may_limit(limits: Limits) -> bool
    ensures { IsTrue result ↔ MayLimit limits }
{
    limits.bytes < 1 << 63
        && 1 <= limits.xattrs.length
        && usize::from(limits.xattrs.length) <= NAME_LIMIT
        && 1 <= limits.keys.length
        && usize::from(limits.keys.length) <= NAME_LIMIT
}

/// True if all names are known, or the limits have no number of them.
fn has_counted_names(limits: NameLimits, names: &Names) -> bool
    ensures { IsTrue result ↔ IfSome limits.count (λ _. (names_view names.now).intervals ≡ Everything) }
{
    limits.count.is_none() || names.are_all_known()
}

/// True if a part has all names of which the limits have a number.
fn has_counted(limits: Limits, part: Option<&ObjectPart>) -> bool
    ensures { IsTrue result ↔ HasCounted limits (part_view (option_copied part.entry)) }
{
    match part {
        None => true,
        Some(part) => {
            has_counted_names(limits.xattrs, &part.xattrs)
                && has_counted_names(limits.keys, &part.keys)
        }
    }
}

/// What a call begins with, of the part that the bytes spell.
fn staged(alloc: Global, limits: Limits, bytes: &[u8]) -> Result<StagedPart, PartCallError>
    ensures found { IfOk result (IsStagedOf limits bytes.now) }
    ensures refused { IfErr result (RefusesBytes limits bytes.now) }
{
    let part = match read_part(alloc, bytes) {
        Ok(part) => part,
        Err(PartError::NoPart) => return Err(PartCallError::Malformed),
        Err(PartError::NoMemory) => return Err(PartCallError::NoMemory),
    };
    // For the proof: the bytes spell no other part.
    part_bytes::one_part();
    if !has_counted(limits, part.as_ref()) {
        return Err(PartCallError::Malformed);
    }
    match StagedPart::of(alloc, part.as_ref()) {
        Ok(known) => {
            // For the proof: there is an object that it may be.
            known.some_object();
            Ok(known)
        }
        Err(_) => Err(PartCallError::NoMemory),
    }
}

/// The refusal of a call for a stop of its run.
pub fn stop_refusal(stop: Stop) -> PartCallError
    ensures { result ≡ of_stop stop }
{
    match stop {
        Stop::NoMemory => PartCallError::NoMemory,
        Stop::Full => PartCallError::Full,
        Stop::Needs(need) => PartCallError::Needs(need),
    }
}

/// Checks what a call of a method of that in_cap is given, and reads its part.
pub fn begin_part(
    alloc: Global,
    in_cap: u16,
    request: PartCall,
) -> Result<StagedPart, PartCallError>
    ensures begun { IfOk result
        (BeginsPart in_cap request.entry.part.now request.entry.caller request.entry.limits request.entry.input.now) }
    ensures refused { IfErr result
        (RefusesToBeginPart in_cap request.entry.part.now request.entry.caller request.entry.limits
        request.entry.input.now) }
{
    if request.input.len() > usize::from(in_cap) {
        return Err(PartCallError::InputTooLong);
    }
    if request.caller >= 0x1_0000_0000 {
        return Err(PartCallError::Malformed);
    }
    if !may_limit(request.limits) {
        return Err(PartCallError::Malformed);
    }
    match staged(alloc, request.limits, request.part) {
        Ok(known) => Ok(known),
        Err(error) => Err(error),
    }
}

/// Calls a verified method on a part of an object, as `call_part` does. The name in the request isn't
/// looked at.
pub fn call_method_part(
    alloc: Global,
    room: &mut PartRoom,
    method: &VerifiedMethod,
    request: PartCall,
) -> Result<PartAnswer, PartCallError>
    ensures ok { (class : List ClassMethod) → method_named class request.entry.method.now ≡ Some method.now →
        IfOk result (IsAnsweredByPart class request.entry.method.now request.entry.part.now request.entry.caller
        request.entry.limits request.entry.input.now) }
    ensures refused { (class : List ClassMethod) → method_named class request.entry.method.now ≡ Some method.now →
        IfErr result (RefusesPart class request.entry.method.now request.entry.part.now request.entry.caller
        request.entry.limits request.entry.input.now) }
{
    let known = match begin_part(alloc, method.caps().in_cap, request) {
        Ok(known) => known,
        Err(error) => return Err(error),
    };
    // For the proof: the method is verified.
    method.ops();
    match room.call_method(
        method,
        request.limits,
        known,
        request.caller as u32,
        request.input,
    ) {
        Ok(answer) => Ok(answer),
        Err(stop) => Err(stop_refusal(stop)),
    }
}

/// Calls a method of a verified class on a part of an object, by a host's limits, in a room that
/// calls share one after the other. What it answers is the answer on every object that agrees with
/// the part. Where the call needs more of the object than the part says, it says what.
pub fn call_part(
    alloc: Global,
    room: &mut PartRoom,
    class: &VerifiedClass,
    request: PartCall,
) -> Result<PartAnswer, PartCallError>
    ensures ok { IfOk result
        (IsAnsweredByPart class.now request.entry.method.now request.entry.part.now request.entry.caller
        request.entry.limits request.entry.input.now) }
    ensures refused { IfErr result
        (RefusesPart class.now request.entry.method.now request.entry.part.now request.entry.caller
        request.entry.limits request.entry.input.now) }
{
    let Some(place) = place_of(class, request.method) else {
        return Err(PartCallError::NoMethod);
    };
    let found = &class.methods()[place];
    call_method_part(alloc, room, found, request)
}
