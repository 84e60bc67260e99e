//! A call.

ghost use Rattle.std.specs.Prelude.{◌≡◌};
ghost use Rattle.sillarnica.specs.Told.{HasRoom, refusal_number, TellsFound, TellsCall};

use crate::told::{
    INPUT_TOO_LONG, MALFORMED, NO_MEMORY, NO_METHOD, NO_ROOM, ToldAnswer, ToldRefusal, tell_answer,
    tell_class,
};
use class_calls::{Answer, ClassCall, MethodError, call_on, load};
use interp::Room;
use std::alloc::Global;

/// Writes the output and then the edits, if there is room for both. If there isn't, nothing is
/// written.
pub(crate) fn write_out(answer: &Answer, out: &mut [u8]) -> bool
    ensures { HasRoom answer.now out.old out.new result }
{
    let output: &[u8] = answer.output.as_slice();
    let edits: &[u8] = answer.edits.as_slice();
    // Both lengths are compared before any byte is written.
    if out.len() < output.len() {
        return false;
    }
    let (first, rest) = out.split_at_mut(output.len());
    if rest.len() < edits.len() {
        return false;
    }
    let (second, _) = rest.split_at_mut(edits.len());
    first.copy_from_slice(output);
    second.copy_from_slice(edits);
    true
}

/// The number of a refusal.
fn number(error: MethodError) -> i32
    ensures { result ≡ refusal_number error }
{
    match error {
        MethodError::NoMethod => NO_METHOD,
        MethodError::InputTooLong => INPUT_TOO_LONG,
        MethodError::Malformed => MALFORMED,
        MethodError::NoMemory => NO_MEMORY,
    }
}

/// Says what a call answered.
#[inline(always)]
pub(crate) fn tell(
    found: Result<Answer, MethodError>,
    answer: &mut ToldAnswer,
    out: &mut [u8],
) -> i32
    ensures { TellsFound found (record { answer = answer.old; out = out.old })
        (record { answer = answer.new; out = out.new }) result }
{
    match found {
        Ok(found) => {
            tell_answer(answer, &found);
            if write_out(&found, out) { 0 } else { NO_ROOM }
        }
        Err(error) => number(error),
    }
}

/// Calls a method of the image's class on an object in its flat form: 0, and the buffer begins with
/// the output and then the edits; 1 or 2 with the reason; -95 no such method; -7 the input is too
/// long; -22 the bytes are no object's flat form, or `caller` is 2^32 or more; -12; or -34, if the
/// buffer is too small for what `answer` says. Of several refusals it is the first in this order.
#[unsafe(no_mangle)]
pub extern "C" fn sillarnica_call(
    alloc: Global,
    image: &[u8],
    method: &[u8],
    object: &[u8],
    caller: u64,
    input: &[u8],
    refusal: &mut ToldRefusal,
    answer: &mut ToldAnswer,
    out: &mut [u8],
) -> i32
    ensures { TellsCall image.now method.now object.now caller input.now refusal.old refusal.new
        (record { answer = answer.old; out = out.old }) (record { answer = answer.new; out = out.new }) result }
{
    let request = ClassCall {
        method,
        object,
        caller,
        input,
    };
    match load(alloc, image) {
        Ok(class) => tell(
            call_on(alloc, &mut Room::new(alloc), &class, request),
            answer,
            out,
        ),
        Err(error) => tell_class(image, refusal, error),
    }
}
