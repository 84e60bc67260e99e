//! What C gives and is told of a call on a part of an object, and the numbers of its refusals.

ghost use Rattle.std.specs.Prelude.{◌≡◌};
ghost use Rattle.part_bytes.specs.Need.{need_bytes};
ghost use Rattle.sillarnica.specs.Parts.{TellsNeed, TellsPartFound, TellsRefusalOrMemory, answer_of, count_of};
ghost use Rattle.sillarnica.specs.Parts.{limits_of, names_limits_of};

use crate::call::write_out;
use crate::told::{
    INPUT_TOO_LONG, MALFORMED, NO_MEMORY, NO_METHOD, NO_ROOM, ToldAnswer, tell_answer,
};
use class_calls::{Answer, PartCallError};
use object_store::{Limits, NameLimits};
use part_bytes::{NEED_LIMIT, Need, need_form, need_is_short};
use part_calls::PartAnswer;
use std::alloc::Global;

/// The limits of a host: the most bytes of data, the most xattrs and keys (2^32 - 1: any number),
/// and the most bytes of their names.
#[repr(C)]
#[derive(Drop)]
pub struct GivenLimits {
    pub bytes: u64,
    pub xattrs: u32,
    pub keys: u32,
    pub xattr_name: u32,
    pub key_name: u32,
}

/// What a call needs of the object: the length of its spelling, and the spelling.
#[repr(C)]
#[derive(Drop)]
pub struct ToldWant {
    pub length: u32,
    pub bytes: [u8; NEED_LIMIT],
}

/// The call needs more of the object than the part says.
const WANTS: i32 = -11;

/// One name more would be set than a call can keep.
const FULL: i32 = -28;

/// A number of names, if it is a limit.
fn count_of(count: u32) -> Option<u32>
    ensures { result ≡ count_of count }
{
    if count == u32::MAX { None } else { Some(count) }
}

fn names_limits_of(count: u32, length: u32) -> NameLimits
    ensures { result ≡ names_limits_of count length }
{
    NameLimits {
        count: count_of(count),
        // No host may give 255, or more.
        length: length.min(255) as u8,
    }
}

/// The limits that C gives.
pub(crate) fn limits_of(given: &GivenLimits) -> Limits
    ensures { result ≡ limits_of given.now }
{
    Limits {
        bytes: given.bytes,
        xattrs: names_limits_of(given.xattrs, given.xattr_name),
        keys: names_limits_of(given.keys, given.key_name),
    }
}

fn answer_of(answer: PartAnswer) -> Answer
    ensures { result ≡ answer_of answer }
{
    let PartAnswer {
        code,
        output,
        steps,
        edits,
    } = answer;
    Answer {
        code,
        steps,
        output,
        edits,
    }
}

/// Says what is needed.
fn tell_need(want: &mut ToldWant, need: &Need, form: &[u8])
    requires { form.now ≡ need_bytes need.now }
    ensures { TellsNeed need.now want.old want.new }
{
    // For the proof: it fits.
    need_is_short(need);
    want.length = form.len() as u32;
    want.bytes[..form.len()].copy_from_slice(form);
}

/// Says why there is no answer.
fn tell_refusal(alloc: Global, error: PartCallError, want: &mut ToldWant) -> i32
    ensures { TellsRefusalOrMemory error want.old want.new result }
{
    match error {
        PartCallError::NoMethod => NO_METHOD,
        PartCallError::InputTooLong => INPUT_TOO_LONG,
        PartCallError::Malformed => MALFORMED,
        PartCallError::NoMemory => NO_MEMORY,
        PartCallError::Full => FULL,
        PartCallError::Needs(need) => {
            let Ok(form) = need_form(alloc, &need) else {
                return NO_MEMORY;
            };
            tell_need(want, &need, form.as_slice());
            WANTS
        }
    }
}

/// Says what a call on a part answered.
pub(crate) fn tell_part(
    alloc: Global,
    found: Result<PartAnswer, PartCallError>,
    answer: &mut ToldAnswer,
    want: &mut ToldWant,
    out: &mut [u8],
) -> i32
    ensures { TellsPartFound found (record { answer = answer.old; want = want.old; out = out.old })
        (record { answer = answer.new; want = want.new; out = out.new }) result }
{
    match found {
        Ok(found) => {
            let found = answer_of(found);
            tell_answer(answer, &found);
            if write_out(&found, out) { 0 } else { NO_ROOM }
        }
        Err(error) => tell_refusal(alloc, error, want),
    }
}
