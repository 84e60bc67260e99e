//! Calls of a class's methods on an object by an OSD's limits.

ghost use Rattle.std.specs.Prelude.{◌≡◌, IfErr, IfOk, IsTrue, Some};
ghost use Rattle.std.specs.Option.{option_copied};
ghost use Rattle.object_store.specs.Limits.{IsAnyObject};
ghost use Rattle.object_store.specs.Object.{PlainObject};
ghost use Rattle.parts.specs.Agreed.{AgreesPart};
ghost use Rattle.part_bytes.specs.Part.{PlainPart, Spells};
ghost use Rattle.large_objects.specs.Calls.{AnswersLarge, AnswersPartly, RefusesLarge};
ghost use Rattle.large_objects.specs.Calls.{large_error_name, large_error_number, refusal_of_part};

use crate::agreed::is_part_of;
use crate::edits::make_all;
use crate::fetched::Fetched;
use crate::large_object::LargeObject;
use crate::limits::large_limits;
use bpf_machine::{blind_steps, decoded, layouts};
use class_calls::{PartCall, PartCallError, call_part};
use part_calls::{PartAnswer, PartRoom};
use std::alloc::{AllocError, Global};
use std::error::Error;
use std::fmt;
use verifier::VerifiedClass;

/// The most parts that are handed in for one call.
const ROUNDS: usize = 4_096;

/// What is asked of a class: a method, for a client.
#[derive(Clone, Copy)]
pub struct LargeCall<'a> {
    /// The method's name; any bytes.
    pub method: &'a [u8],
    /// The client's number.
    pub caller: u32,
    /// The input, at most the method's in_cap of bytes.
    pub input: &'a [u8],
}

/// The answer of a call, and the object after it.
#[derive(Drop)]
pub struct LargeAnswer {
    /// Code, output and steps, and the edits that made the object.
    pub answer: PartAnswer,
    /// The object afterwards; none if it is absent.
    pub after: Option<LargeObject>,
}

/// Why a call gives no answer.
#[derive(Clone, Copy, Debug, PartialEq, Eq)]
pub enum LargeCallError {
    /// The class has no method of that name.
    NoMethod,
    /// The input is longer than the method's in_cap.
    InputTooLong,
    /// Memory was refused.
    NoMemory,
    /// The call looks at more blocks, xattrs or keys than a part can have, or asks for too many parts.
    Full,
}

impl LargeCallError {
    /// The table of refusals: number and name.
    #[rattlefmt::skip]
    fn row(self) -> (u8, &'static str)
        ensures number { result.0 ≡ large_error_number self }
        ensures name { result.1.now ≡ large_error_name self }
    {
        match self {
            LargeCallError::NoMethod     => (1, "NoMethod"),
            LargeCallError::InputTooLong => (2, "InputTooLong"),
            LargeCallError::NoMemory     => (3, "NoMemory"),
            LargeCallError::Full         => (4, "Full"),
        }
    }
}

impl fmt::Display for LargeCallError {
    ghost use Rattle.std.specs.Prelude.{Some};
    ghost use Rattle.large_objects.specs.Calls.{large_error_text};

    ghost output = { λ e. Some (large_error_text e) };

    /// Number and name, as `4 Full`.
    fn fmt<W: fmt::Write>(&self, f: &mut fmt::Formatter<W>) -> fmt::Result {
        let (number, name) = self.row();
        write!(f, "{number} {name}")
    }
}

impl Error for LargeCallError {}

impl From<AllocError> for LargeCallError {
    ghost use Rattle.large_objects.specs.declared.call.LargeCallError.TheVariants.{NoMemory};

    ghost from_gives = { λ _ e. e ≡ NoMemory };

    fn from(_error: AllocError) -> LargeCallError {
        LargeCallError::NoMemory
    }
}

/// What a refusal on a part is here.
fn refusal_of(error: &PartCallError) -> LargeCallError
    ensures { result ≡ refusal_of_part error.now }
{
    match error {
        PartCallError::NoMethod => LargeCallError::NoMethod,
        PartCallError::InputTooLong => LargeCallError::InputTooLong,
        PartCallError::NoMemory => LargeCallError::NoMemory,
        PartCallError::Malformed | PartCallError::Full | PartCallError::Needs(_) => {
            LargeCallError::Full
        }
    }
}

/// A call on a part with which the object agrees.
fn call_on(
    alloc: Global,
    room: &mut PartRoom,
    class: &VerifiedClass,
    asked: LargeCall,
    part: &[u8],
) -> Result<PartAnswer, PartCallError>
    ensures answered { IfOk result (λ a. (o : PlainObject) → IsAnyObject o →
        ((p : PlainPart) → Spells part.now p → AgreesPart p o) →
        AnswersPartly class.now asked.entry.method.now o asked.entry.caller asked.entry.input.now a) }
    ensures refused { IfErr result
        (λ e. RefusesLarge class.now asked.entry.method.now asked.entry.input.now (refusal_of_part e)) }
{
    let request = PartCall {
        method: asked.method,
        part,
        caller: u64::from(asked.caller),
        limits: large_limits(),
        input: asked.input,
    };
    call_part(alloc, room, class, request)
}

/// Calls on an object that is there, by parts, of which each has what the one before lacked.
fn answered(
    alloc: Global,
    class: &VerifiedClass,
    asked: LargeCall,
    object: &LargeObject,
) -> Result<PartAnswer, LargeCallError>
    ensures answered { IfOk result
        (AnswersPartly class.now asked.entry.method.now (Some object.now) asked.entry.caller asked.entry.input.now) }
    ensures refused { IfErr result (RefusesLarge class.now asked.entry.method.now asked.entry.input.now) }
{
    let mut room = PartRoom::new(alloc);
    let mut fetched = Fetched::of(alloc, object)?;
    object.within();
    for _ in 0..ROUNDS {
        let part = fetched.part(alloc, object)?;
        if !is_part_of(alloc, &part, object)? {
            return Err(LargeCallError::Full);
        }
        match call_on(alloc, &mut room, class, asked, &part) {
            Ok(answer) => return Ok(answer),
            Err(error) => {
                let is_new = match &error {
                    PartCallError::Needs(need) => fetched.learn(object, need),
                    _ => false,
                };
                if !is_new {
                    return Err(refusal_of(&error));
                }
            }
        }
    }
    Err(LargeCallError::Full)
}

/// Calls on an object that is absent.
fn answered_absent(
    alloc: Global,
    class: &VerifiedClass,
    asked: LargeCall,
) -> Result<PartAnswer, LargeCallError>
    ensures answered { IfOk result
        (AnswersPartly class.now asked.entry.method.now None asked.entry.caller asked.entry.input.now) }
    ensures refused { IfErr result (RefusesLarge class.now asked.entry.method.now asked.entry.input.now) }
{
    let mut room = PartRoom::new(alloc);
    match call_on(alloc, &mut room, class, asked, &[0]) {
        Ok(answer) => Ok(answer),
        Err(error) => Err(refusal_of(&error)),
    }
}

/// Calls a method of a verified class on an object by an OSD's limits: on parts of it, of which the
/// first has all data if that is at most 1,024 blocks of 4,096 bytes, all xattrs if they are at most
/// 32, and all keys if they are at most 1,024; each next one has what the call needs besides. The data
/// isn't copied but for the parts; the edits are made of the object.
///
/// Refused: 1 NoMethod; 2 InputTooLong; 3 NoMemory; 4 Full, if the call sees or sets more than 32
/// xattrs or 1,024 keys of an object that has more, more than 1,024 blocks, or needs 4,096 parts.
pub fn call_large(
    alloc: Global,
    class: &VerifiedClass,
    asked: LargeCall,
    object: Option<LargeObject>,
) -> Result<LargeAnswer, LargeCallError>
    ensures answered { IfOk result
        (AnswersLarge class.now asked.entry.method.now object asked.entry.caller asked.entry.input.now) }
    ensures refused { IfErr result (RefusesLarge class.now asked.entry.method.now asked.entry.input.now) }
{
    // For the proof: the edits of a run by these limits are such as an object can hold. There is a
    // layout, a step on the bytes is the instruction's, and no instruction but a call looks at the list.
    layouts();
    decoded();
    blind_steps();
    let answer = match &object {
        Some(object) => answered(alloc, class, asked, object)?,
        None => answered_absent(alloc, class, asked)?,
    };
    match make_all(alloc, object, &answer.edits) {
        Ok(after) => Ok(LargeAnswer { answer, after }),
        Err(_) => Err(LargeCallError::NoMemory),
    }
}
