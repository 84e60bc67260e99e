//! A verified class that C holds, so that it is verified once and called many times.

ghost use Rattle.std.specs.Prelude.{◌≡◌, ℕ, Some, None};
ghost use Rattle.sillarnica.specs.Told.{TellsOpen, TellsCopy, TellsHeldCall, TellsHeldMethod, TellsHeldNeeds};
ghost use Rattle.sillarnica.specs.Told.{TellsLoopsOpen};
ghost use Rattle.sillarnica.specs.Held.{IsHeld, open_number};
ghost use Rattle.sillarnica.specs.Parts.{TellsHeldPartCall, limits_of};

use crate::call::tell;
use crate::method::{needs_of, tell_method};
use crate::pointer::ClassPointer;
use crate::told::{
    CLOSED, MALFORMED, NO_MEMORY, NO_METHOD, ToldAnswer, ToldMethod, ToldRefusal, tell_class,
    tell_loops_refusal,
};
use crate::told_part::{GivenLimits, ToldWant, limits_of, tell_part};
use class_calls::{ClassCall, ClassHandle, PartCall};
use class_loops::{HeldClass, LoopHandle};
use loop_heads::BUDGET_LIMIT;
use std::alloc::Global;
use std::mem::replace;

/// The handle that C keeps between calls: `is_open` is 1 and the pointer is a class's, or both are
/// 0. Dropping one frees nothing: `close` does.
#[repr(C)]
#[derive(Drop)]
pub struct Verified {
    pub(crate) pointer: ClassPointer,
    is_open: u32,
    ghost says_open: { is_open ≡ open_number pointer.class },
}

fn closed(alloc: Global) -> Verified
    ensures { result.pointer.class ≡ None }
{
    Verified {
        pointer: ClassPointer::null(alloc),
        is_open: 0,
    }
}

fn opened(class: Box<HeldClass, Global>) -> Verified
    ensures { result.pointer.class ≡ Some class.value }
{
    Verified {
        pointer: ClassPointer::of(class),
        is_open: 1,
    }
}

/// Takes the class out of an open one, and leaves it closed.
fn take(alloc: Global, verified: &mut Verified) -> Box<HeldClass, Global>
    requires { IsHeld verified.old.pointer.class }
    ensures class { verified.old.pointer.class ≡ Some result.value }
    ensures closed { verified.new.pointer.class ≡ None }
{
    let Verified {
        pointer,
        is_open: _,
    } = replace(verified, closed(alloc));
    pointer.into_box()
}

/// Verifies the image's class and holds it in the handle until it is closed: 0; 1 or 2 with the
/// reason; or -12. But for 0 the handle is closed then. What it held before isn't looked at.
#[unsafe(no_mangle)]
pub extern "C" fn sillarnica_verified_open(
    alloc: Global,
    image: &[u8],
    refusal: &mut ToldRefusal,
    verified: &mut Verified,
) -> i32
    ensures { TellsOpen image.now refusal.old refusal.new verified.new.pointer.class result }
{
    *verified = closed(alloc);
    match ClassHandle::open(alloc, image) {
        Ok(class) => {
            let Ok(boxed) = Box::new(alloc, HeldClass::Plain(class)) else {
                return NO_MEMORY;
            };
            *verified = opened(boxed);
            0
        }
        Err(error) => tell_class(image, refusal, error),
    }
}

/// Judges the image's class by the verdict on loops, for a host whose greatest budget is `budget`,
/// and holds it in the handle until it is closed: 0; -22 if the budget isn't 1 to 1,048,576; 1 or 2
/// with the reason; -27 with the first method that declares a greater budget; or -12. But for 0 the
/// handle is closed then. What it held before isn't looked at.
#[unsafe(no_mangle)]
pub extern "C" fn sillarnica_loops_open(
    alloc: Global,
    image: &[u8],
    budget: u32,
    refusal: &mut ToldRefusal,
    verified: &mut Verified,
) -> i32
    ensures { TellsLoopsOpen image.now budget refusal.old refusal.new verified.new.pointer.class result }
{
    *verified = closed(alloc);
    if budget < 1 || budget > BUDGET_LIMIT {
        return MALFORMED;
    }
    match LoopHandle::open(alloc, image, budget) {
        Ok(class) => {
            let Ok(boxed) = Box::new(alloc, HeldClass::Looped(class)) else {
                return NO_MEMORY;
            };
            *verified = opened(boxed);
            0
        }
        Err(error) => tell_loops_refusal(image, budget, refusal, error),
    }
}

/// Makes another handle of the class that a handle holds, which both share: for another thread, say.
/// 0; -9 if the handle is closed; or -12. But for 0 the other is closed then. What it held before
/// isn't looked at.
#[unsafe(no_mangle)]
pub extern "C" fn sillarnica_verified_copy(
    alloc: Global,
    verified: &mut Verified,
    other: &mut Verified,
) -> i32
    ensures told { TellsCopy verified.old.pointer.class other.new.pointer.class result }
    ensures held { verified.new.pointer.class ≡ verified.old.pointer.class }
{
    *other = closed(alloc);
    if verified.is_open != 1 {
        return CLOSED;
    }
    let class = take(alloc, verified);
    let shared = class.share(alloc);
    *verified = opened(class);
    let Ok(shared) = shared else {
        return NO_MEMORY;
    };
    let Ok(boxed) = Box::new(alloc, shared) else {
        return NO_MEMORY;
    };
    *other = opened(boxed);
    0
}

/// Calls a method of the class that the handle holds, which it holds afterwards too: what
/// `sillarnica_call` answers for an image of that class, but for 1 and 2; or -9, if it is closed.
#[unsafe(no_mangle)]
pub extern "C" fn sillarnica_verified_call(
    alloc: Global,
    verified: &mut Verified,
    method: &[u8],
    object: &[u8],
    caller: u64,
    input: &[u8],
    answer: &mut ToldAnswer,
    out: &mut [u8],
) -> i32
    ensures told { TellsHeldCall verified.old.pointer.class method.now object.now caller input.now
        (record { answer = answer.old; out = out.old }) (record { answer = answer.new; out = out.new }) result }
    ensures held { verified.new.pointer.class ≡ verified.old.pointer.class }
{
    if verified.is_open != 1 {
        return CLOSED;
    }
    let mut class = take(alloc, verified);
    let request = ClassCall {
        method,
        object,
        caller,
        input,
    };
    let found = class.call(alloc, request);
    *verified = opened(class);
    tell(found, answer, out)
}

/// Calls a method of the class that the handle holds on a part of an object, by a host's limits: 0,
/// and the buffer begins with the output and then the edits, which are those on every object that
/// agrees with the part; -9 the handle is closed; -95 no such method; -7 the input is too long; -22
/// `caller` is 2^32 or more, no host may give the limits, or the bytes spell no part that has the
/// names which they have a number of; -11 `want` says what else is to be known of the object, or -28
/// one name more would be set than a call can keep; -34 the buffer is too small for what `answer`
/// says. Of several refusals it is the first in this order; -12 may come in place of any but -9.
#[unsafe(no_mangle)]
pub extern "C" fn sillarnica_verified_call_part(
    alloc: Global,
    verified: &mut Verified,
    method: &[u8],
    part: &[u8],
    caller: u64,
    limits: &GivenLimits,
    input: &[u8],
    answer: &mut ToldAnswer,
    want: &mut ToldWant,
    out: &mut [u8],
) -> i32
    ensures told { TellsHeldPartCall verified.old.pointer.class method.now part.now caller (limits_of limits.now)
        input.now (record { answer = answer.old; want = want.old; out = out.old })
        (record { answer = answer.new; want = want.new; out = out.new }) result }
    ensures held { verified.new.pointer.class ≡ verified.old.pointer.class }
{
    if verified.is_open != 1 {
        return CLOSED;
    }
    let mut class = take(alloc, verified);
    let request = PartCall {
        method,
        part,
        caller,
        limits: limits_of(limits),
        input,
    };
    let found = class.call_part(alloc, request);
    *verified = opened(class);
    tell_part(alloc, found, answer, want, out)
}

/// Tells the method of a number of the class that the handle holds, as `sillarnica_method_at` does:
/// 0; -95 past the last; or -9, if it is closed.
#[unsafe(no_mangle)]
pub extern "C" fn sillarnica_verified_method_at(
    alloc: Global,
    verified: &mut Verified,
    n: usize,
    told: &mut ToldMethod,
    name: &mut [u8],
) -> i32
    ensures told { TellsHeldMethod verified.old.pointer.class n (record { method = told.old; name = name.old })
        (record { method = told.new; name = name.new }) result }
    ensures held { verified.new.pointer.class ≡ verified.old.pointer.class }
{
    if verified.is_open != 1 {
        return CLOSED;
    }
    let class = take(alloc, verified);
    let result = match class.method_at(n) {
        Some((found, declared)) => {
            tell_method(found, declared, told, name);
            0
        }
        None => NO_METHOD,
    };
    *verified = opened(class);
    result
}

/// Returns the parts of an object that a method of the class needs, as `sillarnica_needs` does; -95:
/// there is no such method; or -9, if the handle is closed.
#[unsafe(no_mangle)]
pub extern "C" fn sillarnica_verified_needs(
    alloc: Global,
    verified: &mut Verified,
    method: &[u8],
) -> i32
    ensures told { TellsHeldNeeds verified.old.pointer.class method.now result }
    ensures held { verified.new.pointer.class ≡ verified.old.pointer.class }
{
    if verified.is_open != 1 {
        return CLOSED;
    }
    let class = take(alloc, verified);
    let result = needs_of(&class, method);
    *verified = opened(class);
    result
}

/// Frees the class that the handle holds. It is closed then, and closing it again does nothing.
#[unsafe(no_mangle)]
pub extern "C" fn sillarnica_verified_close(alloc: Global, verified: &mut Verified)
    ensures { verified.new.pointer.class ≡ None }
{
    if verified.is_open == 1 {
        drop(take(alloc, verified));
    }
}
