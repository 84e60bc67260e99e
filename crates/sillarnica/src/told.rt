//! The structs that tell C of refusals and answers, and the numbers of refusals.

ghost use Rattle.std.specs.Prelude.{◌≡◌, Err, Some};
ghost use Rattle.verifier.specs.RuleNumber.{rule_number};
ghost use Rattle.bpf_decode.specs.ImageReading.{image_of};
ghost use Rattle.class_calls.specs.Answers.{RefusesClass, RefusesImage};
ghost use Rattle.class_loops.specs.Opened.{IsTooLarge, RefusesByLoops, RefusesClassByLoops, RefusesImageByLoops};
ghost use Rattle.sillarnica.specs.Told.{slot_number, TellsAnswer, TellsImage, TellsVerdict, TellsClass};
ghost use Rattle.sillarnica.specs.Told.{TellsLoopsClass, TellsLoopsRefusal, TellsLoopsVerdict, TellsTooLarge};

use bpf_decode::ImageError;
use class_calls::{Answer, ClassError};
use class_loops::{LoopClassError, OverBudget};
use verifier::Refusal;

/// Why a class is refused. Kind 1: the image, after `method` methods, by the refusal `number`;
/// `slot` is -1 if it names none. Kind 2: the verdict, by the rule `number` at that method and
/// slot. Kind 3: the budget `number` of that method, which is greater than the host's; `slot` is -1.
#[repr(C)]
#[derive(Drop)]
pub struct ToldRefusal {
    pub kind: u32,
    pub number: u32,
    pub method: u64,
    pub slot: i64,
}

/// The answer of a call: the method's code, the instructions executed, and the lengths of output
/// and edits in bytes.
#[repr(C)]
#[derive(Drop)]
pub struct ToldAnswer {
    pub code: i64,
    pub steps: u64,
    pub output_len: u64,
    pub edits_len: u64,
}

/// A method: what it declares, the parts of an object that it needs (1 data, 2 xattrs, 4 keys,
/// added), and how many bytes its name has.
#[repr(C)]
#[derive(Drop)]
pub struct ToldMethod {
    pub flags: u32,
    pub in_cap: u32,
    pub out_cap: u32,
    pub needs: u32,
    pub name_len: u64,
}

/// The image is refused.
pub(crate) const IMAGE: i32 = 1;

/// A rule refuses the class.
pub(crate) const VERDICT: i32 = 2;

/// Memory was refused.
pub(crate) const NO_MEMORY: i32 = -12;

/// The class has no method of that name.
pub(crate) const NO_METHOD: i32 = -95;

/// The input is longer than the method takes.
pub(crate) const INPUT_TOO_LONG: i32 = -7;

/// The bytes spell no object, or the client has no number of 32 bits.
pub(crate) const MALFORMED: i32 = -22;

/// A method declares a greater budget than the host's.
const TOO_LARGE: i32 = -27;

/// The buffer is too small.
pub(crate) const NO_ROOM: i32 = -34;

/// The handle is closed.
pub(crate) const CLOSED: i32 = -9;

/// A slot as C sees it, -1 if there is none. Every slot fits: a method has far fewer.
fn slot_number(slot: Option<usize>) -> i64
    ensures { result ≡ slot_number slot }
{
    match slot {
        Some(slot) => {
            if slot < 9_223_372_036_854_775_808 {
                slot as i64
            } else {
                -1
            }
        }
        None => -1,
    }
}

/// Says that the image is refused.
fn tell_image(image: &[u8], why: &mut ToldRefusal, error: ImageError)
    requires { image_of image.now ≡ Err error }
    ensures { TellsImage image.now why.new }
{
    why.kind = 1;
    why.number = u32::from(error.error.number());
    why.method = error.methods as u64;
    why.slot = slot_number(error.error.slot());
}

/// Says which rule refuses a class, and where.
fn tell_rule(why: &mut ToldRefusal, refusal: Refusal)
    ensures kind { why.new.kind ≡ 2 }
    ensures number { why.new.number ≡ rule_number refusal.rule }
    ensures method { why.new.method ≡ refusal.method }
    ensures slot { why.new.slot ≡ slot_number (Some refusal.slot) }
{
    why.kind = 2;
    why.number = u32::from(refusal.rule.number());
    why.method = refusal.method as u64;
    why.slot = slot_number(Some(refusal.slot));
}

/// Says that a rule refuses the class.
fn tell_verdict(image: &[u8], why: &mut ToldRefusal, refusal: Refusal)
    requires { RefusesClass image.now refusal }
    ensures { TellsVerdict image.now why.new }
{
    tell_rule(why, refusal);
}

/// Says why an image gives no class: 1, 2 or -12.
pub(crate) fn tell_class(image: &[u8], why: &mut ToldRefusal, error: ClassError) -> i32
    requires { RefusesImage image.now error }
    ensures { TellsClass image.now why.old why.new result }
{
    match error {
        ClassError::Image(error) => {
            tell_image(image, why, error);
            IMAGE
        }
        ClassError::Verdict(refusal) => {
            tell_verdict(image, why, refusal);
            VERDICT
        }
        ClassError::NoMemory => NO_MEMORY,
    }
}

/// Says that a rule refuses the class by the verdict on loops.
fn tell_loops_verdict(image: &[u8], why: &mut ToldRefusal, refusal: Refusal)
    requires { RefusesClassByLoops image.now refusal }
    ensures { TellsLoopsVerdict image.now why.new }
{
    tell_rule(why, refusal);
}

/// Says that a method declares a greater budget than the host's.
fn tell_too_large(image: &[u8], most: u32, why: &mut ToldRefusal, over: OverBudget)
    requires { IsTooLarge image.now most over }
    ensures { TellsTooLarge image.now most why.new }
{
    why.kind = 3;
    why.number = over.budget;
    why.method = over.method as u64;
    why.slot = -1;
}

/// Says why the verdict on loops gives no class: 1, 2 or -12.
fn tell_loops_class(image: &[u8], why: &mut ToldRefusal, error: ClassError) -> i32
    requires { RefusesByLoops image.now error }
    ensures { TellsLoopsClass image.now why.old why.new result }
{
    match error {
        ClassError::Image(error) => {
            tell_image(image, why, error);
            IMAGE
        }
        ClassError::Verdict(refusal) => {
            tell_loops_verdict(image, why, refusal);
            VERDICT
        }
        ClassError::NoMemory => NO_MEMORY,
    }
}

/// Says why an image gives no class by the verdict on loops, for so great a budget: 1, 2, -27 or -12.
pub(crate) fn tell_loops_refusal(
    image: &[u8],
    most: u32,
    why: &mut ToldRefusal,
    error: LoopClassError,
) -> i32
    requires { RefusesImageByLoops image.now most error }
    ensures { TellsLoopsRefusal image.now most why.old why.new result }
{
    match error {
        LoopClassError::Class(error) => tell_loops_class(image, why, error),
        LoopClassError::TooLarge(over) => {
            tell_too_large(image, most, why, over);
            TOO_LARGE
        }
    }
}

/// Says what a call answers.
pub(crate) fn tell_answer(told: &mut ToldAnswer, answer: &Answer)
    ensures { TellsAnswer answer.now told.new }
{
    told.code = answer.code;
    told.steps = answer.steps as u64;
    told.output_len = answer.output.len() as u64;
    told.edits_len = answer.edits.len() as u64;
}
