//! What is known of register 0 after a call of a helper.

ghost use Rattle.std.specs.Prelude.{◌≡◌, ◌+◌, ◌^◌, ◌<◌, ◌≤◌, length};
ghost use Rattle.abstract_num.specs.Plain.{view};
ghost use Rattle.abstract_regs.specs.Seen.{seen};
ghost use Rattle.helpers.specs.Table.{signature_of};
ghost use Rattle.helpers.specs.Ranges.{answer_range_of};
ghost use Rattle.verifier.specs.Answers.{answer_of, answers_to, greatest_of, longest, most_of, ranged_answer, text_in};

use crate::facets::{Callee, callee_of};
use crate::fault::room_in;
use crate::known::precision;
use abstract_num::{Number, Precision, any, highest, signed_between};
use abstract_regs::{Frame, Kind};
use bpf_decode::{Insn, RuleSet};
use helpers::{AnswerLimit, Argument, answer_range, signature};

/// The number that a call leaves in register 0, by the frame before it: in rule set 3 one in the
/// range of the helper's answer.
#[inline(always)]
pub fn answer(rules: RuleSet, frame: &Frame, insn: &Insn) -> Number
    ensures { view result ≡ answer_of rules frame.now insn.now }
{
    match rules {
        RuleSet::One | RuleSet::Two => any(),
        RuleSet::Three => match callee_of(insn) {
            Callee::Helper(helper) => ranged_answer(precision(rules), frame, helper),
            Callee::Nothing | Callee::Local => any(),
        },
    }
}

/// The number that a helper of a known range answers; else any.
fn ranged_answer(precision: Precision, frame: &Frame, helper: u32) -> Number
    ensures { view result ≡ ranged_answer precision frame.now (signature_of helper) (answer_range_of helper) }
{
    match signature(helper) {
        None => any(),
        Some(takes) => match answer_range(helper) {
            None => any(),
            Some(range) => answers_to(
                precision,
                range.errno,
                most_of(frame, takes.arguments, range.most),
            ),
        },
    }
}

/// The greatest answer within a limit, as the ranges are that a helper is given; none if their
/// length isn't known.
fn most_of(frame: &Frame, arguments: &[Argument], limit: AnswerLimit) -> Option<u64>
    requires { length arguments.now ≤ 5 }
    ensures { result ≡ most_of frame.now arguments.now limit }
{
    match limit {
        AnswerLimit::Number(number) => Some(number),
        AnswerLimit::Room => longest(frame, room_in(arguments, 1)),
        AnswerLimit::RoomOrNumber(number) => match longest(frame, room_in(arguments, 1)) {
            None => None,
            Some(most) => Some(most.min(number)),
        },
        AnswerLimit::Text => longest(frame, text_in(arguments, 1)),
    }
}

/// The first register of the first range that a helper reads.
fn text_in(arguments: &[Argument], register: u8) -> Option<u8>
    requires { register + length arguments.now + length arguments.now < 100 }
    ensures { result ≡ text_in arguments.now register }
{
    match arguments {
        [] => None,
        [Argument::Readable, ..] => Some(register),
        [Argument::Writable, ..] => text_in(&arguments[1..], register + 2),
        [Argument::Number | Argument::OutputLength, ..] => text_in(&arguments[1..], register + 1),
    }
}

/// The greatest length of a range that begins at that register, if it is known.
fn longest(frame: &Frame, register: Option<u8>) -> Option<u64>
    ensures { result ≡ longest frame.now register }
{
    match register {
        None => None,
        Some(register) => greatest_of(&frame.kind(usize::from(register) + 1)),
    }
}

/// The greatest number of a kind, if it is a number.
fn greatest_of(kind: &Kind) -> Option<u64>
    ensures { result ≡ greatest_of (seen kind.now) }
{
    match kind {
        Kind::Num(number) => Some(highest(number)),
        Kind::Unset | Kind::Ptr(_, _) => None,
    }
}

/// The numbers from an error's negative to the greatest answer; any number if that isn't known, or
/// is no signed number.
fn answers_to(precision: Precision, errno: u64, most: Option<u64>) -> Number
    requires { errno < 2 ^ 63 }
    ensures { view result ≡ answers_to precision errno most }
{
    match most {
        None => any(),
        Some(most) => {
            if most < 1 << 63 {
                signed_between(precision, -(errno as i64), most as i64)
            } else {
                any()
            }
        }
    }
}
