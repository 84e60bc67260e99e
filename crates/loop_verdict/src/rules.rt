//! The rules of one instruction of a method with heads, but for what goes back to a head.

ghost use Rattle.std.specs.Prelude.{◌≡◌, ◌<◌, ◌^◌, is_some};
ghost use Rattle.verifier.specs.inner.Kept.{unbox};
ghost use Rattle.loop_heads.specs.Loops.{head_at};
ghost use Rattle.loop_frames.specs.Pairs.{pair_of};
ghost use Rattle.loop_tables.specs.Rules.{misses_head, shape_below, frame_below, rule_below};

use crate::code::LoopCode;
use crate::heads::places_at;
use abstract_regs::Frame;
use bpf_decode::{Insn, RuleSet, jump_target};
use bpf_machine::Caps;
use loop_frames::pair_of;
use loop_heads::Head;
use verifier::{
    Goes, Rule, falls_off, frame_rule, goes_of, is_backward, is_local_call, misses, writes_r10,
};

/// The lowest rule that refuses the instruction at a slot; rules 5 to 15 and 17 under a frame alone.
pub fn refusing_rule(
    method: &LoopCode,
    slot: usize,
    insn: &Insn,
    frame: &Option<Box<Frame>>,
) -> Option<Rule>
    requires { slot < 2 ^ 62 }
    ensures { result ≡ rule_below method.now.caps.now method.now.heads.now method.now.code.now slot insn.now
        (unbox frame.now) }
{
    match shape_rule(method, slot, insn) {
        Some(rule) => Some(rule),
        None => match frame {
            None => None,
            Some(frame) => rule_of_frame(method.caps, frame, insn),
        },
    }
}

/// The lowest of rules 1 to 4 that refuses the instruction at a slot.
fn shape_rule(method: &LoopCode, slot: usize, insn: &Insn) -> Option<Rule>
    requires { slot < 2 ^ 62 }
    ensures { result ≡ shape_below method.now.heads.now method.now.code.now slot insn.now }
{
    if misses_head(method.heads, slot, insn) {
        Some(Rule::Backward)
    } else if misses(method.code, slot, insn) {
        Some(Rule::Target)
    } else if falls_off(method.code, slot, insn) {
        Some(Rule::FallsOff)
    } else if is_local_call(insn) {
        Some(Rule::LocalCall)
    } else {
        None
    }
}

/// True if it jumps back to a slot that is no head.
fn misses_head(heads: &[Head], slot: usize, insn: &Insn) -> bool
    requires { slot < 2 ^ 62 }
    ensures { result ≡ misses_head heads.now slot insn.now }
{
    is_backward(insn)
        && match goes_of(insn) {
            Goes::To(distance) => !is_head(heads, jump_target(slot, i64::from(distance))),
            Goes::Either(distance) => !is_head(heads, jump_target(slot, i64::from(distance))),
            Goes::On | Goes::Out => false,
        }
}

/// True if a slot is a head.
#[inline(always)]
fn is_head(heads: &[Head], slot: usize) -> bool
    ensures { result ≡ is_some (head_at heads.now slot) }
{
    places_at(heads, slot).is_some()
}

/// The lowest of rules 5 to 15 and 17 that refuses the instruction under a frame. Two pointers that may
/// be compared or subtracted are set, so that of one with such a pair only rule 6 is left.
fn rule_of_frame(caps: &Caps, frame: &Frame, insn: &Insn) -> Option<Rule>
    ensures { result ≡ frame_below caps.now frame.now insn.now (pair_of caps.now frame.now insn.now) }
{
    match pair_of(caps, frame, insn) {
        None => frame_rule(RuleSet::Three, caps, frame, insn),
        Some(_) => {
            if writes_r10(insn) {
                Some(Rule::WritesR10)
            } else {
                None
            }
        }
    }
}
