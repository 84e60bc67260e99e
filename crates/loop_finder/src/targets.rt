//! The targets of jumps that go back.

ghost use Rattle.std.specs.Prelude.{◌≡◌, ◌⊎◌, ℕ, ◌<◌, ◌≤◌, ◌^◌, [], length};
ghost use Rattle.std.specs.Prelude.{IfOk, IfSome, MatchOption, Some, true, false, All, Contains, ◌==◌};
ghost use Rattle.bpf_decode.specs.declared.insn.Insn.{Insn};
ghost use Rattle.bpf_machine.specs.Typed.{fetch};
ghost use Rattle.loop_finder.specs.Found.{jumps_back_to, IsBackTarget, HasNoBackJump};

use crate::find_error::FindError;
use bpf_decode::{Insn, jump_target};
use loop_heads::HEAD_LIMIT;
use std::alloc::Global;
use verifier::{Goes, goes_of, is_backward};

/// A jump that goes back: its slot, and its target's.
#[derive(Clone, Copy)]
struct BackJump {
    slot: usize,
    target: usize,
}

/// The slots to which jumps go back, each once, rising. Refused are more than `HEAD_LIMIT`, and a jump to
/// before the first slot.
pub fn back_targets(alloc: Global, code: &[Option<Insn>]) -> Result<Vec<u16>, FindError>
    requires { length code.now < 2 ^ 32 }
    ensures targets { IfOk result (λ targets. All (IsBackTarget code.now) targets.items) }
    ensures each { IfOk result (λ targets. (q : ℕ) → IsBackTarget code.now q → Contains targets.items q) }
    ensures none { IfOk result (λ targets. targets.items ≡ [] → HasNoBackJump code.now) }
{
    let mut targets = Vec::new(alloc);
    let mut least: usize = 0;
    // One round more than there may be heads finds that none is left.
    for _ in 0..=HEAD_LIMIT {
        let Some(jump) = least_target(code, least) else {
            return Ok(targets);
        };
        let Ok(target) = u16::try_from(jump.target) else {
            return Err(FindError::NoHead {
                slot: jump.slot,
                place: None,
            });
        };
        targets.push(target)?;
        least = usize::from(target) + 1;
    }
    Err(FindError::Limit)
}

/// The jump back with the least target from a slot on.
fn least_target(code: &[Option<Insn>], least: usize) -> Option<BackJump>
    requires { length code.now < 2 ^ 32 }
    ensures found { IfSome result (λ jump. IsBackTarget code.now jump.target) }
    ensures least { (p : ℕ) (i : Insn) (q : ℕ) → fetch code.now p ≡ Some i → least ≤ q →
        IfSome result (λ jump. q < jump.target) → jumps_back_to p i q ≡ false }
{
    let mut first: Option<BackJump> = None;
    for (slot, begun) in code.iter().enumerate() {
        if let Some(insn) = begun {
            if let Some(target) = back_target(slot, insn) {
                if target >= least {
                    first = Some(nearer(first, BackJump { slot, target }));
                }
            }
        }
    }
    first
}

/// The one with the lesser target.
fn nearer(first: Option<BackJump>, jump: BackJump) -> BackJump
    ensures one { (result ≡ jump) ⊎ (first ≡ Some result) }
    ensures lesser { (result.target ≤ jump.target) × IfSome first (λ first. result.target ≤ first.target) }
{
    match first {
        None => jump,
        Some(first) => {
            if jump.target < first.target {
                jump
            } else {
                first
            }
        }
    }
}

/// The target of the instruction at a slot, if it jumps back.
pub fn back_target(slot: usize, insn: &Insn) -> Option<usize>
    requires { slot < 2 ^ 32 }
    ensures { MatchOption result ((q : ℕ) → jumps_back_to slot insn.now q ≡ false)
        (λ target. (q : ℕ) → jumps_back_to slot insn.now q ≡ (target == q)) }
{
    if !is_backward(insn) {
        return None;
    }
    match goes_of(insn) {
        Goes::To(distance) => Some(jump_target(slot, i64::from(distance))),
        Goes::Either(distance) => Some(jump_target(slot, i64::from(distance))),
        Goes::On | Goes::Out => None,
    }
}
