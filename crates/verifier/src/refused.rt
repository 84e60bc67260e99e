//! Where a method is refused, and what was known there: for advice to its author.

ghost use Rattle.std.specs.Prelude.{◌≡◌, None, IfOk, MatchOption};
ghost use Rattle.bpf_decode.specs.Class.{IsMethod};
ghost use Rattle.bpf_decode.specs.Instruction.{slots};
ghost use Rattle.bpf_machine.specs.Safe.{caps_of};
ghost use Rattle.verifier.specs.Verdict.{IsFirstRefused, method_verdict};

use crate::method::slots_of;
use crate::pass::first_refused;
use crate::rule::Rule;
use abstract_regs::Frame;
use bpf_decode::{Insn, Method, RuleSet};
use bpf_machine::Caps;
use std::alloc::{AllocError, Global};

/// The slot at which a method is refused, and the state that the rule saw there.
#[derive(Drop)]
pub struct RefusedSlot {
    /// The first refused slot, from 0.
    pub slot: usize,
    /// The lowest rule that refuses the slot's instruction.
    pub rule: Rule,
    pub insn: Insn,
    /// The frame before it: the join of all that flows into the slot. None if nothing does.
    pub known: Option<Frame>,
}

/// The first refused slot of a method under a rule set, with what the rule saw there; none if no
/// rule refuses the method. It costs what `verify` does.
pub fn refused_slot(
    alloc: Global,
    rules: RuleSet,
    method: &Method,
) -> Result<Option<RefusedSlot>, AllocError>
    requires { IsMethod method.now }
    ensures { IfOk result (λ r. MatchOption r (method_verdict rules method.now ≡ None)
        (IsFirstRefused rules (caps_of method.now) (slots method.now.instructions))) }
{
    let code = slots_of(alloc, method.instructions())?;
    first_refused(alloc, rules, &Caps::of(method), &code)
}
