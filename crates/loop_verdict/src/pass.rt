//! One pass over the slots of a method with heads.

ghost use Rattle.std.specs.Prelude.{◌≡◌, ℕ, ◌<◌, ◌^◌, length, replicate, IfOk, None, Some, true};
ghost use Rattle.std.specs.Option.{option_map};
ghost use Rattle.bpf_decode.specs.Instruction.{Fits};
ghost use Rattle.bpf_decode.specs.declared.insn.Insn.{Insn};
ghost use Rattle.bpf_decode.specs.declared.rule_set.RuleSet.TheVariants.{Three};
ghost use Rattle.bpf_machine.specs.Typed.{fetch};
ghost use Rattle.abstract_num.specs.declared.precision.Precision.TheVariants.{Halves};
ghost use Rattle.verifier.specs.Frame.{entry};
ghost use Rattle.verifier.specs.Rules.{begins_at};
ghost use Rattle.verifier.specs.inner.Kept.{unbox};
ghost use Rattle.verifier.specs.inner.Pass.{IsSpaced};
ghost use Rattle.loop_heads.specs.Loops.{head_at};
ghost use Rattle.loop_frames.specs.Heads.{head_frame};
ghost use Rattle.loop_tables.specs.Table.{with_head, loop_table};
ghost use Rattle.loop_tables.specs.Verdict.{loop_verdict};
ghost use Rattle.loop_tables.specs.Safety.{AreCodeFrames};
ghost use Rattle.loop_verdict.specs.inner.Heads.{head_slots};
ghost use Rattle.loop_verdict.specs.inner.Pass.{HasEntered, HasVisited, FitsIf, FitsEach, AllFit, kept_for, keeps_back};

use crate::code::LoopCode;
use crate::flows::{Back, Flows};
use crate::heads::{HeadFrames, places_at};
use crate::rules::refusing_rule;
use abstract_num::{Precision, keeping_laws};
use abstract_regs::{Frame, links_stay, slots_stay};
use bpf_decode::Insn;
use bpf_machine::Caps;
use loop_frames::{declare, loop_laws};
use loop_heads::{Head, HeadPlace};
use std::alloc::{AllocError, Global};
use verifier::Rule;

/// What a pass over a method has between two slots: the flows into the slots to come, and the frames of
/// the heads that it has met.
#[derive(Drop)]
pub struct HeadPass {
    flows: Flows,
    heads: HeadFrames,
}

/// The first refused slot of a method with heads, and the lowest rule that refuses it; none if no rule
/// does. `code` has the instruction that begins at each slot, the first one at slot 0. One pass over the
/// slots in order: its cost is linear in their number, with one comparison of frames a jump back.
pub fn first_refusal_by_heads(
    alloc: Global,
    caps: &Caps,
    heads: &[Head],
    code: &[Option<Insn>],
) -> Result<Option<(usize, Rule)>, AllocError>
    requires small { length code.now < 2 ^ 32 }
    requires spaced { IsSpaced code.now }
    requires begins { begins_at code.now 0 ≡ true }
    requires fit { (p : ℕ) (i : Insn) → fetch code.now p ≡ Some i → Fits i }
    ensures verdict { IfOk result (λ r. r ≡ loop_verdict caps.now heads.now code.now) }
    ensures sound { IfOk result (λ r. r ≡ None → AreCodeFrames (loop_table caps.now heads.now code.now)) }
{
    // For the proof: flows, joins and heads keep the number of registers, slots and links.
    slots_stay();
    links_stay();
    loop_laws();
    let method = LoopCode { caps, heads, code };
    let mut pass = HeadPass::new(alloc, &method)?;
    pass.run(alloc, &method)
}

impl HeadPass {
    /// Before slot 0.
    fn new(alloc: Global, method: &LoopCode) -> Result<HeadPass, AllocError>
        ensures pending { IfOk result (λ p. p.flows.pending ≡ replicate (length method.now.code.now) None) }
        ensures heads { IfOk result (λ p. p.heads.slots.items ≡ head_slots method.now.heads.now) }
        ensures current { IfOk result (λ p. unbox p.flows.current ≡ Some (entry Three method.now.caps.now)) }
        ensures landing { IfOk result (λ p. p.flows.landing ≡ 0) }
    {
        let flows = Flows::new(alloc, method.caps, method.code.len())?;
        let heads = HeadFrames::new(alloc, method.heads)?;
        Ok(HeadPass { flows, heads })
    }

    /// Goes over all slots, up to the first that is refused.
    fn run(&mut self, alloc: Global, method: &LoopCode) -> Result<Option<(usize, Rule)>, AllocError>
        requires small { length method.now.code.now < 2 ^ 32 }
        requires spaced { IsSpaced method.now.code.now }
        requires fit { (p : ℕ) (i : Insn) → fetch method.now.code.now p ≡ Some i → Fits i }
        requires pending { self.old.flows.pending ≡ replicate (length method.now.code.now) None }
        requires heads { self.old.heads.slots.items ≡ head_slots method.now.heads.now }
        requires current { unbox self.old.flows.current ≡ Some (entry Three method.now.caps.now) }
        requires landing { self.old.flows.landing ≡ 0 }
        ensures verdict { IfOk result
            (λ r. r ≡ loop_verdict method.now.caps.now method.now.heads.now method.now.code.now) }
        ensures fits { IfOk result
            (λ r. r ≡ None → AllFit method.now.caps.now method.now.heads.now method.now.code.now) }
    {
        for (slot, begun) in method.code.iter().enumerate() {
            if let Some(insn) = begun {
                if let Some(rule) = self.visit(alloc, method, slot, insn)? {
                    return Ok(Some((slot, rule)));
                }
            }
        }
        Ok(None)
    }

    /// One slot: the rule that refuses its instruction, or its frame flows on.
    fn visit(
        &mut self,
        alloc: Global,
        method: &LoopCode,
        slot: usize,
        insn: &Insn,
    ) -> Result<Option<Rule>, AllocError>
        requires { slot < 2 ^ 32 }
        ensures { IfOk result (λ r. HasVisited method.now.caps.now method.now.heads.now method.now.code.now
            insn.now slot self.old self.new r) }
    {
        self.flows.arrive(slot);
        self.enter(alloc, method.heads, slot)?;
        fit(&self.flows.current);
        let refused = refusing_rule(method, slot, insn, &self.flows.current);
        if let Some(rule) = refused {
            return Ok(Some(rule));
        }
        let back = self.flows.leave(alloc, method.caps, slot, insn)?;
        if self.keeps(&back) {
            Ok(None)
        } else {
            Ok(Some(Rule::Backward))
        }
    }

    /// Enters a loop, if the slot is a head: its frame gets what is declared, and is kept.
    fn enter(&mut self, alloc: Global, heads: &[Head], slot: usize) -> Result<(), AllocError>
        ensures current { IfOk result
            (λ _. unbox self.new.flows.current ≡ with_head (head_at heads.now slot) (unbox self.old.flows.current)) }
        ensures pending { IfOk result (λ _. self.new.flows.pending ≡ self.old.flows.pending) }
        ensures heads { IfOk result (λ _. HasEntered (head_at heads.now slot) slot self.old.heads
            (unbox self.new.flows.current) self.new.heads) }
    {
        if let Some(places) = places_at(heads, slot) {
            let frame = declared(alloc, places, &mut self.flows.current)?;
            self.heads.keep(slot, frame);
        }
        Ok(())
    }

    /// True if what goes back, if a flow does, is below the frame at its head.
    fn keeps(&self, back: &Option<Back>) -> bool
        ensures { result ≡ keeps_back (kept_for self.now.heads) back.now }
    {
        match back {
            None => true,
            Some(back) => self.heads.is_kept(back.target, &back.frame),
        }
    }
}

/// Joins what is declared at a head to the frame there, if there is one, and gives a copy of it.
fn declared(
    alloc: Global,
    places: &[HeadPlace],
    frame: &mut Option<Box<Frame>>,
) -> Result<Option<Frame>, AllocError>
    ensures frame { IfOk result (λ _. unbox frame.new ≡ option_map (head_frame Halves places.now) (unbox frame.old)) }
    ensures copy { IfOk result (λ copy. copy ≡ unbox frame.new) }
{
    match frame {
        None => Ok(None),
        Some(frame) => {
            declare(Precision::Halves, places, frame);
            Ok(Some(frame.copy(alloc)?))
        }
    }
}

/// For the proof: the numbers of a frame are below `2^64`. It does nothing.
#[inline(always)]
fn fit(frame: &Option<Box<Frame>>)
    ensures { FitsIf (unbox frame.now) }
{
    if let Some(frame) = frame {
        fit_each(frame);
    }
}

/// The same of a frame.
#[inline(always)]
fn fit_each(frame: &Frame)
    ensures { FitsEach frame.now }
{
    keeping_laws();
    for register in 0..11 {
        let _kind = frame.kind(register);
    }
}
