ghost use Rattle.std.specs.Prelude.{◌≡◌, ◌+◌, ◌<◌, ◌^◌, length, IfOk, IfSome, MatchOption, Some, None, replicate};
ghost use Rattle.std.specs.Prelude.{slice_set};
ghost use Rattle.bpf_machine.specs.Typed.{fetch};
ghost use Rattle.verifier.specs.Rules.{rule_at};
ghost use Rattle.verifier.specs.Verdict.{IsFirstRefused, code_verdict, frame_at, whole_table};
ghost use Rattle.verifier.specs.Frame.{entry};
ghost use Rattle.verifier.specs.inner.Kept.{unbox};
ghost use Rattle.abstract_regs.specs.Edged.{heard, refined};
ghost use Rattle.verifier.specs.inner.Pass.{IsSpaced, awaited, merged_if, HasLeft, IsSound, AllSound};

use crate::answers::answer;
use crate::fault::room;
use crate::kept::PendingFrames;
use crate::known::{frame_slots, linked_places, precision};
use crate::refused::RefusedSlot;
use crate::rule::Rule;
use crate::rules::refusing_rule;
use abstract_num::Precision;
use abstract_regs::{Compared, Edges, Frame, Kinds};
use bpf_decode::{Insn, Region, RuleSet, width};
use bpf_machine::Caps;
use std::alloc::{AllocError, Global};

/// The flows of a pass over a method into the slots to come: one frame, which is changed in place
/// from instruction to instruction, and for each jump's target the join of what has flowed to it.
#[derive(Drop)]
pub struct Pass {
    /// The frame that falls through to the slot `landing`; at a slot, its frame.
    current: Option<Box<Frame>>,
    landing: usize,
    kept: PendingFrames,
    /// The place, lent to each flow, for the kinds along a comparison's second edge.
    fallen: Kinds,
}

/// The first refused slot of a method, given what begins at each slot, and the lowest rule that
/// refuses it. One pass over the slots in order, since no flow that is not refused goes back: its
/// cost is linear in their number.
pub fn first_refusal(
    alloc: Global,
    rules: RuleSet,
    caps: &Caps,
    code: &[Option<Insn>],
) -> Result<Option<(usize, Rule)>, AllocError>
    requires small { length code.now < 2 ^ 32 }
    requires spaced { IsSpaced code.now }
    ensures verdict { IfOk result (λ r. r ≡ code_verdict rules caps.now code.now) }
    ensures sound { IfOk result (λ r. r ≡ None → AllSound rules caps.now code.now) }
{
    let mut pass = Pass::new(alloc, rules, caps, code.len())?;
    pass.run(alloc, rules, caps, code)
}

/// The same slot and rule, with the slot's instruction and what is known before it. It costs the
/// same pass.
pub fn first_refused(
    alloc: Global,
    rules: RuleSet,
    caps: &Caps,
    code: &[Option<Insn>],
) -> Result<Option<RefusedSlot>, AllocError>
    requires small { length code.now < 2 ^ 32 }
    requires spaced { IsSpaced code.now }
    ensures { IfOk result
        (λ r. MatchOption r (code_verdict rules caps.now code.now ≡ None) (IsFirstRefused rules caps.now code.now)) }
{
    let mut pass = Pass::new(alloc, rules, caps, code.len())?;
    let Some((slot, rule)) = pass.run(alloc, rules, caps, code)? else {
        return Ok(None);
    };
    match insn_at(code, slot) {
        Some(insn) => Ok(Some(RefusedSlot {
            slot,
            rule,
            insn,
            known: unboxed(pass.current),
        })),
        // Never: an instruction begins at a refused slot.
        None => Ok(None),
    }
}

/// A frame out of its box.
#[inline(always)]
fn unboxed(frame: Option<Box<Frame>>) -> Option<Frame>
    ensures { result ≡ unbox frame }
{
    match frame {
        Some(frame) => Some(Box::into_inner(frame)),
        None => None,
    }
}

/// The instruction that begins at a slot, if one does.
#[inline(always)]
fn insn_at(code: &[Option<Insn>], slot: usize) -> Option<Insn>
    ensures { result ≡ fetch code.now slot }
{
    match code.get(slot) {
        Some(begun) => *begun,
        None => None,
    }
}

impl Pass {
    /// Before slot 0, with the frame that a method begins with.
    fn new(alloc: Global, rules: RuleSet, caps: &Caps, slots: usize) -> Result<Pass, AllocError>
        ensures kept { IfOk result (λ p. p.kept ≡ replicate slots None) }
        ensures current { IfOk result (λ p. unbox p.current ≡ Some (entry rules caps.now)) }
        ensures landing { IfOk result (λ p. p.landing ≡ 0) }
    {
        let stack = caps.size(Region::Stack) as u64;
        let entry = Frame::entry(
            alloc,
            precision(rules),
            u64::from(caps.in_cap),
            stack,
            frame_slots(rules),
            linked_places(rules),
        )?;
        Ok(Pass {
            current: Some(Box::new(alloc, entry)?),
            landing: 0,
            kept: PendingFrames::new(alloc, slots)?,
            fallen: Kinds::unset(),
        })
    }

    /// Goes over all slots, up to the first that is refused.
    fn run(
        &mut self,
        alloc: Global,
        rules: RuleSet,
        caps: &Caps,
        code: &[Option<Insn>],
    ) -> Result<Option<(usize, Rule)>, AllocError>
        requires small { length code.now < 2 ^ 32 }
        requires spaced { IsSpaced code.now }
        requires kept { self.old.kept ≡ replicate (length code.now) None }
        requires current { unbox self.old.current ≡ Some (entry rules caps.now) }
        requires landing { self.old.landing ≡ 0 }
        ensures verdict { IfOk result (λ r. r ≡ code_verdict rules caps.now code.now) }
        ensures sound { IfOk result (λ r. r ≡ None → AllSound rules caps.now code.now) }
        // The pass stops at the refused slot, with what is known before it.
        ensures stopped { IfOk result (λ r. IfSome r
            (λ at. unbox self.new.current ≡ frame_at (whole_table rules caps.now code.now) at.0)) }
    {
        for (slot, begun) in code.iter().enumerate() {
            if let Some(insn) = begun {
                if let Some(rule) = self.visit(alloc, rules, caps, code, slot, insn)? {
                    return Ok(Some((slot, rule)));
                }
            }
        }
        Ok(None)
    }

    /// One slot: the rule that refuses its instruction, or its frame flows on.
    fn visit(
        &mut self,
        alloc: Global,
        rules: RuleSet,
        caps: &Caps,
        code: &[Option<Insn>],
        slot: usize,
        insn: &Insn,
    ) -> Result<Option<Rule>, AllocError>
        requires { slot < 2 ^ 32 }
        ensures rule { IfOk result (λ r. r ≡ rule_at rules caps.now code.now slot insn.now (awaited self.old slot)) }
        ensures left { IfOk result (λ r. (r ≡ None) →
            HasLeft rules (awaited self.old slot) (slice_set self.old.kept slot None) insn.now slot self.new) }
        ensures sound { IfOk result (λ r. (r ≡ None) → IsSound rules insn.now slot (awaited self.old slot)) }
        ensures stopped { IfOk result (λ r. IfSome r (λ _. unbox self.new.current ≡ awaited self.old slot)) }
    {
        self.arrive(slot);
        let refused = refusing_rule(rules, caps, code, slot, insn, &self.current);
        if let None = refused {
            self.leave(alloc, rules, slot, insn)?;
        }
        Ok(refused)
    }

    /// Arrives at a slot: the frame that falls through to it is joined with the one kept for it.
    #[inline(always)]
    fn arrive(&mut self, slot: usize)
        ensures current { unbox self.new.current ≡ awaited self.old slot }
        ensures kept { self.new.kept ≡ slice_set self.old.kept slot None }
    {
        if self.landing != slot {
            self.current = None;
        }
        if let Some(mut first) = self.kept.take(slot) {
            if let Some(fallen) = &self.current {
                first.join(fallen);
            }
            let joined = self.current.take();
            self.kept.reuse(joined);
            self.current = Some(first);
        }
    }

    /// Goes on from a slot, whose instruction no rule refuses.
    fn leave(
        &mut self,
        alloc: Global,
        rules: RuleSet,
        slot: usize,
        insn: &Insn,
    ) -> Result<(), AllocError>
        requires { slot < 2 ^ 32 }
        ensures left { IfOk result (λ _. HasLeft rules (unbox self.old.current) self.old.kept insn.now slot self.new) }
        ensures sound { IfOk result (λ _. IsSound rules insn.now slot (unbox self.old.current)) }
    {
        self.landing = slot + width(insn);
        if let Some(mut frame) = self.current.take() {
            let answer = answer(rules, &frame, insn);
            let precision = precision(rules);
            match frame.flow(precision, room(insn), &answer, insn, slot, &mut self.fallen) {
                Edges::Leaves => self.kept.reuse(Some(frame)),
                Edges::Falls => self.current = Some(frame),
                Edges::Jumps(target) => self.kept.give(target, frame),
                Edges::Branches(target, compared) => {
                    // The target gets a copy before this frame is refined for the second edge.
                    self.kept.keep(alloc, target, &frame)?;
                    frame.refine(&compared, &self.fallen);
                    self.current = Some(frame);
                }
                Edges::Forks(target, compared) => self.fork(
                    alloc, precision, target, &compared, frame,
                )?,
            }
        }
        Ok(())
    }

    /// Goes on along both edges of a comparison of linked registers, each of which may be dead: the
    /// frame is the one along the first, before what the registers tell of others.
    fn fork(
        &mut self,
        alloc: Global,
        precision: Precision,
        target: usize,
        compared: &Compared,
        mut frame: Box<Frame>,
    ) -> Result<(), AllocError>
        ensures taken { IfOk result (λ _. self.new.kept ≡
            merged_if self.old.kept target (heard precision frame.value compared.now)) }
        ensures fallen { IfOk result (λ _. unbox self.new.current ≡
            heard precision (refined frame.value compared.now self.old.fallen) compared.now) }
        ensures landing { IfOk result (λ _. self.new.landing ≡ self.old.landing) }
    {
        let taken = self.kept.copy(alloc, &frame)?;
        self.kept.give_if(target, told(precision, compared, taken));
        frame.refine(compared, &self.fallen);
        self.current = told(precision, compared, frame);
        Ok(())
    }
}

/// A frame once compared registers have told what they know to the places with links of the same
/// names. None if no value is left of one.
#[inline(always)]
fn told(precision: Precision, compared: &Compared, mut frame: Box<Frame>) -> Option<Box<Frame>>
    ensures { unbox result ≡ heard precision frame.value compared.now }
{
    if frame.tell(precision, compared) {
        Some(frame)
    } else {
        None
    }
}
