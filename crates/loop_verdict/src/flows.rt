//! The flows of a pass over a method into the slots to come.

ghost use Rattle.std.specs.Prelude.{◌≡◌, ◌+◌, ◌<◌, ◌^◌, IfOk, None, Some, replicate, slice_set};
ghost use Rattle.bpf_decode.specs.Instruction.{slot_count};
ghost use Rattle.bpf_decode.specs.declared.rule_set.RuleSet.TheVariants.{Three};
ghost use Rattle.abstract_num.specs.declared.precision.Precision.TheVariants.{Halves};
ghost use Rattle.abstract_regs.specs.Edged.{heard};
ghost use Rattle.abstract_regs.specs.Flow.{flow};
ghost use Rattle.verifier.specs.Answers.{answer_of};
ghost use Rattle.verifier.specs.Frame.{entry};
ghost use Rattle.verifier.specs.Rules.{room_of};
ghost use Rattle.verifier.specs.inner.Kept.{unbox};
ghost use Rattle.loop_frames.specs.Pairs.{pair_edge, pair_edges};
ghost use Rattle.loop_frames.specs.Seen.{seen_pair};
ghost use Rattle.loop_verdict.specs.inner.Pass.{awaited, HasGone, HasLeft, HasPair, HasSent};

use abstract_num::Precision;
use abstract_regs::{Compared, Edges, Frame, Kinds};
use bpf_decode::{Insn, Operand, Region, RuleSet, jump_target, width};
use bpf_machine::Caps;
use loop_frames::{PairCompared, PointerPair, pair_of, refine_pair, subtract};
use std::alloc::{AllocError, Global};
use verifier::{PendingFrames, answer, frame_slots, linked_places, room};

/// The flows of a pass over a method into the slots to come: one frame, which is changed in place from
/// instruction to instruction, and for each jump's target to come the join of what has flowed to it.
#[derive(Drop)]
pub struct Flows {
    /// The frame that falls through to the slot `landing`; at a slot, its frame.
    pub current: Option<Box<Frame>>,
    landing: usize,
    pending: PendingFrames,
    /// The place, lent to each flow, for the kinds along a comparison's second edge.
    place: Kinds,
}

/// A flow that goes back: the slot to which it goes, and what flows there.
#[derive(Drop)]
pub struct Back {
    pub target: usize,
    pub frame: Box<Frame>,
}

impl Flows {
    /// Before slot 0 of a method of so many slots, with the frame that it begins with.
    pub fn new(alloc: Global, caps: &Caps, slots: usize) -> Result<Flows, AllocError>
        ensures pending { IfOk result (λ f. f.pending ≡ replicate slots None) }
        ensures current { IfOk result (λ f. unbox f.current ≡ Some (entry Three caps.now)) }
        ensures landing { IfOk result (λ f. f.landing ≡ 0) }
    {
        let entry = Frame::entry(
            alloc,
            Precision::Halves,
            u64::from(caps.in_cap),
            caps.size(Region::Stack) as u64,
            frame_slots(RuleSet::Three),
            linked_places(RuleSet::Three),
        )?;
        let pending = PendingFrames::new(alloc, slots)?;
        Ok(Flows {
            current: Some(Box::new(alloc, entry)?),
            landing: 0,
            pending,
            place: Kinds::unset(),
        })
    }

    /// Arrives at a slot: the frame that falls through to it is joined with the one kept for it.
    #[inline(always)]
    pub fn arrive(&mut self, slot: usize)
        ensures current { unbox self.new.current ≡ awaited self.old slot }
        ensures pending { self.new.pending ≡ slice_set self.old.pending slot None }
    {
        if self.landing != slot {
            self.current = None;
        }
        if let Some(mut first) = self.pending.take(slot) {
            if let Some(fallen) = &self.current {
                first.join(fallen);
            }
            let joined = self.current.take();
            self.pending.reuse(joined);
            self.current = Some(first);
        }
    }

    /// Goes on from a slot, whose instruction no rule refuses, and gives what goes back, if a flow does.
    pub fn leave(
        &mut self,
        alloc: Global,
        caps: &Caps,
        slot: usize,
        insn: &Insn,
    ) -> Result<Option<Back>, AllocError>
        requires { slot < 2 ^ 32 }
        ensures { IfOk result (λ back. HasLeft caps.now (unbox self.old.current) self.old.pending insn.now slot
            self.new back) }
    {
        self.landing = slot + width(insn);
        match self.current.take() {
            None => Ok(None),
            Some(frame) => {
                let back = match pair_of(caps, &frame, insn) {
                    None => self.flow(alloc, slot, insn, frame)?,
                    Some(pair) => self.flow_pair(alloc, slot, insn, &pair, frame)?,
                };
                Ok(back)
            }
        }
    }

    /// The flows of an instruction without a pair of pointers.
    fn flow(
        &mut self,
        alloc: Global,
        slot: usize,
        insn: &Insn,
        mut frame: Box<Frame>,
    ) -> Result<Option<Back>, AllocError>
        requires slot { slot < 2 ^ 32 }
        requires taken { unbox self.old.current ≡ None }
        ensures gone { IfOk result (λ back. HasGone self.old.pending slot (slot + slot_count insn.now)
            (flow Halves (room_of insn.now) (answer_of Three frame.value insn.now) insn.now slot frame.value)
            (unbox self.new.current) self.new.pending back) }
        ensures landing { IfOk result (λ _. self.new.landing ≡ self.old.landing) }
    {
        let answer = answer(RuleSet::Three, &frame, insn);
        match frame.flow(
            Precision::Halves,
            room(insn),
            &answer,
            insn,
            slot,
            &mut self.place,
        ) {
            Edges::Leaves => {
                self.pending.reuse(Some(frame));
                Ok(None)
            }
            Edges::Falls => {
                self.current = Some(frame);
                Ok(None)
            }
            Edges::Jumps(target) => Ok(send(&mut self.pending, slot, target, Some(frame))),
            Edges::Branches(target, compared) => {
                // The target gets a copy before this frame is refined for the second edge.
                let taken = self.pending.copy(alloc, &frame)?;
                let back = send(&mut self.pending, slot, target, Some(taken));
                frame.refine(&compared, &self.place);
                self.current = Some(frame);
                Ok(back)
            }
            Edges::Forks(target, compared) => {
                let taken = self.pending.copy(alloc, &frame)?;
                let back = send(&mut self.pending, slot, target, told(&compared, taken));
                frame.refine(&compared, &self.place);
                self.current = told(&compared, frame);
                Ok(back)
            }
        }
    }

    /// The flows of an instruction with a pair of pointers: a comparison of both, or their difference.
    #[rattlefmt::skip]
    fn flow_pair(
        &mut self,
        alloc: Global,
        slot: usize,
        insn: &Insn,
        pair: &PointerPair,
        mut frame: Box<Frame>,
    ) -> Result<Option<Back>, AllocError>
        requires slot { slot < 2 ^ 32 }
        requires taken { unbox self.old.current ≡ None }
        requires pair { HasPair insn.now frame.value (seen_pair pair.now) }
        ensures gone { IfOk result (λ back. HasGone self.old.pending slot (slot + slot_count insn.now)
            (pair_edges Halves insn.now slot frame.value (seen_pair pair.now))
            (unbox self.new.current) self.new.pending back) }
        ensures landing { IfOk result (λ _. self.new.landing ≡ self.old.landing) }
    {
        match *insn {
            Insn::Alu { dst, .. } => {
                if subtract(Precision::Halves, dst, pair, &mut frame) {
                    self.current = Some(frame);
                } else {
                    self.pending.reuse(Some(frame));
                }
                Ok(None)
            }
            Insn::Branch { comparison, dst, source: Operand::Register(src), offset, .. } => {
                let compared = PairCompared {
                    precision: Precision::Halves,
                    comparison,
                    dst,
                    src,
                    pair: *pair,
                };
                let taken = self.pending.copy(alloc, &frame)?;
                let target = jump_target(slot, i64::from(offset));
                let back = send(&mut self.pending, slot, target, refined(&compared, true, taken));
                self.current = refined(&compared, false, frame);
                Ok(back)
            }
            // Never: no other instruction has a pair.
            Insn::Branch { source: Operand::Immediate(_), .. } => Ok(None),
            Insn::Neg { .. } | Insn::Mov { .. } | Insn::MovSigned { .. } => Ok(None),
            Insn::End { .. } | Insn::LoadWide { .. } | Insn::Load { .. } => Ok(None),
            Insn::LoadSigned { .. } | Insn::Store { .. } | Insn::Jump { .. } => Ok(None),
            Insn::JumpLong { .. } | Insn::Call { .. } => Ok(None),
            Insn::CallLocal { .. } | Insn::Exit => Ok(None),
        }
    }
}

/// A flow from a slot to a target, which may be dead: kept if the target is to come, else given back.
fn send(
    pending: &mut PendingFrames,
    slot: usize,
    target: usize,
    flow: Option<Box<Frame>>,
) -> Option<Back>
    ensures { HasSent pending.old slot target (unbox flow) pending.new result }
{
    if slot < target {
        pending.give_if(target, flow);
        return None;
    }
    match flow {
        None => None,
        Some(frame) => Some(Back { target, frame }),
    }
}

/// A frame once compared registers have told what they know to the places with links of the same
/// names. None if no value is left of one.
#[inline(always)]
fn told(compared: &Compared, mut frame: Box<Frame>) -> Option<Box<Frame>>
    ensures { unbox result ≡ heard Halves frame.value compared.now }
{
    if frame.tell(Precision::Halves, compared) {
        Some(frame)
    } else {
        None
    }
}

/// A frame along an edge of a comparison of two pointers. None if no offset is left of one.
#[inline(always)]
fn refined(compared: &PairCompared, taken: bool, mut frame: Box<Frame>) -> Option<Box<Frame>>
    ensures { unbox result ≡ pair_edge compared.now.precision compared.now.comparison taken compared.now.dst
        compared.now.src frame.value (seen_pair compared.now.pair) }
{
    if refine_pair(compared, taken, &mut frame) {
        Some(frame)
    } else {
        None
    }
}
