//! What is declared at heads, and the frames that are kept for them until the pass ends.

ghost use Rattle.std.specs.Prelude.{◌≡◌, IfOk, length};
ghost use Rattle.std.specs.Option.{option_copied};
ghost use Rattle.loop_heads.specs.Loops.{head_at};
ghost use Rattle.loop_tables.specs.Verdict.{is_kept};
ghost use Rattle.loop_verdict.specs.inner.Heads.{head_slots, place_of, frame_of, with_frame};

use abstract_regs::Frame;
use loop_frames::is_frame_below;
use loop_heads::{Head, HeadPlace};
use std::alloc::{AllocError, Global};

/// What is declared at a slot, if it is a head.
pub fn places_at(heads: &[Head], slot: usize) -> Option<&[HeadPlace]>
    ensures { option_copied result ≡ head_at heads.now slot }
{
    for head in heads {
        if usize::from(head.slot()) == slot {
            return Some(head.places());
        }
    }
    None
}

/// The frames of heads, by the heads' slots.
#[derive(Drop)]
pub struct HeadFrames {
    slots: Vec<usize>,
    frames: Vec<Option<Frame>>,
    ghost one_each: { length frames.items ≡ length slots.items },
}

impl HeadFrames {
    /// Of these heads, without a frame yet.
    pub fn new(alloc: Global, heads: &[Head]) -> Result<HeadFrames, AllocError>
        ensures { IfOk result (λ h. h.slots.items ≡ head_slots heads.now) }
    {
        let mut slots = Vec::with_capacity(alloc, heads.len())?;
        let mut frames = Vec::with_capacity(alloc, heads.len())?;
        for head in heads {
            slots.push(usize::from(head.slot()))?;
            frames.push(None)?;
        }
        Ok(HeadFrames { slots, frames })
    }

    /// The place of the head at a slot.
    fn place(&self, slot: usize) -> Option<usize>
        ensures { result ≡ place_of self.now.slots.items slot }
    {
        self.slots.iter().position(|s| *s == slot)
    }

    /// Keeps the frame of the head at a slot, or that it has none.
    pub fn keep(&mut self, slot: usize, frame: Option<Frame>)
        ensures slots { self.new.slots.items ≡ self.old.slots.items }
        ensures frames { self.new.frames.items ≡
            with_frame self.old.frames.items frame (place_of self.old.slots.items slot) }
    {
        if let Some(place) = self.place(slot) {
            self.frames[place] = frame;
        }
    }

    /// True if a flow is below the frame of the head at a slot.
    pub fn is_kept(&self, slot: usize, flow: &Frame) -> bool
        ensures { result ≡ is_kept flow.now (frame_of self.now.slots.items self.now.frames.items slot) }
    {
        match self.place(slot) {
            None => false,
            Some(place) => match &self.frames[place] {
                None => false,
                Some(frame) => is_frame_below(flow, frame),
            },
        }
    }
}
