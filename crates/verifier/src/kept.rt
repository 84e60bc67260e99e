//! What is known at the targets of jumps, kept until the pass comes to them.

ghost use Rattle.std.specs.Prelude.{◌≡◌, IfOk, None, replicate, slice_set};
ghost use Rattle.verifier.specs.Verdict.{frame_at, joined};
ghost use Rattle.verifier.specs.inner.Pass.{merged, merged_if};
ghost use Rattle.verifier.specs.inner.Kept.{unbox};

use abstract_regs::Frame;
use std::alloc::{AllocError, Global};
use std::marker::Model;

/// The frames that are kept for jumps' targets, each till its slot comes. Contracts see them by
/// slot.
#[derive(Drop)]
pub struct PendingFrames {
    frames: Vec<Option<Box<Frame>>>,
    /// A frame that is no longer used, whose memory the next one that is kept takes over.
    spare: Option<Box<Frame>>,
}

impl Model for PendingFrames {
    ghost use Rattle.verifier.specs.Verdict.{Table};
    ghost use Rattle.verifier.specs.inner.Kept.{unboxed};

    ghost Value = { Table };

    ghost view = { λ k. unboxed k.frames.items };
}

impl PendingFrames {
    /// An empty table, of that many slots.
    pub fn new(alloc: Global, slots: usize) -> Result<PendingFrames, AllocError>
        ensures { IfOk result (λ k. k ≡ replicate slots None) }
    {
        let mut frames = Vec::with_capacity(alloc, slots)?;
        for _ in 0..slots {
            frames.push(None)?;
        }
        Ok(PendingFrames {
            frames,
            spare: None,
        })
    }

    /// Takes the frame that is kept for a slot, if there is one.
    #[inline(always)]
    pub fn take(&mut self, slot: usize) -> Option<Box<Frame>>
        ensures taken { unbox result ≡ frame_at self.old slot }
        ensures left { self.new ≡ slice_set self.old slot None }
    {
        if slot < self.frames.len() {
            self.frames[slot].take()
        } else {
            None
        }
    }

    /// Keeps a flow into a slot, joined with what has flowed into it.
    pub fn keep(&mut self, alloc: Global, slot: usize, flow: &Frame) -> Result<(), AllocError>
        ensures { IfOk result (λ _. self.new ≡ merged self.old slot flow.now) }
    {
        if slot < self.frames.len() {
            let kept = self.frames[slot].take();
            let spare = taken_if(kept.is_none(), &mut self.spare);
            self.frames[slot] = Some(met(alloc, spare, kept, flow)?);
        }
        Ok(())
    }

    /// An equal frame, in the memory of the spare one, if there is one.
    pub fn copy(&mut self, alloc: Global, flow: &Frame) -> Result<Box<Frame>, AllocError>
        ensures copied { IfOk result (λ b. b.value ≡ flow.now) }
        ensures left { self.new ≡ self.old }
    {
        let spare = self.spare.take();
        copied(alloc, spare, flow)
    }

    /// Keeps a flow in its own memory, if it is the first into its slot.
    pub fn give(&mut self, slot: usize, flow: Box<Frame>)
        ensures { self.new ≡ merged self.old slot flow.value }
    {
        if slot < self.frames.len() {
            let kept = self.frames[slot].take();
            let (first, done) = united(kept, flow);
            self.frames[slot] = Some(first);
            self.reuse(done);
        }
    }

    /// Keeps a flow in its own memory, if there is one.
    pub fn give_if(&mut self, slot: usize, flow: Option<Box<Frame>>)
        ensures { self.new ≡ merged_if self.old slot (unbox flow) }
    {
        if let Some(flow) = flow {
            self.give(slot, flow);
        }
    }

    /// Takes a frame that is no longer used as the spare one, if there is one.
    #[inline(always)]
    pub fn reuse(&mut self, frame: Option<Box<Frame>>)
        ensures { self.new ≡ self.old }
    {
        if frame.is_some() {
            self.spare = frame;
        }
    }
}

/// The spare frame if it is needed; else it stays.
#[inline(always)]
fn taken_if(needed: bool, spare: &mut Option<Box<Frame>>) -> Option<Box<Frame>> {
    if needed { spare.take() } else { None }
}

/// A flow, joined in place with what has flowed there.
fn met(
    alloc: Global,
    spare: Option<Box<Frame>>,
    kept: Option<Box<Frame>>,
    flow: &Frame,
) -> Result<Box<Frame>, AllocError>
    ensures { IfOk result (λ b. b.value ≡ joined (unbox kept) flow.now) }
{
    match kept {
        None => copied(alloc, spare, flow),
        Some(mut frame) => {
            frame.join(flow);
            Ok(frame)
        }
    }
}

/// A flow, joined with what has flowed there, and the frame that is no longer used.
fn united(kept: Option<Box<Frame>>, flow: Box<Frame>) -> (Box<Frame>, Option<Box<Frame>>)
    ensures { result.0.value ≡ joined (unbox kept) flow.value }
{
    match kept {
        None => (flow, None),
        Some(mut frame) => {
            frame.join(&flow);
            (frame, Some(flow))
        }
    }
}

/// An equal frame, in the memory of the spare one, if there is one.
#[inline(always)]
fn copied(alloc: Global, spare: Option<Box<Frame>>, flow: &Frame) -> Result<Box<Frame>, AllocError>
    ensures { IfOk result (λ b. b.value ≡ flow.now) }
{
    match spare {
        None => Ok(Box::new(alloc, flow.copy(alloc)?)?),
        Some(mut frame) => {
            frame.copy_from(flow)?;
            Ok(frame)
        }
    }
}
