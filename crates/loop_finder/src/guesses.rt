ghost use Rattle.std.specs.Prelude.{◌<◌, ◌^◌, length, IfSome};

use crate::growth::{Growth, Step};
use crate::guess::Guess;
use bpf_decode::Insn;
use loop_verdict::{Back, Flows, LoopCode, refusing_rule};
use std::alloc::{AllocError, Global};

/// What is guessed of a method's heads, in the order of their slots.
#[derive(Drop)]
pub struct Guesses {
    each: Vec<Guess>,
}

/// The first place that grew, at the head to which the jump at that slot goes back.
#[derive(Clone, Copy)]
pub struct Grown {
    pub jump: usize,
    pub place: u8,
}

impl Guesses {
    /// Nothing is guessed of any head.
    pub fn new(alloc: Global, targets: &[u16]) -> Result<Guesses, AllocError> {
        let mut each = Vec::with_capacity(alloc, targets.len())?;
        for target in targets {
            each.push(Guess::new(alloc, usize::from(*target)))?;
        }
        Ok(Guesses { each })
    }

    /// That of each head.
    pub fn each(&self) -> &[Guess] {
        &self.each
    }

    /// Lets the guesses grow till what jumped back is below them, and gives the first head and place that
    /// grew.
    pub fn grow(
        &mut self,
        alloc: Global,
        growth: &Growth,
        step: Step,
    ) -> Result<Option<Grown>, AllocError> {
        let mut first = None;
        for head in 0..self.each.len() {
            if let Some(place) = self.each[head].grow(alloc, growth, step)? {
                if let None = first {
                    first = Some(Grown {
                        jump: self.each[head].jump(),
                        place,
                    });
                }
            }
        }
        Ok(first)
    }

    /// True if what jumped back to each head is below the frame there.
    pub fn is_kept(&self, alloc: Global) -> Result<bool, AllocError> {
        for guess in &self.each {
            if !guess.is_kept(alloc)? {
                return Ok(false);
            }
        }
        Ok(true)
    }

    /// Narrows each guess to what flowed to its head.
    pub fn narrow(&mut self, alloc: Global) -> Result<(), AllocError> {
        for head in 0..self.each.len() {
            self.each[head].narrow(alloc)?;
        }
        Ok(())
    }

    /// Takes the last narrowing back.
    pub fn widen(&mut self) {
        for head in 0..self.each.len() {
            self.each[head].widen();
        }
    }

    /// A pass over all slots.
    pub fn run(&mut self, alloc: Global, method: &LoopCode) -> Result<(), AllocError>
        requires { length method.now.code.now < 2 ^ 32 }
    {
        for head in 0..self.each.len() {
            self.each[head].begin();
        }
        let mut flows = Flows::new(alloc, method.caps, method.code.len())?;
        for (slot, begun) in method.code.iter().enumerate() {
            if let Some(insn) = begun {
                self.visit(alloc, method, slot, insn, &mut flows)?;
            }
        }
        Ok(())
    }

    /// One slot: a head's frame gets what is guessed, and what goes back is kept for its head. A refused
    /// slot carries no flow.
    fn visit(
        &mut self,
        alloc: Global,
        method: &LoopCode,
        slot: usize,
        insn: &Insn,
        flows: &mut Flows,
    ) -> Result<(), AllocError>
        requires { slot < 2 ^ 32 }
    {
        flows.arrive(slot);
        if let (Some(head), Some(frame)) = (self.head(slot), &mut flows.current) {
            self.each[head].enter(alloc, frame)?;
        }
        if refusing_rule(method, slot, insn, &flows.current).is_some() {
            flows.current = None;
        }
        match flows.leave(alloc, method.caps, slot, insn)? {
            None => Ok(()),
            Some(back) => self.come_back(alloc, slot, &back),
        }
    }

    /// Keeps what jumps back from a slot, for its head.
    fn come_back(&mut self, alloc: Global, slot: usize, back: &Back) -> Result<(), AllocError> {
        if let Some(head) = self.head(back.target) {
            self.each[head].come_back(alloc, slot, &back.frame)?;
        }
        Ok(())
    }

    /// The number of the head at a slot, if it is one.
    fn head(&self, slot: usize) -> Option<usize>
        ensures { IfSome result (λ head. head < length self.now.each.items) }
    {
        self.each.iter().position(|guess| guess.slot() == slot)
    }
}
