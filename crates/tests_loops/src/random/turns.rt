//! Runs of the flat machine by a budget, with what is known at each step.

use crate::random::known::{Frames, is_true, numbers};
use crate::random::{Seen, plus_one};
use bpf_machine::Region;
use flat_machine::{FlatState, Stepped};
use loop_heads::Loops;
use std::alloc::Global;

/// A method's code, its loops, and what is known at its slots.
#[derive(Clone, Copy)]
pub struct Subject<'a> {
    pub code: &'a [u8],
    pub loops: &'a Loops,
    pub frames: &'a Frames,
}

/// What a run came to.
#[derive(Drop)]
pub struct Ran {
    pub code: i64,
    pub steps: usize,
    pub output: Vec<u8>,
    pub edits: Vec<u8>,
}

/// What the instruction of a slot takes of the budget: the opcode of a helper's call is 0x85.
fn weight(code: &[u8], slot: u64) -> u32 {
    match code.chunks_exact(8).nth(slot as usize) {
        Some([0x85, ..]) => 64,
        Some(_) | None => 1,
    }
}

/// True if what is known at a state's slot is true of it.
fn is_known(alloc: Global, subject: &Subject<'_>, state: &FlatState<'_>) -> Option<bool> {
    let frame = subject.frames.at(state.slot)?;
    let numbers = numbers(alloc, state).ok()?;
    Some(is_true(frame, &state.memory.machine.layout, &numbers))
}

/// What a run leaves at an exit with a code: a negative one no output and no edits.
fn ended(alloc: Global, state: &mut FlatState<'_>, code: u64, steps: usize) -> Option<Ran> {
    let mut ran = Ran {
        code: code.cast_signed(),
        steps,
        output: Vec::new(alloc),
        edits: Vec::new(alloc),
    };
    if ran.code >= 0 {
        let output = state.memory.output.get(..state.out_len)?;
        ran.output.extend_from_slice(output).ok()?;
        ran.edits = state.object.take_list(alloc);
    }
    Some(ran)
}

/// What a run leaves that has used up its budget.
fn spent(alloc: Global, budget: u32) -> Ran {
    Ran {
        code: -62,
        steps: budget as usize,
        output: Vec::new(alloc),
        edits: Vec::new(alloc),
    }
}

/// What a run from a beginning comes to by the budget; none if at a state nothing is known, or what
/// isn't true of it, or it is stuck, or memory is refused.
pub fn run(
    alloc: Global,
    subject: &Subject<'_>,
    state: &mut FlatState<'_>,
    seen: &mut Seen,
) -> Option<Ran> {
    let budget = subject.loops.budget();
    let (mut left, mut turns) = (budget, 0usize);
    for steps in 1..=budget as usize {
        let weight = weight(subject.code, state.slot);
        if left < weight {
            break;
        }
        left -= weight;
        seen.why = "what is known isn't true";
        if !is_known(alloc, subject, state)? {
            return None;
        }
        plus_one(&mut seen.steps);
        if subject.loops.at(state.slot as usize).is_some() {
            plus_one(&mut turns);
            plus_one(&mut seen.turns);
        }
        seen.why = "stuck";
        match state.step(alloc, subject.code).ok()? {
            Stepped::Next => {}
            Stepped::Exit(code) => {
                if turns >= 10 {
                    plus_one(&mut seen.ended);
                }
                return ended(alloc, state, code, steps);
            }
            Stepped::Stuck => return None,
        }
    }
    plus_one(&mut seen.spent);
    Some(spent(alloc, budget))
}
