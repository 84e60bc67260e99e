//! What heads would do where a jump back is refused.

use crate::no_heads::NoHeads;
use bpf_decode::{ClassImage, Method, SLOT_LIMIT};
use loop_finder::{FindError, back_target, find_heads};
use loop_heads::{BUDGET_LIMIT, Loops};
use loop_lines::push_head;
use std::alloc::{AllocError, Global};
use verifier::{Refusal, slots_of};

/// The target of a method's instruction at a slot, if it jumps back.
fn target_of(alloc: Global, method: &Method, slot: usize) -> Result<Option<usize>, AllocError> {
    if slot > SLOT_LIMIT {
        return Ok(None);
    }
    let code = slots_of(alloc, method.instructions())?;
    match code.get(slot) {
        Some(Some(insn)) => Ok(back_target(slot, insn)),
        Some(None) | None => Ok(None),
    }
}

/// The line of the head at that slot, if there is one.
fn head_line(alloc: Global, loops: &Loops, slot: usize) -> Result<String, AllocError> {
    let mut note = String::new(alloc);
    if let Some(places) = loops.at(slot) {
        write!(
            note,
            "  at its target, slot {slot}, radoscls heads IN OUT declares "
        )?;
        push_head(&mut note, places)?;
        note.push_str("\n")?;
    }
    Ok(note)
}

/// The line of the head of the loop that the jump at a slot closes.
fn head_of_jump(
    alloc: Global,
    loops: &Loops,
    method: &Method,
    slot: usize,
) -> Result<String, AllocError> {
    match target_of(alloc, method, slot)? {
        Some(target) => head_line(alloc, loops, target),
        None => Ok(String::new(alloc)),
    }
}

/// The line that says at which jump no head is found, and what has no bound.
fn unfound(alloc: Global, method: &Method, error: FindError) -> Result<String, AllocError> {
    let method = String::from_str(alloc, method.name())?;
    let none = NoHeads { method, error };
    format!(in alloc; "  {none}\n")
}

/// What `heads` finds for the jump back that was refused: the line of the head that it would declare,
/// or why it finds none.
pub(crate) fn found_note(
    alloc: Global,
    class: &ClassImage,
    method: &Method,
    refusal: &Refusal,
) -> Result<String, AllocError> {
    match find_heads(alloc, class.rules(), method, BUDGET_LIMIT) {
        Ok(Some(loops)) => head_of_jump(alloc, &loops, method, refusal.slot),
        Ok(None) | Err(FindError::NoMemory) => Ok(String::new(alloc)),
        Err(error) => unfound(alloc, method, error),
    }
}
