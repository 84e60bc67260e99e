//! What is told of an instruction: the instruction as its line has it, and what it changed.

use crate::helper_text::{push_answer, push_call, room_of};
use crate::paired::{Both, Paired};
use crate::values::{push_bytes, push_value};
use asm_lines::insns_text;
use bpf_decode::{Insn, Operand, Register, Width, width};
use std::alloc::{AllocError, Global};

/// A step that is about to be made.
#[derive(Drop)]
pub(crate) struct Told {
    /// Its line so far: its slot, its line, the instruction, and the arguments of a helper.
    pub(crate) text: String,
    slot: u64,
    /// The range that a helper writes.
    room: Option<Both>,
}

/// The instruction at a slot, if one begins there.
fn insn_at(insns: &[Insn], slot: u64) -> Option<Insn> {
    let mut at = 0u64;
    for insn in insns {
        if at == slot {
            return Some(*insn);
        }
        at = at.saturating_add(width(insn) as u64);
    }
    None
}

/// Adds the slot, the line if it is known, and the instruction.
fn push_place(
    alloc: Global,
    out: &mut String,
    slot: u64,
    lines: &[usize],
    insn: Option<Insn>,
) -> Result<(), AllocError> {
    write!(out, "slot {slot}")?;
    if let Some(line) = lines.get(slot as usize) {
        write!(out, " line {line}")?;
    }
    let Some(insn) = insn else {
        return Ok(());
    };
    let text = insns_text(alloc, &[insn])?;
    write!(out, ": {}", text.trim_end())
}

/// The id of the helper that the instruction at a slot calls.
fn helper_at(insns: &[Insn], slot: u64) -> Option<u32> {
    match insn_at(insns, slot) {
        Some(Insn::Call { helper }) => Some(helper),
        _ => None,
    }
}

/// What is told of a step before it is made, in these states.
pub(crate) fn begun(
    alloc: Global,
    insns: &[Insn],
    lines: &[usize],
    states: Paired<'_, '_>,
) -> Result<Told, AllocError> {
    let slot = states.first.slot;
    let mut text = String::new(alloc);
    push_place(alloc, &mut text, slot, lines, insn_at(insns, slot))?;
    let Some(helper) = helper_at(insns, slot) else {
        return Ok(Told {
            text,
            slot,
            room: None,
        });
    };
    push_call(&mut text, states, helper)?;
    let room = room_of(states, helper);
    Ok(Told { text, slot, room })
}

/// Adds a register that was set.
fn push_register(
    out: &mut String,
    states: Paired<'_, '_>,
    register: Register,
) -> Result<(), AllocError> {
    match states.register(register.number()) {
        Some(value) => {
            write!(out, "; r{} = ", register.number())?;
            push_value(out, states, value)
        }
        None => Ok(()),
    }
}

/// Adds bytes that were stored; of an address, which has eight, the place.
fn push_stored(
    out: &mut String,
    states: Paired<'_, '_>,
    at: Both,
    width: Width,
    source: Operand,
) -> Result<(), AllocError> {
    out.push_str("; [")?;
    push_value(out, states, at)?;
    out.push_str("] = ")?;
    if let Operand::Register(register) = source {
        if let Some(value) = states.register(register.number()) {
            if states.place(value).is_some() {
                return push_value(out, states, value);
            }
        }
    }
    push_bytes(out, states.first, at.first, width.bytes() as u64)
}

/// Adds what a step changed, after it was made.
#[rattlefmt::skip]
pub(crate) fn push_changes(told: &mut Told, insns: &[Insn], states: Paired<'_, '_>) -> Result<(), AllocError> {
    let Some(insn) = insn_at(insns, told.slot) else {
        return Ok(());
    };
    let out = &mut told.text;
    match insn {
        Insn::Alu { dst, .. } | Insn::Neg { dst, .. } | Insn::Mov { dst, .. } | Insn::MovSigned { dst, .. }
        | Insn::End { dst, .. } | Insn::LoadWide { dst, .. } | Insn::Load { dst, .. }
        | Insn::LoadSigned { dst, .. } => push_register(out, states, dst),
        Insn::Store { width, base, offset, source } => match states.register(base.number()) {
            Some(at) => push_stored(out, states, at.offset(offset), width, source),
            None => Ok(()),
        },
        Insn::Call { .. } => push_answer(out, states, told.room),
        Insn::Jump { .. } | Insn::JumpLong { .. } | Insn::Branch { .. } | Insn::CallLocal { .. } | Insn::Exit => Ok(()),
    }
}
