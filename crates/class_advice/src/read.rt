//! Which registers an instruction reads, and which it sets.

use abstract_regs::{Content, Frame, Kind};
use bpf_decode::{Insn, Operand};
use helpers::{Argument, signature};
use verifier::{Callee, Reads, callee_of, reads_of, writes_of};

/// How many registers an argument takes.
pub(crate) fn count_registers(argument: Argument) -> usize {
    match argument {
        Argument::Number | Argument::OutputLength => 1,
        Argument::Readable | Argument::Writable => 2,
    }
}

/// True if a helper takes a register. Its arguments stand in registers from 1 on; an id that is no
/// helper's has none.
fn takes(helper: u32, register: usize) -> bool {
    match signature(helper) {
        None => false,
        Some(takes) => {
            let mut next = 1_usize;
            for argument in takes.arguments {
                next = next.saturating_add(count_registers(*argument));
            }
            1 <= register && register < next
        }
    }
}

fn is_source(source: Operand, register: usize) -> bool {
    match source {
        Operand::Immediate(_) => false,
        Operand::Register(src) => usize::from(src.number()) == register,
    }
}

/// True if an instruction reads a register.
pub(crate) fn is_read(insn: &Insn, register: usize) -> bool {
    let reads = match reads_of(insn) {
        Reads::Nothing => false,
        Reads::One(x) => is_source(x, register),
        Reads::Two(x, y) => is_source(x, register) || is_source(y, register),
        Reads::Answer => register == 0,
    };
    let takes = match callee_of(insn) {
        Callee::Helper(helper) => takes(helper, register),
        Callee::Nothing | Callee::Local => false,
    };
    reads || takes
}

/// The lowest register that is read and is known to be unset, or a pointer, as `content` says.
pub(crate) fn first_read(content: Content, insn: &Insn, frame: &Frame) -> Option<usize> {
    for register in 0..11 {
        let has = match (content, frame.kind(register)) {
            (Content::Nothing, Kind::Unset) | (Content::Pointer, Kind::Ptr(_, _)) => true,
            (Content::Nothing | Content::Pointer, _) => false,
        };
        if has && is_read(insn, register) {
            return Some(register);
        }
    }
    None
}

/// True if an instruction sets a register; a call of a helper sets register 0.
pub(crate) fn sets(insn: &Insn, register: usize) -> bool {
    match (writes_of(insn), callee_of(insn)) {
        (Some(dst), _) => usize::from(dst.number()) == register,
        (None, Callee::Helper(_)) => register == 0,
        (None, Callee::Nothing | Callee::Local) => false,
    }
}

/// True if an instruction leaves a register unset; a call of a helper does so with 1 to 5.
pub(crate) fn unsets(insn: &Insn, register: usize) -> bool {
    match callee_of(insn) {
        Callee::Helper(_) => 1 <= register && register <= 5,
        Callee::Nothing | Callee::Local => false,
    }
}
