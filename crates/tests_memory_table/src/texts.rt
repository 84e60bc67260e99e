//! Rows of texts: 5 NoMemory, at line 0.

use crate::ending::Ending;
use crate::images::{TEXT, has_five};
use bpf_asm::{AsmError, AsmFault, assemble, assemble_class, disassemble, disassemble_class};
use bpf_decode::{ClassImage, Insn};
use std::alloc::Global;

/// A text with five labels, and the canonical one.
const LABELS: &str =
    "jeq r1, 1, a\njeq r1, 2, b\njeq r1, 3, c\njeq r1, 4, d\njeq r1, 5, e\na:\nb:\nc:\nd:\ne:\nexit\n";

const PLAIN: &str =
    "jeq r1, 1, +4\njeq r1, 2, +3\njeq r1, 3, +2\njeq r1, 4, +1\njeq r1, 5, +0\nexit\n";

/// The end of a refused call.
fn refused(error: AsmError) -> Ending {
    let is_named = error.fault == AsmFault::NoMemory && error.fault.number() == 5;
    Ending::refused(is_named && error.line == 0)
}

/// True if they are five branches and an exit; the first branch jumps 4 slots.
fn are_six(insns: &[Insn]) -> bool {
    match insns {
        [first, _, _, _, last, exit] => {
            matches!(first, Insn::Branch { offset: 4, .. })
                && matches!(last, Insn::Branch { offset: 0, .. })
                && matches!(exit, Insn::Exit)
        }
        _ => false,
    }
}

/// `assemble`.
pub fn assembled(alloc: Global) -> Ending {
    match assemble(alloc, LABELS) {
        Ok(insns) => Ending::of(are_six(&insns)),
        Err(error) => refused(error),
    }
}

/// `disassemble`.
pub fn disassembled(alloc: Global) -> Option<Ending> {
    let insns = assemble(alloc, PLAIN).ok()?;
    Some(match disassemble(alloc, &insns) {
        Ok(text) => Ending::of(text.as_str() == PLAIN),
        Err(error) => refused(error),
    })
}

/// `assemble_class`.
pub fn class_assembled(alloc: Global) -> Ending {
    match assemble_class(alloc, TEXT) {
        Ok(image) => Ending::of(has_five(&image)),
        Err(error) => refused(error),
    }
}

/// `disassemble_class`.
pub fn class_disassembled(alloc: Global) -> Option<Ending> {
    let image = assemble_class(alloc, TEXT).ok()?;
    Some(match disassemble_class(alloc, &image) {
        Ok(text) => Ending::of(text.as_str() == TEXT),
        Err(error) => refused(error),
    })
}

/// A class of a method with a loop and one without, whose text is canonical.
pub const LOOPED: &str = ".rules 3\n.method f r 16 0\n.budget 100\nmov r0, 0\nmov r4, 0\n\
    .head r0 any, r4 0 16\njge r4, r2, +6\nmov r5, r1\nadd r5, r4\nldxb r5, [r5+0]\nadd r0, r5\n\
    add r4, 1\nja -7\nexit\n.method g r 0 0\nmov r0, 0\nexit\n";

/// True if the first method alone has loops.
fn are_looped(class: &ClassImage) -> bool {
    match class.methods() {
        [first, second] => first.loops().is_some() && second.loops().is_none(),
        _ => false,
    }
}

/// `loop_asm::assemble_class`.
pub fn loops_assembled(alloc: Global) -> Ending {
    match loop_asm::assemble_class(alloc, LOOPED) {
        Ok(class) => Ending::of(are_looped(&class)),
        Err(error) => refused(error),
    }
}

/// `loop_asm::disassemble_class`.
pub fn loops_disassembled(alloc: Global) -> Option<Ending> {
    let class = loop_asm::assemble_class(alloc, LOOPED).ok()?;
    Some(match loop_asm::disassemble_class(alloc, &class) {
        Ok(text) => Ending::of(text.as_str() == LOOPED),
        Err(_) => Ending::refused(true),
    })
}
