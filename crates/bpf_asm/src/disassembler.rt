//! From instructions and classes back to their one text.

ghost use Rattle.std.specs.Prelude.{◌≡◌, ◌≤◌, IfOk, IfErr, string_bytes};
ghost use Rattle.bpf_decode.specs.Instruction.{slot_total};
ghost use Rattle.asm_lines.specs.Canonical.{canonical_text, class_text, class_with_slots};
ghost use Rattle.asm_lines.specs.Fault.{no_memory};

use asm_lines::{AsmError, class_text, class_with_slots, insns_text};
use bpf_decode::{ClassImage, Insn, SLOT_LIMIT};
use std::alloc::Global;

/// The canonical text of a method's instructions, which take 1 to 4,096 slots.
/// It is refused for want of memory alone.
pub fn disassemble(alloc: Global, insns: &[Insn]) -> Result<String, AsmError>
    requires some { 1 ≤ slot_total insns.now }
    requires limit { slot_total insns.now ≤ SLOT_LIMIT }
    ensures text { IfOk result (λ s. string_bytes s ≡ canonical_text insns.now) }
    ensures memory { IfErr result (λ e. e ≡ no_memory) }
{
    Ok(insns_text(alloc, insns)?)
}

/// The canonical text of a class, which leaves out its loops. It is refused for want of memory
/// alone.
pub fn disassemble_class(alloc: Global, class: &ClassImage) -> Result<String, AsmError>
    ensures text { IfOk result (λ s. string_bytes s ≡ class_text class.now) }
    ensures memory { IfErr result (λ e. e ≡ no_memory) }
{
    Ok(class_text(alloc, class)?)
}

/// The canonical text of a class, with ` ; slot N` at the end of each instruction's line. A refusal
/// names the instruction by the slot N. It leaves out loops, and of a class without them it assembles
/// to the same class (`one_slot_text`). It is refused for want of memory alone.
pub fn disassemble_with_slots(alloc: Global, class: &ClassImage) -> Result<String, AsmError>
    ensures text { IfOk result (λ s. string_bytes s ≡ class_with_slots class.now) }
    ensures memory { IfErr result (λ e. e ≡ no_memory) }
{
    Ok(class_with_slots(alloc, class)?)
}
