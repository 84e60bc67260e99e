//! The lines of a class's text at which the instructions of a method stand.

use asm_lines::{AsmFault, Draft, Statement};
use bpf_decode::width;
use loop_asm::other_statements;
use std::alloc::{AllocError, Global};

/// How many slots an instruction takes; a jump, which may have a label, takes one.
fn draft_slots(draft: &Result<Draft, AsmFault>) -> usize {
    match draft {
        Ok(Draft::Plain(insn)) => width(insn),
        _ => 1,
    }
}

/// For each slot of the method of a number, from 0, the line of the instruction to which it
/// belongs, from 1, in the text of its class. Refused: no memory.
pub fn slot_lines(alloc: Global, text: &str, method: usize) -> Result<Vec<usize>, AllocError> {
    let all = other_statements(alloc, text)?;
    let mut lines = Vec::new(alloc);
    let mut methods = 0usize;
    for (above, line) in all.iter().enumerate() {
        match line {
            Statement::Directive(_) => methods = methods.saturating_add(1),
            Statement::Instruction(draft) if methods == method.saturating_add(1) => {
                for _ in 0..draft_slots(draft) {
                    lines.push(above.saturating_add(1))?;
                }
            }
            Statement::Empty | Statement::Label(_) | Statement::Rules(_) => {}
            Statement::Instruction(_) => {}
        }
    }
    Ok(lines)
}
