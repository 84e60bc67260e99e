//! Lines of a class's text.

use asm_lines::{AsmFault, Draft, Statement};
use bpf_decode::width;
use escaped_text::push_escaped;
use loop_asm::other_statements;
use std::alloc::{AllocError, Global};

/// How many slots an instruction takes.
pub(crate) fn slots_of(draft: &Draft) -> usize {
    match draft {
        Draft::Plain(insn) => width(insn),
        _ => 1,
    }
}

/// The same of a line; one that is refused counts for one.
pub(crate) fn draft_slots(draft: &Result<Draft, AsmFault>) -> usize {
    match draft {
        Ok(draft) => slots_of(draft),
        Err(_) => 1,
    }
}

/// The line of the instruction at a slot of a method, from 1; past the last one if there is none.
fn line_of_slot(lines: &[Statement], method: usize, slot: usize) -> usize {
    // The directives and then the slots that are still before it.
    let (mut methods, mut slots) = (method.saturating_add(1), slot);
    for (above, line) in lines.iter().enumerate() {
        match line {
            Statement::Directive(_) => methods = methods.saturating_sub(1),
            Statement::Instruction(_) if methods == 0 && slots == 0 => return above + 1,
            Statement::Instruction(draft) if methods == 0 => {
                slots = slots.saturating_sub(draft_slots(draft));
            }
            Statement::Empty | Statement::Label(_) | Statement::Rules(_) => {}
            Statement::Instruction(_) => {}
        }
    }
    lines.len().saturating_add(1)
}

/// The line of a number, from 1; none is empty.
fn nth_line<'a>(alloc: Global, text: &'a str, line: usize) -> Result<&'a str, AllocError> {
    let lines: Vec<&str> = text.split('\n').collect(alloc)?;
    Ok(lines.get(line.saturating_sub(1)).unwrap_or(&""))
}

/// Adds the line of a number, as a terminal may have it.
pub(crate) fn push_line(out: &mut String, number: usize, line: &str) -> Result<(), AllocError> {
    write!(out, "  line {number}: ")?;
    push_escaped(out, line)?;
    out.push_str("\n")
}

/// The line at which the instruction of a slot of a method stands in a class's text.
pub fn source_text(
    alloc: Global,
    text: &str,
    method: usize,
    slot: usize,
) -> Result<String, AllocError> {
    let line = line_of_slot(&other_statements(alloc, text)?, method, slot);
    let mut out = String::new(alloc);
    push_line(&mut out, line, nth_line(alloc, text, line)?)?;
    Ok(out)
}
