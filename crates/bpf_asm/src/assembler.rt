//! From the text of one method to its instructions.

ghost use Rattle.std.specs.Prelude.{◌≡◌, ◌⊎◌, ◌+◌, ◌<◌, ◌^◌, Ok, Err, IfOk, IfErr, MatchResult, length};
ghost use Rattle.asm_lines.specs.Fault.{no_memory};
ghost use Rattle.std.specs.Prelude.{List};
ghost use Rattle.bpf_decode.specs.declared.insn.Insn.{Insn as Instruction};
ghost use Rattle.bpf_asm.specs.Grammar.{IsMethodText};
ghost use Rattle.bpf_asm.specs.Faults.{RefusesText, IsFaultless};
ghost use Rattle.bpf_asm.specs.Bodies.{bare_fault, assembled, read_text};

use crate::body::{has_instruction, read_body};
use asm_lines::{AsmError, AsmFault, Statement, statements};
use bpf_decode::Insn;
use std::alloc::Global;

/// The fault on the first line of a text without instructions.
fn bare_fault(lines: &[Statement]) -> AsmFault
    ensures { result ≡ bare_fault lines.now }
{
    match lines {
        [Statement::Rules(_) | Statement::Directive(_), ..] => AsmFault::Word,
        _ => AsmFault::Range,
    }
}

/// One method's instructions, from the statements of its lines.
fn assembled(alloc: Global, lines: &[Statement]) -> Result<Vec<Insn>, AsmError>
    requires { length lines.now + 1 < 2 ^ 64 }
    ensures { MatchResult result (λ v. assembled lines.now ≡ Ok v.items) (λ e. (e ≡ no_memory) ⊎
        (assembled lines.now ≡ Err e)) }
{
    // A text without an instruction is refused at line 1, whatever else it has.
    if has_instruction(lines) {
        return read_body(alloc, 1, lines);
    }
    Err(AsmError {
        line: 1,
        fault: bare_fault(lines),
    })
}

/// The instructions of one method's text, as `read_text` reads it.
#[tactic(auto, unfolding(crate::specs::Bodies::read_text))]
fn read_text(alloc: Global, text: &str) -> Result<Vec<Insn>, AsmError>
    ensures { MatchResult result (λ v. read_text text.now ≡ Ok v.items) (λ e. (e ≡ no_memory) ⊎
        (read_text text.now ≡ Err e)) }
{
    let lines = statements(alloc, text)?;
    assembled(alloc, &lines)
}

/// The instructions of one method's text. A refusal names the first line that has a fault, and the
/// least fault there; want of memory may come in place of any answer.
///
/// It takes time linear in the text's length, and for each label and each jump to one a logarithm
/// of the number of labels.
pub fn assemble(alloc: Global, text: &str) -> Result<Vec<Insn>, AsmError>
    ensures found { IfOk result (λ v. read_text text.now ≡ Ok v.items) }
    ensures refused { IfErr result (λ e. (e ≡ no_memory) ⊎ (read_text text.now ≡ Err e)) }
    ensures grammar { IfOk result (λ v. IsMethodText text.now v.items) }
    ensures one { IfOk result (λ v. (is : List Instruction) → IsMethodText text.now is → is ≡ v.items) }
    ensures only { IfErr result (λ e. (e ≡ no_memory) ⊎ ((is : List Instruction) → ¬ IsMethodText text.now is)) }
    // The refusal is the text's first fault: that of the first line with a fault, and there the
    // least.
    ensures first { IfErr result (λ e. (e ≡ no_memory) ⊎ RefusesText text.now e) }
    ensures faultless { IfOk result (λ _. IsFaultless text.now) }
{
    read_text(alloc, text)
}
