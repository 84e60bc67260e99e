//! The lines of a class's text, by their contents: without comments and the blanks at their ends.

ghost use Rattle.std.specs.Prelude.{◌≡◌, ◌≤◌, ◌==◌, IfOk, length, map};
ghost use Rattle.std.specs.List.{position_or_len};
ghost use Rattle.asm_lines.specs.Texts.{content};
ghost use Rattle.asm_lines.specs.Statements.{lines_of, statement_of};
ghost use Rattle.bpf_asm.specs.Bodies.{is_instruction, line_slots};
ghost use Rattle.loop_asm.specs.Answers.{contents};
ghost use Rattle.loop_asm.specs.Reading.{is_budget, is_head, is_loop_line, other, is_method, instruction_follows, said};
ghost use Rattle.loop_asm.specs.Reading.{has_head, is_of_three};

use asm_lines::{Statement, content, first_word, lines, read_line};
use bpf_decode::RuleSet;
use std::alloc::{AllocError, Global};

/// True for the line of a budget.
pub(crate) fn is_budget(text: &[u8]) -> bool
    ensures { result ≡ is_budget text.now }
{
    first_word(text) == b".budget".as_slice()
}

/// True for the line of a head.
pub(crate) fn is_head(text: &[u8]) -> bool
    ensures { result ≡ is_head text.now }
{
    first_word(text) == b".head".as_slice()
}

/// True for the line of either.
pub(crate) fn is_loop_line(text: &[u8]) -> bool
    ensures { result ≡ is_loop_line text.now }
{
    is_budget(text) || is_head(text)
}

/// What a line says besides loops.
#[tactic(auto, unfolding(crate::specs::Reading::other))]
pub(crate) fn other(text: &[u8]) -> Statement
    ensures { result ≡ other text.now }
{
    if is_loop_line(text) {
        Statement::Empty
    } else {
        read_line(text)
    }
}

/// The number of slots that a line takes.
pub(crate) fn slots_of(text: &[u8]) -> usize
    ensures slots { result ≡ line_slots (other text.now) }
    ensures few { result ≤ 2 }
{
    bpf_asm::line_slots(&other(text))
}

/// True for the line that begins a method.
#[tactic(auto, using(crate::proofs::Words::method_word))]
pub(crate) fn is_method(text: &[u8]) -> bool
    ensures { result ≡ is_method text.now }
{
    first_word(text) == b".method".as_slice()
}

/// True for the line of an instruction, also of one that is refused.
fn is_instruction(text: &[u8]) -> bool
    ensures { result ≡ is_instruction (other text.now) }
{
    match other(text) {
        Statement::Instruction(_) => true,
        _ => false,
    }
}

/// True if an instruction stands on one of the lines. It looks as far as the first.
pub(crate) fn instruction_follows(texts: &[&[u8]]) -> bool
    ensures { result ≡ instruction_follows (contents texts.now) }
{
    texts.iter().any(|text| is_instruction(text))
}

/// True if a head stands on one of the lines.
pub(crate) fn has_head(texts: &[&[u8]]) -> bool
    ensures { result ≡ has_head (contents texts.now) }
{
    texts.iter().any(|text| is_head(text))
}

/// The number of lines before the next method's.
pub(crate) fn lines_of_method(texts: &[&[u8]]) -> usize
    ensures place { result ≡ position_or_len is_method (contents texts.now) }
    ensures bound { result ≤ length texts.now }
{
    texts
        .iter()
        .position(|text| is_method(text))
        .unwrap_or(texts.len())
}

/// True if the first line that isn't empty is `.rules 3`.
pub(crate) fn is_of_three(texts: &[&[u8]]) -> bool
    ensures { result ≡ is_of_three (contents texts.now) }
{
    let mut rest = texts;
    while let [text, below @ ..] = rest {
        match read_line(text) {
            Statement::Empty => rest = below,
            Statement::Rules(Ok(RuleSet::Three)) => return true,
            _ => return false,
        }
    }
    false
}

/// The content of each line.
fn contents<'a>(alloc: Global, lines: &[&'a str]) -> Result<Vec<&'a [u8]>, AllocError>
    ensures { IfOk result (λ v. contents v.items ≡ map (λ l. content l.now) lines.now) }
{
    let mut texts = Vec::new(alloc);
    for line in lines {
        texts.push(content(line.as_bytes()))?;
    }
    Ok(texts)
}

/// The content of each line of a text.
#[tactic(auto, using(crate::proofs::Lines::each_content))]
pub(crate) fn contents_of(alloc: Global, text: &str) -> Result<Vec<&[u8]>, AllocError>
    ensures { IfOk result (λ v. contents v.items ≡ map content (lines_of text.now)) }
{
    let lines = lines(alloc, text)?;
    contents(alloc, &lines)
}

/// What each line says besides loops.
pub(crate) fn others<'a>(
    alloc: Global,
    texts: &[&'a [u8]],
) -> Result<Vec<Statement<'a>>, AllocError>
    ensures { IfOk result (λ v. v.items ≡ map other (contents texts.now)) }
{
    let mut all = Vec::new(alloc);
    for text in texts {
        all.push(other(text))?;
    }
    Ok(all)
}

/// What each line says in a rule set without loops.
pub(crate) fn statements<'a>(
    alloc: Global,
    texts: &[&'a [u8]],
) -> Result<Vec<Statement<'a>>, AllocError>
    ensures { IfOk result (λ v. v.items ≡ map statement_of (contents texts.now)) }
{
    let mut all = Vec::new(alloc);
    for text in texts {
        all.push(read_line(text))?;
    }
    Ok(all)
}

/// What each line of a class's text says, in order, as `assemble_class` reads it: a line that says
/// loops is as an empty one. It is refused for want of memory alone.
pub fn other_statements(alloc: Global, text: &str) -> Result<Vec<Statement>, AllocError>
    ensures { IfOk result (λ v. v.items ≡ said (map content (lines_of text.now))) }
{
    let texts = contents_of(alloc, text)?;
    if is_of_three(&texts) {
        others(alloc, &texts)
    } else {
        statements(alloc, &texts)
    }
}
