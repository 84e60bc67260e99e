ghost use Rattle.std.specs.Prelude.{◌≡◌, ◌==◌, ◌≤◌, ◌-◌, IfOk, if◌then◌else◌, length, map, take};
ghost use Rattle.std.specs.Option.{option_map};
ghost use Rattle.asm_lines.specs.Operands.{unsigned_of};
ghost use Rattle.asm_lines.specs.Texts.{content};
ghost use Rattle.asm_lines.specs.Statements.{header_of, rules_of, is_label_line, statement_of, lines_of, statements_of};

use crate::draft::{Draft, instruction};
use crate::fault::AsmFault;
use crate::flag_words::flags;
use crate::header::Header;
use crate::operand::{both, unsigned};
use crate::target::Name;
use crate::text::{after_word, content, first_word, is_label_name};
use bpf_decode::{CAPACITY_LIMIT, RuleSet, is_method_name};
use std::alloc::{AllocError, Global};

/// The statement of a line, or its fault.
#[derive(Drop)]
pub enum Statement<'a> {
    Empty,
    Label(Name<'a>),
    Rules(Result<RuleSet, AsmFault>),
    Directive(Result<Header<'a>, AsmFault>),
    Instruction(Result<Draft<'a>, AsmFault>),
}

/// A capacity: 0 to `CAPACITY_LIMIT`, the greatest of any rule set.
fn capacity(text: &[u8]) -> Result<u16, AsmFault>
    ensures read { result ≡ unsigned_of CAPACITY_LIMIT text.now }
    ensures within { IfOk result (λ n. n ≤ CAPACITY_LIMIT) }
{
    match unsigned(text, u64::from(CAPACITY_LIMIT)) {
        Ok(number) => Ok(number as u16),
        Err(fault) => Err(fault),
    }
}

/// Reads the text after `.method`: name, flags, capacity of input, capacity of output. The
/// capacities are those of any rule set, since a line is read without the others.
#[tactic(auto, unfolding(crate::specs::Statements::header_of))]
fn read_header(text: &[u8]) -> Result<Header, AsmFault>
    ensures { result ≡ header_of text.now }
{
    let name = first_word(text);
    let rest = after_word(text);
    let Some(flags) = flags(first_word(rest)) else {
        return Err(AsmFault::Operand);
    };
    if !is_method_name(name) {
        return Err(AsmFault::Operand);
    }
    let caps = after_word(rest);
    match both(capacity(first_word(caps)), capacity(after_word(caps))) {
        Ok((in_cap, out_cap)) => Ok(Header::new(Name::new(name), flags, in_cap, out_cap)),
        Err(fault) => Err(fault),
    }
}

/// Reads the text after `.rules`, which is 2 or 3. A class of rule set 1 has no such line.
// So each class has one text, and `.rules 1` is refused.
fn read_rules(text: &[u8]) -> Result<RuleSet, AsmFault>
    ensures { result ≡ rules_of text.now }
{
    if text == b"2".as_slice() {
        Ok(RuleSet::Two)
    } else if text == b"3".as_slice() {
        Ok(RuleSet::Three)
    } else {
        Err(AsmFault::Operand)
    }
}

/// A label's name, if that is what the line has.
#[tactic(auto, unfolding(crate::specs::Statements::is_label_line))]
fn label_name(text: &[u8]) -> Option<&[u8]>
    ensures { option_map (λ n. n.now) result ≡
        (if is_label_line text.now then Some (take (length text.now - 1) text.now) else None) }
{
    match text {
        [name @ .., b':'] if is_label_name(name) => Some(name),
        _ => None,
    }
}

/// The statement of a line's content.
#[tactic(auto, unfolding(crate::specs::Statements::statement_of))]
pub fn read_line(text: &[u8]) -> Statement
    ensures { result ≡ statement_of text.now }
{
    if text.is_empty() {
        return Statement::Empty;
    }
    // Labels come first: a label may have an instruction's word as its name, as in `exit:`.
    if let Some(name) = label_name(text) {
        return Statement::Label(Name::new(name));
    }
    if first_word(text) == b".rules".as_slice() {
        return Statement::Rules(read_rules(after_word(text)));
    }
    if first_word(text) == b".method".as_slice() {
        return Statement::Directive(read_header(after_word(text)));
    }
    Statement::Instruction(instruction(text))
}

/// The lines of a text, between its line feeds.
pub fn lines(alloc: Global, text: &str) -> Result<Vec<&str>, AllocError>
    ensures { IfOk result (λ v. map (λ l. l.now) v.items ≡ lines_of text.now) }
{
    text.split('\n').collect(alloc)
}

/// The statement of each line.
fn read_lines<'a>(alloc: Global, lines: &[&'a str]) -> Result<Vec<Statement<'a>>, AllocError>
    ensures { IfOk result (λ v. v.items ≡ map (λ l. statement_of (content l.now)) lines.now) }
{
    let mut all = Vec::new(alloc);
    for line in lines {
        all.push(read_line(content(line.as_bytes())))?;
    }
    Ok(all)
}

/// The statement of each line of a text, in order.
#[tactic(auto, using(crate::proofs::StatementLemmas::each_line))]
pub fn statements(alloc: Global, text: &str) -> Result<Vec<Statement>, AllocError>
    ensures { IfOk result (λ v. v.items ≡ statements_of text.now) }
{
    let lines = lines(alloc, text)?;
    read_lines(alloc, &lines)
}
