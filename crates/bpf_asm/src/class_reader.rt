//! From the text of a whole class to its image: its rule set, and its methods in their order.

ghost use Rattle.std.specs.Prelude.{◌≡◌, ◌⊎◌, ◌+◌, ◌<◌, ◌≤◌, ◌^◌, ℕ, true, List, [], Ok, Err, IfOk, OnOk, IfErr};
ghost use Rattle.std.specs.Prelude.{MatchResult, length, drop};
ghost use Rattle.std.specs.List.{position_or_len};
ghost use Rattle.bpf_decode.specs.ImageReading.{is_above, method_after, methods_after};
ghost use Rattle.bpf_decode.specs.Class.{Class};
ghost use Rattle.bpf_decode.specs.declared.rule_set.RuleSet.{RuleSet};
ghost use Rattle.bpf_asm.specs.Grammar.{IsClassText};
ghost use Rattle.asm_lines.specs.Fault.{no_memory};
ghost use Rattle.bpf_asm.specs.Faults.{RefusesClassText, IsFaultlessClass};
ghost use Rattle.bpf_asm.specs.Bodies.{body, has_instruction};
ghost use Rattle.bpf_asm.specs.Classes.{is_directive, last_name, is_within_set, opening_fault, with_body, method_at};
ghost use Rattle.bpf_asm.specs.Classes.{class_from, with_rules, ruled_from, bare_class_fault, class_assembled};
ghost use Rattle.bpf_asm.specs.Classes.{read_class_text};

use crate::body::{has_instruction, read_body};
use asm_lines::{AsmError, AsmFault, Header, Statement, statements};
use bpf_decode::{ClassImage, METHOD_LIMIT, Method, RuleSet, capacity_limit, name_text};
use std::alloc::Global;

/// True if a line begins a method.
fn is_directive(line: &Statement) -> bool
    ensures { result ≡ is_directive line.now }
{
    match line {
        Statement::Directive(_) => true,
        _ => false,
    }
}

/// The number of lines before the next method's.
fn lines_of_method(lines: &[Statement]) -> usize
    ensures place { result ≡ position_or_len is_directive lines.now }
    ensures bound { result ≤ length lines.now }
{
    lines.iter().position(is_directive).unwrap_or(lines.len())
}

/// The last method's name, or none.
fn last_name(methods: &[Method]) -> &[u8]
    ensures { result.now ≡ last_name [] methods.now }
{
    let mut name: &[u8] = &[];
    for method in methods {
        name = method.name().as_bytes();
    }
    name
}

/// What stands above a line of a class: its rule set, and the methods so far.
#[derive(Clone, Copy)]
struct Above<'a> {
    rules: RuleSet,
    done: &'a [Method],
}

/// True if the rule set allows the capacities of a header.
fn is_within_set(rules: RuleSet, header: &Header) -> bool
    ensures { result ≡ is_within_set rules header.now }
{
    let limit = capacity_limit(rules);
    header.in_cap() <= limit && header.out_cap() <= limit
}

/// The fault of a method's first line after other methods.
fn opening_fault(above: Above, bare: bool, header: &Header) -> Option<AsmFault>
    ensures { result ≡ opening_fault above.entry.rules above.entry.done.now bare header.now }
{
    if METHOD_LIMIT <= above.done.len() || bare || !is_within_set(above.rules, header) {
        return Some(AsmFault::Range);
    }
    if last_name(above.done).cmp(&header.name()).is_lt() {
        None
    } else {
        Some(AsmFault::Label)
    }
}

/// A method of that header, from its lines. At least one of them is an instruction's, and the first
/// has the number `first`.
#[tactic(auto, using(crate::proofs::ClassLemmas::header_passes))]
fn with_body(
    alloc: Global,
    first: usize,
    header: &Header,
    lines: &[Statement],
) -> Result<Method, AsmError>
    requires room { first + length lines.now < 2 ^ 64 }
    requires some { has_instruction lines.now ≡ true }
    ensures read { MatchResult result (λ m. with_body header.now (body first lines.now) ≡ Ok m) (λ e. (e ≡ no_memory) ⊎
        (with_body header.now (body first lines.now) ≡ Err e)) }
    ensures right { IfOk result (λ m. (rules : RuleSet) (before : List ℕ) → is_within_set rules header.now ≡ true →
        is_above before header.now.name ≡ true → method_after rules before m ≡ Ok m) }
{
    let insns = match read_body(alloc, first, lines) {
        Ok(insns) => insns,
        Err(error) => return Err(error),
    };
    let name = name_text(alloc, header.name())?;
    Ok(Method::new(
        name,
        header.flags(),
        header.in_cap(),
        header.out_cap(),
        insns,
    ))
}

/// The method that begins at a line, with its lines below, after other methods.
fn method_at(
    alloc: Global,
    above: Above,
    line: usize,
    header: &Result<Header, AsmFault>,
    lines: &[Statement],
) -> Result<Method, AsmError>
    requires { line + 1 + length lines.now < 2 ^ 64 }
    ensures read { MatchResult result (λ m. method_at above.entry.rules above.entry.done.now line header.now lines.now ≡
        Ok m) (λ e. (e ≡ no_memory) ⊎
        (method_at above.entry.rules above.entry.done.now line header.now lines.now ≡ Err e)) }
    ensures right { IfOk result (λ m. method_after above.entry.rules (last_name [] above.entry.done.now) m ≡ Ok m) }
    ensures room { IfOk result (λ _. length above.entry.done.now < METHOD_LIMIT) }
{
    match header {
        Ok(header) => {
            let bare = !has_instruction(lines);
            if let Some(fault) = opening_fault(above, bare, header) {
                return Err(AsmError { line, fault });
            }
            with_body(alloc, line + 1, header, lines)
        }
        Err(fault) => Err(AsmError {
            line,
            fault: *fault,
        }),
    }
}

/// The fault on the first line of a class's text without instructions.
// Such a text is refused at its first line, which is line 1 also in an empty text.
#[rattlefmt::skip]
fn bare_class_fault(lines: &[Statement]) -> AsmFault
    ensures { result ≡ bare_class_fault lines.now }
{
    match lines {
        [] => AsmFault::Range,
        [first, ..] => match first {
            Statement::Label(_) => AsmFault::Word,
            Statement::Rules(Err(fault)) | Statement::Directive(Err(fault)) => fault.least(AsmFault::Range),
            _ => AsmFault::Range,
        },
    }
}

/// Reads the line at a place after right methods, and puts a method that begins there at their end.
#[tactic(auto, unfolding(crate::specs::Classes::class_from))]
fn push_line(
    alloc: Global,
    lines: &[Statement],
    index: usize,
    rules: RuleSet,
    methods: &mut Vec<Method>,
) -> Result<(), AsmError>
    requires room { length lines.now + 2 < 2 ^ 64 }
    requires inside { index < length lines.now }
    requires right { methods_after rules 0 [] methods.old.items ≡ Ok methods.old.items }
    requires few { length methods.old.items ≤ METHOD_LIMIT }
    ensures read { MatchResult result (λ _. class_from rules methods.old.items (index + 1) (drop index lines.now) ≡
        class_from rules methods.new.items (index + 1 + 1) (drop (index + 1) lines.now)) (λ e. (e ≡ no_memory) ⊎
        (class_from rules methods.old.items (index + 1) (drop index lines.now) ≡ Err e)) }
    ensures right { OnOk result (methods_after rules 0 [] methods.new.items ≡ Ok methods.new.items) }
    ensures few { OnOk result (length methods.new.items ≤ METHOD_LIMIT) }
{
    let line = index + 1;
    match &lines[index] {
        Statement::Empty => {}
        Statement::Directive(header) => {
            let below = &lines[line..];
            let method = method_at(
                alloc,
                Above {
                    rules,
                    done: methods,
                },
                line,
                header,
                &below[..lines_of_method(below)],
            );
            match method {
                Ok(method) => methods.push(method)?,
                Err(error) => return Err(error),
            }
        }
        _ => {
            if methods.is_empty() {
                return Err(AsmError {
                    line,
                    fault: AsmFault::Word,
                });
            }
        }
    }
    Ok(())
}

/// The rule set of a class's lines, and the place of the line from which on its methods are read.
#[tactic(auto, unfolding(crate::specs::Classes::ruled_from))]
fn rules_of(lines: &[Statement]) -> Result<(RuleSet, usize), AsmError>
    requires { length lines.now + 2 < 2 ^ 64 }
    ensures read { MatchResult result (λ r. ruled_from 1 lines.now ≡
        with_rules r.0 (class_from r.0 [] (r.1 + 1) (drop r.1 lines.now))) (λ e. ruled_from 1 lines.now ≡ Err e) }
    ensures inside { IfOk result (λ r. r.1 ≤ length lines.now) }
{
    let mut index = 0;
    while index < lines.len() {
        match &lines[index] {
            Statement::Empty => index += 1,
            Statement::Rules(Ok(rules)) => return Ok((*rules, index + 1)),
            Statement::Rules(Err(fault)) => {
                return Err(AsmError {
                    line: index + 1,
                    fault: *fault,
                });
            }
            Statement::Label(_) | Statement::Directive(_) | Statement::Instruction(_) => {
                return Ok((RuleSet::One, index));
            }
        }
    }
    Ok((RuleSet::One, index))
}

/// The methods of the lines from a place on by a rule set, as `class_from` reads them.
#[tactic(auto, unfolding(crate::specs::Classes::class_from, bpf_decode::specs::ImageReading::methods_after))]
fn methods_of(
    alloc: Global,
    rules: RuleSet,
    lines: &[Statement],
    first: usize,
) -> Result<Vec<Method>, AsmError>
    requires room { length lines.now + 2 < 2 ^ 64 }
    requires inside { first ≤ length lines.now }
    ensures read { MatchResult result (λ v. class_from rules [] (first + 1) (drop first lines.now) ≡ Ok v.items)
        (λ e. (e ≡ no_memory) ⊎ (class_from rules [] (first + 1) (drop first lines.now) ≡ Err e)) }
    ensures right { IfOk result (λ v. methods_after rules 0 [] v.items ≡ Ok v.items) }
    ensures some { IfOk result (λ v. 1 ≤ length v.items) }
    ensures few { IfOk result (λ v. length v.items ≤ METHOD_LIMIT) }
{
    let mut methods = Vec::new(alloc);
    let mut index = first;
    while index < lines.len() {
        push_line(alloc, lines, index, rules, &mut methods)?;
        index += 1;
    }
    if methods.is_empty() {
        return Err(AsmError {
            line: 1,
            fault: AsmFault::Range,
        });
    }
    Ok(methods)
}

/// The class of lines, by the statement of each. A refusal names the first line that has a fault,
/// and the least fault there; want of memory may come in place of any answer.
#[tactic(auto, using(crate::proofs::ClassLemmas::is_class))]
pub fn assemble_lines(alloc: Global, lines: &[Statement]) -> Result<ClassImage, AsmError>
    requires { length lines.now + 2 < 2 ^ 64 }
    ensures { MatchResult result (λ c. class_assembled lines.now ≡ Ok c) (λ e. (e ≡ no_memory) ⊎
        (class_assembled lines.now ≡ Err e)) }
{
    if !has_instruction(lines) {
        return Err(AsmError {
            line: 1,
            fault: bare_class_fault(lines),
        });
    }
    let (rules, first) = match rules_of(lines) {
        Ok(found) => found,
        Err(error) => return Err(error),
    };
    match methods_of(alloc, rules, lines, first) {
        // Each method was tested as it was read (`right` of `methods_of`), so nothing is tested
        // twice.
        Ok(methods) => Ok(ClassImage::tested(methods, rules)),
        Err(error) => Err(error),
    }
}

/// The class of a text, as `read_class_text` reads it.
#[tactic(auto, unfolding(crate::specs::Classes::read_class_text))]
fn read_class_text(alloc: Global, text: &str) -> Result<ClassImage, AsmError>
    ensures { MatchResult result (λ c. read_class_text text.now ≡ Ok c) (λ e. (e ≡ no_memory) ⊎
        (read_class_text text.now ≡ Err e)) }
{
    let lines = statements(alloc, text)?;
    assemble_lines(alloc, &lines)
}

/// The class of a text. A refusal names the first line that has a fault, and the least fault there;
/// want of memory may come in place of any answer. It costs as much as `assemble`.
pub fn assemble_class(alloc: Global, text: &str) -> Result<ClassImage, AsmError>
    ensures found { IfOk result (λ c. read_class_text text.now ≡ Ok c) }
    ensures refused { IfErr result (λ e. (e ≡ no_memory) ⊎ (read_class_text text.now ≡ Err e)) }
    ensures grammar { IfOk result (λ c. IsClassText text.now c) }
    ensures one { IfOk result (λ c. (d : Class) → IsClassText text.now d → d ≡ c) }
    ensures only { IfErr result (λ e. (e ≡ no_memory) ⊎ ((c : Class) → ¬ IsClassText text.now c)) }
    // The refusal is the text's first fault: that of the first line with a fault, and there the
    // least.
    ensures first { IfErr result (λ e. (e ≡ no_memory) ⊎ RefusesClassText text.now e) }
    ensures faultless { IfOk result (λ _. IsFaultlessClass text.now) }
{
    read_class_text(alloc, text)
}
