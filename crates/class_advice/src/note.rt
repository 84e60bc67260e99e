//! The note below the line that refuses a method.

use crate::advice::push_advice;
use crate::advise::advice_for;
use crate::calls::push_call;
use crate::known::push_kind;
use crate::read::is_read;
use crate::touched::push_touched;
use abstract_regs::{Frame, Link, LinkForm};
use bpf_decode::{ClassImage, Insn, Method, RuleSet};
use std::alloc::{AllocError, Global};
use verifier::{Refusal, RefusedSlot, Rule, refused_slot};

/// True if two registers have one number whole, at one distance.
fn are_copies(x: Link, y: Link) -> bool {
    match (x.form, y.form) {
        (LinkForm::Whole, LinkForm::Whole) => x.name == y.name && x.distance == y.distance,
        _ => false,
    }
}

/// Adds a line for each register that an instruction reads, with the lowest one that is a copy of
/// it.
fn push_registers(
    out: &mut String,
    rules: RuleSet,
    insn: &Insn,
    frame: &Frame,
) -> Result<(), AllocError> {
    for register in 0..11 {
        if !is_read(insn, register) {
            continue;
        }
        write!(out, "  r{register} = ")?;
        push_kind(out, rules, frame.kind(register))?;
        let link = frame.link(register);
        if let Some(other) = (0..11).find(|it| *it != register
            && are_copies(link, frame.link(*it)))
        {
            write!(out, ", a copy of r{other}")?;
        }
        out.push_str("\n")?;
    }
    Ok(())
}

/// What a rule wants.
#[rattlefmt::skip]
fn wanted(rules: RuleSet, rule: Rule) -> &'static str {
    match rule {
        Rule::Backward => "a jump forward: the distance is at least 0",
        Rule::Target => "a jump to a slot at which an instruction begins",
        Rule::FallsOff => "exit or a jump as the last instruction",
        Rule::LocalCall => "no call within the program",
        Rule::UnsetRead => "each of these registers set on every way that leads here",
        Rule::WritesR10 => "another destination than register 10",
        Rule::PointerArithmetic => "of a pointer a copy, or a number added or subtracted, in 64 bits",
        Rule::PointerCompare => "numbers on both sides",
        Rule::PointerStored => match rules {
            RuleSet::One => "a number to store",
            RuleSet::Two | RuleSet::Three => "a number to store, or a pointer whole, in the stack, at a multiple of 8",
        },
        Rule::Bounds => "a pointer, and all of the bytes within its region",
        Rule::ReadOnlyRegion => "a pointer to the output or the stack",
        Rule::UnknownHelper => match rules {
            RuleSet::One | RuleSet::Two => "the id of a helper, 1 to 15",
            RuleSet::Three => "the id of a helper, 1 to 18",
        },
        Rule::HelperArgument => "the arguments in the order of the helper, and an output length of at most OUT",
        Rule::WriteHelperInReader => "flags w or rw",
        Rule::ReturnsPointer => "a number in register 0",
        Rule::NoMemory => "more memory",
        Rule::PointerBytes => "a stored pointer loaded whole, 8 bytes from its place, and given to no helper",
    }
}

/// Adds what the rule wants, and the page.
fn push_wanted(out: &mut String, rules: RuleSet, rule: Rule) -> Result<(), AllocError> {
    let wanted = wanted(rules, rule);
    write!(out, "  wanted: {wanted}\n  see docs/VERIFIER.md, {rule}\n")
}

/// What may be done of a jump back in a class of rule set 3.
const MAY_LOOP: &str =
    "  in rule set 3 a loop may be declared: radoscls heads IN OUT, then verify --loops\n";

/// Adds that a loop may be declared, if a jump back is refused in rule set 3.
fn push_loops(out: &mut String, rules: RuleSet, rule: Rule) -> Result<(), AllocError> {
    if let (RuleSet::Three, Rule::Backward) = (rules, rule) {
        out.push_str(MAY_LOOP)?;
    }
    Ok(())
}

/// The method, its capacities and the instruction.
fn head(alloc: Global, method: &Method, insn: Insn) -> Result<String, AllocError> {
    let (name, in_cap, out_cap) = (method.name(), method.in_cap(), method.out_cap());
    match bpf_asm::disassemble(alloc, &[insn]) {
        Ok(line) => { format!(in alloc; "  method {name}, IN {in_cap}, OUT {out_cap}\n  {line}") }
        Err(_) => Err(AllocError),
    }
}

/// The note on a refused slot of a method.
fn slot_text(
    alloc: Global,
    rules: RuleSet,
    method: &Method,
    refused: &RefusedSlot,
) -> Result<String, AllocError> {
    let (rule, insn) = (refused.rule, &refused.insn);
    let mut out = head(alloc, method, refused.insn)?;
    match &refused.known {
        None => out.push_str("  nothing leads here\n")?,
        // A call of what is no helper of the rule set reads no register.
        Some(_) if rule == Rule::UnknownHelper => {}
        Some(frame) => push_registers(&mut out, rules, insn, frame)?,
    }
    push_wanted(&mut out, rules, rule)?;
    if let Some(frame) = &refused.known {
        push_touched(&mut out, rules, rule, insn, frame)?;
    }
    if let Some(advice) = advice_for(alloc, rules, method, refused)? {
        push_call(&mut out, insn, advice)?;
        push_advice(&mut out, advice)?;
    }
    push_loops(&mut out, rules, rule)?;
    Ok(out)
}

/// The note on a class with that refusal; empty if memory was refused. It costs as much as `verify`
/// of the method.
pub fn refusal_note(
    alloc: Global,
    class: &ClassImage,
    refusal: &Refusal,
) -> Result<String, AllocError> {
    let method = match class.methods().get(refusal.method) {
        Some(method) if refusal.rule != Rule::NoMemory => method,
        _ => return Ok(String::new(alloc)),
    };
    match refused_slot(alloc, class.rules(), method)? {
        Some(refused) => slot_text(alloc, class.rules(), method, &refused),
        None => Ok(String::new(alloc)),
    }
}
