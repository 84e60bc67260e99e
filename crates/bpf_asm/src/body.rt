//! The lines of a method become instructions: labels become distances of jumps.

ghost use Rattle.std.specs.Prelude.{◌≡◌, ◌≤◌, ◌<◌, ◌^◌, ◌+◌, ◌-ℤ◌, ◌⊎◌, ◌≤ℤ◌, pos, [], IfOk, OnOk, MatchResult, length};
ghost use Rattle.std.specs.Prelude.{is_some, take, count_by};
ghost use Rattle.std.specs.Option.{ForSome};
ghost use Rattle.bpf_decode.specs.Instruction.{slot_count, slot_total};
ghost use Rattle.asm_lines.specs.Fault.{no_memory};
ghost use Rattle.bpf_asm.specs.Bodies.{draft_slots, line_slots, distance_within, resolved, near, far, finished};
ghost use Rattle.bpf_asm.specs.Bodies.{instruction_at, line_at, body, is_instruction, has_instruction};

use crate::labels::Labels;
use asm_lines::{AsmError, AsmFault, Draft, Statement, Target};
use bpf_decode::{Insn, SLOT_LIMIT, width};
use std::alloc::Global;

/// The number of slots that an instruction takes. One that is refused counts for one.
fn draft_slots(draft: &Result<Draft, AsmFault>) -> usize
    ensures slots { result ≡ draft_slots draft.now }
    ensures few { result ≤ 2 }
{
    match draft {
        Ok(Draft::Plain(insn)) => width(insn),
        _ => 1,
    }
}

/// The number of slots that a line takes: 0 if it has no instruction.
pub fn line_slots(line: &Statement) -> usize
    ensures slots { result ≡ line_slots line.now }
    ensures few { result ≤ 2 }
{
    match line {
        Statement::Instruction(draft) => draft_slots(draft),
        _ => 0,
    }
}

/// A distance from `low` to `high`.
fn distance_within(low: i128, high: i128, distance: i128) -> Result<i128, AsmFault>
    ensures read { result ≡ distance_within low high distance }
    ensures low { IfOk result (λ z. low ≤ℤ z) }
    ensures high { IfOk result (λ z. z ≤ℤ high) }
{
    if low <= distance && distance <= high {
        Ok(distance)
    } else {
        Err(AsmFault::Range)
    }
}

/// The distance from the slot after a jump to a slot.
fn distance(slot: usize, at: usize) -> i128
    requires { slot ≤ SLOT_LIMIT }
    ensures { result ≡ pos at -ℤ pos (slot + 1) }
{
    // 128 bits hold the difference of any two slots.
    at as i128 - (slot + 1) as i128
}

/// The distance from the slot after a jump to a target.
fn resolved(
    low: i128,
    high: i128,
    labels: &Labels,
    slot: usize,
    target: &Target,
) -> Result<i128, AsmFault>
    requires { slot ≤ SLOT_LIMIT }
    ensures read { result ≡ resolved low high labels.now slot target.now }
    ensures low { IfOk result (λ z. low ≤ℤ z) }
    ensures high { IfOk result (λ z. z ≤ℤ high) }
{
    match target {
        Target::Slots(slots) => distance_within(low, high, i128::from(*slots)),
        Target::Label(name) => match labels.slot(name.as_bytes()) {
            None => Err(AsmFault::Label),
            Some(at) => distance_within(low, high, distance(slot, at)),
        },
    }
}

/// The offset of a jump to a target, in 16 bits.
fn near(labels: &Labels, slot: usize, target: &Target) -> Result<i16, AsmFault>
    requires { slot ≤ SLOT_LIMIT }
    ensures { result ≡ near labels.now slot target.now }
{
    match resolved(-32768, 32767, labels, slot, target) {
        Ok(distance) => Ok(distance as i16),
        Err(fault) => Err(fault),
    }
}

/// The distance of a jump to a target, in 32 bits.
fn far(labels: &Labels, slot: usize, target: &Target) -> Result<i32, AsmFault>
    requires { slot ≤ SLOT_LIMIT }
    ensures { result ≡ far labels.now slot target.now }
{
    match resolved(-2147483648, 2147483647, labels, slot, target) {
        Ok(distance) => Ok(distance as i32),
        Err(fault) => Err(fault),
    }
}

/// The instruction at a slot.
#[rattlefmt::skip]
fn finished(labels: &Labels, slot: usize, draft: &Draft) -> Result<Insn, AsmFault>
    requires { slot ≤ SLOT_LIMIT }
    ensures { result ≡ finished labels.now slot draft.now }
{
    match draft {
        Draft::Plain(insn) => Ok(*insn),
        Draft::Jump(target) => Ok(Insn::Jump { offset: near(labels, slot, target)? }),
        Draft::JumpLong(target) => Ok(Insn::JumpLong { distance: far(labels, slot, target)? }),
        Draft::Branch(bits, comparison, dst, source, target) => match near(labels, slot, target) {
            Ok(offset) => Ok(Insn::Branch { bits: *bits, comparison: *comparison, dst: *dst, source: *source, offset }),
            Err(fault) => Err(fault),
        },
        Draft::CallLocal(target) => Ok(Insn::CallLocal { distance: far(labels, slot, target)? }),
    }
}

/// The instruction of a line at a slot, or its fault: `Range` if it passes `SLOT_LIMIT` slots.
fn instruction_at(
    labels: &Labels,
    slot: usize,
    draft: &Result<Draft, AsmFault>,
) -> Result<Option<Insn>, AsmFault>
    requires { slot ≤ SLOT_LIMIT }
    ensures { result ≡ instruction_at labels.now slot draft.now }
{
    match draft {
        Err(fault) => Err(*fault),
        Ok(line) => {
            if slot + draft_slots(draft) > SLOT_LIMIT {
                return Err(AsmFault::Range);
            }
            match finished(labels, slot, line) {
                Ok(insn) => Ok(Some(insn)),
                Err(fault) => Err(fault),
            }
        }
    }
}

/// The instruction of a line at a slot, if it has one, or its fault. The line is the one of that
/// index.
fn line_at(
    labels: &Labels,
    index: usize,
    slot: usize,
    line: &Statement,
) -> Result<Option<Insn>, AsmFault>
    requires { slot ≤ SLOT_LIMIT }
    ensures read { result ≡ line_at labels.now (take index labels.now) slot line.now }
    ensures room { IfOk result (λ found. ForSome found (λ insn. slot + slot_count insn ≤ SLOT_LIMIT)) }
    ensures some { IfOk result (λ found. is_instruction line.now ≡ is_some found) }
{
    match line {
        Statement::Empty => Ok(None),
        Statement::Label(name) => {
            if labels.stands_above(name.as_bytes(), index) {
                return Err(AsmFault::Label);
            }
            Ok(None)
        }
        Statement::Rules(_) | Statement::Directive(_) => Err(AsmFault::Word),
        Statement::Instruction(draft) => instruction_at(labels, slot, draft),
    }
}

/// Puts the instructions of a method's lines into an empty list. The labels are those of the lines,
/// and the first line has the number `first`.
#[tactic(auto, unfolding(crate::specs::Bodies::body_from))]
fn push_body(
    labels: &Labels,
    first: usize,
    lines: &[Statement],
    insns: &mut Vec<Insn>,
) -> Result<(), AsmError>
    requires room { first + length lines.now < 2 ^ 64 }
    requires same { labels.now ≡ lines.now }
    requires empty { insns.old.items ≡ [] }
    ensures read { MatchResult result (λ _. body first lines.now ≡ Ok insns.new.items) (λ e. (e ≡ no_memory) ⊎
        (body first lines.now ≡ Err e)) }
    ensures slots { OnOk result (slot_total insns.new.items ≤ SLOT_LIMIT) }
    ensures some { OnOk result (count_by is_instruction lines.now ≤ slot_total insns.new.items) }
{
    let mut slot = 0;
    let mut index = 0;
    while index < lines.len() {
        match line_at(labels, index, slot, &lines[index]) {
            Err(fault) => {
                return Err(AsmError {
                    line: first + index,
                    fault,
                });
            }
            Ok(None) => {}
            Ok(Some(insn)) => {
                slot += width(&insn);
                insns.push(insn)?;
            }
        }
        index += 1;
    }
    Ok(())
}

/// The instructions of a method, whose first line has the number `first`; or the first line that is
/// refused, and its least fault.
pub(crate) fn read_body(
    alloc: Global,
    first: usize,
    lines: &[Statement],
) -> Result<Vec<Insn>, AsmError>
    requires { first + length lines.now < 2 ^ 64 }
    ensures read { MatchResult result (λ v. body first lines.now ≡ Ok v.items) (λ e. (e ≡ no_memory) ⊎
        (body first lines.now ≡ Err e)) }
    ensures slots { IfOk result (λ v. slot_total v.items ≤ SLOT_LIMIT) }
    ensures some { IfOk result (λ v. count_by is_instruction lines.now ≤ slot_total v.items) }
{
    // All labels come first, since a jump may go forward.
    let labels = Labels::of(alloc, lines)?;
    let mut insns = Vec::new(alloc);
    match push_body(&labels, first, lines, &mut insns) {
        Ok(()) => Ok(insns),
        Err(error) => Err(error),
    }
}

/// True if a line is an instruction's.
// A malformed one counts: then its own fault is reported, and not that the text has no instruction.
fn is_instruction(line: &Statement) -> bool
    ensures { result ≡ is_instruction line.now }
{
    match line {
        Statement::Instruction(_) => true,
        _ => false,
    }
}

/// True if one of the lines is an instruction's.
pub fn has_instruction(lines: &[Statement]) -> bool
    ensures { result ≡ has_instruction lines.now }
{
    lines.iter().any(is_instruction)
}
