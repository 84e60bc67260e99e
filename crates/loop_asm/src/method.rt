//! What a method's lines say of its loops.

ghost use Rattle.std.specs.Prelude.{◌≡◌, ◌⊎◌, ◌+◌, ◌<◌, ◌≤◌, ◌^◌, ◌*◌, [], ◌∷◌, Ok, Err, IfOk, MatchResult};
ghost use Rattle.std.specs.Prelude.{is_some, length, true};
ghost use Rattle.asm_lines.specs.Fault.{no_memory};
ghost use Rattle.loop_heads.specs.declared.limits.TheConstants.{BUDGET_LIMIT};
ghost use Rattle.loop_heads.specs.Loops.{head_at};
ghost use Rattle.loop_asm.specs.Answers.{Gives, contents, refusal_of};
ghost use Rattle.loop_asm.specs.Reading.{placed, head_of, on_line, heads_from, no_loops, with_heads, budget_on};
ghost use Rattle.loop_asm.specs.Reading.{has_head, method_loops};

use crate::line::{has_head, instruction_follows, is_budget, is_head, is_loop_line, slots_of};
use asm_lines::{AsmError, AsmFault, after_word};
use bpf_decode::SLOT_LIMIT;
use loop_heads::{HEAD_LIMIT, Head, HeadPlace, Loops};
use loop_lines::{budget_of, places_of};
use std::alloc::Global;

/// The refusal of a line for that fault. Want of memory has line 0.
fn refusal(line: usize, fault: AsmFault) -> AsmError
    ensures { result ≡ refusal_of line fault }
{
    match fault {
        AsmFault::NoMemory => AsmError { line: 0, fault },
        _ => AsmError { line, fault },
    }
}

/// True if one of the heads stands at that slot.
fn is_at(heads: &[Head], slot: usize) -> bool
    ensures { result ≡ is_some (head_at heads.now slot) }
{
    for head in heads {
        if head.slot() as usize == slot {
            return true;
        }
    }
    false
}

/// What stands above a line of a method: the heads so far, and the next slot.
#[derive(Clone, Copy)]
struct Above<'a> {
    done: &'a [Head],
    slot: usize,
}

/// The head of those places at the next slot.
fn placed(above: Above, places: Vec<HeadPlace>) -> Result<Head, AsmFault>
    ensures { result ≡ placed above.entry.done.now above.entry.slot (Ok places.items) }
{
    if above.done.len() >= HEAD_LIMIT || above.slot > SLOT_LIMIT {
        return Err(AsmFault::Range);
    }
    if is_at(above.done, above.slot) {
        return Err(AsmFault::Label);
    }
    Ok(Head::new(above.slot as u16, places))
}

/// The head of a line, with the lines of its method below it.
fn head_of(
    alloc: Global,
    line: usize,
    above: Above,
    below: &[&[u8]],
    text: &[u8],
) -> Result<Head, AsmError>
    ensures { Gives (λ h. h) result
        (on_line line (head_of above.entry.done.now above.entry.slot (contents below.now) text.now) Ok) }
{
    if !instruction_follows(below) {
        return Err(AsmError {
            line,
            fault: AsmFault::Word,
        });
    }
    match places_of(alloc, after_word(text)) {
        Ok(places) => match placed(above, places) {
            Ok(head) => Ok(head),
            Err(fault) => Err(AsmError { line, fault }),
        },
        Err(fault) => Err(refusal(line, fault)),
    }
}

/// The heads of a method's lines below its budget, the first of which has the number `first`.
#[tactic(auto, unfolding(crate::specs::Reading::heads_from))]
fn heads_from(alloc: Global, first: usize, lines: &[&[u8]]) -> Result<Vec<Head>, AsmError>
    requires { first + 2 * length lines.now + 2 < 2 ^ 64 }
    ensures { Gives (λ v. v.items) result (heads_from first 0 [] (contents lines.now)) }
{
    let mut heads = Vec::new(alloc);
    let mut line = first;
    let mut slot = 0;
    let mut rest = lines;
    while let [text, below @ ..] = rest {
        if is_head(text) {
            let above = Above { done: &heads, slot };
            let head = head_of(alloc, line, above, below, text)?;
            heads.push(head)?;
        } else if is_budget(text) {
            return Err(AsmError {
                line,
                fault: AsmFault::Word,
            });
        } else {
            slot += slots_of(text);
        }
        line += 1;
        rest = below;
    }
    Ok(heads)
}

/// The loops of a budget and the lines below it, one of which is a head's.
fn with_heads(
    alloc: Global,
    first: usize,
    budget: u32,
    lines: &[&[u8]],
) -> Result<Option<Loops>, AsmError>
    requires room { first + 2 * length lines.now + 2 < 2 ^ 64 }
    requires paid { 1 ≤ budget }
    requires bounded { budget ≤ BUDGET_LIMIT }
    requires some { has_head (contents lines.now) ≡ true }
    ensures { Gives (λ l. l) result (with_heads budget (heads_from first 0 [] (contents lines.now))) }
{
    let heads = match heads_from(alloc, first, lines) {
        Ok(heads) => heads,
        Err(error) => return Err(error),
    };
    match Loops::new(budget, heads) {
        Ok(loops) => Ok(Some(loops)),
        // Each head was tested as it was read, and one was read.
        Err(_) => unreachable!(),
    }
}

/// The budget of a line, with the lines of its method below it.
fn budget_on(below: &[&[u8]], text: &[u8]) -> Result<u32, AsmFault>
    ensures read { result ≡ budget_on (contents below.now) text.now }
    ensures within { IfOk result (λ budget. (1 ≤ budget) × (budget ≤ BUDGET_LIMIT)) }
    ensures some { IfOk result (λ _. has_head (contents below.now) ≡ true) }
{
    let budget = budget_of(after_word(text))?;
    if has_head(below) {
        Ok(budget)
    } else {
        Err(AsmFault::Label)
    }
}

/// Refuses the first of the lines that says loops.
#[tactic(auto, unfolding(crate::specs::Reading::no_loops))]
fn no_loops(first: usize, lines: &[&[u8]]) -> Result<Option<Loops>, AsmError>
    requires { first + length lines.now < 2 ^ 64 }
    ensures { result ≡ no_loops first (contents lines.now) }
{
    let mut line = first;
    let mut rest = lines;
    while let [text, below @ ..] = rest {
        if is_loop_line(text) {
            return Err(AsmError {
                line,
                fault: AsmFault::Word,
            });
        }
        line += 1;
        rest = below;
    }
    Ok(None)
}

/// The loops of the lines of a method from its budget's on.
fn with_budget(
    alloc: Global,
    line: usize,
    text: &[u8],
    below: &[&[u8]],
) -> Result<Option<Loops>, AsmError>
    requires { line + 1 + 2 * length below.now + 2 < 2 ^ 64 }
    ensures { Gives (λ l. l) result (on_line line (budget_on (contents below.now) text.now)
        (λ budget. with_heads budget (heads_from (line + 1) 0 [] (contents below.now)))) }
{
    match budget_on(below, text) {
        Ok(budget) => with_heads(alloc, line + 1, budget, below),
        Err(fault) => Err(AsmError { line, fault }),
    }
}

/// The loops of a method, by its lines below `.method`, the first of which has the number `first`.
#[tactic(auto, unfolding(crate::specs::Reading::method_loops))]
pub(crate) fn method_loops(
    alloc: Global,
    first: usize,
    lines: &[&[u8]],
) -> Result<Option<Loops>, AsmError>
    requires { first + 2 * length lines.now + 2 < 2 ^ 64 }
    ensures { Gives (λ l. l) result (method_loops first (contents lines.now)) }
{
    let mut line = first;
    let mut rest = lines;
    while let [text, below @ ..] = rest {
        if is_budget(text) {
            return with_budget(alloc, line, text, below);
        }
        if !text.is_empty() {
            return no_loops(line, rest);
        }
        line += 1;
        rest = below;
    }
    Ok(None)
}
