//! Class texts with loops: the slots of each method's heads, and what is refused.

use bpf_asm::{AsmError, AsmFault};
use bpf_decode::Method;
use loop_asm::{assemble_class, disassemble_class, disassemble_with_slots};
use loop_heads::Loops;
use std::alloc::Global;

/// What a text says: the budget of each method and the slots of its heads, or the first line that is
/// refused and its fault.
enum Says {
    Loops(&'static [(u32, &'static [u16])]),
    Fault(usize, AsmFault),
}

/// No loops.
const NONE: (u32, &[u16]) = (0, &[]);

#[rattlefmt::skip]
const ROWS: [(&str, Says); 40] = [
    (".rules 3\n.method f r 0 0\nexit", Says::Loops(&[NONE])),
    (".rules 3\n.method f r 0 0\n.budget 9\n.head\nja -1\nexit", Says::Loops(&[(9, &[0])])),
    (".rules 3\n.method f r 0 0\n\n; a comment\n.budget 9 ; more\nmov r0, 0\n.head r0 any\nagain:\nja again\nexit",
        Says::Loops(&[(9, &[1])])),
    (".rules 3\n.method f r 0 0\n.budget 1048576\nlddw r1, 5\na:\n\t.head\tr0 any, r1 0 5\nja a\n.head\n\n; x\nexit",
        Says::Loops(&[(1_048_576, &[2, 3])])),
    (".rules 3\n.method f r 0 0\nexit\n.method g r 0 0\n.budget 1\n.head\nexit\n.method h r 0 0\nexit",
        Says::Loops(&[NONE, (1, &[0]), NONE])),
    (".rules 2\n.method f r 0 0\nexit", Says::Loops(&[NONE])),
    (".method f r 0 0\nexit\n.method g r 0 0\nexit", Says::Loops(&[NONE, NONE])),
    ("", Says::Fault(1, AsmFault::Range)),
    (".rules 3\n", Says::Fault(1, AsmFault::Range)),
    (".rules 4\n.method f r 0 0\n.budget 9\n.head\nexit", Says::Fault(1, AsmFault::Operand)),
    // sets 1 and 2: unknown words
    (".method f r 0 0\n.budget 9\n.head\nexit", Says::Fault(2, AsmFault::Word)),
    (".rules 2\n.method f r 0 0\nexit\n.head\nexit", Says::Fault(4, AsmFault::Word)),
    (".budget 9\n.rules 3\n.method f r 0 0\n.budget 9\n.head\nexit", Says::Fault(1, AsmFault::Word)),
    (".rules 2\n.method f r 0 0\n.head", Says::Fault(3, AsmFault::Word)),
    // where they may not stand
    (".rules 3\n.budget 9\n.method f r 0 0\n.head\nexit", Says::Fault(2, AsmFault::Word)),
    (".rules 3\n.head\n.method f r 0 0\nexit", Says::Fault(2, AsmFault::Word)),
    (".rules 3\n.method f r 0 0\n.head\nexit", Says::Fault(3, AsmFault::Word)),
    (".rules 3\n.method f r 0 0\nexit\n.budget 9", Says::Fault(4, AsmFault::Word)),
    (".rules 3\n.method f r 0 0\na:\n.budget 9\n.head\nja a", Says::Fault(4, AsmFault::Word)),
    (".rules 3\n.method f r 0 0\n.budget 9\n.budget 9\n.head\nexit", Says::Fault(4, AsmFault::Word)),
    (".rules 3\n.method f r 0 0\n.head\n.budget 9\nexit", Says::Fault(3, AsmFault::Word)),
    (".rules 3\n.method f r 0 0\n.budget 9\nexit\n.head", Says::Fault(5, AsmFault::Word)),
    (".rules 3\n.method f r 0 0\n.budget 9\nexit\n.head\n.method g r 0 0\nexit", Says::Fault(5, AsmFault::Word)),
    // a budget's line without heads
    (".rules 3\n.method f r 0 0\n.budget 9\nexit", Says::Fault(3, AsmFault::Label)),
    (".rules 3\n.method f r 0 0\n.budget 9\nexit\n.method g r 0 0\n.budget 9\n.head\nexit",
        Says::Fault(3, AsmFault::Label)),
    // a slot's second head
    (".rules 3\n.method f r 0 0\n.budget 9\n.head\n.head r0 any\nexit", Says::Fault(5, AsmFault::Label)),
    (".rules 3\n.method f r 0 0\n.budget 9\n.head\na:\n.head\nja a", Says::Fault(6, AsmFault::Label)),
    // operands and ranges
    (".rules 3\n.method f r 0 0\n.budget\n.head\nexit", Says::Fault(3, AsmFault::Operand)),
    (".rules 3\n.method f r 0 0\n.budget 0\n.head\nexit", Says::Fault(3, AsmFault::Range)),
    (".rules 3\n.method f r 0 0\n.budget 1048577\n.head\nexit", Says::Fault(3, AsmFault::Range)),
    (".rules 3\n.method f r 0 0\n.budget 0\nexit", Says::Fault(3, AsmFault::Range)),
    (".rules 3\n.method f r 0 0\n.budget 9\n.head r10 any\nexit", Says::Fault(4, AsmFault::Operand)),
    (".rules 3\n.method f r 0 0\n.budget 9\n.head r1 any, r0 any\nexit", Says::Fault(4, AsmFault::Operand)),
    (".rules 3\n.method f r 0 0\n.budget 9\n.head r0 5 4\nexit", Says::Fault(4, AsmFault::Range)),
    (".rules 3\n.method f r 0 0\n.budget 9\n.head\n.head r0 5 4\nexit", Says::Fault(5, AsmFault::Range)),
    (".rules 3\n.method f r 0 0\n.budget 9\n.head r10 any\nexit\n.head", Says::Fault(4, AsmFault::Operand)),
    // the first line of all
    (".rules 3\n.method f r 0 0\nfoo\n.head\nexit", Says::Fault(3, AsmFault::Word)),
    (".rules 3\n.method f r 0 0\n.head\nfoo\nexit", Says::Fault(3, AsmFault::Word)),
    (".rules 3\n.method f r 0 0\n.budget 9\n.head r10 any\nmov r0\nexit", Says::Fault(4, AsmFault::Operand)),
    (".rules 3\n.method f r 0 0\n.budget 9\n.head\nmov r0\n.head\n.head\nexit", Says::Fault(5, AsmFault::Operand)),
];

/// True if loops have that budget and heads at these slots.
fn are(loops: Option<&Loops>, wanted: &(u32, &[u16])) -> bool {
    match loops {
        None => wanted.0 == 0,
        Some(loops) => {
            for (head, slot) in loops.heads().iter().zip(wanted.1) {
                if head.slot() != *slot {
                    return false;
                }
            }
            loops.budget() == wanted.0 && loops.heads().len() == wanted.1.len()
        }
    }
}

/// True if each method's loops are as they should be.
fn are_all(methods: &[Method], wanted: &[(u32, &[u16])]) -> bool {
    for (method, wanted) in methods.iter().zip(wanted) {
        if !are(method.loops(), wanted) {
            return false;
        }
    }
    methods.len() == wanted.len()
}

fn is_right(alloc: Global, text: &str, says: &Says) -> bool {
    match (assemble_class(alloc, text), says) {
        (Ok(class), Says::Loops(wanted)) => are_all(class.methods(), *wanted),
        (Err(error), Says::Fault(line, fault)) => {
            error
                == AsmError {
                    line: *line,
                    fault: *fault,
                }
        }
        _ => false,
    }
}

#[test]
fn rows(rt: HostRuntime) {
    for (text, says) in &ROWS {
        assert!(rt; is_right(rt.alloc(), *text, says));
    }
}

/// A method of that many heads, each before an instruction of its own.
fn heads(alloc: Global, count: usize) -> Result<String, std::alloc::AllocError> {
    let mut text = String::new(alloc);
    text.push_str(".rules 3\n.method f r 0 0\n.budget 9\n")?;
    for _ in 0..count {
        text.push_str(".head\nexit\n")?;
    }
    Ok(text)
}

/// 64 heads are read; of 65 the last is refused.
#[test]
fn most_heads(rt: HostRuntime) {
    let full = heads(rt.alloc(), 64);
    let over = heads(rt.alloc(), 65);
    assert!(rt; matches!(&full, Ok(text) if assemble_class(rt.alloc(), text.as_str()).is_ok()));
    assert!(rt;
        matches!(&over, Ok(text) if is_right(rt.alloc(), text.as_str(), &Says::Fault(132, AsmFault::Range)))
    );
}

/// A class's canonical text, and the same with slots.
#[rattlefmt::skip]
const CANONICAL: [(&str, &str); 3] = [
    (".method f r 0 0\nexit\n", ".method f r 0 0\nexit ; slot 0\n"),
    (".rules 3\n.method f r 16 0\n.budget 100\n.head r0 any, r4 0 16\nlddw r0, 0x0000000000000000\n\
        .head\nja -3\nexit\n.method g rw 0 8\nexit\n",
     ".rules 3\n.method f r 16 0\n.budget 100\n.head r0 any, r4 0 16\nlddw r0, 0x0000000000000000 ; slot 0\n\
        .head\nja -3 ; slot 2\nexit ; slot 3\n.method g rw 0 8\nexit ; slot 0\n"),
    (".rules 3\n.method f r 0 0\n.budget 1048576\n.head r1 unset, s56 signed -1 5, s63 stack 0 512\nexit\n",
     ".rules 3\n.method f r 0 0\n.budget 1048576\n.head r1 unset, s56 signed -1 5, s63 stack 0 512\nexit ; slot 0\n"),
];

/// True if the text is its class's canonical one, the other that with slots, and both are read as one
/// class.
fn is_canonical(alloc: Global, text: &str, with_slots: &str) -> Option<bool> {
    let class = assemble_class(alloc, text).ok()?;
    let again = assemble_class(alloc, with_slots).ok()?;
    let own = disassemble_class(alloc, &class).ok()?;
    let slots = disassemble_with_slots(alloc, &again).ok()?;
    Some(own.as_str() == text && slots.as_str() == with_slots)
}

#[test]
fn canonical(rt: HostRuntime) {
    for (text, with_slots) in &CANONICAL {
        assert!(rt; is_canonical(rt.alloc(), *text, *with_slots) == Some(true));
    }
}
