//! Verdicts of `verify`: tables of methods, whole classes, and the longest ones.

mod answers;
mod arithmetic;
mod branches;
mod calls;
mod classes;
mod copies;
mod longest;
mod methods;
mod ranges;
mod spills;
mod third;

use crate::slots_as_numbers;
use bpf_asm::assemble;
use bpf_decode::{ClassImage, Insn, Method, RuleSet};
use std::alloc::Global;
use std::process::Abort;
use verifier::{Refusal, verify};

/// Words of a row, and the text that each stands for.
#[rattlefmt::skip]
const WORDS: [(&str, &str); 11] = [
    ("GET", "stb [r10-8], 97; KEY; ROOM 64; call 6"),
    ("KEY", "mov r1, r10; add r1, -8; mov r2, 1"),
    ("ROOM", "mov r3, r10; add r3, -64; mov r4,"),
    ("WRITE", "mov r1, 0; mov r2, r10; add r2, -64; mov r3,"),
    ("USE", "add r7, r0; stb [r7+0], 1; mov r0, 0; exit"),
    ("OUT", "add r3, r4; stb [r3+0], 1; exit"),
    ("KEEP", "stxdw [r10-8], r3"),
    ("BACK", "ldxdw r4, [r10-8]"),
    ("SUM", "jge r4, r2, +6; mov r5, r1; add r5, r4; ldxb r5, [r5+0]; add r0, r5; add r4, 1; ja -7; exit"),
    ("FILL", "mov r0, r10; sub r0, 64; add r0, r4; stb [r0+0], 1; add r4, 1; jne r4, 64, -6; mov r0, r4; exit"),
    ("WALK", "ldxb r5, [r1+0]; add r0, r5; add r1, 1; ja -5; exit"),
];

/// The number of decimal digits; of others the greatest, which is none of flags, slots and rules.
pub fn number(text: &str) -> u16 {
    text.parse::<u16>().unwrap_or(u16::MAX)
}

/// The capacity of a word; if a star ends it, less by that much.
fn cap(word: &str, less: u16) -> u16 {
    match word.split_once('*') {
        None => number(word),
        Some((least, _)) => number(least).saturating_sub(less),
    }
}

/// The declaration of a method.
#[derive(Clone, Copy)]
struct Declared {
    flags: u8,
    in_cap: u16,
    out_cap: u16,
}

/// The declaration that three words spell: flags, in_cap and out_cap.
fn told_declared(text: &str, less: u16) -> Declared {
    let mut words = text.split_whitespace();
    let flags = number(words.next().unwrap_or(""));
    let in_cap = cap(words.next().unwrap_or(""), less);
    let out_cap = cap(words.next().unwrap_or(""), less);
    Declared {
        flags: (flags % 256) as u8,
        in_cap,
        out_cap,
    }
}

/// The instructions of lines, with a semicolon between two.
fn code_of(alloc: Global, lines: &str) -> Option<Vec<Insn>> {
    let mut text = String::from_str(alloc, lines).ok()?;
    for (word, meaning) in &WORDS {
        text = text.replace(alloc, *word, *meaning).ok()?;
    }
    let text = text.replace(alloc, ';', "\n").ok()?;
    assemble(alloc, &text).ok()
}

/// A method of that name. None if memory ran out.
fn method(alloc: Global, name: &str, code: Vec<Insn>, declared: Declared) -> Option<Method> {
    let name = String::from_str(alloc, name).ok()?;
    Some(Method::new(
        name,
        declared.flags,
        declared.in_cap,
        declared.out_cap,
        code,
    ))
}

/// The method of a row: flags, in_cap, out_cap, a colon, and its lines.
pub fn method_of(alloc: Global, name: &str, row: &str, less: u16) -> Option<Method> {
    let (numbers, lines) = row.split_once(": ")?;
    let code = code_of(alloc, lines)?;
    method(alloc, name, code, told_declared(numbers, less))
}

/// A class of that rule set and one method.
pub fn class_of(alloc: Global, rules: RuleSet, method: Option<Method>) -> Option<ClassImage> {
    let mut methods = Vec::new(alloc);
    methods.push(method?).ok()?;
    ClassImage::new(methods, rules).ok()
}

/// True if a refusal is of that method, and of the slot and the rule that a word `slot:rule` gives.
pub fn is_told(refusal: &Refusal, method: usize, told: &str) -> bool {
    match told.split_once(':') {
        None => false,
        Some((slot, rule)) => {
            refusal.method == method
                && refusal.slot == usize::from(number(slot))
                && u16::from(refusal.rule.number()) == number(rule)
        }
    }
}

/// True if `verify` gives that verdict on a class: `ok`, or that method, the slot and the rule.
fn is_judged(alloc: Global, class: &ClassImage, method: usize, told: &str) -> bool {
    match verify(alloc, class) {
        Ok(_) => told == "ok",
        Err(refusal) => is_told(&refusal, method, told),
    }
}

/// True if `verify` gives that verdict on a class of that rule set and one method; with `none`, if
/// there is the method and no such class.
fn is_method_judged(alloc: Global, rules: RuleSet, method: Option<Method>, told: &str) -> bool {
    let is_none = method.is_some() && told == "none";
    match class_of(alloc, rules, method) {
        None => is_none,
        Some(class) => is_judged(alloc, &class, 0, told),
    }
}

/// What a row has after that many words.
fn after(row: &str, words: usize) -> &str {
    let mut rest = row;
    for _ in 0..words {
        let (_, others) = rest.split_once(' ').unwrap_or((rest, ""));
        rest = others;
    }
    rest
}

/// Checks a row with a capacity that is less by that much, if it has one with a star. If it isn't
/// less, the first set accepts the method.
fn check_row<R: Abort>(rt: &R, alloc: Global, sets: &[RuleSet], row: &str, less: u16) {
    let mut words = row.split_whitespace();
    for (at, rules) in sets.iter().enumerate() {
        let word = words.next().unwrap_or("");
        let told = if less == 0 && at == 0 { "ok" } else { word };
        let method = method_of(alloc, "f", after(row, sets.len()), less);
        assert!(rt; is_method_judged(alloc, *rules, method, told), "{row}");
    }
}

/// Checks rows, one a line: a verdict in each rule set (`ok`, `none` if it has no such class, or the
/// slot and the rule's number), and a method. If a star ends a capacity, that is the least with
/// which the first set accepts the method, and the verdicts are those with one less. A line whose
/// first character is `#` says of what the rows after it are. There are that many rows; one with a
/// star is two.
fn check<R: Abort>(rt: &R, alloc: Global, sets: &[RuleSet], rows: &str, wanted: usize) {
    let mut count = 0usize;
    for row in rows.lines() {
        if row.starts_with('#') {
            continue;
        }
        check_row(rt, alloc, sets, row, 1);
        count = count.wrapping_add(1);
        if row.split_once('*').is_some() {
            check_row(rt, alloc, sets, row, 0);
            count = count.wrapping_add(1);
        }
    }
    assert!(rt; count == wanted);
}

#[test]
fn judges_spills(rt: HostRuntime) {
    slots_as_numbers();
    let sets = [RuleSet::Two, RuleSet::One];
    check(&rt, rt.alloc(), &sets, spills::SPILLS, 69);
}

#[test]
fn judges_by_the_third_set(rt: HostRuntime) {
    let sets = [RuleSet::Three, RuleSet::Two];
    check(&rt, rt.alloc(), &sets, third::THIRD, 31);
    check(&rt, rt.alloc(), &sets, answers::ANSWERS, 42);
    check(&rt, rt.alloc(), &sets, copies::COPIES, 25);
}

#[test]
fn judges_rows(rt: HostRuntime) {
    let one = [RuleSet::One];
    check(&rt, rt.alloc(), &one, methods::METHODS, 46);
    check(&rt, rt.alloc(), &one, arithmetic::ARITHMETIC, 60);
    check(&rt, rt.alloc(), &one, branches::BRANCHES, 23);
    check(&rt, rt.alloc(), &one, ranges::RANGES, 50);
    check(&rt, rt.alloc(), &one, calls::CALLS, 71);
}
