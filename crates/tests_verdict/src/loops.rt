//! Verdicts of `verify_by_heads`: worked methods, and random ones next to a slow program.

mod random;
mod rows;
mod slow;

use crate::verdicts::{class_of, is_told, method_of, number};
use bpf_decode::{ClassImage, RuleSet};
use loop_heads::{Head, HeadPlace, Loops, LoopsError, PlaceKind};
use loop_verdict::verify_by_heads;
use std::alloc::Global;
use std::process::Abort;

/// The number of a place: a register's, or from 11 on a slot's of the stack.
fn place_number(name: &str) -> Option<u8> {
    let (least, digits) = match name.strip_prefix('s') {
        Some(digits) => (11, digits),
        None => (0, name.strip_prefix('r')?),
    };
    digits.parse::<u8>().ok()?.checked_add(least)
}

/// The kind of a place, by its words.
fn kind_of(word: &str, low: &str, high: &str) -> Option<PlaceKind> {
    match word {
        "unset" => Some(PlaceKind::Unset),
        "any" => Some(PlaceKind::Any),
        "signed" => Some(PlaceKind::Signed(low.parse().ok()?, high.parse().ok()?)),
        "in" => Some(PlaceKind::Input(low.parse().ok()?, high.parse().ok()?)),
        "out" => Some(PlaceKind::Output(low.parse().ok()?, high.parse().ok()?)),
        "stack" => Some(PlaceKind::Stack(low.parse().ok()?, high.parse().ok()?)),
        _ => Some(PlaceKind::Unsigned(word.parse().ok()?, low.parse().ok()?)),
    }
}

/// A place and what is declared of it.
fn place_of(text: &str) -> Option<HeadPlace> {
    let mut words = text.split_whitespace();
    let number = place_number(words.next()?)?;
    let word = words.next()?;
    let low = words.next().unwrap_or("");
    let kind = kind_of(word, low, words.next().unwrap_or(""))?;
    Some(HeadPlace { number, kind })
}

/// The head of a text: its slot, and its places with commas between them.
fn head_of(alloc: Global, text: &str) -> Option<Head> {
    let (slot, rest) = text.split_once(' ').unwrap_or((text, ""));
    let mut places = Vec::new(alloc);
    for place in rest.split(',') {
        if !place.is_empty() {
            places.push(place_of(place)?).ok()?;
        }
    }
    Some(Head::new(number(slot), places))
}

/// Heads, with semicolons between them, and a budget, if they are such.
fn loops_of(alloc: Global, budget: u32, text: &str) -> Option<Result<Loops, LoopsError>> {
    let mut heads = Vec::new(alloc);
    for head in text.split(';') {
        heads.push(head_of(alloc, head)?).ok()?;
    }
    Some(Loops::new(budget, heads))
}

/// True if that is the verdict on the class's method: `ok`, or the slot and the rule.
fn is_judged(alloc: Global, class: &ClassImage, loops: &Loops, told: &str) -> bool {
    for (number, method) in class.methods().iter().enumerate() {
        match verify_by_heads(alloc, number, method, loops) {
            Ok(_) => return told == "ok",
            Err(refusal) => return is_told(&refusal, 0, told),
        }
    }
    false
}

/// True if a row's verdict is right: the verdict, the heads, and the method, with bars between them.
fn is_right(alloc: Global, row: &str) -> Option<bool> {
    let (told, rest) = row.split_once(" | ")?;
    let (heads, lines) = rest.split_once(" | ")?;
    let class = class_of(alloc, RuleSet::Three, method_of(alloc, "f", lines, 0))?;
    let loops = loops_of(alloc, 100, heads)?.ok()?;
    Some(is_judged(alloc, &class, &loops, told))
}

#[test]
fn judges_loops(rt: HostRuntime) {
    let mut count = 0usize;
    for row in rows::ROWS.lines() {
        if !row.starts_with('#') {
            assert!(rt; is_right(rt.alloc(), row) == Some(true), "{row}");
            count = count.wrapping_add(1);
        }
    }
    assert!(rt; count == 24);
}

/// True if heads with that budget are refused so.
fn is_refused(alloc: Global, budget: u32, heads: &str, wanted: LoopsError) -> bool {
    match loops_of(alloc, budget, heads) {
        Some(Err(error)) => error == wanted,
        _ => false,
    }
}

#[test]
fn refuses_loops(rt: HostRuntime) {
    for (budget, heads, wanted) in [
        (0, "2", LoopsError::Limit),
        (1_048_577, "2", LoopsError::Limit),
        (100, "2 r10 any", LoopsError::Head(2)),
        (100, "2 s64 any", LoopsError::Head(2)),
        (100, "2 r4 5 4", LoopsError::Head(2)),
        (100, "2;2", LoopsError::Head(2)),
    ] {
        assert!(rt; is_refused(rt.alloc(), budget, heads, wanted), "{heads}");
    }
}
