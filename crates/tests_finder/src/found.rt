//! What is found for a method, as text, and the verdict on it.

ghost use Rattle.bpf_decode.specs.Class.{IsMethod};

use crate::loops::{HEADS, REFUSED, VERDICTS};
use bpf_asm::assemble;
use bpf_decode::{ClassImage, Method, RuleSet};
use loop_finder::{FindError, find_heads};
use loop_heads::{HeadPlace, Loops, PlaceKind};
use loop_verdict::verify_by_heads;
use std::alloc::Global;
use std::process::Abort;
use verifier::Refusal;

const BUDGET: u32 = 1000;

/// The number of decimal digits; of others the greatest.
fn number(text: &str) -> u16 {
    text.parse::<u16>().unwrap_or(u16::MAX)
}

/// A class of that rule set and the method of a row: flags, in_cap, out_cap, and its lines.
fn class_of(alloc: Global, rules: RuleSet, numbers: &str, lines: &str) -> Option<ClassImage> {
    let mut words = numbers.split_whitespace();
    let flags = number(words.next()?);
    let in_cap = number(words.next()?);
    let out_cap = number(words.next()?);
    let text = String::from_str(alloc, lines)
        .ok()?
        .replace(alloc, ';', "\n")
        .ok()?;
    let code = assemble(alloc, &text).ok()?;
    let name = String::from_str(alloc, "f").ok()?;
    let mut methods = Vec::new(alloc);
    methods
        .push(Method::new(name, (flags % 256) as u8, in_cap, out_cap, code))
        .ok()?;
    ClassImage::new(methods, rules).ok()
}

fn put_kind(alloc: Global, kind: PlaceKind) -> Option<String> {
    match kind {
        PlaceKind::Unset => format!(in alloc; "unset").ok(),
        PlaceKind::Any => format!(in alloc; "any").ok(),
        PlaceKind::Unsigned(a, b) => format!(in alloc; "{a} {b}").ok(),
        PlaceKind::Signed(a, b) => format!(in alloc; "signed {a} {b}").ok(),
        PlaceKind::Input(a, b) => format!(in alloc; "in {a} {b}").ok(),
        PlaceKind::Output(a, b) => format!(in alloc; "out {a} {b}").ok(),
        PlaceKind::Stack(a, b) => format!(in alloc; "stack {a} {b}").ok(),
    }
}

/// A place's line of text: `r0` to `r9`, `s0` to `s63`.
fn put_place(alloc: Global, place: &HeadPlace) -> Option<String> {
    let kind = put_kind(alloc, place.kind)?;
    if place.number < 11 {
        format!(in alloc; "r{} {}", place.number, kind).ok()
    } else {
        format!(in alloc; "s{} {}", place.number.wrapping_sub(11), kind).ok()
    }
}

/// Heads as text: of each its slot, a colon, and its places.
fn put_heads(alloc: Global, loops: &Loops) -> Option<String> {
    let mut text = String::new(alloc);
    for head in loops.heads() {
        if !text.is_empty() {
            text.push_str("; ").ok()?;
        }
        text.push_str(&format!(in alloc; "{}:", head.slot()).ok()?)
            .ok()?;
        let mut mark = " ";
        for place in head.places() {
            text.push_str(mark).ok()?;
            text.push_str(&put_place(alloc, place)?).ok()?;
            mark = ", ";
        }
    }
    Some(text)
}

/// The verdict on a method with heads: `ok`, or slot and rule.
fn put_verdict(alloc: Global, method: &Method, loops: &Loops) -> Option<String>
    requires { IsMethod method.now }
{
    match verify_by_heads(alloc, 0, method, loops) {
        Ok(_) => format!(in alloc; "ok").ok(),
        Err(Refusal { slot, rule, .. }) => format!(in alloc; "{slot}:{}", rule.number()).ok(),
    }
}

/// What is found for the method of a row, and the verdict on it; `none` if there are no heads.
fn found(alloc: Global, numbers: &str, lines: &str) -> Option<(String, String)> {
    let class = class_of(alloc, RuleSet::Three, numbers, lines)?;
    let method = class.methods().first()?;
    let none = format!(in alloc; "none").ok()?;
    match find_heads(alloc, class.rules(), method, BUDGET) {
        Err(error) => Some((format!(in alloc; "{error}").ok()?, none)),
        Ok(None) => Some((format!(in alloc; "none").ok()?, none)),
        Ok(Some(loops)) => Some((
            put_heads(alloc, &loops)?,
            put_verdict(alloc, method, &loops)?,
        )),
    }
}

/// True if a row's method gets that verdict, and those heads, if it names any. A row has a verdict, flags,
/// in_cap and out_cap, the heads if it names them, and the lines, with ` / ` between them.
fn is_found(alloc: Global, row: &str) -> Option<bool> {
    let (told, rest) = row.split_once(" / ")?;
    let (verdict, numbers) = told.split_once(' ')?;
    match rest.split_once(" / ") {
        None => {
            let (_, judged) = found(alloc, numbers, rest)?;
            Some(judged.as_str() == verdict)
        }
        Some((wanted, lines)) => {
            let (heads, judged) = found(alloc, numbers, lines)?;
            Some(judged.as_str() == verdict && heads.as_str() == wanted)
        }
    }
}

/// Checks rows, one a line; one whose first character is `#` says of what the rows after it are.
fn check<R: Abort>(rt: &R, alloc: Global, rows: &str, wanted: usize) {
    let mut count = 0usize;
    for row in rows.lines() {
        if !row.starts_with('#') {
            assert!(rt; is_found(alloc, row) == Some(true), "{row}");
            count = count.wrapping_add(1);
        }
    }
    assert!(rt; count == wanted);
}

/// True if the search ends with that error, for a class of that rule set and one method without an input.
fn is_not_found(
    alloc: Global,
    rules: RuleSet,
    lines: &str,
    budget: u32,
    wanted: FindError,
) -> Option<bool> {
    let class = class_of(alloc, rules, "1 0 0", lines)?;
    let method = class.methods().first()?;
    match find_heads(alloc, class.rules(), method, budget) {
        Ok(_) => Some(false),
        Err(error) => Some(error == wanted),
    }
}

#[test]
fn finds_heads(rt: HostRuntime) {
    check(&rt, rt.alloc(), HEADS, 12);
    check(&rt, rt.alloc(), VERDICTS, 35);
    check(&rt, rt.alloc(), REFUSED, 4);
}

/// Jumps of a slot to itself.
fn still(alloc: Global, count: usize) -> Option<String> {
    let mut lines = String::from_str(alloc, "mov r0, 0;").ok()?;
    for _ in 0..count {
        lines.push_str("jeq r0, 1, -1;").ok()?;
    }
    lines.push_str("exit").ok()?;
    Some(lines)
}

#[test]
fn refuses(rt: HostRuntime) {
    let alloc = rt.alloc();
    let three = RuleSet::Three;
    let lines = "mov r0, 0; jlt r0, 1, -1; exit";
    assert!(rt; is_not_found(alloc, three, lines, 0, FindError::Limit) == Some(true));
    assert!(rt; is_not_found(alloc, three, lines, 1_048_577, FindError::Limit) == Some(true));
    assert!(rt; is_not_found(alloc, three, lines, 1_048_576, FindError::Limit) == Some(false));
    assert!(rt; is_not_found(alloc, three, "mov r0, 0; exit", 0, FindError::Limit) == Some(true));
    assert!(rt; is_not_found(alloc, RuleSet::Two, lines, 1, FindError::RuleSet) == Some(true));
    assert!(rt; is_not_found(alloc, RuleSet::Two, "exit", 1, FindError::RuleSet) == Some(false));
    let most = still(alloc, 64).expect(&rt, "memory");
    assert!(rt; is_not_found(alloc, three, &most, 1, FindError::Limit) == Some(false));
    let more = still(alloc, 65).expect(&rt, "memory");
    assert!(rt; is_not_found(alloc, three, &more, 1, FindError::Limit) == Some(true));
}
