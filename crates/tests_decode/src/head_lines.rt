//! Lines of budgets and of heads: what is read, written and refused.

use bpf_asm::AsmFault;
use loop_heads::{HeadPlace, PlaceKind};
use loop_lines::{budget_of, places_of, push_budget, push_head};
use std::alloc::Global;

/// What a line says: as its canonical text, as another line says it, or nothing for a fault.
enum Says {
    Budget(u32),
    Places(&'static [(u8, PlaceKind)]),
    As(&'static str),
    Fault(AsmFault),
}

#[rattlefmt::skip]
const ROWS: [(&str, Says); 48] = [
    (".head r0 any, r4 0 16", Says::Places(&[(0, PlaceKind::Any), (4, PlaceKind::Unsigned(0, 16))])),
    (".head", Says::Places(&[])),
    (".head r4 0 63", Says::Places(&[(4, PlaceKind::Unsigned(0, 63))])),
    (".head r0 any, r1 in 0 16", Says::Places(&[(0, PlaceKind::Any), (1, PlaceKind::Input(0, 16))])),
    (".head r1 unset, r2 unset, r3 unset, r6 any", Says::Places(&[(1, PlaceKind::Unset),
        (2, PlaceKind::Unset), (3, PlaceKind::Unset), (6, PlaceKind::Any)])),
    (".head r0 any, r4 signed -1 5", Says::Places(&[(0, PlaceKind::Any), (4, PlaceKind::Signed(-1, 5))])),
    (".head s56 any, s57 any, s58 any, s59 any, s60 any, s61 any, s62 any, s63 any", Says::Places(&[
        (67, PlaceKind::Any), (68, PlaceKind::Any), (69, PlaceKind::Any), (70, PlaceKind::Any),
        (71, PlaceKind::Any), (72, PlaceKind::Any), (73, PlaceKind::Any), (74, PlaceKind::Any)])),
    (".head r9 out 1 2, s0 stack 504 512", Says::Places(&[(9, PlaceKind::Output(1, 2)),
        (11, PlaceKind::Stack(504, 512))])),
    (".head r0 18446744073709551615 18446744073709551615",
        Says::Places(&[(0, PlaceKind::Unsigned(u64::MAX, u64::MAX))])),
    (".head r0 signed -9223372036854775808 9223372036854775807",
        Says::Places(&[(0, PlaceKind::Signed(i64::MIN, i64::MAX))])),
    (".head r0\tany ,r4  0x0 0x1F", Says::As(".head r0 any, r4 0 31")),
    (".head r4 signed -0x10 0xa", Says::As(".head r4 signed -16 10")),
    (".budget 1", Says::Budget(1)),
    (".budget 100", Says::Budget(100)),
    (".budget 1048576", Says::Budget(1_048_576)),
    (".budget", Says::Fault(AsmFault::Operand)),
    (".budget ten", Says::Fault(AsmFault::Operand)),
    (".budget 010", Says::Fault(AsmFault::Operand)),
    (".budget 100 5", Says::Fault(AsmFault::Operand)),
    (".budget 0", Says::Fault(AsmFault::Range)),
    (".budget 1048577", Says::Fault(AsmFault::Range)),
    (".budget 18446744073709551616", Says::Fault(AsmFault::Range)),
    (".budget 0 5", Says::Fault(AsmFault::Range)),
    (".head r10 any", Says::Fault(AsmFault::Operand)),        // names
    (".head s64 any", Says::Fault(AsmFault::Operand)),
    (".head s01 any", Says::Fault(AsmFault::Operand)),
    (".head 4 any", Says::Fault(AsmFault::Operand)),
    (".head r4 0 16, r0 any", Says::Fault(AsmFault::Operand)), // their order
    (".head r4 any, r4 any", Says::Fault(AsmFault::Operand)),
    (".head r4 all", Says::Fault(AsmFault::Operand)),         // kinds, words too few or many
    (".head r4", Says::Fault(AsmFault::Operand)),
    (".head r4 in", Says::Fault(AsmFault::Operand)),
    (".head r4 16", Says::Fault(AsmFault::Operand)),
    (".head r4 any 16", Says::Fault(AsmFault::Operand)),
    (".head r4 0 16 17", Says::Fault(AsmFault::Operand)),
    (".head r0 any,, r4 any", Says::Fault(AsmFault::Operand)), // nothing at a comma
    (".head r0 any,", Says::Fault(AsmFault::Operand)),
    (".head , r0 any", Says::Fault(AsmFault::Operand)),
    (".head r4 -0 1", Says::Fault(AsmFault::Operand)),        // numbers
    (".head r4 0x10000000000000000 1", Says::Fault(AsmFault::Operand)),
    (".head r4 18446744073709551616 1", Says::Fault(AsmFault::Range)),
    (".head r4 signed -9223372036854775809 1", Says::Fault(AsmFault::Range)),
    (".head r4 signed 0 9223372036854775808", Says::Fault(AsmFault::Range)),
    (".head r4 -1 1", Says::Fault(AsmFault::Range)),
    (".head r4 5 4", Says::Fault(AsmFault::Range)),           // bounds
    (".head r4 signed 1 -1", Says::Fault(AsmFault::Range)),
    (".head r4 5 4 3, r10 any", Says::Fault(AsmFault::Range)), // the first of several
    (".head r4 any, r0 5 4", Says::Fault(AsmFault::Operand)),
];

/// What stands after a line's first word.
fn rest(line: &str) -> &[u8] {
    match line.split_once(' ') {
        Some((_, rest)) => rest.as_bytes(),
        None => b"".as_slice(),
    }
}

/// True if they are these places.
fn are(places: &[HeadPlace], wanted: &[(u8, PlaceKind)]) -> bool {
    for (place, (number, kind)) in places.iter().zip(wanted) {
        if place.number != *number || place.kind != *kind {
            return false;
        }
    }
    places.len() == wanted.len()
}

/// True if the line says these places, and is their canonical text.
fn is_kept(alloc: Global, line: &str, wanted: &[(u8, PlaceKind)]) -> Result<bool, AsmFault> {
    let places = places_of(alloc, rest(line))?;
    let mut text = String::new(alloc);
    match push_head(&mut text, &places) {
        Ok(()) => Ok(are(&places, wanted) && text.as_str() == line),
        Err(_) => Err(AsmFault::NoMemory),
    }
}

/// True if the line says that budget, and is its canonical text.
fn is_budget(alloc: Global, line: &str, budget: u32) -> bool {
    let mut text = String::new(alloc);
    push_budget(&mut text, budget).is_ok()
        && text.as_str() == line
        && budget_of(rest(line)) == Ok(budget)
}

/// True if two lines say the same places.
fn are_alike(alloc: Global, line: &str, other: &str) -> bool {
    match (places_of(alloc, rest(line)), places_of(alloc, rest(other))) {
        (Ok(places), Ok(wanted)) => places.as_slice() == wanted.as_slice(),
        _ => false,
    }
}

/// Why the line is refused, if it is.
fn fault_of(alloc: Global, line: &str) -> Option<AsmFault> {
    if line.starts_with(".budget") {
        budget_of(rest(line)).err()
    } else {
        places_of(alloc, rest(line)).err()
    }
}

fn is_right(alloc: Global, line: &str, says: &Says) -> bool {
    match says {
        Says::Budget(budget) => is_budget(alloc, line, *budget),
        Says::Places(wanted) => is_kept(alloc, line, *wanted) == Ok(true),
        Says::As(other) => are_alike(alloc, line, *other),
        Says::Fault(fault) => fault_of(alloc, line) == Some(*fault),
    }
}

#[test]
fn lines(rt: HostRuntime) {
    for (line, says) in &ROWS {
        assert!(rt; is_right(rt.alloc(), *line, says));
    }
}

/// Where memory is refused to a call, by `rt try --test --fail-alloc`, it says so, and made again
/// it gives its answer.
#[test]
fn memory(rt: HostRuntime) {
    let (line, wanted) = (".head r0 any", [(0, PlaceKind::Any)]);
    let first = is_kept(rt.alloc(), line, &wanted);
    let refused = first == Err(AsmFault::NoMemory);
    assert!(rt; first == Ok(true) || refused && is_kept(rt.alloc(), line, &wanted) == Ok(true));
}
