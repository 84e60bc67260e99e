//! Whole classes: which method is refused, and what a verified one keeps.

use super::{class_of, is_judged, method_of};
use bpf_decode::{ClassImage, RuleSet};
use bpf_machine::Caps;
use bpf_ops::Op;
use std::alloc::Global;
use std::fmt::Display;
use verifier::{Refusal, Rule, VerifiedClass, VerifiedMethod, first_rule_set, one_table, verify};

/// A safe method, and two that aren't.
const SAFE: &str = "1 0 0: mov r0, 0; exit";

const JUMP_AND_EXIT: &str = "1 0 0: ja +0; exit";

const EXIT_ALONE: &str = "1 0 0: exit";

/// A method of flags 2, in_cap 3 and out_cap 4.
const WRITER: &str = "2 3 4: ja +0; lddw r0, 7; exit";

static RULES: [(Rule, &str); 17] = [
    (Rule::Backward, "1 Backward"),
    (Rule::Target, "2 Target"),
    (Rule::FallsOff, "3 FallsOff"),
    (Rule::LocalCall, "4 LocalCall"),
    (Rule::UnsetRead, "5 UnsetRead"),
    (Rule::WritesR10, "6 WritesR10"),
    (Rule::PointerArithmetic, "7 PointerArithmetic"),
    (Rule::PointerCompare, "8 PointerCompare"),
    (Rule::PointerStored, "9 PointerStored"),
    (Rule::Bounds, "10 Bounds"),
    (Rule::ReadOnlyRegion, "11 ReadOnlyRegion"),
    (Rule::UnknownHelper, "12 UnknownHelper"),
    (Rule::HelperArgument, "13 HelperArgument"),
    (Rule::WriteHelperInReader, "14 WriteHelperInReader"),
    (Rule::ReturnsPointer, "15 ReturnsPointer"),
    (Rule::NoMemory, "16 NoMemory"),
    (Rule::PointerBytes, "17 PointerBytes"),
];

/// True if a rule or a refusal prints as that text.
fn is_printed<T: Display>(alloc: Global, value: &T, text: &str) -> bool {
    match value.to_string(alloc) {
        Ok(printed) => printed.as_str() == text,
        Err(_) => false,
    }
}

#[test]
fn names_rules(rt: HostRuntime) {
    for (rule, text) in &RULES {
        assert!(rt; is_printed(rt.alloc(), rule, text), "{text}");
    }
}

#[test]
fn prints_refusals(rt: HostRuntime) {
    let refusal = Refusal {
        method: 0,
        slot: 12,
        rule: Rule::UnsetRead,
    };
    assert!(rt;
        is_printed(
            rt.alloc(),
            &refusal,
            "refused method 0 slot 12: 5 UnsetRead"
        )
    );
}

/// A class of the methods that rows spell, of the names `a`, `b` and `c`.
fn class_of_rows(alloc: Global, rules: RuleSet, rows: &[&str]) -> Option<ClassImage> {
    let mut methods = Vec::new(alloc);
    for (row, name) in rows.iter().zip(&["a", "b", "c"]) {
        methods.push(method_of(alloc, *name, *row, 0)?).ok()?;
    }
    ClassImage::new(methods, rules).ok()
}

/// True if `verify` gives that verdict on a class of the methods that rows spell.
fn are_judged(alloc: Global, rules: RuleSet, rows: &[&str], method: usize, told: &str) -> bool {
    match class_of_rows(alloc, rules, rows) {
        Some(class) => is_judged(alloc, &class, method, told),
        None => false,
    }
}

#[test]
fn finds_the_first_method(rt: HostRuntime) {
    let rows = [SAFE, JUMP_AND_EXIT, EXIT_ALONE];
    assert!(rt; are_judged(rt.alloc(), RuleSet::One, &rows, 1, "1:5"));
}

/// A method that spills a pointer, one that stores through what it loads from the same slot, and
/// one that moves a pointer by it.
const SPILLING: &str =
    "1 0 1: stxdw [r10-8], r3; mov r0, 0; ldxdw r4, [r10-8]; stb [r4+0], 1; exit";

const STORING: &str = "1 0 1: ldxdw r4, [r10-8]; stb [r4+0], 1; mov r0, 0; exit";

const MOVING: &str = "1 0 1: ldxdw r4, [r10-8]; add r3, r4; stb [r3+0], 1; mov r0, 0; exit";

/// A rule set, two methods, and which of them is refused at which slot by which rule, or `ok`.
type Two = (RuleSet, &'static str, &'static str, usize, &'static str);

/// Each method begins with the number 0 in every slot of the stack, whatever the one before it
/// spilled.
const TWOS: [Two; 6] = [
    (RuleSet::Two, SPILLING, MOVING, 0, "ok"),
    (RuleSet::Two, MOVING, SPILLING, 0, "ok"),
    (RuleSet::Two, SPILLING, STORING, 1, "1:10"),
    (RuleSet::Two, STORING, SPILLING, 0, "1:10"),
    (RuleSet::One, SPILLING, MOVING, 0, "0:9"),
    (RuleSet::One, SAFE, SPILLING, 1, "0:9"),
];

#[test]
fn judges_each_method_by_itself(rt: HostRuntime) {
    for (rules, first, second, method, told) in &TWOS {
        let rows = [*first, *second];
        assert!(rt;
            are_judged(rt.alloc(), *rules, &rows, *method, told),
            "{told}"
        );
    }
}

/// True if a method has the writer's name, caps and number of instructions.
fn is_declared(found: &VerifiedMethod) -> bool {
    let caps = Caps {
        in_cap: 3,
        out_cap: 4,
        writes: true,
    };
    found.name() == "f" && found.count() == 3 && found.caps() == caps
}

/// True if operations are those of the writer's four slots.
fn are_writers(ops: &[Op]) -> bool {
    matches!(
        ops,
        [Op::Jump(_), Op::LoadWide(_, 7), Op::Nothing, Op::Exit]
    )
}

/// True if a class has one method, which is found by its name and is the writer.
fn keeps(class: &VerifiedClass) -> bool {
    match (class.methods(), class.method("f"), class.method("g")) {
        ([first], Some(found), None) => is_declared(found) && are_writers(first.ops()),
        _ => false,
    }
}

/// True if a class is accepted with the writer as its method.
fn keeps_writer(alloc: Global, class: &ClassImage) -> bool {
    match verify(alloc, class) {
        Ok(class) => keeps(&class),
        Err(_) => false,
    }
}

#[test]
fn keeps_what_is_declared(rt: HostRuntime) {
    one_table();
    first_rule_set();
    let writer = method_of(rt.alloc(), "f", WRITER, 0);
    let kept = match class_of(rt.alloc(), RuleSet::One, writer) {
        Some(class) => keeps_writer(rt.alloc(), &class),
        None => false,
    };
    assert!(rt; kept);
}
