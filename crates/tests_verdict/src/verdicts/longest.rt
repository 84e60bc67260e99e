//! The longest methods, the longest jumps, and the largest class.

use super::{Declared, class_of, code_of, is_judged, method};
use abstract_num::Precision;
use abstract_regs::{Frame, Kind};
use bpf_asm::assemble;
use bpf_decode::{ClassImage, Insn, Method, Region, RuleSet};
use std::alloc::Global;
use std::fmt::Write;
use std::process::Abort;
use verifier::{RefusedSlot, Rule, refused_slot, verify};

const MOV_R0_0: &str = "mov r0, 0";

const MOV_R0_R1: &str = "mov r0, r1";

const DIAMOND: &str = "jeq r2, 0, +1; mov r0, 0";

const EMPTY_ARMS: &str = "jeq r2, 0, +0; jeq r2, 0, +0";

const SPILL: &str = "stxdw [r10-8], r0; ldxdw r0, [r10-8]";

const SPILLING_ARM: &str = "jeq r2, 0, +1; KEEP";

/// The names of 32 methods.
const NAMES: &str = "m10 m11 m12 m13 m14 m15 m16 m17 m18 m19 m20 m21 m22 m23 m24 m25 \
m26 m27 m28 m29 m30 m31 m32 m33 m34 m35 m36 m37 m38 m39 m40 m41";

/// The declaration of each method: the greatest caps.
const GREATEST: Declared = Declared {
    flags: 1,
    in_cap: 4096,
    out_cap: 4096,
};

/// Code, and after it those lines that many times, and `exit`.
fn repeated(alloc: Global, mut code: Vec<Insn>, lines: &str, times: usize) -> Option<Vec<Insn>> {
    let part = code_of(alloc, lines)?;
    for _ in 0..times {
        code.extend_from_slice(&part).ok()?;
    }
    code.push(Insn::Exit).ok()?;
    Some(code)
}

/// A class of that rule set, and for each name a method of 4,096 slots with the greatest caps: a
/// first slot, those two 2,047 times, and `exit`.
fn class(
    alloc: Global,
    rules: RuleSet,
    names: &str,
    first: &str,
    pair: &str,
) -> Option<ClassImage> {
    let code = repeated(alloc, code_of(alloc, first)?, pair, 2047)?;
    let mut methods = Vec::new(alloc);
    for name in names.split_whitespace() {
        let code = Vec::from_slice(alloc, &code).ok()?;
        methods.push(method(alloc, name, code, GREATEST)?).ok()?;
    }
    ClassImage::new(methods, rules).ok()
}

/// A rule set, a first slot and a pair, and the verdict on the method of them. In rule set 2 the
/// frame that a branch keeps has the slots of the stack.
type Row = (RuleSet, &'static str, &'static str, &'static str);

#[rattlefmt::skip]
const ROWS: [Row; 12] = [
    (RuleSet::One, MOV_R0_0, DIAMOND, "ok"),
    (RuleSet::Two, MOV_R0_0, DIAMOND, "ok"),
    (RuleSet::One, MOV_R0_0, EMPTY_ARMS, "ok"),
    (RuleSet::Two, MOV_R0_0, EMPTY_ARMS, "ok"),
    (RuleSet::One, MOV_R0_R1, EMPTY_ARMS, "4095:15"),
    (RuleSet::Two, MOV_R0_R1, EMPTY_ARMS, "4095:15"),
    (RuleSet::One, MOV_R0_0, SPILL, "ok"),
    (RuleSet::Two, MOV_R0_0, SPILL, "ok"),
    (RuleSet::One, MOV_R0_R1, SPILL, "1:9"),
    (RuleSet::Two, MOV_R0_R1, SPILL, "4095:15"),
    (RuleSet::One, MOV_R0_0, SPILLING_ARM, "2:9"),
    (RuleSet::Two, MOV_R0_0, SPILLING_ARM, "ok"),
];

/// True if `verify` gives the row's verdict on a class of its method.
fn is_longest_judged(alloc: Global, row: &Row) -> bool {
    match class(alloc, row.0, "f", row.1, row.2) {
        None => false,
        Some(class) => is_judged(alloc, &class, 0, row.3),
    }
}

/// 2,047 diamonds with an arm each have 2^2047 paths, and 4,094 whose arms are empty have 2^4094:
/// the verdict comes only from a pass that takes each slot once. `MOV_R0_R1` returns a pointer at
/// its last slot, where it comes so far: by rule set 2 through a slot of the stack 2,047 times.
#[test]
fn takes_each_slot_once(rt: HostRuntime) {
    for row in &ROWS {
        assert!(rt; is_longest_judged(rt.alloc(), row), "{}", row.3);
    }
}

/// The number of branches of a method with long jumps.
const BRANCHES: u16 = 2000;

/// A method of a first line, `jeq r2, N` for each N below 2,000, and `exit`. Without a landing each
/// branch goes to the `exit`, else each goes 2,000 slots ahead, to a line of its own.
fn far(alloc: Global, first: &str, landing: Option<&str>) -> Option<Method> {
    let mut text = String::from_str(alloc, first).ok()?;
    for n in 0..BRANCHES {
        let passed = if landing.is_some() { 0 } else { n };
        let ahead = (BRANCHES - 1).saturating_sub(passed);
        write!(text, "\njeq r2, {n}, +{ahead}").ok()?;
    }
    let code = assemble(alloc, &text).ok()?;
    let times = if landing.is_some() { BRANCHES } else { 0 };
    let code = repeated(alloc, code, landing.unwrap_or("exit"), usize::from(times))?;
    method(alloc, "f", code, GREATEST)
}

const ADD_R0_1: &str = "add r0, 1";

const SPILL_R1: &str = "stxdw [r10-8], r1";

const LOAD_R0: &str = "ldxdw r0, [r10-8]";

/// A rule set, the first line, and the line that stands at each branch's target, or none if all go
/// to the `exit`; and the verdict.
type Far = (RuleSet, &'static str, Option<&'static str>, &'static str);

#[rattlefmt::skip]
const TO_ONE_EXIT: [Far; 9] = [
    (RuleSet::One, MOV_R0_0, None, "ok"),
    (RuleSet::Two, MOV_R0_0, None, "ok"),
    (RuleSet::Three, MOV_R0_0, None, "ok"),
    (RuleSet::One, MOV_R0_R1, None, "2001:15"),
    (RuleSet::Two, MOV_R0_R1, None, "2001:15"),
    (RuleSet::Three, MOV_R0_R1, None, "2001:15"),
    (RuleSet::One, SPILL_R1, None, "0:9"),
    (RuleSet::Two, SPILL_R1, None, "2001:5"),
    (RuleSet::Three, SPILL_R1, None, "2001:5"),
];

#[rattlefmt::skip]
const TO_TARGETS: [Far; 9] = [
    (RuleSet::One, MOV_R0_0, Some(ADD_R0_1), "ok"),
    (RuleSet::Two, MOV_R0_0, Some(ADD_R0_1), "ok"),
    (RuleSet::Three, MOV_R0_0, Some(ADD_R0_1), "ok"),
    (RuleSet::One, MOV_R0_R1, Some(ADD_R0_1), "4001:15"),
    (RuleSet::Two, MOV_R0_R1, Some(ADD_R0_1), "4001:15"),
    (RuleSet::Three, MOV_R0_R1, Some(ADD_R0_1), "4001:15"),
    (RuleSet::One, SPILL_R1, Some(LOAD_R0), "0:9"),
    (RuleSet::Two, SPILL_R1, Some(LOAD_R0), "4001:15"),
    (RuleSet::Three, SPILL_R1, Some(LOAD_R0), "4001:15"),
];

/// True if `verify` gives the row's verdict on a class of its method.
fn is_far_judged(alloc: Global, row: &Far) -> bool {
    match class_of(alloc, row.0, far(alloc, row.1, row.2)) {
        Some(class) => is_judged(alloc, &class, 0, row.3),
        None => false,
    }
}

/// Asserts that `verify` gives the verdicts of these rows.
fn assert_all(rt: &impl Abort, alloc: Global, rows: &[Far]) {
    for row in rows {
        assert!(rt; is_far_judged(alloc, row), "{}", row.3);
    }
}

/// Each branch compares the length, at most 4,096, with another number below 2,000, so that both of
/// its edges may be taken: 2,000 flows meet at one slot. What is known before the branches is known
/// after them: register 0 holds a number or the input's place.
#[test]
fn meets_far_ahead(rt: HostRuntime) {
    assert_all(&rt, rt.alloc(), &TO_ONE_EXIT);
}

/// The same with 2,000 flows that wait for a slot each. By rule sets 2 and 3 they know the stack too.
#[test]
fn goes_far_ahead(rt: HostRuntime) {
    assert_all(&rt, rt.alloc(), &TO_TARGETS);
}

/// True if `exit` is refused at the last of 4,096 slots, and before it register 0 and the highest
/// slot of the stack point to the input's first byte.
fn is_last(refused: &RefusedSlot) -> bool {
    match &refused.known {
        None => false,
        Some(known) => {
            refused.slot == 4095
                && refused.rule == Rule::ReturnsPointer
                && matches!(refused.insn, Insn::Exit)
                && is_input(known.kind(0))
                && has_input(known)
        }
    }
}

/// True if the highest slot of the stack points to the input's first byte.
fn has_input(known: &Frame) -> bool {
    match known.slot(
        Precision::Whole,
        &known.kind(10),
        (-8i64).cast_unsigned(),
        8,
    ) {
        None => false,
        Some(kind) => is_input(kind),
    }
}

/// True if it points to the input's first byte.
fn is_input(kind: Kind) -> bool {
    match kind {
        Kind::Ptr(Region::Input, at) => at.unsigned().low == 0 && at.unsigned().high == 0,
        _ => false,
    }
}

/// True if `refused_slot` gives the last slot of a class's first method, with what the rule saw.
fn tells_last(alloc: Global, class: &ClassImage) -> bool {
    match class.methods().get(0) {
        None => false,
        Some(method) => match refused_slot(alloc, class.rules(), method) {
            Ok(Some(refused)) => is_last(&refused),
            Ok(None) => false,
            Err(_) => false,
        },
    }
}

#[test]
fn tells_what_is_known_at_the_last_slot(rt: HostRuntime) {
    let is_told = match class(rt.alloc(), RuleSet::Two, "f", MOV_R0_R1, SPILL) {
        Some(class) => tells_last(rt.alloc(), &class),
        None => false,
    };
    assert!(rt; is_told);
}

/// The number of methods of a class that is accepted; 0 for one that isn't.
fn count(alloc: Global, class: &ClassImage) -> usize {
    match verify(alloc, class) {
        Ok(class) => class.methods().len(),
        Err(_) => 0,
    }
}

/// The number of methods that are accepted of a class of that rule set with 4,096 slots in each
/// method, and an input and an output of at most 4,096 bytes; 0 if it is refused.
fn largest(alloc: Global, rules: RuleSet, pair: &str) -> usize {
    match class(alloc, rules, NAMES, MOV_R0_0, pair) {
        Some(class) => count(alloc, &class),
        None => 0,
    }
}

#[test]
fn verifies_the_largest_class(rt: HostRuntime) {
    assert!(rt; largest(rt.alloc(), RuleSet::One, DIAMOND) == 32);
    assert!(rt; largest(rt.alloc(), RuleSet::Two, SPILL) == 32);
}
