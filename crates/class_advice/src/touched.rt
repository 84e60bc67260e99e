//! The slots of the stack that an instruction may touch.
ghost use Rattle.std.specs.Prelude.{◌<◌};

use crate::known::push_kind;
use crate::read::count_registers;
use abstract_num::{arithmetic, constant};
use abstract_regs::{Frame, Kind};
use bpf_decode::{Arithmetic, Insn, OpWidth, Region, RuleSet};
use helpers::signature;
use std::alloc::AllocError;
use verifier::{Access, Callee, Rule, Touches, callee_of, precision, touches_of};

/// Bytes of the stack: so many, from a place between two on. There may be none.
#[derive(Clone, Copy)]
struct Span {
    low: u64,
    high: u64,
    bytes: u64,
}

impl Span {
    /// True if one of the bytes may be in a slot.
    fn may_touch(self, slot: u64) -> bool
        requires { slot < 64 }
    {
        let first = 8 * slot;
        (first < self.high || first - self.high < self.bytes) && self.low < first + 8
    }
}

/// The bytes that an access touches, if it is in the stack.
fn access_span(rules: RuleSet, frame: &Frame, access: Access) -> Option<Span> {
    let Kind::Ptr(Region::Stack, at) = frame.at(access.base) else {
        return None;
    };
    let distance = constant(i64::from(access.offset).cast_unsigned());
    let place = arithmetic(
        precision(rules),
        OpWidth::Bits64,
        Arithmetic::Add,
        at,
        distance,
    )?;
    Some(Span {
        low: place.first.low,
        high: place.first.high,
        bytes: access.bytes as u64,
    })
}

/// The bytes of a helper's range, if it is in the stack and not empty.
fn range_span(pointer: Kind, length: Kind) -> Option<Span> {
    match (pointer, length) {
        (Kind::Ptr(Region::Stack, at), Kind::Num(length)) if length.first.high != 0 => Some(Span {
            low: at.first.low,
            high: at.first.high,
            bytes: length.first.high,
        }),
        _ => None,
    }
}

/// True if a helper's call may touch a slot.
fn call_touches(frame: &Frame, helper: u32, slot: u64) -> bool
    requires { slot < 64 }
{
    let Some(takes) = signature(helper) else {
        return false;
    };
    let mut register = 1_usize;
    for argument in takes.arguments {
        let next = register.saturating_add(count_registers(*argument));
        let length = register.saturating_add(1);
        // A range has two registers.
        if length < next {
            if let Some(span) = range_span(frame.kind(register), frame.kind(length)) {
                if span.may_touch(slot) {
                    return true;
                }
            }
        }
        register = next;
    }
    false
}

/// True if an instruction may touch a slot.
fn touches(rules: RuleSet, frame: &Frame, insn: &Insn, slot: u64) -> bool
    requires { slot < 64 }
{
    let access = match touches_of(insn) {
        Touches::Loads(access) | Touches::Stores(access, _) => access_span(rules, frame, access),
        Touches::Nothing => None,
    };
    match (access, callee_of(insn)) {
        (Some(span), _) => span.may_touch(slot),
        (None, Callee::Helper(helper)) => call_touches(frame, helper, slot),
        (None, Callee::Nothing | Callee::Local) => false,
    }
}

/// True if the rule looks at slots of the stack.
#[rattlefmt::skip]
fn is_of_slots(rule: Rule) -> bool {
    match rule {
        Rule::UnsetRead | Rule::PointerStored | Rule::PointerBytes => true,
        Rule::Backward | Rule::Target | Rule::FallsOff | Rule::LocalCall | Rule::WritesR10 => false,
        Rule::PointerArithmetic | Rule::PointerCompare | Rule::Bounds | Rule::ReadOnlyRegion => false,
        Rule::UnknownHelper | Rule::HelperArgument | Rule::WriteHelperInReader | Rule::ReturnsPointer => false,
        Rule::NoMemory => false,
    }
}

/// Adds a line for each slot that is known and that a refused instruction may touch, if the rule
/// looks at slots.
pub(crate) fn push_touched(
    out: &mut String,
    rules: RuleSet,
    rule: Rule,
    insn: &Insn,
    frame: &Frame,
) -> Result<(), AllocError> {
    if !is_of_slots(rule) {
        return Ok(());
    }
    for slot in 0..64 {
        let first = Kind::Ptr(Region::Stack, constant(8 * slot));
        if let Some(kind) = frame.slot(precision(rules), &first, 0, 8) {
            if touches(rules, frame, insn, slot) {
                write!(out, "  [r10-{}] = ", 512 - 8 * slot)?;
                push_kind(out, rules, kind)?;
                out.push_str("\n")?;
            }
        }
    }
    Ok(())
}
