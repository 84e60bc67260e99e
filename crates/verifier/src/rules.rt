//! The rules: for each a test of one instruction, and which of them refuses first.

ghost use Rattle.std.specs.Prelude.{◌≡◌, ◌<◌, ◌^◌};
ghost use Rattle.verifier.specs.Rules.{begins_at, is_backward, misses, falls_off, is_local_call, reads_unset};
ghost use Rattle.verifier.specs.Rules.{writes_r10, computes_with_pointer, compares_pointer, stores_pointer};
ghost use Rattle.verifier.specs.Rules.{leaves_region, writes_read_only, calls_unknown, passes_wrong_kind};
ghost use Rattle.verifier.specs.Rules.{writes_in_reader, returns_pointer, reads_pointer, operand_is_unset, unset_among};
ghost use Rattle.verifier.specs.Rules.{asks, may_write, rule_at, shape_rule, frame_rule};
ghost use Rattle.verifier.specs.Facets.{callee_of};
ghost use Rattle.abstract_regs.specs.Kind.{is_ptr};
ghost use Rattle.abstract_regs.specs.Frame.{kind_at};
ghost use Rattle.verifier.specs.inner.Kept.{unbox};

use crate::access_rules::{is_slot, leaves, loads_pointer, loads_unset, stores_read_only};
use crate::facets::{
    Callee, Goes, Reads, Touches, Uses, callee_of, goes_of, reads_of, touches_of, uses_of,
    writes_of,
};
use crate::fault::Fault;
use crate::kind_rules;
use crate::known::known_signature;
use crate::rule::Rule;
use abstract_regs::Frame;
use bpf_decode::{Insn, Operand, Register, RuleSet, jump_target, width};
use bpf_machine::Caps;

/// The lowest rule that refuses the instruction at a slot; rules 5 to 15 and 17 under a frame
/// alone.
pub fn refusing_rule(
    rules: RuleSet,
    caps: &Caps,
    code: &[Option<Insn>],
    slot: usize,
    insn: &Insn,
    frame: &Option<Box<Frame>>,
) -> Option<Rule>
    requires { slot < 2 ^ 62 }
    ensures { result ≡ rule_at rules caps.now code.now slot insn.now (unbox frame.now) }
{
    match shape_rule(code, slot, insn) {
        Some(rule) => Some(rule),
        None => match frame {
            None => None,
            Some(frame) => frame_rule(rules, caps, frame, insn),
        },
    }
}

/// The lowest of rules 1 to 4 that refuses the instruction at a slot.
fn shape_rule(code: &[Option<Insn>], slot: usize, insn: &Insn) -> Option<Rule>
    requires { slot < 2 ^ 62 }
    ensures { result ≡ shape_rule code.now slot insn.now }
{
    if is_backward(insn) {
        Some(Rule::Backward)
    } else if misses(code, slot, insn) {
        Some(Rule::Target)
    } else if falls_off(code, slot, insn) {
        Some(Rule::FallsOff)
    } else if is_local_call(insn) {
        Some(Rule::LocalCall)
    } else {
        None
    }
}

/// The lowest of rules 5 to 15 and 17 that refuses the instruction under a frame.
pub fn frame_rule(rules: RuleSet, caps: &Caps, frame: &Frame, insn: &Insn) -> Option<Rule>
    ensures { result ≡ frame_rule rules caps.now frame.now insn.now }
{
    // In the order of the rules' numbers: the lowest rule is the refusal.
    if reads_unset(rules, caps, frame, insn) {
        Some(Rule::UnsetRead)
    } else if writes_r10(insn) {
        Some(Rule::WritesR10)
    } else if computes_with_pointer(frame, insn) {
        Some(Rule::PointerArithmetic)
    } else if compares_pointer(frame, insn) {
        Some(Rule::PointerCompare)
    } else if stores_pointer(rules, frame, insn) {
        Some(Rule::PointerStored)
    } else if leaves_region(rules, caps, frame, insn) {
        Some(Rule::Bounds)
    } else if writes_read_only(rules, caps, frame, insn) {
        Some(Rule::ReadOnlyRegion)
    } else if calls_unknown(rules, insn) {
        Some(Rule::UnknownHelper)
    } else if passes_wrong_kind(rules, caps, frame, insn) {
        Some(Rule::HelperArgument)
    } else if writes_in_reader(rules, caps, insn) {
        Some(Rule::WriteHelperInReader)
    } else if returns_pointer(frame, insn) {
        Some(Rule::ReturnsPointer)
    } else if reads_pointer(rules, caps, frame, insn) {
        Some(Rule::PointerBytes)
    } else {
        None
    }
}

/// True if an instruction begins at the slot.
#[inline(always)]
pub fn begins_at(code: &[Option<Insn>], slot: usize) -> bool
    ensures { result ≡ begins_at code.now slot }
{
    match code.get(slot) {
        Some(begun) => begun.is_some(),
        None => false,
    }
}

/// True if it jumps to itself or to an instruction before it.
#[inline(always)]
pub fn is_backward(insn: &Insn) -> bool
    ensures { result ≡ is_backward insn.now }
{
    match goes_of(insn) {
        Goes::To(distance) => distance.is_negative(),
        Goes::Either(distance) => distance.is_negative(),
        Goes::On | Goes::Out => false,
    }
}

/// True if it jumps past the last slot, or into a wide load's second half.
#[inline(always)]
pub fn misses(code: &[Option<Insn>], slot: usize, insn: &Insn) -> bool
    requires { slot < 2 ^ 62 }
    ensures { result ≡ misses code.now slot insn.now }
{
    match goes_of(insn) {
        Goes::To(distance) => !begins_at(code, jump_target(slot, i64::from(distance))),
        Goes::Either(distance) => !begins_at(code, jump_target(slot, i64::from(distance))),
        Goes::On | Goes::Out => false,
    }
}

/// True if it may go on to the slot after it, at which nothing begins.
#[inline(always)]
pub fn falls_off(code: &[Option<Insn>], slot: usize, insn: &Insn) -> bool
    requires { slot < 2 ^ 62 }
    ensures { result ≡ falls_off code.now slot insn.now }
{
    match goes_of(insn) {
        Goes::On | Goes::Either(_) => !begins_at(code, slot + width(insn)),
        Goes::To(_) | Goes::Out => false,
    }
}

/// True if it calls a function of the method's own code.
#[inline(always)]
pub fn is_local_call(insn: &Insn) -> bool
    ensures { result ≡ is_local_call insn.now }
{
    match callee_of(insn) {
        Callee::Local => true,
        Callee::Nothing | Callee::Helper(_) => false,
    }
}

/// True if it calls a helper, and an argument has the fault.
#[inline(always)]
fn asks(rules: RuleSet, caps: &Caps, frame: &Frame, fault: Fault, insn: &Insn) -> bool
    ensures { result ≡ asks rules caps.now frame.now fault (callee_of insn.now) }
{
    match callee_of(insn) {
        Callee::Helper(helper) => fault.is_in_call(rules, caps, frame, helper),
        Callee::Nothing | Callee::Local => false,
    }
}

/// True if it reads something unset: a register, a slot of the stack or a helper's argument.
#[inline(always)]
fn reads_unset(rules: RuleSet, caps: &Caps, frame: &Frame, insn: &Insn) -> bool
    ensures { result ≡ reads_unset rules caps.now frame.now insn.now }
{
    is_unset_among(frame, reads_of(insn))
        || loads_unset(rules, caps, frame, touches_of(insn))
        || asks(rules, caps, frame, Fault::NotSet, insn)
}

#[inline(always)]
fn is_unset_among(frame: &Frame, reads: Reads) -> bool
    ensures { result ≡ unset_among frame.now reads }
{
    match reads {
        Reads::Nothing => false,
        Reads::One(x) => is_operand_unset(frame, x),
        Reads::Two(x, y) => is_operand_unset(frame, x) || is_operand_unset(frame, y),
        Reads::Answer => frame.kind(0).is_unset(),
    }
}

#[inline(always)]
fn is_operand_unset(frame: &Frame, operand: Operand) -> bool
    ensures { result ≡ operand_is_unset frame.now operand }
{
    match operand {
        Operand::Immediate(_) => false,
        Operand::Register(register) => frame.at(register).is_unset(),
    }
}

/// True if register 10 is its destination.
#[inline(always)]
pub fn writes_r10(insn: &Insn) -> bool
    ensures { result ≡ writes_r10 insn.now }
{
    match writes_of(insn) {
        None => false,
        Some(register) => register.number() == 10,
    }
}

/// True if it computes with a pointer, other than a copy, or a number added to it or subtracted
/// from it, each in 64 bits.
#[inline(always)]
fn computes_with_pointer(frame: &Frame, insn: &Insn) -> bool
    ensures { result ≡ computes_with_pointer frame.now insn.now }
{
    match uses_of(insn) {
        Uses::Computes(bits, operation, dst, source) => {
            kind_rules::is_alu_refused(bits, operation, frame.at(dst), frame.operand(source))
        }
        Uses::Changes(register) => is_ptr(frame, register),
        Uses::Copies(bits, source) => kind_rules::is_mov_refused(bits, frame.operand(source)),
        Uses::Nothing | Uses::Compares(_, _) | Uses::Answers => false,
    }
}

/// True if it compares a pointer.
#[inline(always)]
fn compares_pointer(frame: &Frame, insn: &Insn) -> bool
    ensures { result ≡ compares_pointer frame.now insn.now }
{
    match uses_of(insn) {
        Uses::Compares(dst, source) => is_ptr(frame, dst) || frame.operand(source).is_ptr(),
        Uses::Nothing | Uses::Computes(_, _, _, _) => false,
        Uses::Changes(_) | Uses::Copies(_, _) | Uses::Answers => false,
    }
}

#[inline(always)]
fn is_ptr(frame: &Frame, register: Register) -> bool
    ensures { result ≡ is_ptr (kind_at frame.now register) }
{
    frame.at(register).is_ptr()
}

/// True if it stores a pointer, other than whole in a slot of the stack that is known.
#[inline(always)]
fn stores_pointer(rules: RuleSet, frame: &Frame, insn: &Insn) -> bool
    ensures { result ≡ stores_pointer rules frame.now insn.now }
{
    match touches_of(insn) {
        Touches::Stores(access, source) => match source {
            Operand::Immediate(_) => false,
            Operand::Register(src) => is_ptr(frame, src) && !is_slot(rules, frame, &access),
        },
        Touches::Nothing | Touches::Loads(_) => false,
    }
}

/// True if memory that it reads or writes may leave its region.
#[inline(always)]
fn leaves_region(rules: RuleSet, caps: &Caps, frame: &Frame, insn: &Insn) -> bool
    ensures { result ≡ leaves_region rules caps.now frame.now insn.now }
{
    leaves(rules, caps, frame, touches_of(insn))
        || asks(rules, caps, frame, Fault::OutOfRegion, insn)
}

/// True if it writes into the region that is read only.
#[inline(always)]
fn writes_read_only(rules: RuleSet, caps: &Caps, frame: &Frame, insn: &Insn) -> bool
    ensures { result ≡ writes_read_only rules caps.now frame.now insn.now }
{
    stores_read_only(frame, touches_of(insn)) || asks(rules, caps, frame, Fault::ReadOnly, insn)
}

/// True if it calls an id that is no helper's in the rule set.
#[inline(always)]
fn calls_unknown(rules: RuleSet, insn: &Insn) -> bool
    ensures { result ≡ calls_unknown rules insn.now }
{
    match callee_of(insn) {
        Callee::Helper(helper) => known_signature(rules, helper).is_none(),
        Callee::Nothing | Callee::Local => false,
    }
}

/// True if it gives a helper an argument of the wrong kind.
fn passes_wrong_kind(rules: RuleSet, caps: &Caps, frame: &Frame, insn: &Insn) -> bool
    ensures { result ≡ passes_wrong_kind rules caps.now frame.now insn.now }
{
    asks(rules, caps, frame, Fault::WrongKind, insn)
}

/// True if it calls a helper that may change the object, in a method that may not.
#[inline(always)]
fn writes_in_reader(rules: RuleSet, caps: &Caps, insn: &Insn) -> bool
    ensures { result ≡ writes_in_reader rules caps.now insn.now }
{
    may_write(rules, callee_of(insn)) && !caps.writes
}

#[inline(always)]
fn may_write(rules: RuleSet, callee: Callee) -> bool
    ensures { result ≡ may_write rules callee }
{
    match callee {
        Callee::Helper(helper) => match known_signature(rules, helper) {
            None => false,
            Some(takes) => takes.writes,
        },
        Callee::Nothing | Callee::Local => false,
    }
}

/// True if it leaves the method with a pointer in register 0.
#[inline(always)]
fn returns_pointer(frame: &Frame, insn: &Insn) -> bool
    ensures { result ≡ returns_pointer frame.now insn.now }
{
    match uses_of(insn) {
        Uses::Answers => frame.kind(0).is_ptr(),
        Uses::Nothing | Uses::Computes(_, _, _, _) => false,
        Uses::Changes(_) | Uses::Copies(_, _) | Uses::Compares(_, _) => false,
    }
}

/// True if it reads a part of a pointer in the stack.
fn reads_pointer(rules: RuleSet, caps: &Caps, frame: &Frame, insn: &Insn) -> bool
    ensures { result ≡ reads_pointer rules caps.now frame.now insn.now }
{
    loads_pointer(rules, caps, frame, touches_of(insn))
        || asks(rules, caps, frame, Fault::HasPointer, insn)
}
