//! Finds code that would do in place of the refused code.

use crate::advice::{Advice, LongRange, OutsideAccess, Place};
use crate::read::{count_registers, first_read};
use crate::room::{last_place, most_bytes};
use crate::ways::{target, why_unset};
use abstract_num::{Number, arithmetic, constant};
use abstract_regs::{Content, Frame, Kind, range_fits};
use bpf_decode::{Arithmetic, Method, OpWidth, Region, RuleSet, width};
use bpf_machine::Caps;
use helpers::{Argument, signature};
use std::alloc::{AllocError, Global};
use verifier::{
    Access, Callee, Goes, RefusedSlot, Rule, Touches, callee_of, goes_of, precision, touches_of,
};

/// A refused instruction, with what is known before it.
#[derive(Clone, Copy)]
struct Known<'a> {
    rules: RuleSet,
    caps: &'a Caps,
    frame: &'a Frame,
    refused: &'a RefusedSlot,
}

/// What may be wrong with a helper's argument.
#[derive(Clone, Copy)]
enum Wrong {
    /// Its bytes may leave their region.
    Outside,
    /// It is written, and its region is read only.
    ReadOnly,
    /// It is a number for a pointer, or a pointer for a number.
    Kind,
}

/// The place of an offset: the last one that it may be, or the first one, if that is known to be
/// below the region.
fn place_of(region: Region, at: &Number) -> Place {
    let least = at.second.first.low;
    let is_below = i64::MIN < least && least < 0;
    let at = if is_below {
        least.unsigned_abs()
    } else {
        at.first.high
    };
    Place {
        region,
        at,
        is_below,
    }
}

/// The number that is known, if there is only one.
fn one_number(n: &Number) -> Option<u64> {
    if n.first.low == n.first.high {
        Some(n.first.low)
    } else {
        None
    }
}

/// The most bytes of an input or an output that a class of these rules may declare.
fn most_declared(rules: RuleSet) -> u64 {
    match rules {
        RuleSet::One | RuleSet::Two => 4_096,
        RuleSet::Three => 65_535,
    }
}

/// A number for a pointer, or a pointer for a number.
fn number_advice(register: usize, kind: Kind) -> Option<Advice> {
    match kind {
        Kind::Num(_) => None,
        Kind::Unset | Kind::Ptr(_, _) => Some(Advice::TakesNumber(register)),
    }
}

impl Known<'_> {
    /// An access from where a register points on.
    fn access_advice(&self, access: Access) -> Option<Advice> {
        let register = usize::from(access.base.number());
        let (region, at) = match self.frame.at(access.base) {
            Kind::Unset => return None,
            Kind::Num(_) => return Some(Advice::NoPlace(register)),
            Kind::Ptr(region, at) => (region, at),
        };
        let place = arithmetic(
            precision(self.rules),
            OpWidth::Bits64,
            Arithmetic::Add,
            at,
            constant(i64::from(access.offset).cast_unsigned()),
        )?;
        let (bytes, size) = (access.bytes as u64, self.caps.size(region) as u64);
        Some(Advice::Outside(OutsideAccess {
            register,
            is_moved: one_number(&at).is_none(),
            begin: place_of(region, &place),
            last: last_place(bytes, size),
            bytes,
            size,
        }))
    }

    /// A range, by its pointer and its length.
    fn range_advice(&self, register: usize, pointer: Kind, length: Kind) -> Option<Advice> {
        let (Kind::Ptr(region, at), Kind::Num(bytes)) = (pointer, length) else {
            return None;
        };
        let size = self.caps.size(region) as u64;
        if range_fits(at, bytes, size) {
            return None;
        }
        let (begin, high) = (place_of(region, &at), bytes.first.high);
        let is_moved = one_number(&at).is_none();
        Some(match most_bytes(&at, size) {
            Some(most) => Advice::Length(LongRange {
                // The length follows the pointer.
                register: register.saturating_add(1),
                is_known: one_number(&bytes).is_some(),
                high,
                most,
                begin,
                least: one_number(&bytes).and_then(|n| self.declared(n.saturating_add(begin.at))),
            }),
            None if begin.is_below => Advice::Early(register, is_moved, begin),
            None => Advice::Late(register, is_moved, begin, size.saturating_sub(high)),
        })
    }

    /// So many bytes, if a class may declare them.
    fn declared(&self, bytes: u64) -> Option<u64> {
        if bytes <= most_declared(self.rules) {
            Some(bytes)
        } else {
            None
        }
    }

    /// The length of the output.
    fn output_advice(&self, register: usize, kind: Kind) -> Option<Advice> {
        let most = u64::from(self.caps.out_cap);
        match kind {
            Kind::Unset | Kind::Ptr(_, _) => Some(Advice::TakesNumber(register)),
            Kind::Num(n) if n.first.high <= most => None,
            Kind::Num(n) => {
                let least = one_number(&n).and_then(|n| self.declared(n));
                Some(Advice::OutLength(register, n.first.high, most, least))
            }
        }
    }

    /// An argument in the registers from one on, if that is wrong with it.
    fn argument_advice(&self, wrong: Wrong, argument: Argument, register: usize) -> Option<Advice> {
        let next = register.saturating_add(1);
        let (first, second) = (self.frame.kind(register), self.frame.kind(next));
        match (wrong, argument) {
            (Wrong::Outside, Argument::Readable | Argument::Writable) => {
                self.range_advice(register, first, second)
            }
            (Wrong::ReadOnly, Argument::Writable) => match (first, second) {
                (Kind::Ptr(Region::Input, _), Kind::Num(_)) => {
                    Some(Advice::ReadOnlyRange(register))
                }
                _ => None,
            },
            (Wrong::Kind, Argument::Number) => number_advice(register, first),
            (Wrong::Kind, Argument::OutputLength) => self.output_advice(register, first),
            (Wrong::Kind, Argument::Readable | Argument::Writable) => match first {
                Kind::Ptr(_, _) => number_advice(next, second),
                Kind::Unset | Kind::Num(_) => Some(Advice::TakesPointer(register)),
            },
            (Wrong::Outside, Argument::Number | Argument::OutputLength) => None,
            (Wrong::ReadOnly, Argument::Number | Argument::OutputLength | Argument::Readable) => {
                None
            }
        }
    }

    /// The first of the called helper's arguments with which that is wrong.
    fn call_advice(&self, wrong: Wrong) -> Option<Advice> {
        let Callee::Helper(helper) = callee_of(&self.refused.insn) else {
            return None;
        };
        let mut register = 1;
        for argument in signature(helper)?.arguments {
            if let Some(advice) = self.argument_advice(wrong, *argument, register) {
                return Some(advice);
            }
            register = register.saturating_add(count_registers(*argument));
        }
        None
    }

    /// By rule 10.
    fn bounds_advice(&self) -> Option<Advice> {
        match touches_of(&self.refused.insn) {
            Touches::Loads(access) | Touches::Stores(access, _) => self.access_advice(access),
            Touches::Nothing => self.call_advice(Wrong::Outside),
        }
    }

    /// By rule 11.
    fn read_only_advice(&self) -> Option<Advice> {
        match touches_of(&self.refused.insn) {
            Touches::Stores(access, _) => {
                Some(Advice::ReadOnlyStore(usize::from(access.base.number())))
            }
            Touches::Loads(_) | Touches::Nothing => self.call_advice(Wrong::ReadOnly),
        }
    }

    /// The lowest register with a pointer that is read.
    fn pointer(&self) -> Option<usize> {
        first_read(Content::Pointer, &self.refused.insn, self.frame)
    }

    /// By the rules 6 and up.
    #[rattlefmt::skip]
    fn advice(&self) -> Option<Advice> {
        let callee = callee_of(&self.refused.insn);
        match (self.refused.rule, callee) {
            (Rule::WritesR10, _) => Some(Advice::CopyOfR10),
            (Rule::PointerArithmetic, _) => Some(Advice::NumbersFirst(self.pointer()?)),
            (Rule::PointerCompare, _) => Some(Advice::NeverNull(self.pointer()?)),
            (Rule::PointerStored, _) => Some(match self.rules {
                RuleSet::One => Advice::TakeRules,
                RuleSet::Two | RuleSet::Three => Advice::AtMultiple,
            }),
            (Rule::Bounds, _) => self.bounds_advice(),
            (Rule::ReadOnlyRegion, _) => self.read_only_advice(),
            (Rule::UnknownHelper, _) => Some(Advice::HelpersOnly(self.rules)),
            (Rule::HelperArgument, _) => self.call_advice(Wrong::Kind),
            (Rule::WriteHelperInReader, Callee::Helper(helper)) => Some(Advice::MayWrite(helper)),
            (Rule::WriteHelperInReader, Callee::Nothing | Callee::Local) => None,
            (Rule::ReturnsPointer, _) => Some(Advice::CodeIsNumber),
            (Rule::PointerBytes, Callee::Helper(_)) => Some(Advice::PassNoPointer),
            (Rule::PointerBytes, Callee::Nothing | Callee::Local) => Some(Advice::LoadWhole),
            (Rule::Backward | Rule::Target | Rule::FallsOff | Rule::LocalCall, _) => None,
            (Rule::UnsetRead | Rule::NoMemory, _) => None,
        }
    }
}

/// By rule 2.
fn target_advice(method: &Method, refused: &RefusedSlot) -> Advice {
    let mut count = 0_u64;
    for insn in method.instructions() {
        count = count.saturating_add(width(insn) as u64);
    }
    let distance = match goes_of(&refused.insn) {
        Goes::To(distance) => distance,
        Goes::Either(distance) => distance,
        Goes::On | Goes::Out => return Advice::CountSlots,
    };
    let target = target(refused.slot, i64::from(distance)) as u64;
    if count <= target {
        Advice::PastEnd(target, count.saturating_sub(1))
    } else {
        Advice::CountSlots
    }
}

/// By rule 5.
fn unset_advice(
    alloc: Global,
    method: &Method,
    refused: &RefusedSlot,
    frame: &Frame,
) -> Result<Advice, AllocError> {
    match first_read(Content::Nothing, &refused.insn, frame) {
        None => Ok(Advice::StoreWhole),
        Some(register) => {
            let why = why_unset(alloc, method.instructions(), refused.slot, register)?;
            Ok(Advice::Unset(register, why))
        }
    }
}

/// By the rules 5 and up, from what is known before the instruction.
fn known_advice(
    alloc: Global,
    rules: RuleSet,
    method: &Method,
    refused: &RefusedSlot,
) -> Result<Option<Advice>, AllocError> {
    let Some(frame) = &refused.known else {
        return Ok(None);
    };
    if let Rule::UnsetRead = refused.rule {
        return Ok(Some(unset_advice(alloc, method, refused, frame)?));
    }
    let caps = Caps::of(method);
    let known = Known {
        rules,
        caps: &caps,
        frame,
        refused,
    };
    Ok(known.advice())
}

/// The advice for a refused instruction of a method, by the rule and what is known before it.
#[rattlefmt::skip]
pub(crate) fn advice_for(
    alloc: Global, rules: RuleSet, method: &Method, refused: &RefusedSlot,
) -> Result<Option<Advice>, AllocError> {
    match refused.rule {
        Rule::Backward => Ok(Some(Advice::Forward)),
        Rule::Target => Ok(Some(target_advice(method, refused))),
        Rule::FallsOff => Ok(Some(Advice::EndByExit)),
        Rule::LocalCall => Ok(Some(Advice::Inline)),
        Rule::UnsetRead | Rule::WritesR10 | Rule::PointerArithmetic | Rule::PointerCompare
        | Rule::PointerStored | Rule::Bounds | Rule::ReadOnlyRegion | Rule::UnknownHelper
        | Rule::HelperArgument | Rule::WriteHelperInReader | Rule::ReturnsPointer
        | Rule::NoMemory | Rule::PointerBytes => known_advice(alloc, rules, method, refused),
    }
}
