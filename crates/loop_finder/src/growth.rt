ghost use Rattle.std.specs.Prelude.{◌≤◌, ◌≤ℤ◌};

use crate::places::{declared, number_between, pointer_between};
use crate::thresholds::Thresholds;
use abstract_num::{SRange, URange, any};
use abstract_regs::Kind;
use bpf_decode::{Insn, Region};
use bpf_machine::Caps;
use loop_heads::PlaceKind;
use std::alloc::{AllocError, Global};

/// Passes in which what comes back is joined and no more, and those up to which a bound that moves goes to
/// the next threshold; in later ones it goes to its end.
const JOINING_PASSES: usize = 2;

const THRESHOLD_PASSES: usize = 28;

/// How far a bound that moves goes.
#[derive(Clone, Copy)]
pub enum Step {
    Joined,
    Threshold,
    End,
}

impl Step {
    /// That of a pass.
    pub fn of_pass(pass: usize) -> Step {
        if pass < JOINING_PASSES {
            Step::Joined
        } else if pass < THRESHOLD_PASSES {
            Step::Threshold
        } else {
            Step::End
        }
    }
}

/// How what is declared of a place grows.
#[derive(Drop)]
pub struct Growth {
    numbers: Thresholds,
    stack: Thresholds,
}

impl Growth {
    /// By the numbers of a method's code.
    pub fn of(alloc: Global, caps: &Caps, code: &[Option<Insn>]) -> Result<Growth, AllocError> {
        Ok(Growth {
            numbers: Thresholds::of(alloc, caps, code)?,
            stack: Thresholds::of_stack(alloc, code)?,
        })
    }

    /// What is declared of a place whose kind at its head becomes `joined`.
    pub fn grown(&self, step: Step, kind: Kind, joined: Kind) -> PlaceKind {
        match (kind, joined) {
            (Kind::Num(from), Kind::Num(to)) => number_between(
                widened(&self.numbers, step, from.unsigned(), to.unsigned()),
                signed_widened(&self.numbers, step, from.signed(), to.signed()),
            ),
            (Kind::Ptr(_, from), Kind::Ptr(region, to)) => {
                let thresholds = match region {
                    Region::Input | Region::Output => &self.numbers,
                    Region::Stack => &self.stack,
                };
                pointer_between(
                    region,
                    widened(thresholds, step, from.unsigned(), to.unsigned()),
                )
            }
            (Kind::Unset, _) | (_, Kind::Unset) => PlaceKind::Unset,
            (Kind::Num(_), Kind::Ptr(_, _)) | (Kind::Ptr(_, _), Kind::Num(_)) => PlaceKind::Unset,
        }
    }
}

/// What is declared of a place where a range says too little: all numbers, or all offsets.
pub fn widest(kind: Kind) -> PlaceKind {
    match kind {
        Kind::Unset => PlaceKind::Unset,
        Kind::Num(_) => PlaceKind::Any,
        Kind::Ptr(region, _) => declared(Kind::Ptr(region, any())),
    }
}

fn widened(thresholds: &Thresholds, step: Step, from: URange, to: URange) -> URange {
    URange {
        low: lowered(thresholds, step, from.low, to.low),
        high: raised(thresholds, step, from.high, to.high),
    }
}

/// Where a lower bound goes that moves to `to`, if it does.
fn lowered(thresholds: &Thresholds, step: Step, from: u64, to: u64) -> u64
    ensures { result ≤ to }
{
    if from <= to {
        return to;
    }
    match step {
        Step::Joined => to,
        Step::Threshold => thresholds.below(to),
        Step::End => 0,
    }
}

/// The same of an upper bound.
fn raised(thresholds: &Thresholds, step: Step, from: u64, to: u64) -> u64
    ensures { to ≤ result }
{
    if to <= from {
        return to;
    }
    match step {
        Step::Joined => to,
        Step::Threshold => thresholds.above(to),
        Step::End => u64::MAX,
    }
}

fn signed_widened(thresholds: &Thresholds, step: Step, from: SRange, to: SRange) -> SRange {
    SRange {
        low: signed_lowered(thresholds, step, from.low, to.low),
        high: signed_raised(thresholds, step, from.high, to.high),
    }
}

/// Where a lower signed bound goes that moves to `to`, if it does.
fn signed_lowered(thresholds: &Thresholds, step: Step, from: i64, to: i64) -> i64
    ensures { result ≤ℤ to }
{
    if from <= to {
        return to;
    }
    match step {
        Step::Joined => to,
        Step::Threshold => thresholds.signed_below(to),
        Step::End => i64::MIN,
    }
}

/// The same of an upper signed bound.
fn signed_raised(thresholds: &Thresholds, step: Step, from: i64, to: i64) -> i64
    ensures { to ≤ℤ result }
{
    if to <= from {
        return to;
    }
    match step {
        Step::Joined => to,
        Step::Threshold => thresholds.signed_above(to),
        Step::End => i64::MAX,
    }
}
