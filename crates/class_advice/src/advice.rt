//! Advice: code that would do in place of the refused code, and how that prints.

use crate::known::region_text;
use crate::ways::Last;
use bpf_decode::{Region, RuleSet};
use std::alloc::AllocError;

/// A place in a region, from its first byte on, or how far it is below that.
#[derive(Clone, Copy)]
pub(crate) struct Place {
    pub(crate) region: Region,
    pub(crate) at: u64,
    pub(crate) is_below: bool,
}

/// An access that may leave its region.
#[derive(Clone, Copy)]
pub(crate) struct OutsideAccess {
    /// The register that points.
    pub(crate) register: usize,
    /// True if its offset is more than one: a number that isn't known was added.
    pub(crate) is_moved: bool,
    /// The last place where the access may begin, or the first one, if that is below the region.
    pub(crate) begin: Place,
    /// The last place where it fits, if there is one.
    pub(crate) last: Option<u64>,
    /// The bytes of the access.
    pub(crate) bytes: u64,
    /// The bytes of the region.
    pub(crate) size: u64,
}

/// A range that may be too long for its region.
#[derive(Clone, Copy)]
pub(crate) struct LongRange {
    /// The register of its length.
    pub(crate) register: usize,
    /// True if its length is one number.
    pub(crate) is_known: bool,
    /// The greatest length that it may have.
    pub(crate) high: u64,
    /// The greatest length that fits.
    pub(crate) most: u64,
    /// The last place where the range may begin.
    pub(crate) begin: Place,
    /// The bytes that its region must have, if its length is one number and a region may have them.
    pub(crate) least: Option<u64>,
}

/// Code that would do in place of the refused code. Registers are numbers, 0 to 10.
#[derive(Clone, Copy)]
pub(crate) enum Advice {
    /// A jump that goes forward.
    Forward,
    /// A target that counts a wide load's slots.
    CountSlots,
    /// A target past the last slot: it, and that one.
    PastEnd(u64, u64),
    /// An exit after the last instruction.
    EndByExit,
    /// A function's code in place of its call.
    Inline,
    /// A register is unset, and what was last done to it.
    Unset(usize, Last),
    /// A whole store into an unset slot.
    StoreWhole,
    CopyOfR10,
    /// A register is a pointer, which is computed with.
    NumbersFirst(usize),
    /// A register is a pointer, which is compared.
    NeverNull(usize),
    /// A pointer is stored, in rule set 1.
    TakeRules,
    /// A pointer is stored otherwise than whole, in rule sets 2 and 3.
    AtMultiple,
    /// A register is a number, which is taken for a place.
    NoPlace(usize),
    /// An access leaves its region.
    Outside(OutsideAccess),
    /// A range is too long.
    Length(LongRange),
    /// The register of a range's pointer, whether it is moved, where the range may begin, and where
    /// at most.
    Late(usize, bool, Place, u64),
    /// The register of a range's pointer, whether it is moved, and where the range may begin, below
    /// its region.
    Early(usize, bool, Place),
    /// A store through a register into the input.
    ReadOnlyStore(usize),
    /// A range into which a call writes, in the input.
    ReadOnlyRange(usize),
    /// The ids of a rule set's helpers.
    HelpersOnly(RuleSet),
    TakesNumber(usize),
    TakesPointer(usize),
    /// The register of an output's length, what it may be, OUT, and what OUT must be, if the length is
    /// one number.
    OutLength(usize, u64, u64, Option<u64>),
    /// A helper that may change the object.
    MayWrite(u32),
    CodeIsNumber,
    LoadWhole,
    PassNoPointer,
}

/// Why a register is unset.
#[rattlefmt::skip]
fn push_unset(out: &mut String, register: usize, last: Last) -> Result<(), AllocError> {
    match last {
        Last::Never => write!(out, "  no instruction before it sets r{register}: set it first\n"),
        Last::Elsewhere =>
            write!(out, "  no way that leads here sets r{register}: set it on each, or before they part\n"),
        Last::Set =>
            write!(out, "  r{register} is set before, but not on each way that leads here: one doesn't set it, or \
                calls a helper after that, which unsets r1 to r5\n"),
        Last::Unlike =>
            write!(out, "  each way that leads here sets r{register}, but not alike: one to a number and one to a \
                pointer, or to pointers to two regions\n"),
        Last::Unset => write!(out, "  a call unsets r1 to r5: keep r{register} in r6 to r9 before it\n"),
    }
}

/// Adds a place.
fn push_place(out: &mut String, place: Place) -> Result<(), AllocError> {
    let sign = if place.is_below { "-" } else { "+" };
    write!(out, "{} {sign} {}", region_text(place.region), place.at)
}

/// What to change of a place that is too high: a bound on what moves it, or the place itself.
#[rattlefmt::skip]
fn push_lower(out: &mut String, register: usize, is_moved: bool, region: Region) -> Result<(), AllocError> {
    match region {
        _ if is_moved => write!(out, "  bound what is added to r{register}, by `jgt` or `and` before the `add`\n"),
        Region::Input => out.push_str("  a lower place, or a greater IN\n"),
        Region::Output => out.push_str("  a lower place, or a greater OUT\n"),
        Region::Stack => out.push_str("  a lower place: the stack is [r10-512] to [r10-1]\n"),
    }
}

/// The same of one that is below its region.
#[rattlefmt::skip]
fn push_higher(out: &mut String, register: usize, is_moved: bool, region: Region) -> Result<(), AllocError> {
    match region {
        _ if is_moved =>
            write!(out, "  bound what moves r{register}: no more is subtracted than was added, by `jgt` before the \
                `sub`, and no negative number is added, by `jslt` before the `add`\n"),
        Region::Input | Region::Output =>
            write!(out, "  a higher place: {} + 0 is its first byte\n", region_text(region)),
        Region::Stack => out.push_str("  a higher place: the stack is [r10-512] to [r10-1]\n"),
    }
}

/// That an access leaves its region.
#[rattlefmt::skip]
fn push_outside(out: &mut String, access: OutsideAccess) -> Result<(), AllocError> {
    let OutsideAccess { register, is_moved, begin, last, bytes, size } = access;
    let region = region_text(begin.region);
    let least = if is_moved { bytes } else { begin.at.saturating_add(bytes) };
    write!(out, "  it may be {bytes} bytes from ")?;
    push_place(out, begin)?;
    if begin.is_below {
        write!(out, " on: from {region} + 0 on at least\n")?;
        return push_higher(out, register, is_moved, begin.region);
    }
    match (last, begin.region) {
        (Some(last), _) => {
            write!(out, " on, of {size}: from {region} + {last} on at most\n")?;
            push_lower(out, register, is_moved, begin.region)
        }
        (None, Region::Input) => write!(out, " on, of {size}: too few\n  IN is at least {least}\n"),
        (None, Region::Output) => write!(out, " on, of {size}: too few\n  OUT is at least {least}\n"),
        (None, Region::Stack) => write!(out, " on, of {size}: too few\n"),
    }
}

/// What to change of a range that is too long, where no bound of its length would do.
#[rattlefmt::skip]
fn push_shorter(out: &mut String, region: Region, least: Option<u64>) -> Result<(), AllocError> {
    match (region, least) {
        (Region::Input, Some(least)) => write!(out, "; a smaller number, or IN is at least {least}\n"),
        (Region::Output, Some(least)) => write!(out, "; a smaller number, or OUT is at least {least}\n"),
        (Region::Input, None) => out.push_str("; a smaller number, a lower place, or a greater IN\n"),
        (Region::Output, None) => out.push_str("; a smaller number, a lower place, or a greater OUT\n"),
        (Region::Stack, _) => out.push_str("; a smaller number, or a lower place\n"),
    }
}

/// That a length is too great.
#[rattlefmt::skip]
fn push_length(out: &mut String, range: LongRange) -> Result<(), AllocError> {
    let LongRange { register, is_known, high, most, begin, least } = range;
    let verb = if is_known { "is" } else { "may be" };
    write!(out, "  r{register} {verb} {high}: at most {most} bytes from ")?;
    push_place(out, begin)?;
    if is_known || most == 0 {
        return push_shorter(out, begin.region, least);
    }
    write!(out, "; `jgt r{register}, {most}, ..` before it\n")
}

/// That a range begins too late.
#[rattlefmt::skip]
fn push_late(out: &mut String, register: usize, is_moved: bool, begin: Place, most: u64) -> Result<(), AllocError> {
    let region = region_text(begin.region);
    write!(out, "  r{register} may be ")?;
    push_place(out, begin)?;
    write!(out, ": at most {region} + {most} for the range\n")?;
    push_lower(out, register, is_moved, begin.region)
}

/// That a range begins below its region.
#[rattlefmt::skip]
fn push_early(out: &mut String, register: usize, is_moved: bool, begin: Place) -> Result<(), AllocError> {
    let region = region_text(begin.region);
    write!(out, "  r{register} may be ")?;
    push_place(out, begin)?;
    write!(out, ": at least {region} + 0 for the range\n")?;
    push_higher(out, register, is_moved, begin.region)
}

/// That an output is too long. `least` is what OUT must be, if its length is one number.
#[rattlefmt::skip]
fn push_out_length(
    out: &mut String, register: usize, high: u64, most: u64, least: Option<u64>,
) -> Result<(), AllocError> {
    match least {
        Some(least) =>
            write!(out, "  r{register} is {high}: at most OUT, {most}; a smaller number, or OUT is at least {least}\n"),
        None if most == 0 => write!(out, "  r{register} may be {high}: at most OUT, 0; a greater OUT\n"),
        None =>
            write!(out, "  r{register} may be {high}: at most OUT, {most}; `jgt r{register}, {most}, ..` before it\n"),
    }
}

/// Adds advice.
#[rattlefmt::skip]
pub(crate) fn push_advice(out: &mut String, advice: Advice) -> Result<(), AllocError> {
    match advice {
        Advice::Forward => out.push_str("  jumps go forward: write a loop out, with an exit where it may end early\n"),
        Advice::CountSlots => out.push_str("  a wide load takes two slots: jump to a label, which counts right\n"),
        Advice::PastEnd(target, last) =>
            write!(out, "  the target is slot {target}, and the last one is {last}: `exit` at the end, or a nearer \
                label\n"),
        Advice::EndByExit => out.push_str("  `exit` after it\n"),
        Advice::Inline =>
            out.push_str("  a method is one piece of code: write the function's code there; in C make it `static \
                inline __attribute__((always_inline))`\n"),
        Advice::Unset(r, last) => push_unset(out, r, last),
        Advice::StoreWhole =>
            out.push_str("  an unset slot had a part of a pointer overwritten, or ways set it unlike: store it whole \
                before, 8 bytes at a multiple of 8, as `stxdw [r10-8], r0`\n"),
        Advice::CopyOfR10 => out.push_str("  change a copy: `mov r2, r10`, then r2\n"),
        Advice::NumbersFirst(r) =>
            write!(out, "  r{r} is a pointer: compute in numbers, and add the sum to it last, in 64 bits; copy it by \
                `mov`\n"),
        Advice::NeverNull(r) =>
            write!(out, "  r{r} is a pointer, which is never null: compare a length, a place or an answer\n"),
        Advice::TakeRules =>
            out.push_str("  keep it in r6 to r9; or begin the class with `.rules 2`, where a pointer may be stored \
                whole at a multiple of 8, as `stxdw [r10-8], r1`\n"),
        Advice::AtMultiple =>
            out.push_str("  a pointer is stored whole: by `stxdw`, in the stack, at one place that is a multiple of 8, \
                as [r10-8] or [r10-16]\n"),
        Advice::NoPlace(r) =>
            write!(out, "  r{r} is a number: a place is what r1 (input), r3 (output) or r10 (stack) was at first, plus \
                a number; a string is written to the stack\n"),
        Advice::Outside(access) => push_outside(out, access),
        Advice::Length(range) => push_length(out, range),
        Advice::Late(r, is_moved, begin, most) => push_late(out, r, is_moved, begin, most),
        Advice::Early(r, is_moved, begin) => push_early(out, r, is_moved, begin),
        Advice::ReadOnlyStore(r) =>
            write!(out, "  r{r} points to the input, which is read only: store to the output or the stack\n"),
        Advice::ReadOnlyRange(r) =>
            write!(out, "  the call writes where r{r} points, and the input is read only: give it the output or the \
                stack\n"),
        Advice::HelpersOnly(RuleSet::One | RuleSet::Two) =>
            out.push_str("  the helpers are 1 to 15, and with `.rules 3` to 18; a function of your own is written \
                where it is called\n"),
        Advice::HelpersOnly(RuleSet::Three) =>
            out.push_str("  the helpers are 1 to 18; a function of your own is written where it is called\n"),
        Advice::TakesNumber(r) => write!(out, "  r{r} takes a number\n"),
        Advice::TakesPointer(r) =>
            write!(out, "  r{r} takes a pointer, made of r1 (input), r3 (output) or r10 (stack): a string is written \
                to the stack, as `stdw [r10-8], 7` and `mov r1, r10`, `add r1, -8`\n"),
        Advice::OutLength(r, high, most, least) => push_out_length(out, r, high, most, least),
        Advice::MayWrite(helper) =>
            write!(out, "  `call {helper}` may change the object: give the method the flags `rw`\n"),
        Advice::CodeIsNumber => out.push_str("  `mov r0, 0` before it, or another number; output goes by `call 13`\n"),
        Advice::LoadWhole => out.push_str("  load the pointer whole: `ldxdw` of its slot\n"),
        Advice::PassNoPointer =>
            out.push_str("  end the range before the pointer's slot, or store a number there first\n"),
    }
}
