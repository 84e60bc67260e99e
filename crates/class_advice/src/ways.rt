//! Why a register is unset at a slot: by the ways through the method that lead there.

use crate::read::{sets, unsets};
use bpf_decode::{Insn, width};
use std::alloc::{AllocError, Global};
use verifier::{Goes, goes_of};

/// A register's last change, by the ways that lead to a slot.
#[derive(Clone, Copy, PartialEq, Eq)]
pub(crate) enum Last {
    /// No instruction before it changes it.
    Never,
    /// An instruction before it sets it, but on no way that leads here.
    Elsewhere,
    /// Some way sets it, and on another it was never set.
    Set,
    /// A way leaves it unset that had set it, or may have.
    Unset,
    /// Each way sets it, one to another kind than another.
    Unlike,
}

/// What ways did last with a register.
#[derive(Clone, Copy)]
struct Ways {
    /// One left it as it was, unset.
    never: bool,
    set: bool,
    unset: bool,
}

impl Ways {
    const NONE: Ways = Ways {
        never: false,
        set: false,
        unset: false,
    };

    /// As a method begins: 1 to 3 and 10 are set.
    fn first(register: usize) -> Ways {
        let set = (1 <= register && register <= 3) || register == 10;
        Ways {
            never: !set,
            set,
            unset: false,
        }
    }

    fn with(self, other: Ways) -> Ways {
        Ways {
            never: self.never || other.never,
            set: self.set || other.set,
            unset: self.unset || other.unset,
        }
    }

    /// The same ways, after an instruction.
    fn after(self, insn: &Insn, register: usize) -> Ways {
        if sets(insn, register) {
            return Ways {
                never: false,
                set: self.never || self.set || self.unset,
                unset: false,
            };
        }
        if unsets(insn, register) {
            return Ways {
                never: self.never,
                set: false,
                unset: self.set || self.unset,
            };
        }
        self
    }
}

/// The slot to which a jump goes: its distance counts from the slot after it.
pub(crate) fn target(at: usize, distance: i64) -> usize {
    let next = (at as u64).wrapping_add(1);
    next.wrapping_add(distance.cast_unsigned()) as usize
}

/// What comes to a slot: from the instruction before it, and by jumps.
fn coming(falls: Ways, jumps: &[(usize, Ways)], at: usize) -> Ways {
    let mut ways = falls;
    for (target, by) in jumps {
        if *target == at {
            ways = ways.with(*by);
        }
    }
    ways
}

/// What the ways to a slot did last with a register. It costs a comparison for each instruction and
/// each jump.
fn ways_to(
    alloc: Global,
    insns: &[Insn],
    slot: usize,
    register: usize,
) -> Result<Ways, AllocError> {
    let (mut at, mut falls) = (0_usize, Ways::first(register));
    let mut jumps: Vec<(usize, Ways)> = Vec::new(alloc);
    for insn in insns {
        if at >= slot {
            break;
        }
        let ways = coming(falls, &jumps, at).after(insn, register);
        match goes_of(insn) {
            Goes::To(distance) => jumps.push((target(at, i64::from(distance)), ways))?,
            Goes::Either(distance) => jumps.push((target(at, i64::from(distance)), ways))?,
            Goes::On | Goes::Out => {}
        }
        falls = match goes_of(insn) {
            Goes::On | Goes::Either(_) => ways,
            Goes::To(_) | Goes::Out => Ways::NONE,
        };
        at = at.saturating_add(width(insn));
    }
    Ok(coming(falls, &jumps, slot))
}

/// True if an instruction in the first slots sets a register.
fn is_set_before(insns: &[Insn], slot: usize, register: usize) -> bool {
    let mut at = 0_usize;
    for insn in insns {
        if at < slot && sets(insn, register) {
            return true;
        }
        at = at.saturating_add(width(insn));
    }
    false
}

/// Why a register is unset before a slot.
pub(crate) fn why_unset(
    alloc: Global,
    insns: &[Insn],
    slot: usize,
    register: usize,
) -> Result<Last, AllocError> {
    let ways = ways_to(alloc, insns, slot, register)?;
    Ok(match (ways.never, ways.set, ways.unset) {
        (true, true, _) | (true, _, true) => Last::Set,
        (true, false, false) if is_set_before(insns, slot, register) => Last::Elsewhere,
        (true, false, false) => Last::Never,
        (false, _, true) => Last::Unset,
        (false, _, false) => Last::Unlike,
    })
}
