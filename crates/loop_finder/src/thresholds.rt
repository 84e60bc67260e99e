ghost use Rattle.std.specs.Prelude.{◌≤◌, ◌≤ℤ◌};

use bpf_decode::{Insn, Operand, Region};
use bpf_machine::{Caps, STACK_SIZE};
use std::alloc::{AllocError, Global};

/// The greatest number of thresholds: further ones are left out.
const THRESHOLD_LIMIT: usize = 1024;

/// Numbers at which a bound that moves may stop: those of the code, the regions' lengths and the ends of
/// words, each with its neighbours.
#[derive(Drop)]
pub struct Thresholds {
    numbers: Vec<u64>,
}

impl Thresholds {
    /// For numbers, and for offsets into the input and the output.
    pub fn of(alloc: Global, caps: &Caps, code: &[Option<Insn>]) -> Result<Thresholds, AllocError> {
        let mut thresholds = Thresholds {
            numbers: Vec::new(alloc),
        };
        for end in [0, 1 << 31, 1 << 32, 1 << 63] {
            thresholds.add(end)?;
        }
        for region in [Region::Input, Region::Output, Region::Stack] {
            thresholds.add(caps.size(region) as u64)?;
        }
        for begun in code {
            if let Some(number) = number_of(begun) {
                thresholds.add(number)?;
            }
        }
        Ok(thresholds)
    }

    /// For offsets into the stack: a number of the code may count from its end.
    pub fn of_stack(alloc: Global, code: &[Option<Insn>]) -> Result<Thresholds, AllocError> {
        let mut thresholds = Thresholds {
            numbers: Vec::new(alloc),
        };
        let end = STACK_SIZE as u64;
        thresholds.add(0)?;
        thresholds.add(end)?;
        for begun in code {
            if let Some(number) = number_of(begun) {
                for at in [number, end.wrapping_add(number), end.wrapping_sub(number)] {
                    if at <= end {
                        thresholds.add(at)?;
                    }
                }
            }
        }
        Ok(thresholds)
    }

    /// Adds a number and its neighbours.
    fn add(&mut self, number: u64) -> Result<(), AllocError> {
        for near in [number.wrapping_sub(1), number, number.wrapping_add(1)] {
            if self.numbers.len() < THRESHOLD_LIMIT && !self.numbers.contains(&near) {
                self.numbers.push(near)?;
            }
        }
        Ok(())
    }

    /// The least from a number on.
    pub fn above(&self, number: u64) -> u64
        ensures { number ≤ result }
    {
        let mut least = u64::MAX;
        for threshold in &self.numbers {
            if number <= *threshold && *threshold < least {
                least = *threshold;
            }
        }
        least
    }

    /// The greatest up to a number.
    pub fn below(&self, number: u64) -> u64
        ensures { result ≤ number }
    {
        let mut greatest = 0;
        for threshold in &self.numbers {
            if *threshold <= number && greatest < *threshold {
                greatest = *threshold;
            }
        }
        greatest
    }

    /// The least from a signed number on.
    pub fn signed_above(&self, number: i64) -> i64
        ensures { number ≤ℤ result }
    {
        let mut least = i64::MAX;
        for threshold in &self.numbers {
            let threshold = threshold.cast_signed();
            if number <= threshold && threshold < least {
                least = threshold;
            }
        }
        least
    }

    /// The greatest up to a signed number.
    pub fn signed_below(&self, number: i64) -> i64
        ensures { result ≤ℤ number }
    {
        let mut greatest = i64::MIN;
        for threshold in &self.numbers {
            let threshold = threshold.cast_signed();
            if threshold <= number && greatest < threshold {
                greatest = threshold;
            }
        }
        greatest
    }
}

/// The number that an instruction sets, adds or compares with, if it has one.
#[rattlefmt::skip]
fn number_of(begun: &Option<Insn>) -> Option<u64> {
    match *begun {
        Some(Insn::LoadWide { value, .. }) => Some(value),
        Some(Insn::Alu { source, .. }) => immediate(source),
        Some(Insn::Mov { source, .. }) => immediate(source),
        Some(Insn::Branch { source, .. }) => immediate(source),
        Some(Insn::Neg { .. } | Insn::MovSigned { .. } | Insn::End { .. }) => None,
        Some(Insn::Load { .. } | Insn::LoadSigned { .. } | Insn::Store { .. }) => None,
        Some(Insn::Jump { .. } | Insn::JumpLong { .. }) => None,
        Some(Insn::Call { .. } | Insn::CallLocal { .. } | Insn::Exit) => None,
        None => None,
    }
}

fn immediate(source: Operand) -> Option<u64> {
    match source {
        Operand::Immediate(number) => Some(i64::from(number).cast_unsigned()),
        Operand::Register(_) => None,
    }
}
