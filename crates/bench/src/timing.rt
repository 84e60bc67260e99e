ghost use Rattle.std.specs.Prelude.{◌≡◌, ◌≤◌, ◌*◌, ◌/◌, ◌^◌, ◌-◌, min};

use anyhow::Result;
use std::alloc::Global;
use std::fmt;
use std::time::{Clock, Instant};

/// A time of that many picoseconds, which prints as nanoseconds with two digits.
#[derive(Clone, Copy)]
pub struct Nanos {
    pub picos: u64,
}

impl fmt::Display for Nanos {
    fn fmt<W: fmt::Write>(&self, f: &mut fmt::Formatter<W>) -> fmt::Result {
        let whole = self.picos / 1000;
        let rest = self.picos % 1000 / 10;
        write!(f, "{whole:>8}.{rest:02}")
    }
}

/// The end of a line: a time of that many picoseconds, if one was taken.
#[derive(Clone, Copy)]
pub enum Time {
    /// Prints as microseconds.
    Micros(Option<u64>),
    /// Prints as nanoseconds, of a column that has the unit in its heading.
    Nanos(Option<u64>),
    /// Prints as nanoseconds with two digits.
    Picos(Option<u64>),
}

impl fmt::Display for Time {
    fn fmt<W: fmt::Write>(&self, f: &mut fmt::Formatter<W>) -> fmt::Result {
        match *self {
            Time::Micros(None) | Time::Nanos(None) | Time::Picos(None) => Ok(()),
            Time::Micros(Some(picos)) => {
                let micros = picos / 1_000_000;
                write!(f, "{micros:>9} us")
            }
            Time::Nanos(Some(picos)) => {
                let nanos = picos / 1_000;
                write!(f, "  {nanos}")
            }
            Time::Picos(Some(picos)) => {
                let nanos = Nanos { picos };
                write!(f, "{nanos} ns")
            }
        }
    }
}

/// A thing that is timed.
pub trait Work {
    /// Does it that many times.
    fn run(&self, alloc: Global, count: usize) -> Result<()>;
}

/// The least time of some measurements, in picoseconds.
#[derive(Clone, Copy)]
pub struct Least {
    pub picos: u64,
}

impl Least {
    /// Of no measurement: 2^64 - 1.
    pub fn new() -> Least {
        Least { picos: u64::MAX }
    }

    /// Notes a measurement, in which that many took that many nanoseconds: the least picoseconds of
    /// one stay. A time over 2^128 picoseconds counts as that, and one of 2^64 or more as 2^64 - 1.
    pub fn note(&mut self, nanos: u128, count: usize)
        requires { 1 ≤ count }
        ensures { self.new.picos ≡
            min self.old.picos (min (min (nanos * 1000) (2 ^ 128 - 1) / count) (2 ^ 64 - 1)) }
    {
        let picos = nanos.saturating_mul(1000) / count as u128;
        self.picos = self.picos.min(picos.min(u128::from(u64::MAX)) as u64);
    }
}

/// The least picoseconds that each of `count` took, of that many runs, if there is a clock.
pub fn least_of<C: Clock, W: Work>(
    alloc: Global,
    clock: Option<&C>,
    work: &W,
    count: usize,
    runs: usize,
) -> Result<Option<u64>>
    requires { 1 ≤ count }
{
    let Some(clock) = clock else {
        return Ok(None);
    };
    let mut least = Least::new();
    for _ in 0..runs {
        let start = Instant::now(clock)?;
        work.run(alloc, count)?;
        least.note(start.elapsed(clock)?.as_nanos(), count);
    }
    Ok(Some(least.picos))
}

/// The time that the clock shows, if there is one.
pub fn now<C: Clock>(clock: Option<&C>) -> Result<Option<Instant>> {
    match clock {
        None => Ok(None),
        Some(clock) => Ok(Some(Instant::now(clock)?)),
    }
}

/// The nanoseconds since then; 0 if there is no clock.
pub fn nanos_since<C: Clock>(clock: Option<&C>, start: Option<Instant>) -> Result<u128> {
    match (clock, start) {
        (Some(clock), Some(start)) => Ok(start.elapsed(clock)?.as_nanos()),
        _ => Ok(0),
    }
}
