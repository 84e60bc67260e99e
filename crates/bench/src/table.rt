//! Methods, calls on objects, and appends to a group: the counts of each method, and the times of
//! all.

mod append;
mod pairs;
mod subject;
mod workload;

use crate::timing::{Nanos, least_of};
use anyhow::{Error, Result};
use append::time_append;
use std::alloc::Global;
use std::io;
use std::time::Clock;
use subject::SUBJECTS;
use workload::{WORKLOADS, Workload};

/// The times that are taken of each; the least counts.
const RUNS: usize = 50;

/// The instructions or slots of a measurement, about.
const UNITS: usize = 100_000;

/// The calls of a measurement on an object.
const CALLS: usize = 1_000;

/// The entries of the logs that `append` is measured on.
const LENGTHS: [u32; 2] = [100, 60_000];

/// Prints a heading and a line for each method: its slots, those that are a pair of instructions,
/// and the steps of a run. If there is a clock, each has its times, and lines for calls on objects
/// and for `append` follow.
pub fn report<C: Clock, O: io::Write>(alloc: Global, clock: Option<&C>, out: &mut O) -> Result<()> {
    let heading = if clock.is_some() {
        "    ns/call    ns/step    ns/slot"
    } else {
        ""
    };
    writeln!(out, "method     slots  pairs  steps{heading}")?;
    for workload in &WORKLOADS {
        line(alloc, clock, workload, out)?;
    }
    match clock {
        None => Ok(()),
        Some(clock) => {
            calls(alloc, clock, out)?;
            appends(alloc, clock, out)
        }
    }
}

/// Prints a method's line.
fn line<C: Clock, O: io::Write>(
    alloc: Global,
    clock: Option<&C>,
    workload: &Workload,
    out: &mut O,
) -> Result<()> {
    let ready = workload.ready(alloc)?;
    let (name, slots, pairs, steps) = (workload.name, ready.slots, ready.pairs, ready.steps);
    write!(out, "{name:<9} {slots:>6} {pairs:>6} {steps:>6}")?;
    let (steps, slots) = (steps.max(1), slots.max(1));
    let call = least_of(alloc, clock, &ready.class, UNITS / steps + 1, RUNS)?;
    let pass = least_of(alloc, clock, &ready.image, UNITS / slots / 10 + 1, RUNS)?;
    if let (Some(call), Some(pass)) = (call, pass) {
        let step = Nanos {
            picos: call / steps as u64,
        };
        let slot = Nanos {
            picos: pass / slots as u64,
        };
        let call = Nanos { picos: call };
        write!(out, "{call}{step}{slot}")?;
    }
    writeln!(out).map_err(Error::from)
}

/// Prints a line for each call on an object.
fn calls<C: Clock, O: io::Write>(alloc: Global, clock: &C, out: &mut O) -> Result<()> {
    for subject in &SUBJECTS {
        let work = subject.ready(alloc)?;
        let name = subject.name();
        if let Some(picos) = least_of(alloc, Some(clock), &work, CALLS, RUNS)? {
            let time = Nanos { picos };
            writeln!(out, "ns/call {name:<24}{time}")?;
        }
    }
    Ok(())
}

/// Prints a line for `append` to a log of each length, of requests of the first method.
fn appends<C: Clock, O: io::Write>(alloc: Global, clock: &C, out: &mut O) -> Result<()> {
    for behind in &LENGTHS {
        let ready = WORKLOADS[0].ready(alloc)?;
        let picos = time_append(alloc, clock, ready.class, *behind, RUNS)?;
        let time = Nanos { picos };
        writeln!(out, "ns/append behind {behind:>5}{time}")?;
    }
    Ok(())
}
