//! Calls that only read their object, with none and with one of full size.

mod measure;
mod subject;

use crate::timing::{Time, least_of};
use anyhow::Result;
use measure::{CALLS, RUNS, Reads};
use object_store::Object;
use std::alloc::Global;
use std::io;
use std::time::Clock;
use subject::{Reading, full_object};

/// The calls, and true for those that have an object.
const LINES: [(Reading, bool); 4] = [
    (Reading::Stat, false),
    (Reading::Stat, true),
    (Reading::MapGet, false),
    (Reading::MapGet, true),
];

/// Prints an empty line, and a line for each call with each object, with its time if there is a
/// clock.
pub fn report<C: Clock, O: io::Write>(alloc: Global, clock: Option<&C>, out: &mut O) -> Result<()> {
    let full = full_object(alloc)?;
    lines(alloc, clock, &full, out)
}

/// Prints the heading, and the lines.
fn lines<C: Clock, O: io::Write>(
    alloc: Global,
    clock: Option<&C>,
    full: &Object,
    out: &mut O,
) -> Result<()> {
    let heading = if clock.is_some() { "  ns" } else { "" };
    writeln!(out, "\ncall      object  answer{heading}")?;
    for (reading, has_object) in &LINES {
        let (object, word) = if *has_object {
            (Some(full), "full")
        } else {
            (None, "none")
        };
        let answer = reading.call(object)?.cast_signed();
        let reads = Reads {
            reading: *reading,
            object,
        };
        let time = Time::Nanos(least_of(alloc, clock, &reads, CALLS, RUNS)?);
        let name = reading.name();
        writeln!(out, "{name:<9} {word:<6} {answer:>7}{time}")?;
    }
    Ok(())
}
