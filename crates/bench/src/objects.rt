//! The cost of a change of a small object, and of the same change of a large one.

mod measure;

use anyhow::Result;
use measure::{Subject, time};
use std::alloc::Global;
use std::io;
use std::time::Clock;

/// The subjects that are measured, with their names in the table.
const SUBJECTS: [(Subject, &str); 7] = [
    (Subject::Copy, "copy of the largest object"),
    (Subject::Write { len: 1024 }, "write a byte in 1 KiB"),
    (Subject::Write { len: 65_536 }, "write a byte in 64 KiB"),
    (Subject::Set { others: 1 }, "set a key beside 1"),
    (Subject::Set { others: 1023 }, "set a key beside 1023"),
    (Subject::Read { len: 1024 }, "read 64 bytes of 1 KiB"),
    (Subject::Read { len: 65_536 }, "read 64 bytes of 64 KiB"),
];

/// Prints an empty line, and a line for each subject, with its time if there is a clock.
pub fn report<C: Clock, O: io::Write>(alloc: Global, clock: Option<&C>, out: &mut O) -> Result<()> {
    writeln!(out)?;
    for (subject, name) in &SUBJECTS {
        let time = time(alloc, clock, *subject)?;
        writeln!(out, "{name:<28}{time}")?;
    }
    Ok(())
}
