//! The cost of a text of many labels, which is assembled.

use crate::timing::{Time, Work, least_of};
use anyhow::{Error, Result};
use bpf_asm::assemble;
use std::alloc::{AllocError, Global};
use std::io;
use std::time::Clock;

/// The numbers of labels after the jumps.
const LABELS: [u32; 3] = [4095, 20_000, 80_000];

/// The jumps of a text, each to a label of its own.
const JUMPS: u32 = 4095;

/// The times that a text is assembled; the least time counts.
const RUNS: usize = 5;

/// Prints an empty line, and a line for each number of labels, with its time if there is a clock.
pub fn report<C: Clock, O: io::Write>(alloc: Global, clock: Option<&C>, out: &mut O) -> Result<()> {
    writeln!(out)?;
    for labels in &LABELS {
        line(alloc, clock, *labels, out)?;
    }
    Ok(())
}

/// Prints a line.
fn line<C: Clock, O: io::Write>(
    alloc: Global,
    clock: Option<&C>,
    labels: u32,
    out: &mut O,
) -> Result<()> {
    let text = text_of(alloc, labels)?;
    print(alloc, clock, &Assembly { text: &text }, labels, out)
}

/// Prints the line of a text with that many labels.
fn print<C: Clock, O: io::Write>(
    alloc: Global,
    clock: Option<&C>,
    assembly: &Assembly<'_>,
    labels: u32,
    out: &mut O,
) -> Result<()> {
    let slots = assemble(alloc, assembly.text)?.len();
    let time = Time::Micros(least_of(alloc, clock, assembly, 1, RUNS)?);
    writeln!(out, "{labels:>6} labels, {slots} slots{time}").map_err(Error::from)
}

/// A text that is assembled.
#[derive(Clone, Copy)]
struct Assembly<'a> {
    text: &'a str,
}

impl Work for Assembly<'_> {
    fn run(&self, alloc: Global, count: usize) -> Result<()> {
        for _ in 0..count {
            let _ = assemble(alloc, self.text)?;
        }
        Ok(())
    }
}

/// Jumps, then labels, then an exit.
fn text_of(alloc: Global, labels: u32) -> Result<String, AllocError> {
    let mut text = String::new(alloc);
    write_text(&mut text, labels)?;
    Ok(text)
}

fn write_text(text: &mut String, labels: u32) -> Result<(), AllocError> {
    for n in 0..JUMPS {
        writeln!(text, "ja l{n}")?;
    }
    for n in 0..labels {
        writeln!(text, "l{n}:")?;
    }
    text.push_str("exit\n")
}
