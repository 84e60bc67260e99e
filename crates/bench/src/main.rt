//! `bench` measures, a table each: an instruction of `call`, a call on an object, a slot of
//! `verify` and an `append` of a group, over methods of its own; the assembly of a text of many
//! labels; a change of a small object, and the same change of a large one; calls that only read
//! their object, with none and with one of full size; the adoption of another list by a log, and a
//! replay of that list; and a request at the nodes of a group of three. With `--dry` it leaves the
//! times out. With `memory` it prints alone the memory of the entries of a full log.
#![tactic(auto)]

mod handling;
mod log;
mod memory;
mod objects;
mod reads;
mod requests;
mod table;
mod texts;
mod timing;

use anyhow::{Context, Result};
use std::alloc::Global;
use std::time::Clock;
use std::{env, io};

/// What a command line asks for: all tables, with times or without, or the memory of entries alone.
#[derive(Clone, Copy)]
enum Asked {
    Tables { is_timed: bool },
    Memory,
}

/// What these words ask for, if it is one of those.
fn asked_by(words: &[String]) -> Option<Asked> {
    match words {
        [_] => Some(Asked::Tables { is_timed: true }),
        [_, word] if word.as_str() == "--dry" => Some(Asked::Tables { is_timed: false }),
        [_, word] if word.as_str() == "memory" => Some(Asked::Memory),
        _ => None,
    }
}

fn main(rt: HostRuntime) -> Result<()> {
    let words: Vec<String> = env::args(&rt)?.collect(rt.alloc())?;
    let wanted = asked_by(&words).context("usage: bench [--dry | memory]")?;
    let mut out = rt.stdout();
    match wanted {
        Asked::Tables { is_timed } => {
            let clock = if is_timed { Some(&rt) } else { None };
            tables(rt.alloc(), clock, &mut out)
        }
        Asked::Memory => memory::report(&rt, &mut out),
    }
}

/// Prints all tables, an empty line between two, with times if there is a clock.
fn tables<C: Clock, O: io::Write>(alloc: Global, clock: Option<&C>, out: &mut O) -> Result<()> {
    table::report(alloc, clock, out)?;
    texts::report(alloc, clock, out)?;
    objects::report(alloc, clock, out)?;
    reads::report(alloc, clock, out)?;
    log::report(alloc, clock, out)?;
    handling::report(alloc, clock, out)
}
