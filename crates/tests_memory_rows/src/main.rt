//! `tests_memory_rows` makes each call of the tables of calls that can be refused memory, and
//! prints a line for each: its name, and `answered`. `tests_memory_rows ROW` makes one of them.
//! tools/refuse.sh refuses each growth of a row in turn, by which the call is `refused` before it
//! answers. A call that does otherwise `differs`, and the status is 1.
#![tactic(auto)]

mod cells;
mod clusters;
mod running;
mod table;

use std::alloc::Global;
use std::process::ExitCode;
use std::sync::Wait;
use std::thread::Threads;
use std::{env, io};
use table::{CLUSTER_ROWS, ClusterRow};
use tests_memory_table::{Ending, ROWS, Row};

fn main(rt: HostRuntime) -> ExitCode {
    let Some(words) = words(&rt) else {
        return ExitCode::FAILURE;
    };
    match run(&rt, rt.alloc(), &words, &mut rt.stdout()) {
        Ok(true) => ExitCode::SUCCESS,
        Ok(false) => ExitCode::FAILURE,
        Err(_) => ExitCode::FAILURE,
    }
}

/// The words of the command line, once more if memory was refused.
fn words(rt: &HostRuntime) -> Option<Vec<String>> {
    match words_once(rt) {
        Some(words) => Some(words),
        None => words_once(rt),
    }
}

fn words_once(rt: &HostRuntime) -> Option<Vec<String>> {
    env::args(rt).ok()?.collect(rt.alloc()).ok()
}

/// Makes the rows that the words ask for. True if none differs.
fn run<R: Threads + Wait + Sync + Copy + Drop, O: io::Write>(
    rt: R,
    alloc: Global,
    words: &[String],
    out: &mut O,
) -> io::Result<bool> {
    match words {
        [_] => run_all(rt, alloc, out),
        [_, name] => run_one(rt, alloc, name, out),
        _ => Ok(false),
    }
}

/// Prints the end of a row. True if it doesn't differ.
fn print<O: io::Write>(name: &str, ending: Ending, out: &mut O) -> io::Result<bool> {
    writeln!(out, "{name} {}", ending.word())?;
    Ok(ending != Ending::Differs)
}

/// Makes the row of a name. False if there is none.
fn run_one<R: Threads + Wait + Sync + Copy + Drop, O: io::Write>(
    rt: R,
    alloc: Global,
    name: &str,
    out: &mut O,
) -> io::Result<bool> {
    let ending = match (Row::of(name), ClusterRow::of(name)) {
        (Some(row), _) => row.run(alloc),
        (None, Some(row)) => row.run(rt, alloc),
        (None, None) => return Ok(false),
    };
    print(name, ending, out)
}

/// Makes every row. True if none differs.
fn run_all<R: Threads + Wait + Sync + Copy + Drop, O: io::Write>(
    rt: R,
    alloc: Global,
    out: &mut O,
) -> io::Result<bool> {
    let mut all = true;
    for (name, row) in &ROWS {
        let is_right = print(name, row.run(alloc), out)?;
        all = all && is_right;
    }
    for (name, row) in &CLUSTER_ROWS {
        let is_right = print(name, row.run(rt, alloc), out)?;
        all = all && is_right;
    }
    Ok(all)
}
