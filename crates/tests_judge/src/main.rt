//! `tests_judge` plays one run of a cluster in threads, as a plan on standard input has it, and
//! prints its history; `tools/judge.py` makes plans and judges histories.
//!
//! Clients call without pause, while nodes are stopped and let go, maps of all shapes are made, and
//! messages are lost, doubled and late; and some logs grow to their limit. Then the trouble ends:
//! each client makes its last calls, and repeats them until they are answered. A run has to end.
//!
//! With a word it prints only whether all that was done, and the status tells it too. The gate runs
//! it so. Nothing here has a contract: it is a test.
#![tactic(auto)]

mod caller;
mod crossing;
mod history;
mod lines;
mod plan;
mod run;
mod trouble;
mod unrest;

use crate::plan::{Plan, read_plan};
use crate::run::{Played, run};
use std::alloc::Global;
use std::env;
use std::io::{self, Input, Read};
use std::process::ExitCode;
use std::sync::Wait;
use std::thread::Threads;
use std::time::Clock;

fn main(rt: HostRuntime) -> io::Result<ExitCode> {
    let words: Vec<String> = env::args(&rt)?.collect(rt.alloc())?;
    let is_alone = words.len() > 1;
    let Some(plan) = plan_of(&rt)? else {
        println!(rt; "the plan is wrong")?;
        return Ok(ExitCode::FAILURE);
    };
    tell(&rt, plan, is_alone)
}

/// The plan on standard input. None if it is wrong.
fn plan_of<R: Input + AllocGlobal>(rt: &R) -> io::Result<Option<Plan>> {
    let bytes = read_all(rt.alloc(), rt.reader())?;
    match String::from_utf8(bytes) {
        Ok(text) => Ok(read_plan(rt.alloc(), &text)),
        Err(_) => Ok(None),
    }
}

/// All bytes that come from there.
fn read_all<S: Read + Drop>(alloc: Global, mut source: S) -> io::Result<Vec<u8>> {
    let mut bytes = Vec::new(alloc);
    source.read_to_end(&mut bytes)?;
    Ok(bytes)
}

/// Plays, and prints the history, or the verdict alone.
fn tell<R: Threads + Wait + Clock + Sync + Print + AllocGlobal>(
    rt: &R,
    plan: Plan,
    is_alone: bool,
) -> io::Result<ExitCode> {
    match run(rt, plan) {
        Ok(played) => tell_played(rt, &played, is_alone),
        Err(why) => {
            println!(rt; "{why}")?;
            Ok(ExitCode::FAILURE)
        }
    }
}

fn tell_played<R: Print>(rt: &R, played: &Played, is_alone: bool) -> io::Result<ExitCode> {
    if !is_alone {
        for text in &played.texts {
            print!(rt; "{text}")?;
        }
    }
    match played.fault {
        Some(fault) => {
            println!(rt; "{fault}")?;
            Ok(ExitCode::FAILURE)
        }
        None => {
            println!(rt; "the run has ended")?;
            Ok(ExitCode::SUCCESS)
        }
    }
}
