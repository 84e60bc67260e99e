//! Runs of the flat machine, and how they end.

ghost use Rattle.std.specs.Prelude.{◌≡◌, ◌≤◌, length, IfOk};
ghost use Rattle.std.specs.Option.{option_copied};
ghost use Rattle.bpf_machine.specs.State.{outcome_of};
ghost use Rattle.bpf_machine.specs.Flat.{run, entry};
ghost use Rattle.flat_machine.specs.View.{layout_of, ending_of};
ghost use Rattle.flat_machine.specs.StateView.{caps_in, layout_in, flat_state};
ghost use Rattle.flat_machine.specs.inner.FlatState.{stopped};

use crate::entry::RunStart;
use crate::machine::Machine;
use crate::state::FlatState;
use crate::stepping::Stepped;
use object_store::Object;
use std::alloc::Global;
use txn::NoMemory;

/// The ending of a run.
#[derive(Drop)]
pub enum Ending {
    /// At an exit: the code, to be read as a signed number, the output, the object after, and the
    /// number of instructions executed.
    Ended {
        code: u64,
        output: Vec<u8>,
        object: Option<Object>,
        steps: usize,
    },
    /// At a state that is no exit and has no step.
    Stuck,
    /// Not within the number of steps.
    Unfinished,
}

/// The place where a run stopped.
#[derive(Clone, Copy)]
pub enum RunStop {
    /// At an exit: register 0, and the number of steps.
    Exit(u64, usize),
    Stuck,
    Unfinished,
}

/// An equal object, none for none.
fn copied(object: Option<&Object>) -> Result<Option<Object>, NoMemory>
    ensures { IfOk result (λ o. o ≡ option_copied object.entry) }
{
    match object {
        None => Ok(None),
        Some(object) => match object.copy() {
            Ok(copy) => Ok(Some(copy)),
            Err(_) => Err(NoMemory),
        },
    }
}

/// Runs at most `limit` steps, from a state, until the run stops.
fn run_on(alloc: Global, code: &[u8], s: &mut FlatState, limit: usize) -> Result<RunStop, NoMemory>
    ensures { IfOk result (λ stop. stopped (flat_state s.old).object stop (flat_state s.new) ≡
        run (caps_in s.old) (layout_in s.old) code.now (flat_state s.old).object limit (flat_state s.old)) }
{
    for n in 0..limit {
        match s.step(alloc, code)? {
            Stepped::Next => {}
            // The exit is an instruction executed too, hence n + 1.
            Stepped::Exit(value) => return Ok(RunStop::Exit(value, n + 1)),
            Stepped::Stuck => return Ok(RunStop::Stuck),
        }
    }
    Ok(RunStop::Unfinished)
}

/// The output and the object after an exit: a negative code changes nothing and has no output.
fn finish(
    alloc: Global,
    before: Option<&Object>,
    code: u64,
    s: FlatState,
) -> Result<(Vec<u8>, Option<Object>), NoMemory>
    ensures { IfOk result (λ r. record { code = code; output = r.0.items; object = r.1 } ≡
        outcome_of (option_copied before.entry) code (flat_state s.entry)) }
{
    // The top bit is the sign of a code, which is read as a signed number.
    if code < 0x8000_0000_0000_0000 {
        let object = copied(s.object.object())?;
        let len = s.out_len;
        let memory = s.memory;
        let mut output = memory.output;
        output.truncate(len);
        Ok((output, object))
    } else {
        let object = copied(before)?;
        Ok((Vec::new(alloc), object))
    }
}

/// The ending of a run that stopped there, in that state.
fn ended(
    alloc: Global,
    before: Option<&Object>,
    stop: RunStop,
    s: FlatState,
) -> Result<Ending, NoMemory>
    ensures { IfOk result (λ e. ending_of e ≡ stopped (option_copied before.entry) stop (flat_state s.entry)) }
{
    match stop {
        RunStop::Exit(code, steps) => {
            let (output, object) = finish(alloc, before, code, s)?;
            Ok(Ending::Ended {
                code,
                output,
                object,
                steps,
            })
        }
        RunStop::Stuck => Ok(Ending::Stuck),
        RunStop::Unfinished => Ok(Ending::Unfinished),
    }
}

/// The ending of a run on that object, from a state.
fn run_from(
    alloc: Global,
    code: &[u8],
    before: Option<&Object>,
    mut s: FlatState,
    limit: usize,
) -> Result<Ending, NoMemory>
    requires beside { s.object.after ≡ option_copied before }
    ensures { IfOk result (λ e. ending_of e ≡
        run (caps_in s.entry) (layout_in s.entry) code.now (option_copied before.entry) limit (flat_state s.entry)) }
{
    let stop = run_on(alloc, code, &mut s, limit)?;
    ended(alloc, before, stop, s)
}

/// Runs a method's bytes on plain addresses, in at most `limit` steps. It is the definition of the
/// machine as a program, and slow. Refused: NoMemory.
pub fn flat_run(
    alloc: Global,
    machine: &Machine,
    code: &[u8],
    start: &RunStart<'_>,
    limit: usize,
) -> Result<Ending, NoMemory>
    requires short { length start.now.input.now ≤ machine.now.caps.in_cap }
    ensures { IfOk result (λ e. ending_of e ≡
        run machine.now.caps (layout_of machine.now.layout) code.now (option_copied start.now.object) limit
        (entry machine.now.caps (layout_of machine.now.layout)
        (option_copied start.now.object) start.now.caller start.now.input.now)) }
{
    let s = FlatState::entry(alloc, machine, start)?;
    run_from(alloc, code, start.object, s, limit)
}
