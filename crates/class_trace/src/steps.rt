//! The records of a run.

ghost use Rattle.std.specs.Prelude.{◌≡◌, ◌≤◌, ◌++◌, ◌∷◌, [], ℕ, IfOk, OnOk, length};
ghost use Rattle.std.specs.Option.{option_copied};
ghost use Rattle.bpf_decode.specs.Instruction.{spelling};
ghost use Rattle.bpf_machine.specs.State.{Outcome, Ended};
ghost use Rattle.bpf_machine.specs.Flat.{run};
ghost use Rattle.flat_machine.specs.StateView.{caps_in, flat_state, layout_in};
ghost use Rattle.class_trace.specs.Trace.{AreRecords, Ends, IsTraceOf, records};

use crate::changes::{begun, push_changes};
use crate::layouts::{first_machine, other_machine};
use crate::paired::Paired;
use bpf_decode::{Insn, Method, encode};
use bpf_machine::{Caps, chains};
use flat_machine::{FlatState, RunStart, Stepped};
use std::alloc::Global;
use txn::NoMemory;

/// A record of an executed instruction.
#[derive(Drop)]
pub struct TraceLine {
    /// Its slot.
    pub slot: u64,
    /// The registers after it, in the first layout; `None` if unset.
    pub regs: [Option<u64>; 11],
    /// What is told of it, without the end of the line.
    pub text: String,
}

/// What is run, and the lines of its slots in its class's text, if there is one.
#[derive(Clone, Copy)]
struct Subject<'a> {
    insns: &'a [Insn],
    code: &'a [u8],
    lines: &'a [usize],
}

/// The bytes of instructions.
fn code_of(alloc: Global, insns: &[Insn]) -> Result<Vec<u8>, NoMemory>
    ensures { IfOk result (λ code. code.items ≡ spelling insns.now) }
{
    match encode(alloc, insns) {
        Ok(code) => Ok(code),
        Err(_) => Err(NoMemory),
    }
}

/// Adds the record of a step that was made.
fn add_record(
    lines: &mut Vec<TraceLine>,
    slot: u64,
    state: &FlatState<'_>,
    text: String,
) -> Result<(), NoMemory>
    ensures { OnOk result (records lines.new.items ≡
        records lines.old.items ++ record { slot = slot; regs = state.now.regs } ∷ []) }
{
    let line = TraceLine {
        slot,
        regs: state.regs,
        text,
    };
    match lines.push(line) {
        Ok(()) => Ok(()),
        Err(_) => Err(NoMemory),
    }
}

/// Makes the steps of a run that ends, and records them.
fn follow<'a>(
    alloc: Global,
    subject: &Subject<'_>,
    state: &mut FlatState<'a>,
    other: &mut FlatState<'a>,
) -> Result<Vec<TraceLine>, NoMemory>
    requires { (outcome : Outcome) × (steps : ℕ) ×
        (run (caps_in state.old) (layout_in state.old) subject.now.code.now (flat_state state.old).object
        (length subject.now.insns.now) (flat_state state.old) ≡ Ended outcome steps) }
    ensures { IfOk result (λ lines. AreRecords (caps_in state.old) (layout_in state.old) subject.now.code.now
        (length subject.now.insns.now) (flat_state state.old) (records lines.items)) }
{
    let mut lines = Vec::new(alloc);
    for n in 0..subject.insns.len() {
        let slot = state.slot;
        let mut told = begun(
            alloc,
            subject.insns,
            subject.lines,
            Paired::of(state, other),
        )?;
        match state.step(alloc, subject.code)? {
            Stepped::Next => {
                other.step(alloc, subject.code)?;
                push_changes(&mut told, subject.insns, Paired::of(state, other))?;
                add_record(&mut lines, slot, state, told.text)?;
            }
            Stepped::Exit(_) => {
                add_record(&mut lines, slot, state, told.text)?;
                return Ok(lines);
            }
            Stepped::Stuck => unreachable!(),
        }
    }
    unreachable!()
}

/// The records of a call's run, in order, up to its exit. The call is one that ends, on an input
/// that the method takes; `lines` has the line of each slot in the class's text, or nothing.
/// Refused: NoMemory.
pub fn trace(
    alloc: Global,
    method: &Method,
    start: &RunStart<'_>,
    lines: &[usize],
) -> Result<Vec<TraceLine>, NoMemory>
    requires short { length start.now.input.now ≤ method.now.in_cap }
    requires ends { Ends method.now (option_copied start.now.object) start.now.caller start.now.input.now }
    ensures { IfOk result (λ lines. IsTraceOf method.now
        (option_copied start.now.object) start.now.caller start.now.input.now (records lines.items)) }
{
    // For the proof: a run ends where its chain of steps does. It does nothing.
    chains();
    let insns = method.instructions();
    let code = code_of(alloc, insns)?;
    let subject = Subject {
        insns,
        code: &code,
        lines,
    };
    let caps = Caps::of(method);
    let mut state = FlatState::entry(alloc, &first_machine(caps), start)?;
    let mut other = FlatState::entry(alloc, &other_machine(caps), start)?;
    follow(alloc, &subject, &mut state, &mut other)
}
