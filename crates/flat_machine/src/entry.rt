//! How a run of the flat machine begins.

ghost use Rattle.std.specs.Prelude.{◌≡◌, ◌≤◌, ◌-◌, ◌++◌, length, replicate, IfOk};
ghost use Rattle.std.specs.Option.{option_copied};
ghost use Rattle.bpf_machine.specs.State.{opening};
ghost use Rattle.bpf_machine.specs.Flat.{entry};
ghost use Rattle.flat_machine.specs.View.{layout_of};
ghost use Rattle.flat_machine.specs.StateView.{memory_of, flat_state};

use crate::machine::Machine;
use crate::regions::Regions;
use crate::state::FlatState;
use bpf_machine::STACK_SIZE;
use object_store::Object;
use std::alloc::{AllocError, Global};
use txn::Staged;

/// The start of a run: its object, its client and its input.
#[derive(Clone, Copy)]
pub struct RunStart<'a> {
    /// The object on which the method runs.
    pub object: Option<&'a Object>,
    /// The client for whom it runs.
    pub caller: u32,
    pub input: &'a [u8],
}

/// Zeros, `count` of them.
fn zeros(alloc: Global, count: usize) -> Result<Vec<u8>, AllocError>
    ensures items { IfOk result (λ v. v.items ≡ replicate count 0) }
    ensures long { IfOk result (λ v. length v.items ≡ count) }
{
    vec![in alloc; 0u8; count]
}

/// Bytes and then zeros, `len` in all.
fn padded_with_zeros(alloc: Global, bytes: &[u8], len: usize) -> Result<Vec<u8>, AllocError>
    requires { length bytes.now ≤ len }
    ensures items { IfOk result (λ v. v.items ≡ bytes.now ++ replicate (len - length bytes.now) 0) }
    ensures long { IfOk result (λ v. length v.items ≡ len) }
{
    let mut padded = Vec::from_slice(alloc, bytes)?;
    let rest = zeros(alloc, len - bytes.len())?;
    padded.extend_from_slice(&rest)?;
    Ok(padded)
}

/// The regions as a method begins.
fn opening(alloc: Global, machine: &Machine, input: &[u8]) -> Result<Regions, AllocError>
    requires short { length input.now ≤ machine.now.caps.in_cap }
    ensures memory { IfOk result (λ m. memory_of m ≡ opening machine.now.caps input.now) }
    ensures machine { IfOk result (λ m. m.machine ≡ machine.now) }
{
    let input = padded_with_zeros(alloc, input, usize::from(machine.caps.in_cap))?;
    let output = zeros(alloc, usize::from(machine.caps.out_cap))?;
    let stack = zeros(alloc, STACK_SIZE)?;
    Ok(Regions {
        machine: *machine,
        input,
        output,
        stack,
    })
}

impl<'a> FlatState<'a> {
    /// The state as a method begins. Refused: no memory for the regions.
    pub fn entry(
        alloc: Global,
        machine: &Machine,
        start: &RunStart<'a>,
    ) -> Result<FlatState<'a>, AllocError>
        requires short { length start.now.input.now ≤ machine.now.caps.in_cap }
        ensures entry { IfOk result (λ s. flat_state s ≡ entry machine.now.caps (layout_of machine.now.layout)
            (option_copied start.now.object) start.now.caller start.now.input.now) }
        ensures machine { IfOk result (λ s. s.memory.machine ≡ machine.now) }
    {
        let memory = opening(alloc, machine, start.input)?;
        Ok(FlatState {
            slot: 0,
            // Registers 1 to 3: the input's address and length, and the output's address. Register
            // 10: the end of the stack, which grows down. The others are unset.
            regs: [
                None,
                Some(machine.layout.input),
                Some(start.input.len() as u64),
                Some(machine.layout.output),
                None,
                None,
                None,
                None,
                None,
                None,
                Some(machine.layout.stack + STACK_SIZE as u64),
            ],
            memory,
            object: Staged::over(start.object),
            out_len: 0,
            caller: start.caller,
        })
    }
}
