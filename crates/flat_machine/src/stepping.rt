//! One step of the flat machine, and what can be read of its state.

ghost use Rattle.std.specs.Prelude.{◌≡◌, IfOk};
ghost use Rattle.bpf_machine.specs.State.{reg, cells};
ghost use Rattle.bpf_machine.specs.Flat.{step, exit_code};
ghost use Rattle.flat_machine.specs.StateView.{byte_at, caps_in, layout_in, flat_state, Steps};

use crate::memory::{find, region_bytes};
use crate::rows::{exit_code, step};
use crate::state::{FlatState, get};
use bpf_decode::Region;
use std::alloc::Global;
use txn::NoMemory;

/// What came of a state by a step.
#[derive(Clone, Copy, PartialEq, Eq)]
pub enum Stepped {
    /// It is the next state.
    Next,
    /// It stays at an exit, which has no step: register 0, the code, to be read as a signed number.
    Exit(u64),
    /// It is at no exit, and there is no step.
    Stuck,
}

impl<'a> FlatState<'a> {
    /// One step of a method's bytes, by the definition. Refused: NoMemory. Then, and where there is
    /// no step, the state is of no more use.
    pub fn step(&mut self, alloc: Global, code: &[u8]) -> Result<Stepped, NoMemory>
        ensures steps { IfOk result (λ stepped.
            Steps stepped (exit_code code.now (flat_state self.old)) (step (caps_in self.old)
            (layout_in self.old) code.now (flat_state self.old)) (flat_state self.old) (flat_state self.new)) }
        ensures machine { self.new.memory.machine ≡ self.old.memory.machine }
    {
        match exit_code(code, self) {
            Some(code) => Ok(Stepped::Exit(code)),
            None => match step(alloc, code, self)? {
                Some(()) => Ok(Stepped::Next),
                None => Ok(Stepped::Stuck),
            },
        }
    }

    /// The number in a register, from 0 to 10; none if it is unset.
    pub fn register(&self, register: u8) -> Option<u64>
        ensures { result ≡ reg (flat_state self.now) register }
    {
        get(self, register)
    }

    /// The byte at an address, if that is in a region.
    pub fn byte(&self, at: u64) -> Option<u8>
        ensures { result ≡ byte_at (caps_in self.now) (layout_in self.now) (flat_state self.now) at }
    {
        let (region, place) = find(&self.memory.machine, at, 1)?;
        region_bytes(&self.memory, region).get(place).copied()
    }

    /// A region's bytes.
    pub fn region(&self, region: Region) -> &[u8]
        ensures { result.now ≡ cells (flat_state self.now).memory region }
    {
        region_bytes(&self.memory, region)
    }
}
