//! What the flat machine has between two steps, and its registers.

ghost use Rattle.std.specs.Prelude.{◌≡◌, ◌<◌};
ghost use Rattle.bpf_machine.specs.State.{reg, set_reg};
ghost use Rattle.bpf_machine.specs.Helper.{answered};
ghost use Rattle.flat_machine.specs.StateView.{flat_state};
ghost use Rattle.flat_machine.specs.inner.FlatState.{GivesState};

use crate::regions::Regions;
use txn::Staged;

/// A state of the flat machine. Registers hold plain numbers: an address isn't told from another
/// number.
#[derive(Drop)]
pub struct FlatState<'a> {
    /// The slot of the next instruction.
    pub slot: u64,
    pub regs: [Option<u64>; 11],
    pub memory: Regions,
    /// The object as the run has it so far.
    pub object: Staged<'a>,
    /// The number of bytes of the output region that are output.
    pub out_len: usize,
    /// The client for whom the method runs.
    pub caller: u32,
}

/// A register's value, if it is set.
pub fn get(s: &FlatState, register: u8) -> Option<u64>
    ensures { result ≡ reg (flat_state s.now) register }
{
    match s.regs.get(usize::from(register)) {
        None => None,
        Some(value) => *value,
    }
}

/// A write of a register; none of register 10.
pub fn set(s: &mut FlatState, register: u8, value: u64) -> Option<()>
    ensures set { GivesState result (flat_state s.new) (set_reg (flat_state s.old) register value) }
    ensures slot { s.new.slot ≡ s.old.slot }
    ensures memory { s.new.memory ≡ s.old.memory }
{
    // Register 10 is the frame pointer, which is read-only.
    if register < 10 {
        s.regs[usize::from(register)] = Some(value);
        Some(())
    } else {
        None
    }
}

/// The registers after a helper: its answer in register 0, registers 1 to 5 unset, the others kept.
pub fn answer(regs: [Option<u64>; 11], value: u64) -> [Option<u64>; 11]
    ensures { result ≡ answered regs value }
{
    [
        Some(value),
        None,
        None,
        None,
        None,
        None,
        regs[6],
        regs[7],
        regs[8],
        regs[9],
        regs[10],
    ]
}
