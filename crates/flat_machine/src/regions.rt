ghost use Rattle.std.specs.Prelude.{◌≡◌, length};
ghost use Rattle.bpf_machine.specs.declared.limits.TheConstants.{STACK_SIZE};

use crate::machine::Machine;

/// The regions' bytes, as long as the method of that machine declares.
#[derive(Drop)]
pub struct Regions {
    pub machine: Machine,
    pub input: Vec<u8>,
    pub output: Vec<u8>,
    pub stack: Vec<u8>,
    ghost input_length: { length input.items ≡ machine.caps.in_cap },
    ghost output_length: { length output.items ≡ machine.caps.out_cap },
    ghost stack_length: { length stack.items ≡ STACK_SIZE },
}
