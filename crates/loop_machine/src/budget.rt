//! What an instruction takes of a budget.

ghost use Rattle.std.specs.Prelude.{◌≡◌};
ghost use Rattle.loop_machine.specs.Typed.{weight_of};

use bpf_decode::Insn;

/// What a call of a helper takes: a run makes at most a 64th of its budget of them.
pub const CALL_WEIGHT: u32 = 64;

/// What an instruction takes of the budget: a helper's call `CALL_WEIGHT`, any other 1.
pub fn weight(insn: &Insn) -> u32
    ensures { result ≡ weight_of insn.now }
{
    match insn {
        Insn::Call { .. } => CALL_WEIGHT,
        _ => 1,
    }
}
