//! A method's capacities, heads and code, lent together.

use bpf_decode::Insn;
use bpf_machine::Caps;
use loop_heads::Head;

/// What a pass reads of a method: its capacities, its heads, and the instruction that begins at each
/// slot, if one does.
#[derive(Clone, Copy)]
pub struct LoopCode<'a> {
    pub caps: &'a Caps,
    pub heads: &'a [Head],
    pub code: &'a [Option<Insn>],
}
