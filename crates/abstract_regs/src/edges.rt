use abstract_num::Precision;
use bpf_decode::{Comparison, OpWidth, Operand, Register};

/// The edges that leave an instruction. The frame that flowed is the one along the first.
// The kinds along a comparison's second edge are as large as all the rest: they are written into a
// place that the caller lends, so that the edges of other instructions don't carry them.
#[derive(Clone, Copy)]
pub enum Edges {
    /// Nowhere.
    Leaves,
    /// To the instruction after it.
    Falls,
    /// To a jump's target.
    Jumps(usize),
    /// To a jump's target, or to the instruction after it; the lent place has the kinds of the
    /// operands along the latter.
    Branches(usize, Compared),
    /// The same of a comparison of linked registers. Along each edge `Frame::tell` follows: it may
    /// leave the edge dead.
    Forks(usize, Compared),
}

/// A conditional jump but for its operands, and how precisely numbers are kept.
#[derive(Clone, Copy)]
pub(crate) struct Branch {
    pub(crate) precision: Precision,
    pub(crate) bits: OpWidth,
    pub(crate) comparison: Comparison,
    pub(crate) target: usize,
}

/// The operands of a comparison.
#[derive(Clone, Copy)]
pub struct Compared {
    pub(crate) dst: Register,
    pub(crate) source: Operand,
}
