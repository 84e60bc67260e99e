ghost use Rattle.std.specs.Prelude.{◌≡◌, ◌==◌, option_map};
ghost use Rattle.bpf_decode.specs.declared.operation.OpWidth.TheVariants.{Bits64};
ghost use Rattle.abstract_num.specs.Plain.{view};
ghost use Rattle.abstract_regs.specs.Kind.{along_kinds};
ghost use Rattle.abstract_regs.specs.Kind as kind;
ghost use Rattle.abstract_regs.specs.Edged.{if_live};
ghost use Rattle.loop_frames.specs.Pairs.{pair_edge};
ghost use Rattle.loop_frames.specs.Seen.{seen_pair, nums_of};

use crate::pointer_pair::PointerPair;
use abstract_num::{Number, Precision, refine, tighten};
use abstract_regs::{Frame, Kind};
use bpf_decode::{Comparison, OpWidth, Register};

/// A comparison of two pointers into one region, in 64 bits: its registers, and their pair.
#[derive(Clone, Copy)]
pub struct PairCompared {
    pub precision: Precision,
    pub comparison: Comparison,
    pub dst: Register,
    pub src: Register,
    pub pair: PointerPair,
}

/// Turns the frame before such a comparison into the one along the edge on which it holds (`taken`) or
/// doesn't: the offsets are refined as numbers, and nothing is told. False if no value is left; the frame is
/// then as it was.
pub fn refine_pair(compared: &PairCompared, taken: bool, frame: &mut Frame) -> bool
    ensures { if_live result frame.new ≡ pair_edge compared.now.precision compared.now.comparison taken
        compared.now.dst compared.now.src frame.old (seen_pair compared.now.pair) }
{
    let region = compared.pair.region;
    match offsets(compared, taken) {
        None => false,
        Some((first, second)) => {
            frame.set(compared.dst, Kind::Ptr(region, first));
            frame.set(compared.src, Kind::Ptr(region, second));
            true
        }
    }
}

/// What is left of both offsets along an edge; one register that is compared with itself is told nothing.
fn offsets(compared: &PairCompared, taken: bool) -> Option<(Number, Number)>
    ensures { option_map nums_of result ≡
        along_kinds compared.now.precision Bits64 compared.now.comparison taken
        (compared.now.dst == compared.now.src)
        (kind.Num (view compared.now.pair.first)) (kind.Num (view compared.now.pair.second)) }
{
    let PairCompared {
        precision,
        comparison,
        dst,
        src,
        pair,
    } = *compared;
    if dst.number() == src.number() {
        match tighten(precision, pair.first) {
            None => None,
            Some(n) => Some((n, n)),
        }
    } else {
        refine(
            precision,
            OpWidth::Bits64,
            comparison,
            taken,
            pair.first,
            pair.second,
        )
    }
}
