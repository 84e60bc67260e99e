ghost use Rattle.std.specs.Prelude.{◌≡◌, ◌&&◌, nat_le, option_map, slice_set};
ghost use Rattle.bpf_decode.specs.declared.operation.OpWidth.TheVariants.{Bits64};
ghost use Rattle.bpf_decode.specs.declared.operation.Arithmetic.TheVariants.{Sub};
ghost use Rattle.abstract_num.specs.Plain.{view};
ghost use Rattle.abstract_regs.specs.Kind as kind;
ghost use Rattle.abstract_regs.specs.Kind.{alu_kind};
ghost use Rattle.abstract_regs.specs.Frame.{with_kind, with_links};
ghost use Rattle.abstract_regs.specs.Link.{no_link};
ghost use Rattle.abstract_regs.specs.Edged.{if_live};
ghost use Rattle.abstract_regs.specs.Seen.{seen};
ghost use Rattle.loop_frames.specs.Pairs.{pointers, comparable, may_compare, pair_of};
ghost use Rattle.loop_frames.specs.Seen.{seen_pair};
ghost use Rattle.bpf_machine.specs.State.{size};
ghost use Rattle.loop_machine.specs.Typed.{is_equality, is_order};

use crate::below::is_same_region;
use abstract_num::{Number, Precision, arithmetic};
use abstract_regs::{Frame, Kind};
use bpf_decode::{Arithmetic, Comparison, Insn, OpWidth, Operand, Region, Register};
use bpf_machine::Caps;

/// Two pointers into one region, by their offsets. Contracts see it as a plain record, by `seen_pair`.
#[derive(Clone, Copy)]
pub struct PointerPair {
    pub region: Region,
    pub first: Number,
    pub second: Number,
}

/// The pair of pointers of an instruction that compares two in 64 bits, or takes one from the other, if its
/// registers are pointers into one region. For equality they may be anywhere, for an unsigned order surely
/// within the region or at its end. Any other instruction has none.
#[rattlefmt::skip]
pub fn pair_of(caps: &Caps, frame: &Frame, insn: &Insn) -> Option<PointerPair>
    ensures { option_map seen_pair result ≡ pair_of caps.now frame.now insn.now }
{
    match *insn {
        Insn::Alu { bits: OpWidth::Bits64, operation: Arithmetic::Sub, dst, source: Operand::Register(src) } => {
            pointers(frame.at(dst), frame.at(src))
        }
        Insn::Branch { bits: OpWidth::Bits64, comparison, dst, source: Operand::Register(src), .. } => {
            comparable(caps, comparison, pointers(frame.at(dst), frame.at(src)))
        }
        Insn::Alu { .. } | Insn::Branch { .. } => None,
        Insn::Neg { .. } | Insn::Mov { .. } | Insn::MovSigned { .. } | Insn::End { .. } | Insn::LoadWide { .. } => None,
        Insn::Load { .. } | Insn::LoadSigned { .. } | Insn::Store { .. } => None,
        Insn::Jump { .. } | Insn::JumpLong { .. } | Insn::Call { .. } | Insn::CallLocal { .. } | Insn::Exit => None,
    }
}

/// Two kinds that are pointers into one region.
fn pointers(x: Kind, y: Kind) -> Option<PointerPair>
    ensures { option_map seen_pair result ≡ pointers (seen x) (seen y) }
{
    match (x, y) {
        (Kind::Ptr(region, first), Kind::Ptr(other, second)) => {
            if is_same_region(region, other) {
                Some(PointerPair {
                    region,
                    first,
                    second,
                })
            } else {
                None
            }
        }
        (Kind::Unset | Kind::Num(_), _) => None,
        (Kind::Ptr(_, _), Kind::Unset | Kind::Num(_)) => None,
    }
}

/// A pair that may be compared.
fn comparable(caps: &Caps, comparison: Comparison, pair: Option<PointerPair>) -> Option<PointerPair>
    ensures { option_map seen_pair result ≡ comparable caps.now comparison (option_map seen_pair pair) }
{
    match pair {
        None => None,
        Some(pair) => {
            if may_compare(caps, comparison, &pair) {
                Some(pair)
            } else {
                None
            }
        }
    }
}

fn may_compare(caps: &Caps, comparison: Comparison, pair: &PointerPair) -> bool
    ensures { result ≡ may_compare caps.now comparison (seen_pair pair.now) }
{
    is_equality(comparison) || (is_order(comparison) && is_within(caps, pair))
}

/// True if both offsets are surely at most the region's length.
fn is_within(caps: &Caps, pair: &PointerPair) -> bool
    ensures { result ≡ (nat_le (seen_pair pair.now).first.high (size caps.now pair.now.region) &&
        nat_le (seen_pair pair.now).second.high (size caps.now pair.now.region)) }
{
    let size = caps.size(pair.region) as u64;
    pair.first.unsigned().high <= size && pair.second.unsigned().high <= size
}

/// True of a test for equality.
#[rattlefmt::skip]
fn is_equality(comparison: Comparison) -> bool
    ensures { result ≡ is_equality comparison }
{
    match comparison {
        Comparison::Equal | Comparison::NotEqual => true,
        Comparison::Greater | Comparison::GreaterEqual | Comparison::Less | Comparison::LessEqual => false,
        Comparison::SignedGreater | Comparison::SignedGreaterEqual | Comparison::SignedLess => false,
        Comparison::SignedLessEqual | Comparison::SharesBits => false,
    }
}

/// True of an unsigned order.
#[rattlefmt::skip]
fn is_order(comparison: Comparison) -> bool
    ensures { result ≡ is_order comparison }
{
    match comparison {
        Comparison::Greater | Comparison::GreaterEqual | Comparison::Less | Comparison::LessEqual => true,
        Comparison::Equal | Comparison::NotEqual | Comparison::SharesBits => false,
        Comparison::SignedGreater | Comparison::SignedGreaterEqual | Comparison::SignedLess => false,
        Comparison::SignedLessEqual => false,
    }
}

/// Turns the frame before `sub dst, src` of such a pair into the one after it: `dst` is the difference of the
/// offsets, without a link. False if no value is left; the frame is then as it was.
pub fn subtract(precision: Precision, dst: Register, pair: &PointerPair, frame: &mut Frame) -> bool
    ensures { if_live result frame.new ≡
        option_map (with_kind (with_links frame.old (slice_set frame.old.links dst no_link)) dst)
        (alu_kind precision Bits64 Sub (kind.Num (view pair.now.first)) (kind.Num (view pair.now.second))) }
{
    match arithmetic(
        precision,
        OpWidth::Bits64,
        Arithmetic::Sub,
        pair.first,
        pair.second,
    ) {
        None => false,
        Some(difference) => {
            frame.free(dst);
            frame.set(dst, Kind::Num(difference));
            true
        }
    }
}
